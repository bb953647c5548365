//! The front: requests in, answers out.
ghost use Rattle.std.specs.Prelude.{◌≡◌, IfOk};
ghost use Rattle.desk_front.specs.Replies.{reply_bytes};
ghost use Rattle.desk_front.specs.Wanted as spec;
ghost use Rattle.desk_front.specs.Wants.{IsSound};

use crate::action::{Action, OperatorAction, action_of};
use crate::admin::{admin_wants, is_authorized};
use crate::faults::fault_answer;
use crate::front_settings::FrontSettings;
use crate::machine::{header_key, machine_wants};
use crate::replies::reply_answer;
use crate::want::Wanted;
use fresh_maps::NodeTexts;
use http::StatusCode;
use http_front::Request;
use path_routes::{Found, Paths, owner_in};
use server_settings::ServerSettings;
use std::alloc::Global;
use std::marker::Model;
use tail_base::{Duplicate, NoMemory};
use tailnet_desk::{Ask, Reply};

/// The table of paths, and what answers depend on beside the desk. Contracts see the latter.
#[derive(Drop)]
pub struct Front {
    paths: Paths,
    settings: FrontSettings,
}

impl Model for Front {
    ghost use Rattle.desk_front.specs.declared.front_settings.FrontSettings.{FrontSettings};

    ghost Value = { FrontSettings };

    ghost view = { λ a. a.settings };
}

impl Front {
    /// The front of a server under these settings.
    pub fn new(alloc: Global, settings: &ServerSettings) -> Result<Front, NoMemory>
        ensures value { IfOk result (λ front. front ≡ spec.front_settings settings.now) }
    {
        let fields = settings.fields();
        Ok(Front {
            paths: Paths::new(alloc)?,
            settings: FrontSettings {
                token: fields.token.copy(alloc)?,
                server_url: fields.server_url.copy(alloc)?,
            },
        })
    }

    /// What an operator wants who has to give the token.
    fn operator_wants(
        &self,
        alloc: Global,
        request: &Request,
        found: Found,
        action: OperatorAction,
    ) -> Result<Wanted, NoMemory>
        ensures value { IfOk result (λ w.
            w ≡ spec.operator_wants self.now request.now found action) }
        ensures sound { IfOk result IsSound }
    {
        if !is_authorized(&self.settings.token, &request.token) {
            return fault_answer(alloc, StatusCode::UNAUTHORIZED, "BadToken");
        }
        let owner = owner_in(request.path.as_slice(), found);
        admin_wants(alloc, action, found.id, owner, request.body.as_slice())
    }

    fn caller_wants(
        &self,
        alloc: Global,
        request: &Request,
        found: Found,
        action: Action,
    ) -> Result<Wanted, NoMemory>
        ensures value { IfOk result (λ w.
            w ≡ spec.caller_wants self.now request.now found action) }
        ensures sound { IfOk result IsSound }
    {
        match action {
            Action::Machine(action) => {
                let key = header_key(&request.machine);
                machine_wants(alloc, action, key, request.body.as_slice())
            }
            Action::Operator(action) => self.operator_wants(alloc, request, found, action),
        }
    }

    /// What a request wants of the desk, or its fixed answer.
    ///
    /// The path comes first: one that isn't in the table is 404 `NoPath`. Then the method: another
    /// one than the path's is 405 `BadMethod`. Then who asks: at a path of machines the key in the
    /// first `Ts-Machine-Key` line, whose fault is 400; at a path of operators the token, without
    /// which the answer is 401 `BadToken`. Then the body, whose first fault is 400.
    #[tactic(auto, unfolding(crate::specs::Wanted::wanted_of))]
    pub fn wanted(&self, alloc: Global, request: &Request) -> Result<Wanted, NoMemory>
        ensures value { IfOk result (λ w. w ≡ spec.wanted_of self.now request.now) }
        // An ask is within the limits of rows.
        ensures sound { IfOk result IsSound }
    {
        let Some(found) = self.paths.found(request.path.as_slice()) else {
            return fault_answer(alloc, StatusCode::NOT_FOUND, "NoPath");
        };
        match action_of(found.route, &request.method) {
            Some(action) => self.caller_wants(alloc, request, found, action),
            None => fault_answer(alloc, StatusCode::METHOD_NOT_ALLOWED, "BadMethod"),
        }
    }

    /// The bytes of the answer to a reply to an ask; `close` says whether the connection ends after
    /// it. Texts of nodes that are kept are copied into a map.
    pub fn answer(
        &self,
        alloc: Global,
        texts: &mut NodeTexts,
        ask: &Ask,
        reply: &Reply,
        close: bool,
    ) -> Result<Vec<u8>, NoMemory>
        ensures value { IfOk result (λ made.
            made.items ≡ reply_bytes self.now ask.now reply.now close) }
    {
        reply_answer(alloc, texts, &self.settings, ask, reply, close)
    }
}
