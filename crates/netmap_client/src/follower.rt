//! A client that follows its session.
ghost use Rattle.std.specs.Prelude.{◌≡◌, ◌+◌, ◌==◌, IfOk, OnErr, unwrap_or};
ghost use Rattle.std.specs.Option.{option_or, option_map};
ghost use Rattle.tail_base.specs.Steps.{Gives};
ghost use Rattle.map_delta.specs.Fold as folds;
ghost use Rattle.netmap_client.specs.Follows.{begins_session, follow, follows, untold};

use fresh_maps::View;
use map_delta::fold;
use std::alloc::Global;
use tail_base::{Duplicate, Failure, NoMemory, Text};
use tailcfg::Response;

/// A number that doesn't follow.
#[derive(Clone, Copy, Debug, PartialEq, Eq, Drop)]
pub struct OutOfOrder {
    /// The last number that was taken; 0 before the first.
    pub had: u64,
    pub got: u64,
}

/// What a client knows: the map after the responses that it took, and where its session stands.
#[derive(Drop)]
pub struct Follower {
    view: Option<View>,
    handle: Option<Text>,
    seq: u64,
}

/// Whether a response begins a session: it has a node and a handle.
fn begins_session(response: &Response) -> bool
    ensures value { result ≡ begins_session response.now }
{
    response.node.is_some() && response.handle.is_some()
}

/// Whether a number is one more than the last.
fn is_next(had: u64, seq: u64) -> bool
    ensures value { result ≡ (seq == had + 1) }
{
    0 < seq && seq - 1 == had
}

/// Whether a response's number follows the last one, or begins a session.
fn follows(had: u64, response: &Response) -> bool
    ensures value { result ≡ follows had response.now response.now.seq }
{
    match response.seq {
        Some(seq) => (seq == 1 && begins_session(response)) || is_next(had, seq),
        None => true,
    }
}

/// The map after one more response.
fn view_after(
    alloc: Global,
    view: &Option<View>,
    response: &Response,
) -> Result<Option<View>, NoMemory>
    ensures value { IfOk result (λ after. after ≡ folds.fold view.now response.now) }
{
    let were = view.copy(alloc)?;
    fold(alloc, were, response)
}

/// The handle that was given last.
fn handle_after(
    alloc: Global,
    handle: &Option<Text>,
    response: &Response,
) -> Result<Option<Text>, NoMemory>
    ensures value { IfOk result (λ h. h ≡ option_or response.now.handle handle.now) }
{
    match &response.handle {
        Some(given) => Ok(Some(given.copy(alloc)?)),
        None => handle.copy(alloc),
    }
}

impl Follower {
    /// A client that was told nothing yet.
    pub fn new() -> Self
        ensures value { result ≡ untold }
    {
        Follower {
            view: None,
            handle: None,
            seq: 0,
        }
    }

    /// Takes a response: the map is folded, and a handle that it gives is kept. It is refused where it
    /// has a number that is neither 1, with a node and a handle, nor one more than the last. A refusal
    /// changes nothing, nor does memory that is refused.
    pub fn take(&mut self, alloc: Global, response: &Response) -> Result<(), Failure<OutOfOrder>>
        ensures value { Gives (λ _. self.new) result (follow self.old response.now) }
        ensures err { OnErr result (self.new ≡ self.old) }
    {
        let had = self.seq;
        if !follows(had, response) {
            let got = response.seq.unwrap_or(0);
            return Err(Failure::Fault(OutOfOrder { had, got }));
        }
        let view = view_after(alloc, &self.view, response)?;
        let handle = handle_after(alloc, &self.handle, response)?;
        self.view = view;
        self.handle = handle;
        self.seq = response.seq.unwrap_or(had);
        Ok(())
    }

    /// The map after the responses that were taken; None until one had a node.
    pub fn view(&self) -> Option<&View>
        ensures value { option_map (λ v. v.now) result ≡ self.now.view }
    {
        self.view.as_ref()
    }

    /// The handle that was given last, also by a greeting.
    pub fn handle(&self) -> Option<&Text>
        ensures value { option_map (λ h. h.now) result ≡ self.now.handle }
    {
        self.handle.as_ref()
    }

    /// The number that was taken last; 0 before the first.
    pub fn seq(&self) -> u64
        ensures value { result ≡ self.now.seq }
    {
        self.seq
    }
}
