//! What is known of the live machines of a tailnet.
ghost use Rattle.std.specs.Prelude.{◌≡◌, Contains};
ghost use Rattle.std.specs.Option.{option_copied};
ghost use Rattle.policy_eval.specs.Expansion.{expansion_of};
ghost use Rattle.peer_view.specs.Seen.{IsSoundSeen, expansion_seen, node_with, seen_of, sites_seen};

use crate::by_id::{machine_near, site_place, site_with};
use crate::machine::LiveMachine;
use crate::near::{Near, is_listed_near, next_place};
use net_rows::{Tables, User};
use policy_eval::Expanded;
use policy_rows::Policy;
use policy_sites::{IdList, Site};
use settings::{Settings, SettingsFields};
use std::marker::Model;
use tailcfg::DnsExtra;

/// Settings, tables, the policy in force with its expansion over the live machines, the ids of these,
/// and the ids of those that are online. Contracts see all that maps depend on.
#[derive(Drop)]
pub struct World<'a> {
    pub(crate) settings: &'a Settings,
    pub(crate) tables: &'a Tables,
    pub(crate) policy: Option<&'a Policy>,
    pub(crate) expanded: &'a Expanded,
    pub(crate) live: &'a [u32],
    pub(crate) online: IdList<'a>,
}

impl<'a> Model for World<'a> {
    ghost use Rattle.std.specs.Option.{option_copied};
    ghost use Rattle.peer_view.specs.Seen.{Seen, seen_of};
    ghost use Rattle.peer_view.specs.Worlds.{IsWorld};

    ghost Value = { Seen };

    ghost view = { λ w. seen_of w.settings.now (option_copied w.policy) w.tables.now.rows
        w.live.now w.online };

    ghost invariant = { λ w. IsWorld w.expanded.now (option_copied w.policy) w.tables.now.rows
        w.live.now };
}

impl<'a> World<'a> {
    /// The world of these parts, whose expansion is that of the policy over the live machines.
    pub fn new(
        settings: &'a Settings,
        tables: &'a Tables,
        policy: Option<&'a Policy>,
        expanded: &'a Expanded,
        live: &'a [u32],
        online: &'a [u32],
    ) -> World<'a>
        requires fits { expanded.now
            ≡ expansion_of (option_copied policy) tables.now.rows live.now }
        ensures value { result ≡ seen_of settings.now (option_copied policy.entry) tables.now.rows
            live.now online.now }
    {
        // A read of the tables tells that they keep their rules.
        let _ = tables.machines();
        World {
            settings,
            tables,
            policy,
            expanded,
            live,
            online: IdList::of(online),
        }
    }

    /// The settings.
    pub fn fields(&self) -> &SettingsFields
        ensures value { result.now ≡ self.now.settings }
    {
        self.settings.fields()
    }

    /// The users by id. What is seen of the tables keeps their rules.
    pub fn users(&self) -> &[User]
        ensures value { result.now ≡ self.now.users }
        ensures sound { IsSoundSeen self.now }
    {
        self.tables.users()
    }

    /// The extra DNS records.
    pub fn extras(&self) -> &[DnsExtra]
        ensures value { result.now ≡ self.now.extras }
    {
        self.tables.extras()
    }

    /// The policy, expanded over the live machines.
    pub fn expanded(&self) -> &Expanded
        ensures value { result.now ≡ expansion_seen self.now }
    {
        self.expanded
    }

    /// The live machine of a site. Its parts are looked for where they are expected to be, and then those
    /// of the next site's machine behind them.
    pub fn machine_at<'b>(&'b self, near: &mut Near, site: &'b Site) -> Option<LiveMachine<'b>>
        requires among { Contains (sites_seen self.now) site.now }
        ensures value { result ≡ node_with self.now site.now.id }
    {
        match machine_near(self.tables, &mut near.row, site.id) {
            None => None,
            Some(row) => Some(LiveMachine {
                row,
                site,
                online: is_listed_near(&self.online, &mut near.online, site.id),
                place: next_place(&mut near.site),
            }),
        }
    }

    /// The live machine of an id.
    pub fn machine(&self, id: u32) -> Option<LiveMachine<'_>>
        ensures value { result ≡ node_with self.now id }
    {
        let sites = self.expanded.sites();
        let place = site_place(sites, id);
        match site_with(sites, place, id) {
            None => None,
            Some(site) => self.machine_at(&mut Near::at(place), site),
        }
    }
}
