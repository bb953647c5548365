//! Live machines.
ghost use Rattle.std.specs.Prelude.{◌≡◌};

use crate::near::Spot;
use net_rows::Machine;
use policy_sites::Site;
use std::marker::Model;

/// A live machine: its row, what policies see of it, and whether it is online.
#[derive(Drop)]
pub struct LiveMachine<'a> {
    pub row: &'a Machine,
    pub site: &'a Site,
    pub online: bool,
    /// At which place the site is looked for first.
    pub(crate) place: usize,
}

impl<'a> Model for LiveMachine<'a> {
    ghost use Rattle.peer_view.specs.Seen.{Node};

    ghost Value = { Node };

    ghost view = { λ a. record { row = a.row.now; site = a.site.now; online = a.online } };
}

impl<'a> LiveMachine<'a> {
    /// The same machine.
    pub(crate) fn again(&self) -> LiveMachine<'a>
        ensures value { result ≡ self.now }
    {
        LiveMachine {
            row: self.row,
            site: self.site,
            online: self.online,
            place: self.place,
        }
    }

    /// Its id, and where its site is looked for.
    pub(crate) fn spot(&self) -> Spot
        ensures id { result.id ≡ self.now.row.id }
    {
        Spot {
            id: self.row.id,
            place: self.place,
        }
    }
}
