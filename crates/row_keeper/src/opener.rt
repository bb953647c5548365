//! What opens a keeper by its name.
ghost use Rattle.std.specs.Prelude.{◌≡◌, ◌≤◌, ◌+◌, ◌-◌, ◌^◌, ℕ, Bool, List, Option, Some, min, IfOk, IfSome, OnErr, IsErrOf};
ghost use Rattle.io_edge.specs.Edge.{Rose, StillTells};
ghost use Rattle.io_edge.specs.Asked.{IsAsked};
ghost use Rattle.net_rows.specs.declared.rows.Rows.{Rows};
ghost use Rattle.row_keeper.specs.Crashes.{LeavesNoMore};

use crate::keeper::Keeper;
use io_edge::EdgeFault;
use std::alloc::Global;

/// Opens keepers by their names, as the path of a database, and closes them.
pub trait Opener {
    type Keeper: Keeper + Send;

    /// The rows that its keeper keeps, where they are told.
    ghost told: { Self → Option Rows };

    /// Whether what it keeps in has returned all that was written, as far as it could see.
    ghost is_clean: { Self → Bool };

    /// What an open after a crash at this moment may find, as for a keeper.
    ghost may_leave: { Self → Option Rows → Type 0 };

    /// The names that it was asked for, in order, where they are told.
    ghost asked: { Self → Option (List (List ℕ)) };

    /// How often a call has failed, here and at keepers that were closed.
    ghost faults: { Self → ℕ };

    /// A keeper of these rows that was not called yet. While it is open, nothing is said of what the
    /// opener tells to be kept.
    fn open(&mut self, alloc: Global, name: &str) -> Result<Self::Keeper, EdgeFault>
        ensures gives { IfOk result
            (λ keeper. IfSome (told self.old) (λ rows. Self.Keeper.told keeper ≡ Some rows)) }
        ensures fresh { IfOk result (λ keeper. Self.Keeper.faults keeper ≡ 0) }
        ensures uncalled { IfOk result (λ keeper. Self.Keeper.calls keeper ≡ 0) }
        ensures asked { IsAsked result name.now (asked self.old) (asked self.new) }
        ensures crash { IfOk result (λ keeper. IfSome (told self.old) (λ _. LeavesNoMore
            (is_clean self.old) (may_leave self.old)
            (Self.Keeper.is_clean keeper) (Self.Keeper.may_leave keeper))) }
        ensures same { OnErr result (StillTells (told self.old) (told self.new)) }
        ensures still { OnErr result (IfSome (told self.old) (λ _. LeavesNoMore
            (is_clean self.old) (may_leave self.old) (is_clean self.new) (may_leave self.new))) }
        ensures later { faults self.old ≤ faults self.new }
        ensures cause { IsErrOf result EdgeFault.Failed
            → Rose (faults self.old) (faults self.new) };

    /// Takes a keeper back, with its faults and with what it keeps.
    fn close(&mut self, keeper: Self::Keeper)
        ensures told { StillTells (Self.Keeper.told keeper) (told self.new) }
        ensures crash { IfSome (Self.Keeper.told keeper) (λ _. LeavesNoMore
            (Self.Keeper.is_clean keeper) (Self.Keeper.may_leave keeper)
            (is_clean self.new) (may_leave self.new)) }
        ensures asked { asked self.new ≡ asked self.old }
        ensures faults { faults self.new
            ≡ min (faults self.old + Self.Keeper.faults keeper) (2 ^ 64 - 1) };
}
