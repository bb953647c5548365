//! Where tables are kept.
ghost use Rattle.std.specs.Prelude.{◌≡◌, ◌≤◌, ◌⊎◌, ℕ, Bool, Option, Some, None, IfOk, IfErr, IfSome, IsTrue, OnOk, OnErr, IsErrOf};
ghost use Rattle.std.specs.Option.{option_map};
ghost use Rattle.io_edge.specs.Edge.{Rose, IsWhereTold, StillTells};
ghost use Rattle.net_rows.specs.declared.rows.Rows.{Rows};
ghost use Rattle.net_rows.specs.Rows.{after};
ghost use Rattle.net_rows.specs.Damage.{damage};
ghost use Rattle.net_rows.specs.declared.change.Kind.{Kind};
ghost use Rattle.row_keeper.specs.Calls.{one_more};

use io_edge::EdgeFault;
use net_rows::{Change, Kind, Tables};
use std::alloc::Global;

/// Why the tables weren't loaded.
#[derive(Clone, Copy, Debug, PartialEq, Eq, Drop)]
pub enum LoadFault {
    /// The keeper failed at this call.
    Failed,
    /// What is kept breaks a rule of the tables: the kind of the row, and its id, which is 0 where the
    /// kind has no ids.
    Damaged { kind: Kind, id: u32 },
    /// Out of memory.
    NoMemory,
}

/// Where tables are kept.
pub trait Keeper: Drop {
    /// The rows that it keeps, if they are visible to the specification. One over a database may stop
    /// showing them, as where a disk lied.
    ghost told: { Self → Option Rows };

    /// Whether what it keeps in has returned all that was written, as far as it could see.
    ghost is_clean: { Self → Bool };

    /// What an open after a crash at this moment may find: the rows, or None where no rows that keep their
    /// rules are found. Nothing, where a crash loses all.
    ghost may_leave: { Self → Option Rows → Type 0 };

    /// How often a call has failed.
    ghost faults: { Self → ℕ };

    /// How often it was called, by either call and whatever the answer.
    ghost calls: { Self → ℕ };

    /// The tables that it keeps, which are sound if they are visible after it. It may stop telling within
    /// the call, as a store does whose disk lies: then nothing is said of them.
    fn load(&mut self, alloc: Global) -> Result<Tables, LoadFault>
        ensures loaded { IfOk result (λ tables. IsWhereTold tables.rows (told self.new)) }
        ensures whole { IfErr result
            (λ e. (kind : Kind) (id : ℕ) → e ≡ LoadFault.Damaged kind id → told self.new ≡ None) }
        ensures same { StillTells (told self.old) (told self.new) }
        ensures clean { IsTrue (is_clean self.new) → IsTrue (is_clean self.old) }
        ensures crash { IsTrue (is_clean self.new) → IfSome (told self.old) (λ rows.
            (found : Option Rows) → may_leave self.new found
            → may_leave self.old found ⊎ (found ≡ Some rows)) }
        ensures later { faults self.old ≤ faults self.new }
        ensures called { calls self.new ≡ one_more (calls self.old) }
        ensures cause { IsErrOf result LoadFault.Failed
            → Rose (faults self.old) (faults self.new) };

    /// Keeps the change, or leaves what it keeps as it was.
    fn commit(&mut self, alloc: Global, change: &Change) -> Result<(), EdgeFault>
        requires sound { IfSome (told self.old) (λ rows. damage (after rows change.now) ≡ None) }
        ensures ok { OnOk result
            (StillTells (option_map (λ rows. after rows change.now) (told self.old))
            (told self.new)) }
        ensures err { OnErr result (StillTells (told self.old) (told self.new)) }
        ensures clean { IsTrue (is_clean self.new) → IsTrue (is_clean self.old) }
        ensures crash { IsTrue (is_clean self.new) → IfSome (told self.old) (λ rows.
            (found : Option Rows) → may_leave self.new found
            → may_leave self.old found ⊎ (found ≡ Some (after rows change.now))) }
        ensures durable { IsTrue (is_clean self.new) → IfSome (told self.old) (λ rows.
            OnOk result ((found : Option Rows) → may_leave self.new found
            → found ≡ Some (after rows change.now))) }
        ensures later { faults self.old ≤ faults self.new }
        ensures called { calls self.new ≡ one_more (calls self.old) }
        ensures cause { IsErrOf result EdgeFault.Failed
            → Rose (faults self.old) (faults self.new) };
}
