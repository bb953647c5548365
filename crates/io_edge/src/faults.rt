//! Which calls fail, and how many have.
ghost use Rattle.std.specs.Prelude.{◌≡◌, ◌+◌, ◌-◌, ◌^◌, ◌↔◌, min, true, IsTrue, Contains, if◌then◌else◌};
ghost use Rattle.io_edge.specs.Edge.{Counted};

use tail_base::Items;

/// The outside failed at this call.
#[derive(Clone, Copy, Debug, PartialEq, Eq)]
pub struct Failed;

/// Why a call of the outside gave nothing.
#[derive(Clone, Copy, Debug, PartialEq, Eq)]
pub enum EdgeFault {
    /// The outside failed at this call.
    Failed,
    /// Memory was refused.
    NoMemory,
}

/// The numbers of the calls that are to fail, from 1, and the count of those that did.
#[derive(Drop)]
pub struct Faults {
    /// The calls that are to fail, the first being 1.
    pub fails: Items<u32>,
    /// How many calls there were, failed ones among them.
    pub calls: u64,
    /// How many faults there were.
    pub count: u64,
}

impl Faults {
    /// The calls with these numbers, counted from 1, are to fail.
    pub fn new(fails: Items<u32>) -> Faults
        ensures fails { result.fails ≡ fails }
        ensures calls { result.calls ≡ 0 }
        ensures count { result.count ≡ 0 }
    {
        Faults {
            fails,
            calls: 0,
            count: 0,
        }
    }

    /// Raises the count.
    pub fn raise(&mut self)
        ensures counted { Counted self.old.count self.new.count true }
        ensures count { self.new.count ≡ min (self.old.count + 1) (2 ^ 64 - 1) }
        ensures same { (self.new.calls ≡ self.old.calls) × (self.new.fails ≡ self.old.fails) }
    {
        self.count = self.count.saturating_add(1);
    }

    /// Whether the next call fails. It counts the call, and its fault where it does.
    pub fn next(&mut self) -> bool
        ensures counted { Counted self.old.count self.new.count result }
        ensures calls { self.new.calls ≡ min (self.old.calls + 1) (2 ^ 64 - 1) }
        ensures planned { IsTrue result ↔ Contains self.old.fails self.new.calls }
        ensures count { self.new.count
            ≡ (if result then min (self.old.count + 1) (2 ^ 64 - 1) else self.old.count) }
        ensures fails { self.new.fails ≡ self.old.fails }
    {
        self.calls = self.calls.saturating_add(1);
        let fails = self
            .fails
            .as_slice()
            .iter()
            .any(|n| u64::from(*n) == self.calls);
        if fails {
            self.raise();
        }
        fails
    }
}
