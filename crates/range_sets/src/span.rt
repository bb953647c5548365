//! Spans of numbers.
ghost use Rattle.std.specs.Prelude.{◌≡◌};
ghost use Rattle.range_sets.specs.Joins.{joined, adjoins};
ghost use Rattle.range_sets.specs.Meets.{meets};
ghost use Rattle.range_sets.specs.Spans.{in_span};
ghost use Rattle.range_sets.specs.Walks.{has_all};

/// The numbers from the first to the last, both included.
#[derive(Clone, Copy, Debug, PartialEq, Eq, Drop)]
pub struct Span {
    pub(crate) first: u128,
    pub(crate) last: u128,
}

impl Span {
    /// Whether the number is in the span.
    pub(crate) fn holds(&self, number: u128) -> bool
        ensures value { result ≡ in_span self.now number }
    {
        self.first <= number && number <= self.last
    }

    /// Whether the span has each number from the first to the last.
    pub(crate) fn has_all(&self, first: u128, last: u128) -> bool
        ensures value { result ≡ has_all self.now first last }
    {
        self.first <= first && last <= self.last
    }

    /// Whether no number lies between this span and one that begins no earlier.
    pub(crate) fn adjoins(&self, next: &Span) -> bool
        ensures value { result ≡ adjoins self.now next.now }
    {
        next.first == 0 || next.first - 1 <= self.last
    }

    /// Whether some number is in both spans.
    pub(crate) fn meets(&self, other: &Span) -> bool
        ensures value { result ≡ meets self.now other.now }
    {
        self.first <= other.last && other.first <= self.last
    }

    /// From this span's first number to the greater last.
    pub(crate) fn joined(&self, next: &Span) -> Span
        ensures value { result ≡ joined self.now next.now }
    {
        Span {
            first: self.first,
            last: self.last.max(next.last),
        }
    }
}
