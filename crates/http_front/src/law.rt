//! What follows from the definition of the requests of a byte string. None of these functions does
//! anything: each states a law.
ghost use Rattle.std.specs.Prelude.{◌≡◌, ℕ, List, [], ◌++◌};
ghost use Rattle.http_front.specs.declared.head_fault.HeadFault.{HeadFault};
ghost use Rattle.http_front.specs.declared.request.Request.{Request};
ghost use Rattle.http_front.specs.Requests.{Tail, at_end, bad, Leads, Splits};
ghost use Rattle.http_front.specs.declared.head.TheConstants.{BODY_LIMIT, LINE_LIMIT};
ghost use Rattle.http_front.specs.declared.looking.TheConstants.{HEAD_LIMIT};

/// A byte string is whole requests and a tail in at most one way.
pub fn one_reading()
    ensures one { (bytes : List ℕ) (requests others : List Request) (tail other : Tail)
        → Splits bytes requests tail → Splits bytes others other
        → (requests ≡ others) × (tail ≡ other) }
{}

/// Each byte string is whole requests and a tail in some way, and so, with the law before, in exactly one.
pub fn there_is_a_reading()
    ensures some { (bytes : List ℕ) → (requests : List Request) × (tail : Tail)
        × Splits bytes requests tail }
{}

/// Whole requests with nothing behind them are read as these requests and the end.
pub fn whole_requests()
    ensures all { (bytes : List ℕ) (requests others : List Request) (tail : Tail)
        → Leads bytes requests [] → Splits bytes others tail
        → (others ≡ requests) × (tail ≡ at_end) }
{}

/// What was served of a byte string is the beginning of its one reading, and what is left is read
/// as the rest of it.
pub fn served_first()
    ensures first { (bytes : List ℕ) (served requests : List Request) (rest : List ℕ) (tail : Tail)
        → Leads bytes served rest → Splits bytes requests tail
        → (others : List Request) × (requests ≡ served ++ others) × Splits rest others tail }
{}

/// A refusal stays, whatever bytes come behind: it doesn't matter in which pieces they are read.
pub fn refusals_stay()
    ensures stays { (bytes more : List ℕ) (requests : List Request) (fault : HeadFault)
        → Splits bytes requests (bad fault) → Splits (bytes ++ more) requests (bad fault) }
{}

/// The limits of a request: the bytes of its head, its field lines, and the bytes of its body.
pub fn the_numbers_are_these()
    ensures head { HEAD_LIMIT ≡ 16384 }
    ensures lines { LINE_LIMIT ≡ 64 }
    ensures body { BODY_LIMIT ≡ 1048576 }
{}
