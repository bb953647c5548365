//! What follows from a connection's contract. None of these functions does anything: each states a law.
ghost use Rattle.connections.specs.Connection.{IsBrokenOff, IsExtra};
ghost use Rattle.connections.specs.Exchanges.{AreUnbroken, Exchange, answers_of};
ghost use Rattle.connections.specs.Polls.{heard_of};
ghost use Rattle.exit_status.specs.Pieces.{IsPrefix};
ghost use Rattle.exit_status.specs.declared.closed.Closed.{Closed};
ghost use Rattle.std.specs.Prelude.{◌≡◌, ℕ, List, [], ◌∷◌, ◌++◌, Some, true};

/// Where a connection broke off, each answer but the last was written whole: after a failed write no
/// request is taken, and behind the last answer no refusal is begun. Of that last answer all was written
/// that a poll was replied before its last drain: it isn't drained again after a failed write.
pub fn answers_are_heard()
    ensures whole { (xs : List Exchange) (y : Exchange) (ys : List Exchange)
        (extra written : List ℕ) → IsBrokenOff (xs ++ y ∷ ys) extra written
        → IsPrefix (answers_of xs) written }
    ensures unbroken { (xs : List Exchange) (y : Exchange) (ys : List Exchange)
        (extra written : List ℕ) → IsBrokenOff (xs ++ y ∷ ys) extra written → AreUnbroken xs }
    ensures before_refusal { (xs : List Exchange) (b : ℕ) (bs written : List ℕ)
        → IsBrokenOff xs (b ∷ bs) written → IsPrefix (answers_of xs) written }
    ensures drained { (x : Exchange) (extra written : List ℕ)
        → IsBrokenOff (x ∷ []) extra written → x.broken ≡ true
        → IsPrefix (heard_of x.turns) written }
    ensures nothing { (xs : List Exchange) (y : Exchange) (ys : List Exchange)
        (extra : List ℕ) → IsBrokenOff (xs ++ y ∷ ys) extra [] → answers_of xs ≡ [] }
{}

/// Behind a request that ended the connection nothing is answered.
pub fn nothing_follows_the_end()
    ensures quiet { (c : Closed) (rest extra : List ℕ) → IsExtra (Some c) rest extra → extra ≡ [] }
{}
