//! What follows from the definitions of a byte string's answer and of a token. None of these functions does anything:
//! each states a law.
ghost use Rattle.std.specs.Prelude.{◌≡◌, ◌<◌, ◌≤◌, ℕ, Bool, not, List, [], ◌++◌, length, Option, Some};
ghost use Rattle.percent_encoding.specs.AsciiSet.{should_percent_encode};
ghost use Rattle.http_front.specs.AnswerBytes.{answer};
ghost use Rattle.http_client.specs.Asks.{is_token_byte};
ghost use Rattle.http_client.specs.declared.asking.TheConstants.{TOKEN_ESCAPED};
ghost use Rattle.http_client.specs.declared.answer.ServerAnswer.{ServerAnswer};
ghost use Rattle.http_client.specs.declared.answer.TakenAnswer.{TakenAnswer};
ghost use Rattle.http_client.specs.Answers.{IsBadAnswer, IsPartOfAnswer, IsWholeAnswer};
ghost use Rattle.http_client.specs.Answers.{answer_limit, sent_answer};
ghost use Rattle.http_client.specs.Taking.{IsThatAnswer, TakesAnswer};

/// A byte string begins with at most one answer, and then it is neither a part of one nor bad; nor
/// is it both of these.
pub fn one_answer()
    ensures one { (bytes rest others : List ℕ) (answer other : ServerAnswer)
        → IsWholeAnswer bytes answer rest → IsWholeAnswer bytes other others
        → (answer ≡ other) × (rest ≡ others) }
    ensures whole_or_part { (bytes rest : List ℕ) (answer : ServerAnswer)
        → IsWholeAnswer bytes answer rest → IsPartOfAnswer bytes → ⊥ }
    ensures whole_or_bad { (bytes rest : List ℕ) (answer : ServerAnswer)
        → IsWholeAnswer bytes answer rest → IsBadAnswer bytes → ⊥ }
    ensures part_or_bad { (bytes : List ℕ) → IsPartOfAnswer bytes → IsBadAnswer bytes → ⊥ }
{}

/// An answer stays, and bytes that are bad stay so, whatever bytes come behind: it doesn't matter in
/// which pieces they are read.
pub fn answers_stay()
    ensures whole { (bytes rest more : List ℕ) (answer : ServerAnswer)
        → IsWholeAnswer bytes answer rest → IsWholeAnswer (bytes ++ more) answer (rest ++ more) }
    ensures bad { (bytes more : List ℕ) → IsBadAnswer bytes → IsBadAnswer (bytes ++ more) }
{}

/// What the server writes is read back. Its bytes begin with that status and that body, and who
/// reads them from a source is answered so, unless the source fails or memory runs out.
pub fn answers_come_back()
    ensures whole { (status : ℕ) (body rest : List ℕ) (close : Bool)
        → 100 ≤ status → status < 1000 → length body ≤ answer_limit
        → IsWholeAnswer (answer status body close ++ rest) (sent_answer status body) rest }
    ensures taken { (status : ℕ) (body rest held : List ℕ) (close : Bool)
        (left : Option (List ℕ)) (taken : TakenAnswer)
        → 100 ≤ status → status < 1000 → length body ≤ answer_limit
        → TakesAnswer (Some (answer status body close ++ rest)) left [] held taken
        → IsThatAnswer (sent_answer status body) taken }
{}

/// In its field line every byte of a token is percent-encoded but visible ASCII, so that no byte of it
/// ends the line.
pub fn tokens_are_escaped()
    ensures escaped { (b : ℕ) → b < 256
        → should_percent_encode TOKEN_ESCAPED b ≡ not (is_token_byte b) }
{}

/// The most bytes of an answer's body.
pub fn the_numbers_are_these()
    ensures answer { answer_limit ≡ 16777216 }
{}
