//! Laws of polls.
ghost use Rattle.std.specs.Prelude.{ℕ, Bool};
ghost use Rattle.std.specs.List.{AllByRecursion};
ghost use Rattle.connections.specs.Exchanges.{Exchange, IsExchange};
ghost use Rattle.desk_front.specs.declared.front_settings.FrontSettings.{FrontSettings};
ghost use Rattle.byte_laws.specs.Answers.{IsAnswerReadBack};
ghost use Rattle.byte_laws.specs.Folding.{ClientsFoldWhatTheyRead};
ghost use Rattle.byte_laws.specs.Orderly.{IsTurnOrderly};

/// Whoever reads the answer to a poll as responses that the server writes reads those that the poll was
/// replied: the bytes of the answer are no other stream.
pub fn polls_are_read_back()
    ensures read { (given : FrontSettings) (more : ℕ) (last : Bool) (x : Exchange)
        → IsExchange given more last x → AllByRecursion IsTurnOrderly x.turns
        → IsAnswerReadBack given x }
{}

/// So a client that folds what it reads has what the laws on histories say that it has folded
/// (`clients_fold_fresh_maps`): after each drain that sends something its map, computed afresh.
pub fn clients_fold_what_they_read()
    ensures folds { ClientsFoldWhatTheyRead }
{}
