//! What follows from the definitions. The function does nothing: it states a law.
ghost use Rattle.std.specs.Prelude.{◌≡◌};
ghost use Rattle.operator_commands.specs.declared.filing.TheConstants.{SENT_LIMIT};

/// The most bytes of a file that a command sends.
pub fn the_numbers_are_these()
    ensures sent { SENT_LIMIT ≡ 1048576 }
{}
