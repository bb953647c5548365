//! What follows from the contracts of `explain` and `reach`. The function does nothing: it states a law.
ghost use Rattle.explain_commands.specs.Complete.{IsExplainingComplete};

/// Where words and settings are accepted, the rows that the opener tells are not damaged and it tells
/// rows at the end too, and no count of files, keeper or output rises, a run ends with status 0, or for
/// lack of memory.
pub fn explaining_completeness()
    ensures complete { IsExplainingComplete }
{}
