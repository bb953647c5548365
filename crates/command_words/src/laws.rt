//! The numbers of the words. This function does nothing: it states a law.
ghost use Rattle.std.specs.Prelude.{◌≡◌};
ghost use Rattle.command_words.specs.declared.values.TheConstants.{EVENT_LIMIT, ID_LIMIT, MACHINE_LIMIT};

/// The most that an id may be, and the most machines and events of a load.
pub fn the_numbers_are_these()
    ensures id { ID_LIMIT ≡ 2147483647 }
    ensures machines { MACHINE_LIMIT ≡ 1024 }
    ensures events { EVENT_LIMIT ≡ 100000 }
{}
