//! Values that stand in a list.
ghost use Rattle.std.specs.Prelude.{◌≡◌, ℕ, List, Option, true, IfOk, IfSome, OnOk};
ghost use Rattle.std.specs.Str.{is_utf8};
ghost use Rattle.store_rows.specs.Lists.{IsListedText};

use std::alloc::Global;
use tail_base::{NoMemory, Text};

/// A value that stands in a list: it has one text, without a comma.
pub trait Listed: Drop + Sized {
    /// The one text that is written of the value.
    ghost text: { Self → List ℕ };

    /// The value that a text spells, in this or another spelling.
    ghost of_text: { List ℕ → Option Self };

    /// The values that the type has.
    ghost Fits: { Self → Type 0 };

    /// The text of the value.
    fn listed_text(&self, alloc: Global) -> Result<Text, NoMemory>
        ensures value { IfOk result (λ made. made ≡ text self.now) }
        ensures fit { OnOk result (Fits self.now) };

    /// The value that a text spells.
    fn spelled(alloc: Global, given: &[u8]) -> Result<Option<Self>, NoMemory>
        ensures value { IfOk result (λ found. found ≡ of_text given.now) }
        ensures fit { IfOk result (λ found. IfSome found Fits) };

    /// Each value is read again from its text, which isn't empty and has no comma. It does nothing.
    fn texts_are_listed()
        ensures pieces { (x : Self) → Fits x → IsListedText text of_text x };
}
