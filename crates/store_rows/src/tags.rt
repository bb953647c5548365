//! Tags in a list.
use crate::listed::Listed;
use std::alloc::Global;
use tail_base::{NoMemory, Tag, Text};

impl Listed for Tag {
    ghost use Rattle.std.specs.Prelude.{◌≡◌, true};
    ghost use Rattle.tail_base.specs.Tags.{is_tag, tag_of};

    ghost text = { λ tag. tag };

    ghost of_text = { tag_of };

    ghost Fits = { λ tag. is_tag tag ≡ true };

    fn listed_text(&self, alloc: Global) -> Result<Text, NoMemory> {
        Text::from_str(alloc, self.as_str())
    }

    fn spelled(alloc: Global, given: &[u8]) -> Result<Option<Self>, NoMemory> {
        Tag::read(alloc, given)
    }

    fn texts_are_listed() {}
}
