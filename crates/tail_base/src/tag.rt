//! Tags.
ghost use Rattle.std.specs.Prelude.{◌≡◌, ◌↔◌, ℕ, List, Some, true, IfOk, refl};
ghost use Rattle.std.specs.Cmp.{partial_equiv_from_equiv};
ghost use Rattle.std.specs.Cmp.Lexicographic.{nat_list_cmp_total, nat_list_eq_equiv, slice_cmp, texts_po, texts_ties};
ghost use Rattle.std.specs.Ordering.{nat_cmp};
ghost use Rattle.std.specs.Str.{bytes_eq};
ghost use Rattle.std.specs.List.{list_all};
ghost use Rattle.tail_base.specs.Tags.{is_letter, is_tag, is_tag_byte, is_tag_name, tag_of};
ghost use Rattle.tail_base.specs.SpellsTag.{SpellsTag};

use crate::memory::{Duplicate, NoMemory};
use crate::text::Text;
use std::alloc::Global;
use std::cmp::Ordering;
use std::marker::Model;

/// A tag of the Tailscale policy file: `tag:`, a letter, and up to 62 letters, digits or hyphens.
/// Contracts see it as its bytes, by which tags are ordered.
#[derive(Drop)]
pub struct Tag {
    text: Text,
}

impl Model for Tag {
    ghost use Rattle.std.specs.Prelude.{◌≡◌, ℕ, List, true};
    ghost use Rattle.tail_base.specs.Tags.{is_tag};

    ghost Value = { List ℕ };

    ghost view = { λ a. a.text };

    ghost invariant = { λ a. is_tag a.text ≡ true };
}

fn is_letter(b: u8) -> bool
    ensures value { result ≡ is_letter b }
{
    b.is_ascii_alphabetic()
}

fn is_tag_byte(b: u8) -> bool
    ensures value { result ≡ is_tag_byte b }
{
    is_letter(b) || b.is_ascii_digit() || b == b'-'
}

fn has_tag_bytes(text: &[u8]) -> bool
    ensures value { result ≡ list_all is_tag_byte text.now }
{
    text.iter().all(|b| is_tag_byte(*b))
}

fn is_tag_name(text: &[u8]) -> bool
    ensures value { result ≡ is_tag_name text.now }
{
    match text {
        [first, rest @ ..] => is_letter(*first) && rest.len() <= 62 && has_tag_bytes(rest),
        [] => false,
    }
}

fn is_tag(text: &[u8]) -> bool
    ensures value { result ≡ is_tag text.now }
{
    text.starts_with(b"tag:") && is_tag_name(&text[4..])
}

/// The tag that a text is, if it is one.
#[tactic(auto, using(crate::proofs::TagLemmas::tag_ascii))]
fn tag_of(alloc: Global, text: &[u8]) -> Result<Option<Tag>, NoMemory>
    ensures value { IfOk result (λ tag. tag ≡ tag_of text.now) }
{
    if !is_tag(text) {
        return Ok(None);
    }
    Ok(Some(Tag {
        text: Text::from_ascii(alloc, text)?,
    }))
}

impl Tag {
    /// The tag that a text is, if it is one.
    pub fn read(alloc: Global, text: &[u8]) -> Result<Option<Tag>, NoMemory>
        ensures value { IfOk result (λ tag. tag ≡ tag_of text.now) }
        ensures meaning { IfOk result (λ found. (tag : List ℕ)
            → SpellsTag text.now tag ↔ (found ≡ Some tag)) }
    {
        tag_of(alloc, text)
    }

    /// The tag as text.
    pub fn as_str(&self) -> &str
        ensures value { result.now ≡ self.now }
        ensures tag { is_tag self.now ≡ true }
    {
        self.text.as_str()
    }

    /// The tag's bytes.
    pub fn as_slice(&self) -> &[u8]
        ensures value { result.now ≡ self.now }
        ensures tag { is_tag self.now ≡ true }
    {
        self.text.as_slice()
    }
}

impl PartialEq for Tag {
    ghost eq = { λ a b. bytes_eq a b };

    ghost laws = { partial_equiv_from_equiv nat_list_eq_equiv };

    fn eq(&self, other: &Tag) -> bool {
        self.as_slice() == other.as_slice()
    }
}

impl Eq for Tag {
    ghost laws = { nat_list_eq_equiv };
}

impl PartialOrd for Tag {
    ghost partial_cmp = { λ a b. Some (slice_cmp nat_cmp a b) };

    ghost laws = { texts_po };

    fn partial_cmp(&self, other: &Tag) -> Option<Ordering> {
        Some(self.cmp(other))
    }
}

impl Ord for Tag {
    ghost cmp = { slice_cmp nat_cmp };

    ghost total = { nat_list_cmp_total };

    ghost matches_partial_cmp = { λ a b. refl };

    ghost matches_eq = { λ a b. texts_ties a b };

    fn cmp(&self, other: &Tag) -> Ordering {
        self.as_slice().cmp(other.as_slice())
    }
}

impl Duplicate for Tag {
    fn copy(&self, alloc: Global) -> Result<Self, NoMemory> {
        Ok(Tag {
            text: self.text.copy(alloc)?,
        })
    }
}
