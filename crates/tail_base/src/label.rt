//! DNS labels.
ghost use Rattle.std.specs.Prelude.{◌≡◌, ◌↔◌, ℕ, List, true, IfOk};
ghost use Rattle.std.specs.List.{list_all};
ghost use Rattle.tail_base.specs.Labels.{has_good_ends, has_label_length, is_label, is_label_byte, label_of, label_of_host, numbered_label};
ghost use Rattle.tail_base.specs.SpellsLabel.{SpellsLabel};

use crate::ascii::is_alnum;
use crate::memory::{Duplicate, NoMemory};
use crate::naming::{cut, or_node, squeezed, trimmed, trimmed_end};
use crate::text::Text;
use std::alloc::Global;
use std::marker::Model;

/// A DNS label (RFC 1123 section 2.1): 1 to 63 of a-z, 0-9 and hyphen, with no hyphen at an end.
/// Contracts see it as its bytes.
#[derive(Drop)]
pub struct Label {
    text: Text,
}

impl Model for Label {
    ghost use Rattle.std.specs.Prelude.{◌≡◌, ℕ, List, true};
    ghost use Rattle.tail_base.specs.Labels.{is_label};

    ghost Value = { List ℕ };

    ghost view = { λ a. a.text };

    ghost invariant = { λ a. is_label a.text ≡ true };
}

fn has_label_length(text: &[u8]) -> bool
    ensures value { result ≡ has_label_length text.now }
{
    1 <= text.len() && text.len() <= 63
}

fn has_label_bytes(text: &[u8]) -> bool
    ensures value { result ≡ list_all is_label_byte text.now }
{
    text.iter().all(|b| is_alnum(*b) || *b == b'-')
}

fn has_good_ends(text: &[u8]) -> bool
    ensures value { result ≡ has_good_ends text.now }
{
    !text.starts_with(b"-") && !text.ends_with(b"-")
}

fn is_label(text: &[u8]) -> bool
    ensures value { result ≡ is_label text.now }
{
    has_label_length(text) && has_label_bytes(text) && has_good_ends(text)
}

/// The label that a text is, if it is one.
#[tactic(auto, using(crate::proofs::LabelLemmas::label_ascii))]
fn label_of(alloc: Global, text: &[u8]) -> Result<Option<Label>, NoMemory>
    ensures value { IfOk result (λ label. label ≡ label_of text.now) }
{
    if !is_label(text) {
        return Ok(None);
    }
    Ok(Some(Label {
        text: Text::from_ascii(alloc, text)?,
    }))
}

impl Label {
    /// The label that a text is, if it is one.
    pub fn read(alloc: Global, text: &[u8]) -> Result<Option<Label>, NoMemory>
        ensures value { IfOk result (λ label. label ≡ label_of text.now) }
        ensures meaning { IfOk result (λ found. (label : List ℕ)
            → SpellsLabel text.now label ↔ (found ≡ Some label)) }
    {
        label_of(alloc, text)
    }

    /// The label that a host name gives, which needn't be a label itself: in lower case, with one
    /// hyphen for each run of bytes other than letters and digits, cut to 63 bytes, without hyphens
    /// at its ends, and `node` where nothing is left.
    pub fn of_host(alloc: Global, host: &[u8]) -> Result<Label, NoMemory>
        ensures value { IfOk result (λ label. label ≡ label_of_host host.now) }
    {
        let text = squeezed(alloc, host)?;
        let name = or_node(trimmed(cut(text.as_slice(), 63)));
        Ok(Label {
            text: Text::from_ascii(alloc, name)?,
        })
    }

    /// The label with a hyphen and a number behind it, cut so that they fit in 63 bytes, with no
    /// hyphen at the cut end.
    pub fn numbered(&self, alloc: Global, n: u32) -> Result<Label, NoMemory>
        ensures value { IfOk result (λ label. label ≡ numbered_label self.now n) }
    {
        let ending = Text::from_string(format!(in alloc; "-{n}")?);
        let front = trimmed_end(cut(self.as_slice(), 63 - ending.len()));
        let mut text = Text::from_ascii(alloc, front)?;
        text.push(ending.as_str())?;
        Ok(Label { text })
    }

    /// The label as text.
    pub fn as_str(&self) -> &str
        ensures value { result.now ≡ self.now }
        ensures label { is_label self.now ≡ true }
    {
        self.text.as_str()
    }

    /// The label's bytes.
    pub fn as_slice(&self) -> &[u8]
        ensures value { result.now ≡ self.now }
        ensures label { is_label self.now ≡ true }
    {
        self.text.as_slice()
    }
}

impl Duplicate for Label {
    fn copy(&self, alloc: Global) -> Result<Self, NoMemory> {
        Ok(Label {
            text: self.text.copy(alloc)?,
        })
    }
}
