//! HuJSON, which is JSON with comments and trailing commas (<https://github.com/tailscale/hujson>),
//! made JSON (RFC 8259) offset for offset.
#![tactic(auto)]

ghost use Rattle.std.specs.Prelude.{◌≡◌, ℕ, ◌<◌, ◌^◌, List, length, slice_index, IfOk, IfErr, Option, None};
ghost use Rattle.hujson_read.specs.Tokens.{Token, text_of, AreTokens, IsSpelled};
ghost use Rattle.hujson_read.specs.Standard.{is_stray, standard, first_fault, standard_of, fault_of, IsFault};
ghost use Rattle.hujson_read.specs.Scan.{settled, IsWithin, waiting};

mod fault;
mod mark;
mod mode;

pub use fault::HujsonFault;
use mark::{Mark, is_closer};
use mode::Mode;
use std::alloc::Global;

/// A law, for proofs: every text is spelled by its tokens, and by no other list of tokens that may
/// stand in a text. So the text that such a list spells has the standard text and the first fault
/// that the list has.
pub fn spelling_law()
    ensures tokens { (text : List ℕ) → IsSpelled text }
    ensures standard { (ts : List Token) → AreTokens ts → standard_of (text_of ts) ≡ standard ts }
    ensures fault { (ts : List Token) → AreTokens ts → fault_of (text_of ts) ≡ first_fault ts }
{}

/// The standard text of a HuJSON text, of the same length.
///
/// A text is a list of tokens: strings, comments, and every other byte by itself. A string runs from
/// a `"` to the next `"` that no backslash escapes. `//` begins a comment that ends before the next
/// line feed or with the text, `/*` one that ends with the next `*/`. In the standard text the bytes
/// of comments are spaces but for line feeds and carriage returns, and so is a comma before a `]` or
/// `}`. All else stays, so a place in the standard text is the same place in the text.
///
/// The error is the fault with the least
/// offset, or lack of memory for the text's copy. Whether the standard text is JSON is left to the
/// one who reads it, and so is what stands inside strings and comments: it needn't be UTF-8.
#[tactic(auto, using(crate::proofs::Lengths::standard_length))]
pub fn standardize(alloc: Global, text: &[u8]) -> Result<Vec<u8>, HujsonFault>
    requires short { length text.now < 2 ^ 32 }
    ensures standard { IfOk result (λ v. v.items ≡ standard_of text.now) }
    ensures length { IfOk result (λ v. length v.items ≡ length text.now) }
    ensures sound { IfOk result (λ _. fault_of text.now ≡ None) }
    ensures fault { IfErr result (IsFault text.now) }
{
    let mut out = Vec::with_capacity(alloc, text.len())?;
    let mut mode = Mode::Outside;
    let mut previous = None;
    let mut waits = None;
    for (at, byte) in text.iter().enumerate() {
        let next = byte_at(text, at + 1);
        let mark = mode.mark(*byte, next);
        if mark.is_comma() && is_stray(previous) {
            return Err(HujsonFault::StrayComma(at as u32));
        }
        let significant = mark.significant();
        settle(&mut out, waits, significant);
        waits = waiting(waits, mark, at);
        previous = significant.or(previous);
        out.push(mark.written())?;
        mode = mode.after(at as u32, *byte, next);
    }
    match mode {
        Mode::InString(start) | Mode::Escaped(start) => Err(HujsonFault::OpenString(start)),
        Mode::BlockStart(start) | Mode::InBlock(start) => Err(HujsonFault::OpenComment(start)),
        Mode::Outside | Mode::InLine | Mode::BlockEnd => Ok(out),
    }
}

/// The byte there, or 0 past the end, which begins and ends no token.
fn byte_at(text: &[u8], at: usize) -> u8
    ensures value { result ≡ slice_index text.now at }
{
    match text.get(at) {
        Some(byte) => *byte,
        None => 0,
    }
}

/// Whether a comma after that significant byte follows no value.
fn is_stray(previous: Option<u8>) -> bool
    ensures value { result ≡ is_stray previous }
{
    match previous {
        None => true,
        Some(byte) => byte == b'[' || byte == b'{' || byte == b',' || byte == b':',
    }
}

/// Blanks the comma that waits in the output, where a closer comes next.
fn settle(out: &mut [u8], waits: Option<usize>, next: Option<u8>)
    requires within { IsWithin waits out.old }
    ensures value { out.new ≡ settled waits next out.old }
{
    if let (Some(at), Some(byte)) = (waits, next) {
        if is_closer(byte) {
            out[at] = b' ';
        }
    }
}

/// The offset of the comma whose next significant byte isn't known yet.
fn waiting(waits: Option<usize>, mark: Mark, at: usize) -> Option<usize>
    ensures value { result ≡ waiting waits mark at }
{
    if mark.is_comma() {
        Some(at)
    } else if mark.significant().is_some() {
        None
    } else {
        waits
    }
}
