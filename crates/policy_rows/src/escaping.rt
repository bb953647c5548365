//! Texts as JSON has them.
ghost use Rattle.std.specs.Prelude.{◌≡◌, ℕ, List, IfOk};
ghost use Rattle.std.specs.Str.{IsUtf8};
ghost use Rattle.json.specs.Print.{escape, quoted};

use json::Writer;
use std::alloc::{AllocError, Global};
use std::str::from_utf8;
use tail_base::{NoMemory, Text};

/// A text as a JSON string, with its quotes.
fn quoted(alloc: Global, text: &str) -> Result<Vec<u8>, AllocError>
    ensures value { IfOk result (λ v. v.items ≡ quoted text.now) }
    ensures utf8 { IfOk result (λ v. IsUtf8 v.items) }
{
    let mut out = Writer::new(Vec::new(alloc));
    out.string(text)?;
    Ok(out.into_inner())
}

/// What stands between the quotes of a JSON string.
fn between_quotes(written: &[u8]) -> &str
    requires quoted { (text : List ℕ) × (written.now ≡ quoted text) }
    requires utf8 { IsUtf8 written.now }
    ensures value { (text : List ℕ) → written.now ≡ quoted text → result.now ≡ escape text }
{
    let Ok(all) = from_utf8(written) else {
        unreachable!();
    };
    let Some(rest) = all.strip_prefix('"') else {
        unreachable!();
    };
    match rest.strip_suffix('"') {
        Some(inner) => inner,
        None => unreachable!(),
    }
}

/// A text as JSON has it between its quotes: with escapes, and so on one line.
pub(crate) fn escaped(alloc: Global, text: &str) -> Result<Text, NoMemory>
    ensures value { IfOk result (λ made. made ≡ escape text.now) }
{
    let written = quoted(alloc, text)?;
    Text::from_str(alloc, between_quotes(&written))
}
