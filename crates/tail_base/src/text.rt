//! Texts that contracts see as their bytes.
ghost use Rattle.std.specs.Prelude.{◌≡◌, ℕ, List, [], ◌∷◌, ◌++◌, length, IfOk, OnOk, OnErr, IsTrue, ◌↔◌, string_bytes};
ghost use Rattle.std.specs.Str.{IsAscii};

use crate::memory::{Duplicate, NoMemory};
use std::alloc::Global;
use std::marker::Model;
use std::str::from_utf8;

/// A text in UTF-8. Contracts see it as the list of its bytes.
#[derive(Drop)]
pub struct Text {
    text: String,
}

impl Model for Text {
    ghost use Rattle.std.specs.Prelude.{List, ℕ, string_bytes};

    ghost Value = { List ℕ };

    ghost view = { λ a. string_bytes a.text };
}

impl Text {
    /// The empty text. It takes no memory.
    pub fn new(alloc: Global) -> Self
        ensures value { result ≡ [] }
    {
        Text {
            text: String::new(alloc),
        }
    }

    /// A copy of a text.
    pub fn from_str(alloc: Global, text: &str) -> Result<Self, NoMemory>
        ensures value { IfOk result (λ made. made ≡ text.now) }
    {
        let mut made = String::new(alloc);
        made.push_str(text)?;
        Ok(Text { text: made })
    }

    /// The text of these ASCII bytes.
    pub fn from_ascii(alloc: Global, bytes: &[u8]) -> Result<Self, NoMemory>
        requires ascii { IsAscii bytes.now }
        ensures value { IfOk result (λ made. made ≡ bytes.now) }
    {
        match from_utf8(bytes) {
            Ok(text) => Self::from_str(alloc, text),
            Err(_) => unreachable!(),
        }
    }

    /// The text that a string holds.
    pub fn from_string(text: String) -> Self
        ensures value { result ≡ string_bytes text }
    {
        Text { text }
    }

    /// The text as a string slice.
    pub fn as_str(&self) -> &str
        ensures value { result.now ≡ self.now }
    {
        self.text.as_str()
    }

    /// The text's bytes.
    pub fn as_slice(&self) -> &[u8]
        ensures value { result.now ≡ self.now }
    {
        self.text.as_bytes()
    }

    /// How many bytes there are.
    pub fn len(&self) -> usize
        ensures value { result ≡ length self.now }
    {
        self.text.as_bytes().len()
    }

    /// Whether there is no byte.
    pub fn is_empty(&self) -> bool
        ensures value { IsTrue result ↔ (self.now ≡ []) }
    {
        self.text.as_bytes().is_empty()
    }

    /// Adds a text at the end.
    pub fn push(&mut self, more: &str) -> Result<(), NoMemory>
        ensures ok { OnOk result (self.new ≡ self.old ++ more.now) }
        ensures err { OnErr result (self.new ≡ self.old) }
    {
        self.text.push_str(more)?;
        Ok(())
    }
}

impl Duplicate for Text {
    fn copy(&self, alloc: Global) -> Result<Self, NoMemory> {
        Self::from_str(alloc, self.as_str())
    }
}
