//! The three kinds of public keys that `tailcfg` names.
ghost use Rattle.std.specs.Prelude.{◌≡◌, ℕ, ◌↔◌, IsTrue, List, IfOk, IfSome, IfNone, length, codes, replicate};
ghost use Rattle.std.specs.Option.{option_map};
ghost use Rattle.tail_base.specs.Keys.{SpellsKey, key_of_text, key_text};

use crate::memory::{Duplicate, NoMemory};
use crate::text::Text;
use hex::FromHex;
use std::alloc::Global;

/// The key of a machine, which it keeps for life.
#[derive(Clone, Copy, Debug, PartialEq, Eq, PartialOrd, Ord, Drop)]
pub struct MachineKey(pub [u8; 32]);

/// The key of a node, which a machine may change by registering anew.
#[derive(Clone, Copy, Debug, PartialEq, Eq, PartialOrd, Ord, Drop)]
pub struct NodeKey(pub [u8; 32]);

/// The key by which peers discover a path to a machine.
#[derive(Clone, Copy, Debug, PartialEq, Eq, PartialOrd, Ord, Drop)]
pub struct DiscoKey(pub [u8; 32]);

/// The 32 bytes that a head and 64 hexadecimal digits spell.
fn key_bytes(head: &[u8], text: &[u8]) -> Option<[u8; 32]>
    ensures value { result ≡ key_of_text head.now text.now }
    ensures found { IfSome result (λ key. SpellsKey head.now text.now key) }
    ensures none { IfNone result
        ((key : List ℕ) → length key ≡ 32 → SpellsKey head.now text.now key → ⊥) }
{
    match text.strip_prefix(head) {
        Some(digits) => <[u8; 32] as FromHex>::from_hex(digits).ok(),
        None => None,
    }
}

/// A head and the digits of a key, in lower case.
fn written(alloc: Global, head: &str, key: &[u8; 32]) -> Result<Text, NoMemory>
    ensures value { IfOk result (λ text. text ≡ key_text head.now key.now) }
    ensures read_again { IfOk result (λ text. key_of_text head.now text ≡ Some key.now) }
{
    let mut text = Text::from_str(alloc, head)?;
    let digits = hex::encode(alloc, key)?;
    text.push(digits.as_str())?;
    Ok(text)
}

impl MachineKey {
    /// The key that `mkey:` and 64 hexadecimal digits of either case spell.
    pub fn read(text: &[u8]) -> Option<MachineKey>
        ensures value { option_map (λ key. key.0) result ≡ key_of_text (codes "mkey:") text.now }
        ensures found { IfSome result (λ key. SpellsKey (codes "mkey:") text.now key.0) }
        ensures none { IfNone result
            ((key : List ℕ) → length key ≡ 32 → SpellsKey (codes "mkey:") text.now key → ⊥) }
    {
        Some(MachineKey(key_bytes(b"mkey:", text)?))
    }

    /// `mkey:` and 64 digits in lower case.
    pub fn write(&self, alloc: Global) -> Result<Text, NoMemory>
        ensures value { IfOk result (λ text. text ≡ key_text (codes "mkey:") self.now.0) }
        ensures read_again { IfOk result
            (λ text. key_of_text (codes "mkey:") text ≡ Some self.now.0) }
    {
        written(alloc, "mkey:", &self.0)
    }

    /// Whether all 32 bytes are 0, which stands for no key.
    pub fn is_zero(&self) -> bool
        ensures value { IsTrue result ↔ (self.now.0 ≡ replicate 32 0) }
    {
        self.0 == [0; 32]
    }
}

impl NodeKey {
    /// The key that `nodekey:` and 64 hexadecimal digits of either case spell.
    pub fn read(text: &[u8]) -> Option<NodeKey>
        ensures value { option_map (λ key. key.0) result ≡ key_of_text (codes "nodekey:") text.now }
        ensures found { IfSome result (λ key. SpellsKey (codes "nodekey:") text.now key.0) }
        ensures none { IfNone result
            ((key : List ℕ) → length key ≡ 32 → SpellsKey (codes "nodekey:") text.now key → ⊥) }
    {
        Some(NodeKey(key_bytes(b"nodekey:", text)?))
    }

    /// `nodekey:` and 64 digits in lower case.
    pub fn write(&self, alloc: Global) -> Result<Text, NoMemory>
        ensures value { IfOk result (λ text. text ≡ key_text (codes "nodekey:") self.now.0) }
        ensures read_again { IfOk result
            (λ text. key_of_text (codes "nodekey:") text ≡ Some self.now.0) }
    {
        written(alloc, "nodekey:", &self.0)
    }

    /// Whether all 32 bytes are 0, which stands for no key.
    pub fn is_zero(&self) -> bool
        ensures value { IsTrue result ↔ (self.now.0 ≡ replicate 32 0) }
    {
        self.0 == [0; 32]
    }
}

impl DiscoKey {
    /// The key that `discokey:` and 64 hexadecimal digits of either case spell.
    pub fn read(text: &[u8]) -> Option<DiscoKey>
        ensures value { option_map (λ key. key.0) result
            ≡ key_of_text (codes "discokey:") text.now }
        ensures found { IfSome result (λ key. SpellsKey (codes "discokey:") text.now key.0) }
        ensures none { IfNone result
            ((key : List ℕ) → length key ≡ 32 → SpellsKey (codes "discokey:") text.now key → ⊥) }
    {
        Some(DiscoKey(key_bytes(b"discokey:", text)?))
    }

    /// `discokey:` and 64 digits in lower case.
    pub fn write(&self, alloc: Global) -> Result<Text, NoMemory>
        ensures value { IfOk result (λ text. text ≡ key_text (codes "discokey:") self.now.0) }
        ensures read_again { IfOk result
            (λ text. key_of_text (codes "discokey:") text ≡ Some self.now.0) }
    {
        written(alloc, "discokey:", &self.0)
    }

    /// Whether all 32 bytes are 0, which stands for no key.
    pub fn is_zero(&self) -> bool
        ensures value { IsTrue result ↔ (self.now.0 ≡ replicate 32 0) }
    {
        self.0 == [0; 32]
    }
}

impl Duplicate for MachineKey {
    fn copy(&self, _: Global) -> Result<Self, NoMemory> {
        Ok(*self)
    }
}

impl Duplicate for NodeKey {
    fn copy(&self, _: Global) -> Result<Self, NoMemory> {
        Ok(*self)
    }
}

impl Duplicate for DiscoKey {
    fn copy(&self, _: Global) -> Result<Self, NoMemory> {
        Ok(*self)
    }
}
