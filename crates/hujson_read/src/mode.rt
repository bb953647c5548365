ghost use Rattle.std.specs.Prelude.{◌≡◌};
ghost use Rattle.hujson_read.specs.Scan.{mode_after, mark_of};

use crate::mark::Mark;

/// What is open at a place of a text, with the offset at which it began where it must end.
#[derive(Clone, Copy, Debug, PartialEq, Eq)]
pub enum Mode {
    Outside,
    InString(u32),
    /// After a backslash in a string.
    Escaped(u32),
    InLine,
    /// Between the two bytes of a `/*`.
    BlockStart(u32),
    InBlock(u32),
    /// Between the two bytes of a `*/`.
    BlockEnd,
}

impl Mode {
    /// What is open after a byte at that offset. `next` is the byte after it, or 0 at the end.
    pub fn after(self, at: u32, byte: u8, next: u8) -> Mode
        ensures value { result ≡ mode_after self at byte next }
    {
        match self {
            Mode::Outside => match (byte, next) {
                (b'"', _) => Mode::InString(at),
                (b'/', b'/') => Mode::InLine,
                (b'/', b'*') => Mode::BlockStart(at),
                _ => Mode::Outside,
            },
            Mode::InString(start) => match byte {
                b'"' => Mode::Outside,
                b'\\' => Mode::Escaped(start),
                _ => Mode::InString(start),
            },
            Mode::Escaped(start) => Mode::InString(start),
            Mode::InLine if byte == b'\n' => Mode::Outside,
            Mode::InLine => Mode::InLine,
            Mode::InBlock(_) if byte == b'*' && next == b'/' => Mode::BlockEnd,
            Mode::BlockStart(start) | Mode::InBlock(start) => Mode::InBlock(start),
            Mode::BlockEnd => Mode::Outside,
        }
    }

    /// The byte with the kind of token that it stands in. `next` is the byte after it, or 0.
    pub fn mark(self, byte: u8, next: u8) -> Mark
        ensures value { result ≡ mark_of self byte next }
    {
        match self {
            Mode::Outside => match (byte, next) {
                (b'"', _) => Mark::Quoted(byte),
                (b'/', b'/' | b'*') => Mark::Comment(byte),
                _ => Mark::Other(byte),
            },
            Mode::InString(_) | Mode::Escaped(_) => Mark::Quoted(byte),
            Mode::InLine if byte == b'\n' => Mark::Other(byte),
            Mode::InLine | Mode::BlockStart(_) | Mode::InBlock(_) | Mode::BlockEnd => {
                Mark::Comment(byte)
            }
        }
    }
}
