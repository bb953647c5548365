ghost use Rattle.std.specs.Prelude.{◌≡◌};
ghost use Rattle.hujson_read.specs.Standard.{is_closer};
ghost use Rattle.hujson_read.specs.Scan.{marked_byte, is_comma, mark_written};

/// A byte with the kind of token that it stands in.
#[derive(Clone, Copy, Debug, PartialEq, Eq)]
pub enum Mark {
    Other(u8),
    Quoted(u8),
    Comment(u8),
}

impl Mark {
    /// The byte as it is written, until a closer is seen to follow it.
    pub fn written(self) -> u8
        ensures value { result ≡ mark_written self }
    {
        match self {
            Mark::Other(byte) | Mark::Quoted(byte) => byte,
            Mark::Comment(byte) => {
                if byte == b'\n' || byte == b'\r' {
                    byte
                } else {
                    b' '
                }
            }
        }
    }

    /// The byte, where it is neither white space nor part of a comment.
    pub fn significant(self) -> Option<u8>
        ensures value { result ≡ marked_byte self }
    {
        match self {
            Mark::Other(b' ' | b'\t' | b'\n' | b'\r') | Mark::Comment(_) => None,
            Mark::Other(byte) | Mark::Quoted(byte) => Some(byte),
        }
    }

    /// Whether it is a comma outside strings and comments.
    pub fn is_comma(self) -> bool
        ensures value { result ≡ is_comma self }
    {
        match self {
            Mark::Other(byte) => byte == b',',
            Mark::Quoted(_) | Mark::Comment(_) => false,
        }
    }
}

/// Whether it ends an array or an object.
pub fn is_closer(byte: u8) -> bool
    ensures value { result ≡ is_closer byte }
{
    byte == b']' || byte == b'}'
}
