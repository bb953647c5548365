//! Request targets: whether bytes end inside one, and the path that one has.
ghost use Rattle.std.specs.Prelude.{◌≡◌, ◌==◌, ◌↔◌, IsTrue};
ghost use Rattle.httparse.specs.Grammar.{EndsInTarget, is_token_byte, is_uri_byte};
ghost use Rattle.http_front.specs.Target.{after, is_target, ends_in_target};
ghost use Rattle.http_front.specs.Requests.{path_of};
ghost use Rattle.http_front.specs.declared.target.Place.TheVariants.{LineStart};

/// Where in a head a byte stands, as far as a target.
#[derive(Clone, Copy, Debug, PartialEq, Eq)]
pub enum Place {
    LineStart,
    LineBreak,
    Method,
    Target,
    Elsewhere,
}

#[tactic(auto, unfolding(httparse::specs::Grammar::is_token_byte))]
fn is_token_byte(byte: u8) -> bool
    ensures value { result ≡ is_token_byte byte }
{
    byte.is_ascii_alphanumeric() || b"!#$%&'*+-.^_`|~".contains(&byte)
}

fn is_uri_byte(byte: u8) -> bool
    ensures value { result ≡ is_uri_byte byte }
{
    byte > b' ' && byte != 127
}

fn after(place: Place, byte: u8) -> Place
    ensures value { result ≡ after place byte }
{
    match place {
        Place::LineStart => {
            if byte == b'\n' {
                Place::LineStart
            } else if byte == b'\r' {
                Place::LineBreak
            } else if is_token_byte(byte) {
                Place::Method
            } else {
                Place::Elsewhere
            }
        }
        Place::LineBreak => {
            if byte == b'\n' {
                Place::LineStart
            } else {
                Place::Elsewhere
            }
        }
        Place::Method => {
            if byte == b' ' {
                Place::Target
            } else if is_token_byte(byte) {
                Place::Method
            } else {
                Place::Elsewhere
            }
        }
        Place::Target => {
            if is_uri_byte(byte) {
                Place::Target
            } else {
                Place::Elsewhere
            }
        }
        Place::Elsewhere => Place::Elsewhere,
    }
}

fn is_target(place: Place) -> bool
    ensures value { result ≡ is_target place }
{
    match place {
        Place::Target => true,
        Place::LineStart | Place::LineBreak | Place::Method | Place::Elsewhere => false,
    }
}

fn scan(bytes: &[u8]) -> bool
    ensures value { result ≡ ends_in_target LineStart bytes.now }
{
    let mut place = Place::LineStart;
    let mut rest = bytes;
    while let [byte, more @ ..] = rest {
        place = after(place, *byte);
        rest = more;
    }
    is_target(place)
}

/// Whether the bytes end inside a request target.
pub fn ends_in_target(bytes: &[u8]) -> bool
    ensures value { IsTrue result ↔ EndsInTarget bytes.now }
{
    scan(bytes)
}

/// The part of a target before its query.
pub fn path_of(target: &[u8]) -> &[u8]
    ensures value { result.now ≡ path_of target.now }
{
    match target.iter().position(|byte| *byte == b'?') {
        Some(end) => &target[..end],
        None => target,
    }
}
