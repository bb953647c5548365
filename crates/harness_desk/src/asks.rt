//! What is asked, as lines of a text.
ghost use Rattle.std.specs.Prelude.{IfOk};
ghost use Rattle.tailnet_desk.specs.Asks.{IsShort};

use desk_front::{Front, Wanted};
use http::Method;
use http_front::Request;
use std::alloc::Global;
use tail_base::{Bytes, NoMemory, Text};
use tailnet_desk::Ask;

/// The first line seeds a user and the key with this text. Any other is a request: its method, its
/// path, who sends it (`operator`, or a machine's key) and its body; `%x` stands for 64 times `x`.
///
/// Each of them changes rows, some of them several at once, and no table is left out.
const ASKS: &str = r#"seed k1
POST /machine/register mkey:%1 {"Auth":{"AuthKey":"k1"},"Hostinfo":{"Hostname":"one"},"NodeKey":"nodekey:%a"}
POST /machine/register mkey:%2 {"Hostinfo":{"Hostname":"two"},"NodeKey":"nodekey:%b"}
POST /api/v1/user operator {"name":"ann"}
POST /api/v1/preauthkey operator {"user":"ann@","expiry":"2002-01-01T00:00:00Z"}
POST /api/v1/register operator {"id":"reg-1-00000000000000010000000000000002","user":"ann@"}
POST /machine/map mkey:%1 {"Endpoints":["192.0.2.7:41641"],"Hostinfo":{"RoutableIPs":["192.168.5.0/24"]},"NodeKey":"nodekey:%a","OmitPeers":true}
POST /api/v1/node/1/routes operator {"routes":["192.168.5.0/24"]}
PUT /api/v1/policy operator {"tagOwners":{"tag:web":["seed@"]}}
PUT /api/v1/dns operator [{"Name":"nas.tail.example","Value":"192.168.5.9"},{"Name":"nas.tail.example","Value":"fd7a::9"}]
PUT /api/v1/dns operator [{"Name":"web.tail.example","Value":"192.168.5.8"}]
DELETE /api/v1/node/2 operator
"#;

/// An ask behind the others that changes rows whatever was done of them.
pub const LAST_CHANGE: &str = r#"POST /api/v1/user operator {"name":"bob"}"#;

/// An ask that changes no row.
pub const QUESTION: &str = "GET /api/v1/node operator";

/// The lines of the asks.
pub fn script(alloc: Global) -> Result<Vec<&'static str>, NoMemory> {
    let mut lines = Vec::new(alloc);
    for line in ASKS.lines() {
        lines.push(line)?;
    }
    Ok(lines)
}

/// The line is no ask, or out of memory.
#[derive(Clone, Copy, Drop)]
pub(crate) struct NoAsk;

impl From<NoMemory> for NoAsk {
    fn from(_error: NoMemory) -> NoAsk {
        NoAsk
    }
}

/// What stands before the first space, and what stands behind it.
fn cut(line: &str) -> (&str, &str) {
    match line.split_once(" ") {
        Some(parts) => parts,
        None => (line, ""),
    }
}

/// The bytes of a text in which `%x` stands for 64 times `x`.
fn wide(alloc: Global, text: &str) -> Result<Bytes, NoMemory> {
    let mut bytes = Vec::new(alloc);
    let mut is_wide = false;
    for byte in text.bytes() {
        if is_wide {
            for _digit in 0..64 {
                bytes.push(byte)?;
            }
            is_wide = false;
        } else if byte == b'%' {
            is_wide = true;
        } else {
            bytes.push(byte)?;
        }
    }
    Ok(Bytes::from_vec(bytes))
}

/// The token and the machine's key of who sends a request.
fn sender(alloc: Global, word: &str) -> Result<(Option<Bytes>, Option<Bytes>), NoMemory> {
    if word == "operator" {
        let token = Bytes::from_slice(alloc, b"Bearer secret")?;
        Ok((Some(token), None))
    } else {
        Ok((None, Some(wide(alloc, word)?)))
    }
}

/// A method and a path.
fn target(alloc: Global, method: &str, path: &str) -> Result<(Method, Bytes), NoAsk> {
    let path = Bytes::from_slice(alloc, path.as_bytes())?;
    match Method::from_bytes(alloc, method.as_bytes()) {
        Ok(method) => Ok((method, path)),
        Err(_) => Err(NoAsk),
    }
}

fn request_of(alloc: Global, line: &str) -> Result<Request, NoAsk> {
    let (method, rest) = cut(line);
    let (path, rest) = cut(rest);
    let (word, body) = cut(rest);
    let body = wide(alloc, body)?;
    let (token, machine) = sender(alloc, word)?;
    let (method, path) = target(alloc, method, path)?;
    Ok(Request {
        method,
        path,
        token,
        machine,
        close: false,
        body,
    })
}

/// What a request asks of the desk.
fn wanted(alloc: Global, front: &Front, line: &str) -> Result<Ask, NoAsk>
    ensures short { IfOk result IsShort }
{
    let request = request_of(alloc, line)?;
    match front.wanted(alloc, &request)? {
        Wanted::Ask(ask) => Ok(ask),
        Wanted::Poll(_) | Wanted::Fault { .. } | Wanted::Answer { .. } => Err(NoAsk),
    }
}

/// The ask of a line.
pub(crate) fn ask_of(alloc: Global, front: &Front, line: &str) -> Result<Ask, NoAsk>
    ensures short { IfOk result IsShort }
{
    match line.strip_prefix("seed ") {
        Some(text) => Ok(Ask::Seed {
            text: Text::from_str(alloc, text)?,
        }),
        None => wanted(alloc, front, line),
    }
}
