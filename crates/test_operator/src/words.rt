//! Words, and what they ask. A `_` in the table stands for the empty word.
use command_words::{AskedFlow, Invocation, OperatorCall, read_invocation};
use http_client::ask_bytes;
use operator_requests::{OperatorRequest, operator_request};
use std::alloc::Global;
use std::test::Fail;
use tail_base::{Bytes, Text};

/// Words, and behind ` = ` what they ask: a request of an operator, or a command with its words.
const ASKED: &str = r#"pipe a.toml = pipe a.toml
pipe a.toml --seed k1 = pipe a.toml k1
pipe --seed k1 a.toml = pipe a.toml k1
pipe --seed=k1 a.toml = pipe a.toml k1
pipe a.toml --seed=k1 = pipe a.toml k1
pipe --seed k1 -- a.toml = pipe a.toml k1
pipe -- a.toml = pipe a.toml
pipe -- -a = pipe -a
pipe --seed=-k a.toml = pipe a.toml -k
serve a.toml = serve a.toml
serve -- -a = serve -a
policy-check a.hujson = policy-check a.hujson
policy-check -- -a = policy-check -a
load 1 0 = load 1 0
load 1024 100000 = load 1024 100000
explain a.toml 100.64.0.1 100.64.0.2 tcp 22 = explain a.toml 100.64.0.1 100.64.0.2 6 22
explain a.toml fd7a:115c:a1e0:0::1 0:0:0:0:0:0:0:1 1 0 = explain a.toml fd7a:115c:a1e0::1 ::1 1 0
explain a.toml 0.0.0.0 255.255.255.255 255 65535 = explain a.toml 0.0.0.0 255.255.255.255 255 65535
explain a.toml :: 8.8.8.8 ip-in-ip 53 = explain a.toml :: 8.8.8.8 4 53
explain -- -a ::1 ::2 sctp 1 = explain -a ::1 ::2 132 1
reach a.toml = reach a.toml
reach -- -a = reach -a
user-list --server s --token t = GET /api/v1/user
user-list --token=t --server=s = GET /api/v1/user
user-add Ann --server s --token t = POST /api/v1/user {"name":"Ann"}
--server s --token t = none
user-del a/b@x% --server s --token t = DELETE /api/v1/user/a%2Fb@x%25
user-del a.b_c+d-e@ --server s --token t = DELETE /api/v1/user/a.b_c+d-e@
key-list --server s --token t = GET /api/v1/preauthkey
key-add ann@ --server s --token t = POST /api/v1/preauthkey {"ephemeral":false,"reusable":false,"tags":[],"user":"ann@"}
key-add ann@ --reusable --server s --token t = POST /api/v1/preauthkey {"ephemeral":false,"reusable":true,"tags":[],"user":"ann@"}
key-add ann@ --ephemeral --tags tag:a,tag:b --expiry 2002-01-01T00:00:00Z --server s --token t = POST /api/v1/preauthkey {"ephemeral":true,"expiry":"2002-01-01T00:00:00Z","reusable":false,"tags":["tag:a","tag:b"],"user":"ann@"}
key-add ann@ --tags none --server s --token t = POST /api/v1/preauthkey {"ephemeral":false,"reusable":false,"tags":[],"user":"ann@"}
key-expire 2147483647 --server s --token t = DELETE /api/v1/preauthkey/2147483647
node-list --server s --token t = GET /api/v1/node
node-del 1 --server s --token t = DELETE /api/v1/node/1
--server s node-list --token t = none
node-list --server s --token t -- = GET /api/v1/node
node-expire 7 --server s --token t = POST /api/v1/node/7/expire {}
node-rename 7 "x" --server s --token t = POST /api/v1/node/7/rename {"name":"\"x\""}
node-rename --token t 7 --server s y = POST /api/v1/node/7/rename {"name":"y"}
node-tags 7 tag:a,none --server s --token t = POST /api/v1/node/7/tags {"tags":["tag:a","none"]}
node-tags 7 none --server s --token t = POST /api/v1/node/7/tags {"tags":[]}
node-tags 7 _ --server s --token t = POST /api/v1/node/7/tags {"tags":[""]}
node-routes 7 10.0.0.0/8,, --server s --token t = POST /api/v1/node/7/routes {"routes":["10.0.0.0/8","",""]}
pending-list --server s --token t = GET /api/v1/register
pending-admit reg-1 ann@ --server s --token t = POST /api/v1/register {"id":"reg-1","user":"ann@"}
policy-get --server s --token t = GET /api/v1/policy
policy-set a.hujson --server s --token t = PUT /api/v1/policy FILE
dns-get --server s --token t = GET /api/v1/dns
dns-set a.json --server s --token t = PUT /api/v1/dns FILE
sweep --server s --token t = POST /api/v1/sweep {}
_ = none
help = none
--help = none
-h = none
--version = none
load = none
load 1 = none
load 0 1 = none
load 1025 1 = none
load 01 1 = none
load 1 100001 = none
load 1 1 1 = none
explain = none
explain a.toml = none
explain a.toml 100.64.0.1 100.64.0.2 tcp = none
explain a.toml 100.64.0.1 100.64.0.2 tcp 22 22 = none
explain a.toml nas 100.64.0.2 tcp 22 = none
explain a.toml 100.64.0.1 nas tcp 22 = none
explain a.toml 100.64.0.1 _ tcp 22 = none
explain a.toml 100.64.0.1/32 100.64.0.2 tcp 22 = none
explain a.toml 100.64.0.1 100.64.0.0/10 tcp 22 = none
explain a.toml 100.64.0.1 [::1] tcp 22 = none
explain a.toml 100.64.0.1 ::1%lo tcp 22 = none
explain a.toml 100.64.0.01 100.64.0.2 tcp 22 = none
explain a.toml 100.64.0.1 ann@ tcp 22 = none
explain a.toml 100.64.0.1 100.64.0.2 TCP 22 = none
explain a.toml 100.64.0.1 100.64.0.2 icmpv6 22 = none
explain a.toml 100.64.0.1 100.64.0.2 _ 22 = none
explain a.toml 100.64.0.1 100.64.0.2 * 22 = none
explain a.toml 100.64.0.1 100.64.0.2 0 22 = none
explain a.toml 100.64.0.1 100.64.0.2 06 22 = none
explain a.toml 100.64.0.1 100.64.0.2 256 22 = none
explain a.toml 100.64.0.1 100.64.0.2 tcp 65536 = none
explain a.toml 100.64.0.1 100.64.0.2 tcp 022 = none
explain a.toml 100.64.0.1 100.64.0.2 tcp +22 = none
explain a.toml 100.64.0.1 100.64.0.2 tcp -1 = none
explain a.toml 100.64.0.1 100.64.0.2 tcp ssh = none
explain a.toml 100.64.0.1 100.64.0.2 tcp _ = none
explain a.toml 100.64.0.1 100.64.0.2 tcp * = none
explain a.toml 100.64.0.1 100.64.0.2 tcp 22 --seed k1 = none
explain --help = none
reach = none
reach a.toml b = none
reach a.toml --seed k1 = none
pipe = none
pipe a.toml b = none
pipe --seed a.toml = none
pipe a.toml --seed = none
pipe a.toml --seed _ = none
pipe a.toml --seed= = none
pipe a.toml --seed k1 _ = none
pipe a.toml --seed k1 b = none
pipe --seed k1 = none
pipe a.toml --seed -k = none
pipe a.toml --seed ké = none
pipe a.toml --server s = none
pipe a.toml --seed=k1 --seed=k2 = none
pipe a.toml --help = none
serve = none
serve a.toml b = none
serve a.toml --seed k1 = none
serve --help = none
policy-check = none
policy-check a.hujson b = none
policy-check a.hujson --seed k1 = none
policy-check --seed k1 a.hujson = none
policy-check -h = none
NODE-LIST --server s --token t = none
node-list --server s = none
node-list --token t = none
node-list --server s --token t x = none
node-list --server s --token t --token t = none
node-list --server -s --token t = none
node-del 0 --server s --token t = none
node-del 01 --server s --token t = none
node-del 2147483648 --server s --token t = none
node-del +1 --server s --token t = none
node-del -1 --server s --token t = none
node-del _ --server s --token t = none
node-del --server s --token t = none
node-rename y 7 --server s --token t = none
key-add ann@ --reusable=true --server s --token t = none
key-add ann@ --reusable --reusable --server s --token t = none"#;

/// The words of a line.
pub(crate) fn words_of(alloc: Global, line: &str) -> Result<Vec<String>, Fail> {
    let mut words = Vec::new(alloc);
    for word in line.split(" ") {
        let text = if word == "_" { "" } else { word };
        words.push(String::from_str(alloc, text)?)?;
    }
    Ok(words)
}

/// The body of a request behind a blank, if it has one.
fn body_text(alloc: Global, body: Option<&[u8]>) -> Result<String, Fail> {
    match body {
        None => Ok(String::new(alloc)),
        Some(body) => {
            let text = std::str::from_utf8(body).ok().ok_or("text")?;
            Ok(format!(in alloc; " {text}")?)
        }
    }
}

fn shown_request(alloc: Global, request: &OperatorRequest) -> Result<String, Fail> {
    let body = body_text(alloc, request.body.as_ref().map(|body| body.as_slice()))?;
    let (method, path) = (request.method.name(), request.path.as_str());
    Ok(format!(in alloc; "{method} {path}{body}")?)
}

/// What a request says, with `FILE` as the bytes of a file.
fn request_line(alloc: Global, call: &OperatorCall) -> Result<String, Fail> {
    let request = operator_request(alloc, &call.command, b"FILE")?;
    shown_request(alloc, &request)
}

fn pipe_line(alloc: Global, settings: &Text, seed: &Option<Text>) -> Result<String, Fail> {
    let settings = settings.as_str();
    match seed {
        None => Ok(format!(in alloc; "pipe {settings}")?),
        Some(key) => Ok(format!(in alloc; "pipe {settings} {}", key.as_str())?),
    }
}

fn explain_line(alloc: Global, settings: &Text, flow: &AskedFlow) -> Result<String, Fail> {
    let (settings, proto, port) = (settings.as_str(), flow.proto, flow.port);
    let (source, dest) = (flow.source.write(alloc)?, flow.dest.write(alloc)?);
    let (source, dest) = (source.as_str(), dest.as_str());
    Ok(format!(in alloc; "explain {settings} {source} {dest} {proto} {port}")?)
}

fn shown_invocation(alloc: Global, asked: &Option<Invocation>) -> Result<String, Fail> {
    match asked {
        None => Ok(String::from_str(alloc, "none")?),
        Some(Invocation::Operator(call)) => request_line(alloc, call),
        Some(Invocation::PolicyCheck { file }) => {
            Ok(format!(in alloc; "policy-check {}", file.as_str())?)
        }
        Some(Invocation::Load { machines, events }) => {
            Ok(format!(in alloc; "load {machines} {events}")?)
        }
        Some(Invocation::Explain { settings, flow }) => explain_line(alloc, settings, flow),
        Some(Invocation::Reach { settings }) => {
            Ok(format!(in alloc; "reach {}", settings.as_str())?)
        }
        Some(Invocation::Pipe { settings, seed }) => pipe_line(alloc, settings, seed),
        Some(Invocation::Serve { settings }) => {
            Ok(format!(in alloc; "serve {}", settings.as_str())?)
        }
    }
}

/// What words ask.
fn asked_line(alloc: Global, words: &[String]) -> Result<String, Fail> {
    let asked = read_invocation(alloc, words)?;
    shown_invocation(alloc, &asked)
}

#[test]
fn what_words_ask(rt: HostRuntime) -> Result<(), Fail> {
    for line in ASKED.lines() {
        let (words, wanted) = line.split_once(" = ").ok_or("no line")?;
        let words = words_of(rt.alloc(), words)?;
        let asked = asked_line(rt.alloc(), &words)?;
        assert!(rt; asked.as_str() == wanted, "{line} gave {asked}");
    }
    Ok(())
}

/// Whether the words ask something.
fn is_asked(alloc: Global, words: &[String]) -> Result<bool, Fail> {
    let asked = read_invocation(alloc, words)?;
    Ok(asked.is_some())
}

#[test]
fn no_words_ask_nothing(rt: HostRuntime) -> Result<(), Fail> {
    let words = Vec::new(rt.alloc());
    assert!(rt; !is_asked(rt.alloc(), &words)?);
    Ok(())
}

#[test]
fn a_seed_key_has_a_length(rt: HostRuntime) -> Result<(), Fail> {
    for (length, taken) in [(1, true), (128, true), (129, false)] {
        let mut words = words_of(rt.alloc(), "pipe a.toml --seed")?;
        let mut key = String::new(rt.alloc());
        for _ in 0..length {
            key.push_str("k")?;
        }
        words.push(key)?;
        assert!(rt; is_asked(rt.alloc(), &words)? == taken, "{length}");
    }
    Ok(())
}

#[test]
fn bytes_of_requests(rt: HostRuntime) -> Result<(), Fail> {
    let alloc = rt.alloc();
    let get = ask_bytes(alloc, "GET", "/api/v1/node", b"secret", None)?;
    assert!(rt;
        get.as_slice()
            == b"GET /api/v1/node HTTP/1.1\r\nHost: tailnetd\r\nAuthorization: Bearer secret\r\nConnection: close\r\n\r\n".as_slice()
    );
    let body = Bytes::from_slice(alloc, b"{}")?;
    let post = ask_bytes(alloc, "POST", "/p", b"a b\xff", Some(body.as_slice()))?;
    assert!(rt;
        post.as_slice()
            == b"POST /p HTTP/1.1\r\nHost: tailnetd\r\nAuthorization: Bearer a%20b%FF\r\nConnection: close\r\nContent-Type: application/json\r\nContent-Length: 2\r\n\r\n{}".as_slice()
    );
    Ok(())
}
