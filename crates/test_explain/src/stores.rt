//! Stores that conversations of `pipe` leave, and what is written of them.
use crate::asked::{Given, given_over, status_of};
use exit_status::Status;
use harness_pipe::{CALM, SETTINGS, cut, tables_at, talk_bytes};
use io_edge::MemoryClock;
use net_rows::Tables;
use std::alloc::Global;
use std::sync::Wait;
use std::test::Fail;
use std::thread::Threads;
use tail_base::{Items, NoMemory};

const NOON: i64 = 1_000_000_000;

/// Two machines of seed@.
const TWO: &str =
    r#"> POST /machine/register mkey:%1 {"Auth":{"AuthKey":"k1"},"NodeKey":"nodekey:%1"}
> POST /machine/register mkey:%2 {"Auth":{"AuthKey":"k1"},"NodeKey":"nodekey:%2"}
"#;

/// The machines 1 and 4 of seed@, 2 of seed@ with a tag, and 3 of bob@.
const FOUR: &str = r#"> POST /api/v1/user Bearer/secret {"name":"bob"}
> POST /api/v1/preauthkey Bearer/secret {"user":"bob@"}
> PUT /api/v1/policy Bearer/secret {"tagOwners":{"tag:web":["seed@"]}}
> POST /machine/register mkey:%1 {"Auth":{"AuthKey":"k1"},"NodeKey":"nodekey:%1"}
> POST /machine/register mkey:%2 {"Auth":{"AuthKey":"k1"},"NodeKey":"nodekey:%2","Hostinfo":{"RequestTags":["tag:web"]}}
> POST /machine/register mkey:%3 {"Auth":{"AuthKey":"tnkey-2-0000000000000001000000000000000200000000000000030000000000000004"},"NodeKey":"nodekey:%3"}
> POST /machine/register mkey:%4 {"Auth":{"AuthKey":"k1"},"NodeKey":"nodekey:%4"}
"#;

/// Machine 2 of seed@ offers a route, 3 both exit routes; an operator approves them.
const ROUTERS: &str =
    r#"> POST /machine/register mkey:%1 {"Auth":{"AuthKey":"k1"},"NodeKey":"nodekey:%1"}
> POST /machine/register mkey:%2 {"Auth":{"AuthKey":"k1"},"NodeKey":"nodekey:%2","Hostinfo":{"RoutableIPs":["10.1.0.0/16"]}}
> POST /machine/register mkey:%3 {"Auth":{"AuthKey":"k1"},"NodeKey":"nodekey:%3","Hostinfo":{"RoutableIPs":["0.0.0.0/0","::/0"]}}
> POST /api/v1/node/2/routes Bearer/secret {"routes":["10.1.0.0/16"]}
> POST /api/v1/node/3/routes Bearer/secret {"routes":["0.0.0.0/0"]}
"#;

/// Stores, and questions about them. `=` begins a store with the conversation of that name, to which the requests behind it
/// are added; `#` is a comment. In any other line stands the second at which is asked, counted from that of the conversation,
/// `reach` or a flow, and behind ` =` what is written: pairs and their rules; or rule and entry.
const STORES: &str = r#"= two
0 reach = 1,2,0 2,1,0
0 100.64.0.1 100.64.0.2 tcp 22 = 0 0
0 8.8.8.8 ::1 17 65535 = 0 0
0 100.64.0.1 100.64.0.2 gre 0 = denied
= two
> PUT /api/v1/policy Bearer/secret {}
0 reach = 1,2,0 2,1,0
0 100.64.0.1 fd7a:115c:a1e0::2 icmp 0 = 0 0
0 100.64.0.1 100.64.0.2 sctp 22 = denied
= two
> PUT /api/v1/policy Bearer/secret {"acls":[]}
0 reach =
0 100.64.0.1 100.64.0.2 tcp 22 = denied
# the first rule by its protocol, the second by its second entry, the third by ports
= two
> PUT /api/v1/policy Bearer/secret {"acls":[{"action":"accept","proto":"icmp","src":["100.64.0.1"],"dst":["*:*"]},{"action":"accept","src":["seed@"],"dst":["100.64.0.9:*","100.64.0.2:*"]},{"action":"accept","src":["*"],"dst":["*:22,80-90"]},{"action":"accept","proto":"sctp","src":["*"],"dst":["100.64.0.1:7"]}]}
0 reach = 1,2,0 2,1,2
0 100.64.0.1 100.64.0.2 icmp 9 = 0 0
0 100.64.0.1 100.64.0.2 tcp 22 = 1 1
0 100.64.0.1 100.64.0.2 icmp 22 = 0 0
0 fd7a:115c:a1e0::1 100.64.0.2 icmp 23 = 1 1
0 100.64.0.2 100.64.0.1 tcp 22 = 2 0
0 100.64.0.2 100.64.0.1 udp 85 = 2 0
0 100.64.0.2 100.64.0.1 tcp 23 = denied
0 100.64.0.2 100.64.0.1 icmp 23 = 2 0
0 100.64.0.2 100.64.0.1 sctp 7 = 3 0
0 100.64.0.2 100.64.0.1 sctp 8 = denied
0 100.64.0.2 100.64.0.1 sctp 22 = denied
# a router is reached by its approved route, and not beside it
= routers
> PUT /api/v1/policy Bearer/secret {"acls":[{"action":"accept","src":["100.64.0.1"],"dst":["10.2.0.0/16:*"]},{"action":"accept","src":["100.64.0.1"],"dst":["10.1.2.0/24:80"]}]}
0 reach = 1,2,1
0 100.64.0.1 10.1.2.3 tcp 80 = 1 0
0 100.64.0.1 10.2.0.1 tcp 80 = 0 0
0 100.64.0.1 10.1.3.1 tcp 80 = denied
0 100.64.0.1 100.64.0.2 tcp 80 = denied
# an exit node
= routers
> PUT /api/v1/policy Bearer/secret {"acls":[{"action":"accept","src":["seed@"],"dst":["autogroup:internet:443"]}]}
0 reach = 1,3,0 2,3,0
0 100.64.0.1 8.8.8.8 tcp 443 = 0 0
0 100.64.0.1 2001:db8::1 udp 443 = 0 0
0 100.64.0.1 8.8.8.8 tcp 80 = denied
0 100.64.0.1 10.1.0.1 tcp 443 = denied
0 100.64.0.9 8.8.8.8 tcp 443 = denied
# tags, groups, and machines of one user
= four
> PUT /api/v1/policy Bearer/secret {"groups":{"group:g":["bob@"]},"tagOwners":{"tag:web":[]},"acls":[{"action":"accept","src":["group:g"],"dst":["tag:web:80"]},{"action":"accept","src":["tag:web"],"dst":["seed@:1","bob@:*"]},{"action":"accept","src":["autogroup:member"],"dst":["autogroup:self:*"]}]}
0 reach = 1,4,2 2,1,1 2,3,1 2,4,1 3,2,0 4,1,2
0 100.64.0.3 fd7a:115c:a1e0::2 tcp 80 = 0 0
0 100.64.0.2 100.64.0.3 tcp 9 = 1 1
0 100.64.0.2 100.64.0.1 tcp 1 = 1 0
0 100.64.0.1 100.64.0.4 tcp 9 = 2 0
0 100.64.0.1 100.64.0.1 tcp 9 = 2 0
0 100.64.0.1 100.64.0.2 tcp 80 = denied
0 100.64.0.2 100.64.0.2 tcp 80 = denied
# grants stand behind rules, one for each element of `ip`
= four
> PUT /api/v1/policy Bearer/secret {"tagOwners":{"tag:web":[]},"acls":[{"action":"accept","src":["seed@"],"dst":["bob@:22"]}],"grants":[{"src":["bob@"],"dst":["seed@","tag:web"],"ip":["icmp:*","tcp:80"]}]}
0 reach = 1,3,0 3,1,1 3,2,1 3,4,1 4,3,0
0 100.64.0.1 100.64.0.3 tcp 22 = 0 0
0 100.64.0.3 100.64.0.2 tcp 80 = 2 1
0 100.64.0.3 100.64.0.4 icmp 80 = 1 0
# a machine's life ends between two answers of the clock
= two
> PUT /api/v1/policy Bearer/secret {"acls":[{"action":"accept","src":["seed@"],"dst":["seed@:*"]},{"action":"accept","src":["*"],"dst":["100.64.0.2:22"]}]}
> POST /api/v1/node/2/expire Bearer/secret {"expiry":"2001-09-09T01:46:50Z"}
9 reach = 1,2,0 2,1,0
9 100.64.0.1 100.64.0.2 tcp 80 = 0 0
10 reach =
10 100.64.0.1 100.64.0.2 tcp 80 = denied
10 100.64.0.1 100.64.0.2 tcp 22 = 1 0
10 100.64.0.2 100.64.0.1 tcp 80 = denied"#;

/// The conversation of three machines of ann's, one of them with a tag, and one of bob's, of which one user's reach one
/// another.
const SELF_FILTER: &str = r#"> POST /api/v1/user Bearer/secret {"name":"ann"}
> POST /api/v1/user Bearer/secret {"name":"bob"}
> PUT /api/v1/policy Bearer/secret {"tagOwners":{"tag:srv":["ann@"]},"acls":[{"action":"accept","src":["autogroup:member"],"dst":["autogroup:self:*"]}]}
> POST /api/v1/preauthkey Bearer/secret {"user":"ann@","reusable":true}
> POST /api/v1/preauthkey Bearer/secret {"user":"bob@","reusable":true}
> POST /machine/register mkey:%1 {"Auth":{"AuthKey":"tnkey-2-0000000000000001000000000000000200000000000000030000000000000004"},"NodeKey":"nodekey:%a"}
> POST /machine/register mkey:%2 {"Auth":{"AuthKey":"tnkey-2-0000000000000001000000000000000200000000000000030000000000000004"},"NodeKey":"nodekey:%b"}
> POST /machine/register mkey:%3 {"Auth":{"AuthKey":"tnkey-2-0000000000000001000000000000000200000000000000030000000000000004"},"Hostinfo":{"RequestTags":["tag:srv"]},"NodeKey":"nodekey:%c"}
> POST /machine/register mkey:%4 {"Auth":{"AuthKey":"tnkey-3-0000000000000001000000000000000200000000000000030000000000000004"},"NodeKey":"nodekey:%d"}"#;

/// The rows `explain-self`, `explain-denied` and `reach-self`.
const SELF_ROWS: &str = "= self
0 100.64.0.1 100.64.0.2 tcp 22 = 0 0
0 100.64.0.1 100.64.0.3 tcp 22 = denied
0 reach = 1,2,0 2,1,0";

/// The tables that a conversation leaves.
fn tables_of(alloc: Global, conversation: &str) -> Result<Tables, Fail> {
    let (requests, _answers) = talk_bytes(alloc, conversation)?;
    let mut moments = Items::new(alloc);
    moments.push(NOON)?;
    let clock = MemoryClock::new(moments);
    let (status, tables) = tables_at(alloc, clock, Tables::empty(alloc), SETTINGS, &requests)?;
    if status == Status::Ok {
        Ok(tables)
    } else {
        Err(Fail::from("the conversation breaks off"))
    }
}

/// The lines of pairs and their rules.
fn pairs_text(alloc: Global, pairs: &str) -> Result<String, NoMemory> {
    let mut text = String::from_str(alloc, "source,destination,rule\n")?;
    for pair in pairs.split(" ") {
        if !pair.is_empty() {
            text.push_str(pair)?;
            text.push_str("\n")?;
        }
    }
    Ok(text)
}

/// The words of a question, and what is written then.
fn question_of(alloc: Global, asked: &str, wanted: &str) -> Result<(String, String), NoMemory> {
    if asked == "reach" {
        let words = String::from_str(alloc, "reach tailnet.toml")?;
        return Ok((words, pairs_text(alloc, wanted)?));
    }
    let words = format!(in alloc; "explain tailnet.toml {asked}")?;
    if wanted == "denied" {
        return Ok((words, String::from_str(alloc, "denied\n")?));
    }
    let (rule, entry) = cut(wanted);
    Ok((
        words,
        format!(in alloc; "granted rule {rule} entry {entry}\n")?,
    ))
}

/// Whether words are answered so, and nothing else is left.
fn is_answered<R: Threads + Wait + Sync>(
    rt: &R,
    alloc: Global,
    given: &mut Given,
    words: &str,
    wanted: &str,
) -> Result<bool, Fail> {
    let status = status_of(rt, alloc, words, given)?;
    Ok(
        status == Status::Ok
            && given.output.bytes() == wanted.as_bytes()
            && given.errors.bytes().is_empty(),
    )
}

/// Whether a line of a table is what is written.
fn is_so<R: Threads + Wait + Sync>(
    rt: &R,
    alloc: Global,
    tables: Tables,
    line: &str,
) -> Result<bool, Fail> {
    let (asked, wanted) = line.split_once(" =").ok_or("no line")?;
    let (second, asked) = cut(asked);
    let second = second.parse::<u32>().ok().ok_or("no second")?;
    let (words, wanted) = question_of(alloc, asked, wanted.trim_start())?;
    let mut given = given_over(alloc, tables, NOON + i64::from(second), &CALM)?;
    is_answered(rt, alloc, &mut given, words.as_str(), wanted.as_str())
}

/// The conversation with which a store begins.
fn beginning(name: &str) -> &'static str {
    match name {
        "four" => FOUR,
        "routers" => ROUTERS,
        "self" => SELF_FILTER,
        _ => TWO,
    }
}

/// Whether a question about the store that a conversation leaves is answered so.
fn is_told<R: Threads + Wait + Sync>(
    rt: &R,
    alloc: Global,
    conversation: &str,
    line: &str,
) -> Result<bool, Fail> {
    let tables = tables_of(alloc, conversation)?;
    is_so(rt, alloc, tables, line)
}

/// Adds a line of a conversation.
fn add_request(conversation: &mut String, line: &str) -> Result<(), NoMemory> {
    conversation.push_str(line)?;
    Ok(conversation.push_str("\n")?)
}

/// The number of the first line that isn't so, counted from 1; 0 if all are.
fn first_untold<R: Threads + Wait + Sync>(
    rt: &R,
    alloc: Global,
    text: &str,
) -> Result<usize, Fail> {
    let mut conversation = String::new(alloc);
    for (at, line) in text.lines().enumerate() {
        if let Some(name) = line.strip_prefix("= ") {
            conversation = String::from_str(alloc, beginning(name))?;
        } else if line.starts_with("> ") {
            add_request(&mut conversation, line)?;
        } else if !line.starts_with("#") && !is_told(rt, alloc, conversation.as_str(), line)? {
            return Ok(at.saturating_add(1));
        }
    }
    Ok(0)
}

#[test]
fn rows_of_one_user(rt: HostRuntime) -> Result<(), Fail> {
    let line = first_untold(&rt, rt.alloc(), SELF_ROWS)?;
    assert_eq!(rt; line, 0);
    Ok(())
}

#[test]
fn what_is_written_of_stores(rt: HostRuntime) -> Result<(), Fail> {
    let line = first_untold(&rt, rt.alloc(), STORES)?;
    assert_eq!(rt; line, 0);
    Ok(())
}
