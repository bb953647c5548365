//! Routes: operators approve them, policies approve them, and maps show each at one router.
//!
//! A line of `APPROVALS` stands for a conversation: its name, the tags of a machine of seed@, the routes that it advertises, those that
//! an operator gives, or `~` where none is asked, the policy's `autoApprovers`, the routes that the operator has approved then, and
//! those that are served, with ` ; ` between them and `-` for none.
use crate::held::assert_held;
use exit_status::Status;
use harness_pipe::piped_behind;
use std::alloc::Global;
use std::test::Fail;
use tail_base::NoMemory;

const APPROVALS: &str = r##"nobody ; - ; 10.1.0.0/16 ; ~ ; {} ; - ; -
operator ; - ; 10.1.0.0/16,10.2.0.0/16 ; 10.2.0.0/16 ; {} ; 10.2.0.0/16 ; 10.2.0.0/16
operator-no-more ; - ; 10.1.0.0/16 ; - ; {} ; - ; -
operator-in-another-order ; - ; 10.1.0.0/16,10.2.0.0/16,fd00:1::/64 ; fd00:1::/64,10.2.0.0/16,10.1.0.0/16,10.2.0.0/16 ; {} ; 10.1.0.0/16,10.2.0.0/16,fd00:1::/64 ; 10.1.0.0/16,10.2.0.0/16,fd00:1::/64
user ; - ; 10.1.0.0/16 ; ~ ; {"routes":{"10.1.0.0/16":["seed@"]}} ; - ; 10.1.0.0/16
user-in-capitals ; - ; 10.1.0.0/16 ; ~ ; {"routes":{"10.1.0.0/16":["bob@","SEED@"]}} ; - ; 10.1.0.0/16
another-user ; - ; 10.1.0.0/16 ; ~ ; {"routes":{"10.1.0.0/16":["bob@"]}} ; - ; -
group ; - ; 10.1.0.0/16 ; ~ ; {"routes":{"10.1.0.0/16":["group:g"]}} ; - ; 10.1.0.0/16
tag ; tag:r ; 10.1.0.0/16 ; ~ ; {"routes":{"10.1.0.0/16":["tag:r"]}} ; - ; 10.1.0.0/16
another-tag ; tag:r ; 10.1.0.0/16 ; ~ ; {"routes":{"10.1.0.0/16":["tag:s"]}} ; - ; -
tag-of-another-machine ; - ; 10.1.0.0/16 ; ~ ; {"routes":{"10.1.0.0/16":["tag:r"]}} ; - ; -
user-of-a-tagged-machine ; tag:r ; 10.1.0.0/16 ; ~ ; {"routes":{"10.1.0.0/16":["seed@","group:g"]}} ; - ; -
operator-of-a-tagged-machine ; tag:r ; 10.1.0.0/16 ; 10.1.0.0/16 ; {} ; 10.1.0.0/16 ; 10.1.0.0/16
prefix-wider ; - ; 10.1.0.0/16 ; ~ ; {"routes":{"10.0.0.0/8":["seed@"]}} ; - ; 10.1.0.0/16
prefix-narrower ; - ; 10.1.0.0/16 ; ~ ; {"routes":{"10.1.0.0/17":["seed@"],"10.1.128.0/17":["seed@"]}} ; - ; -
prefix-beside ; - ; 10.1.0.0/16 ; ~ ; {"routes":{"10.2.0.0/15":["seed@"],"10.0.0.0/16":["seed@"]}} ; - ; -
prefix-of-the-other-family ; - ; 10.1.0.0/16,fd00:1::/64 ; ~ ; {"routes":{"::/0":["seed@"]}} ; - ; fd00:1::/64
all-prefixes ; - ; 0.0.0.0/0,10.1.0.0/16,::/0,2001:db8::/32 ; ~ ; {"routes":{"0.0.0.0/0":["seed@"],"::/0":["seed@"]}} ; - ; 10.1.0.0/16,2001:db8::/32
inside-the-tailnet ; - ; 100.64.8.0/24,fd7a:115c:a1e0:1::/64 ; ~ ; {"routes":{"100.64.0.0/10":["seed@"],"::/0":["seed@"]}} ; - ; -
across-the-tailnet ; - ; 100.0.0.0/8,fc00::/7 ; ~ ; {"routes":{"0.0.0.0/0":["seed@"],"::/0":["seed@"]}} ; - ; -
beside-the-tailnet ; - ; 100.0.0.0/10,100.128.0.0/9,fd7a:115c:a1e1::/48 ; ~ ; {"routes":{"0.0.0.0/0":["seed@"],"::/0":["seed@"]}} ; - ; 100.0.0.0/10,100.128.0.0/9,fd7a:115c:a1e1::/48
exit-by-operator ; - ; 0.0.0.0/0,10.1.0.0/16,::/0 ; 0.0.0.0/0 ; {} ; 0.0.0.0/0,::/0 ; 0.0.0.0/0,::/0
exit-and-route-by-operator ; - ; 0.0.0.0/0,10.1.0.0/16,::/0 ; 10.1.0.0/16,::/0 ; {} ; 0.0.0.0/0,10.1.0.0/16,::/0 ; 10.1.0.0/16,0.0.0.0/0,::/0
exit-by-user ; - ; 0.0.0.0/0,::/0 ; ~ ; {"exitNode":["seed@"]} ; - ; 0.0.0.0/0,::/0
exit-by-group ; - ; 0.0.0.0/0,::/0 ; ~ ; {"exitNode":["tag:s","group:g"]} ; - ; 0.0.0.0/0,::/0
exit-by-tag ; tag:r ; 0.0.0.0/0,::/0 ; ~ ; {"exitNode":["tag:r"]} ; - ; 0.0.0.0/0,::/0
exit-by-another-user ; - ; 0.0.0.0/0,::/0 ; ~ ; {"exitNode":["bob@"]} ; - ; -
exit-by-user-of-a-tagged-machine ; tag:r ; 0.0.0.0/0,::/0 ; ~ ; {"exitNode":["seed@"]} ; - ; -
half-an-exit ; - ; 0.0.0.0/0,10.1.0.0/16 ; 10.1.0.0/16 ; {"exitNode":["seed@"]} ; 10.1.0.0/16 ; 10.1.0.0/16
other-half-of-an-exit ; - ; ::/0 ; ~ ; {"exitNode":["seed@"]} ; - ; -
everyone-at-once ; - ; 0.0.0.0/0,10.1.0.0/16,192.168.5.0/24,192.168.6.0/24,::/0 ; 192.168.5.0/24 ; {"routes":{"10.0.0.0/8":["seed@"]},"exitNode":["group:g"]} ; 192.168.5.0/24 ; 10.1.0.0/16,192.168.5.0/24,0.0.0.0/0,::/0"##;

/// What stands before the next ` ; `, and what stands behind it.
fn parted(line: &str) -> (&str, &str) {
    match line.split_once(" ; ") {
        Some(parts) => parts,
        None => (line, ""),
    }
}

/// The texts of a list, joined by commas, each in quotes; none for `-`.
fn add_texts(out: &mut String, list: &str) -> Result<(), NoMemory> {
    if list == "-" {
        return Ok(());
    }
    let mut is_first = true;
    for text in list.split(",") {
        out.push_str(if is_first { "\"" } else { ",\"" })?;
        out.push_str(text)?;
        out.push_str("\"")?;
        is_first = false;
    }
    Ok(())
}

fn texts(alloc: Global, list: &str) -> Result<String, NoMemory> {
    let mut out = String::new(alloc);
    add_texts(&mut out, list)?;
    Ok(out)
}

/// The machine, with these tags, advertised, approved and served routes, as an operator is shown it.
fn node(
    alloc: Global,
    tags: &str,
    advertised: &str,
    approved: &str,
    served: &str,
) -> Result<String, NoMemory> {
    let tags = texts(alloc, tags)?;
    let advertised = texts(alloc, advertised)?;
    let approved = texts(alloc, approved)?;
    let served = texts(alloc, served)?;
    let text = format!(in alloc;
        r#"{{"addresses":["100.64.0.1","fd7a:115c:a1e0::1"],"advertised":[{advertised}],"approved":[{approved}],"expiry":"0001-01-01T00:00:00Z","id":1,"live":true,"name":"node","online":false,"served":[{served}],"tags":[{tags}],"user":"seed@"}}"#
    )?;
    Ok(text)
}

/// The machine comes under a policy with these approvers.
fn add_setup(
    alloc: Global,
    out: &mut String,
    tags: &str,
    advertised: &str,
    approvers: &str,
) -> Result<(), NoMemory> {
    let policy = format!(in alloc;
        "> PUT /api/v1/policy Bearer/secret {{\"groups\":{{\"group:g\":[\"seed@\"]}},\"tagOwners\":{{\"tag:r\":[\"seed@\"],\"tag:s\":[]}},\"autoApprovers\":{approvers}}}\n< 200 {{}}\n"
    )?;
    out.push_str(policy.as_str())?;
    let tags = texts(alloc, tags)?;
    let advertised = texts(alloc, advertised)?;
    let comes = format!(in alloc;
        "> POST /machine/register mkey:%1 {{\"Auth\":{{\"AuthKey\":\"k1\"}},\"NodeKey\":\"nodekey:%1\",\"Hostinfo\":{{\"RequestTags\":[{tags}],\"RoutableIPs\":[{advertised}]}}}}\n< registered\n"
    )?;
    out.push_str(comes.as_str())?;
    Ok(())
}

/// The operator's request, if there is one, and the list of machines, which have this node.
fn add_answers(alloc: Global, out: &mut String, given: &str, node: &str) -> Result<(), NoMemory> {
    if given != "~" {
        let given = texts(alloc, given)?;
        let asked = format!(in alloc;
            "> POST /api/v1/node/1/routes Bearer/secret {{\"routes\":[{given}]}}\n< 200 {node}\n"
        )?;
        out.push_str(asked.as_str())?;
    }
    let listed = format!(in alloc;
        "> GET /api/v1/node Bearer/secret\n< 200 {{\"nodes\":[{node}]}}\n"
    )?;
    out.push_str(listed.as_str())?;
    Ok(())
}

/// The conversation that a line stands for.
fn add_approval(alloc: Global, out: &mut String, line: &str) -> Result<(), NoMemory> {
    let (name, rest) = parted(line);
    let (tags, rest) = parted(rest);
    let (advertised, rest) = parted(rest);
    let (given, rest) = parted(rest);
    let (approvers, rest) = parted(rest);
    let (approved, served) = parted(rest);
    let begins = format!(in alloc; "= {name}\n")?;
    out.push_str(begins.as_str())?;
    add_setup(alloc, out, tags, advertised, approvers)?;
    let node = node(alloc, tags, advertised, approved, served)?;
    add_answers(alloc, out, given, node.as_str())
}

/// The table of approvals as `talks` has it.
fn approvals(alloc: Global) -> Result<String, NoMemory> {
    let mut talks = String::new(alloc);
    for line in APPROVALS.lines() {
        add_approval(alloc, &mut talks, line)?;
    }
    Ok(talks)
}

#[test]
fn routes_are_served_where_they_are_approved(rt: HostRuntime) -> Result<(), Fail> {
    let talks = approvals(rt.alloc())?;
    assert_held(&rt, rt.alloc(), talks.as_str())?;
    Ok(())
}

const APPROVING: &[u8] =
    b"POST /machine/register HTTP/1.1\r\nHost: tail\r\nTs-Machine-Key: mkey:1111111111111111111111111111111111111111111111111111111111111111\r\nContent-Length: 153\r\n\r\n{\"Auth\":{\"AuthKey\":\"k1\"},\"NodeKey\":\"nodekey:aaaaaaaaaaaaaaaaaaaaaaaaaaaaaaaaaaaaaaaaaaaaaaaaaaaaaaaaaaaaaaaa\",\"Hostinfo\":{\"RoutableIPs\":[\"10.1.0.0/16\"]}}POST /api/v1/node/1/routes HTTP/1.1\r\nHost: tail\r\nAuthorization: Bearer secret\r\nContent-Length: 26\r\n\r\n{\"routes\":[\"10.1.0.0/16\"]}";

const LISTING: &[u8] =
    b"GET /api/v1/node HTTP/1.1\r\nHost: tail\r\nAuthorization: Bearer secret\r\n\r\n";

/// Approvals are kept: a program that begins over the tables serves the routes.
/// The list of the machine whose route is approved and served.
fn listed(alloc: Global) -> Result<String, NoMemory> {
    let node = node(alloc, "-", "10.1.0.0/16", "10.1.0.0/16", "10.1.0.0/16")?;
    Ok(format!(in alloc; "{{\"nodes\":[{node}]}}")?)
}

/// Whether the approvals of one run are those of the next.
fn are_opened(alloc: Global) -> Result<bool, NoMemory> {
    let nodes = listed(alloc)?;
    match piped_behind(alloc, APPROVING, LISTING)? {
        Some(ran) => Ok(ran.status == Status::Ok && ran.output.bytes().ends_with(nodes.as_bytes())),
        None => Ok(false),
    }
}

#[test]
fn kept_approvals_are_opened(rt: HostRuntime) -> Result<(), Fail> {
    assert!(rt; are_opened(rt.alloc())?);
    Ok(())
}
