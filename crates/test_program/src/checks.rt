//! Policy files.
use exit_status::Status;
use harness_conversations::OFFICE;
use io_edge::{Files, MemoryFiles, MemorySink, NamedBytes, Sink};
use std::alloc::Global;
use std::test::Fail;
use tail_base::{Bytes, Items, NoMemory, Text};
use tailnet_commands::policy_check;

/// The command. The tests look at what it leaves and ask for none of its clauses.
fn check_over<O: Sink, E: Sink, F: Files>(
    alloc: Global,
    output: &mut O,
    errors: &mut E,
    files: &mut F,
) -> Status {
    policy_check(alloc, "policy.hujson", output, errors, files)
}

fn file_with(alloc: Global, text: &[u8]) -> Result<MemoryFiles, NoMemory> {
    let name = Text::from_str(alloc, "policy.hujson")?;
    let bytes = Bytes::from_slice(alloc, text)?;
    let mut list = Items::new(alloc);
    list.push(NamedBytes { name, bytes })?;
    Ok(MemoryFiles::new(list, Items::new(alloc)))
}

fn checked(alloc: Global, text: &[u8]) -> Result<(Status, MemorySink), NoMemory> {
    let mut files = file_with(alloc, text)?;
    let mut output = MemorySink::new(alloc, Items::new(alloc));
    let mut errors = MemorySink::new(alloc, Items::new(alloc));
    let status = check_over(alloc, &mut output, &mut errors, &mut files);
    Ok((status, output))
}

/// Whether `policy-check` writes this of a policy's text, with the status that goes with it.
fn is_judged(alloc: Global, text: &[u8], verdict: &[u8]) -> Result<bool, NoMemory> {
    let wanted = if verdict == b"ok\n".as_slice() {
        Status::Ok
    } else {
        Status::Refused
    };
    let (status, output) = checked(alloc, text)?;
    Ok(status == wanted && output.bytes() == verdict)
}

/// Policies without tests, and what is written of each.
const JUDGED: [(&[u8], &[u8]); 6] = [
    (b"{/* none */ \"acls\": [],} // end", b"ok\n"),
    (
        b"{/* all of it */\"ACLs\":[{\"action\":\"accept\",\"Users\":[\"*\"],\"Ports\":[\"*:*\",],}],}// open",
        b"ok\n",
    ),
    (b"{\"acls\":[],\"ACLs\":[]}", b"P3 acls\n"),
    (b"{\"x\\nok\":1}", b"P3 x\\nok\n"),
    (
        b"{\"groups\":{\"group:a\":[\"b\"]}}",
        b"P6 groups.group:a[0]\n",
    ),
    (
        b"{\"tagOwners\":{\"tag:web\":[]},\"acls\":[{\"action\":\"accept\",\"proto\":\"icmp\",\"src\":[\"*\"],\"dst\":[\"tag:web:22\",\"x\"]}]}",
        b"P17 acls[0].dst[0]\n",
    ),
];

#[test]
fn policies_are_judged(rt: HostRuntime) -> Result<(), Fail> {
    for (row, (text, verdict)) in JUDGED.iter().enumerate() {
        assert!(rt; is_judged(rt.alloc(), text, verdict)?, "row {row}");
    }
    Ok(())
}

#[test]
fn an_office_is_judged(rt: HostRuntime) -> Result<(), Fail> {
    assert!(rt; is_judged(rt.alloc(), OFFICE.as_bytes(), b"ok\n")?);
    Ok(())
}

/// Whether a line of the table holds: a policy, and what `policy-check` writes.
fn is_tested_so(alloc: Global, line: &str) -> Result<bool, Fail> {
    let (policy, verdict) = line.split_once(" => ").ok_or("no line")?;
    let verdict = format!(in alloc; "{verdict}\n")?;
    Ok(is_judged(alloc, policy.as_bytes(), verdict.as_bytes())?)
}

#[test]
fn policies_with_tests(rt: HostRuntime) -> Result<(), Fail> {
    for line in TESTED.lines() {
        assert!(rt; is_tested_so(rt.alloc(), line)?, "{line}");
    }
    Ok(())
}

#[test]
fn a_policy_may_be_too_long(rt: HostRuntime) -> Result<(), Fail> {
    let text = Vec::from_elem(rt.alloc(), b' ', 262_145)?;
    assert!(rt; is_judged(rt.alloc(), &text, b"P19 text\n")?);
    Ok(())
}

/// Policies with tests, and what is written of each.
const TESTED: &str =
    r#"{"tagOwners":{"tag:web":[]},"acls":[{"action":"accept","src":["bob@"],"dst":["tag:web:443"]}],"tests":[{"src":"bob@","deny":["tag:web:443"]}]} => P21 tests[0].deny[0]
{"groups":{"group:e":[]},"acls":[],"tests":[{"src":"group:e","accept":["group:e:22","ann@:22"],"deny":["group:e:22"]},{"src":"ann@","accept":["group:e:22"]}]} => ok
{"groups":{"group:g":["ann@","bob@"]},"acls":[{"action":"accept","proto":"udp","src":["ann@"],"dst":["cy@:53"]},{"action":"accept","proto":"tcp","src":["bob@"],"dst":["cy@:53"]}],"tests":[{"src":"group:g","accept":["cy@:53"]}]} => ok
{"groups":{"group:g":["ann@","bob@"]},"acls":[{"action":"accept","proto":"udp","src":["ann@"],"dst":["cy@:53"]},{"action":"accept","proto":"tcp","src":["bob@"],"dst":["cy@:53"]}],"tests":[{"src":"group:g","proto":"tcp","accept":["cy@:53"]}]} => P21 tests[0].accept[0]
{"groups":{"group:g":["ann@","bob@"]},"acls":[{"action":"accept","src":["ann@"],"dst":["cy@:53"]}],"tests":[{"src":"cy@","deny":["group:g:53"]},{"src":"group:g","accept":["cy@:53"]}]} => P21 tests[1].accept[0]
{"tagOwners":{"tag:web":[]},"acls":[{"action":"accept","proto":"icmp","src":["*"],"dst":["tag:web:*"]}],"tests":[{"src":"ann@","proto":"icmp","accept":["tag:web:443"]},{"src":"ann@","deny":["tag:web:443"]}]} => ok
{"tagOwners":{"tag:web":[]},"acls":[{"action":"accept","proto":"icmp","src":["*"],"dst":["tag:web:*"]}],"tests":[{"src":"ann@","accept":["tag:web:443"]}]} => P21 tests[0].accept[0]
{"tagOwners":{"tag:web":[]},"acls":[{"action":"accept","proto":"icmp","src":["*"],"dst":["tag:web:*"]}],"tests":[{"src":"ann@","proto":1,"deny":["ann@:1","tag:web:443"]}]} => P21 tests[0].deny[1]
{"acls":[{"action":"accept","src":["autogroup:member"],"dst":["autogroup:self:22"]}],"tests":[{"src":"ann@","accept":["ann@:22"],"deny":["bob@:22","ann@:23"]}]} => ok
{"groups":{"group:g":["ann@","bob@"]},"acls":[{"action":"accept","src":["autogroup:member"],"dst":["autogroup:self:22"]}],"tests":[{"src":"group:g","accept":["group:g:22"]}]} => P21 tests[0].accept[0]
{"groups":{"group:g":["ann@","bob@"],"group:h":["cy@"]},"acls":[{"action":"accept","src":["group:g"],"dst":["autogroup:self:22"]}],"tests":[{"src":"group:g","deny":["group:h:22"]},{"src":"group:g","deny":["group:g:22"]}]} => P21 tests[1].deny[0]
{"tagOwners":{"tag:a":[]},"acls":[{"action":"accept","src":["*"],"dst":["autogroup:self:*"]}],"tests":[{"src":"tag:a","deny":["tag:a:22"]}]} => ok
{"tests":[{"src":"ann@","accept":["bob@:22","100.64.0.1:22"]},{"src":"ann@","proto":"icmp","accept":["bob@:22"]},{"src":"ann@","proto":"sctp","deny":["bob@:22"]}]} => ok
{"tests":[{"src":"ann@","proto":"sctp","accept":["bob@:22"]}]} => P21 tests[0].accept[0]
{"acls":[],"tests":[{"src":"ann@","deny":["ann@:1"]},{"src":"ann@","accept":["ann@:1"],"deny":["ann@:1"]}]} => P21 tests[1].accept[0]
{"acls":[{"action":"accept","src":["ann@"],"dst":["ann@:1"]}],"tests":[{"src":"ann@","accept":["ann@:1","ann@:2"],"deny":["ann@:1"]}]} => P21 tests[0].accept[1]
{"tagOwners":{"tag:a":[],"tag:b":[]},"acls":[{"action":"accept","src":["autogroup:tagged"],"dst":["tag:a:80-90"]}],"tests":[{"src":"tag:b","accept":["tag:a:80","tag:a:90"],"deny":["tag:a:79","tag:b:80"]},{"src":"ann@","deny":["tag:a:80"]}]} => ok
{"hosts":{"nas":"100.64.0.9"},"acls":[{"action":"accept","src":["100.64.0.0/10"],"dst":["nas:445"]}],"tests":[{"src":"100.64.0.7","accept":["nas:445","100.64.0.9:445"],"deny":["100.64.0.8:445"]},{"src":"ann@","deny":["nas:445"]}]} => ok
{"hosts":{"nas":"100.64.0.9"},"acls":[{"action":"accept","src":["ann@"],"dst":["*:*"]}],"tests":[{"src":"nas","accept":["ann@:1"]}]} => P21 tests[0].accept[0]
{"acls":[{"action":"accept","src":["ann@"],"dst":["autogroup:internet:443"]}],"tests":[{"src":"ann@","accept":["1.1.1.1:443"],"deny":["10.0.0.1:443","bob@:443"]}]} => ok
{"autoApprovers":{"exitNode":["ann@"]},"tests":[{"src":"ann@","accept":["bob@:22"]}]} => ok
{"acls":[{"action":"accept","src":["ann@"],"dst":["x:1"]}],"tests":[{"src":"ann@","accept":["ann@:1"]}]} => P14 acls[0].dst[0]"#;
