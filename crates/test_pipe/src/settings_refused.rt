//! Settings that are refused.
use crate::registrations::FIRST;
use exit_status::Status;
use harness_pipe::{CALM, piped};
use std::alloc::Global;
use std::test::Fail;
use tail_base::NoMemory;

/// Settings, and the line by which they are refused.
const REFUSED: [(&[u8], &[u8]); 2] = [
    (
        b"base_domain = \"tail.example\"\nserver_url = \"http://tail.example\"\ntoken = \"secret\"\nworkers = 0\n",
        b"tailnetd: settings S4 workers\n",
    ),
    (b"token = 7\n", b"tailnetd: settings S3 token\n"),
];

/// Whether settings are refused with this line, and nothing else is written.
fn are_refused(alloc: Global, settings: &[u8], line: &[u8]) -> Result<bool, NoMemory> {
    let ran = piped(alloc, settings, FIRST, &CALM)?;
    Ok(
        ran.status == Status::Settings
            && ran.errors.bytes() == line
            && ran.output.bytes().is_empty(),
    )
}

#[test]
fn settings_that_are_refused(rt: HostRuntime) -> Result<(), Fail> {
    for (row, (settings, line)) in REFUSED.iter().enumerate() {
        assert!(rt; are_refused(rt.alloc(), settings, line)?, "row {row}");
    }
    Ok(())
}
