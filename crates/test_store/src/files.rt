//! Databases in files, opened as the program opens them.
use harness_keeper::{has_one_opener, keep_and_close, keep_and_drop, reads};
use keeper_sqlite::HostOpener;
use std::fs;
use std::os::unix::fs::MetadataExt;
use std::test::Fail;

const FOLDER: &str = "store_cases_files";

const FILE: &str = "store_cases_files/tailnet.db";

const LOG: &str = "store_cases_files/tailnet.db-wal";

fn mode(rt: &HostRuntime, name: &str) -> Result<u32, Fail> {
    Ok(fs::metadata(rt, name)?.mode() & 0o777)
}

/// Whether the file and its log are for their owner alone.
fn are_private(rt: &HostRuntime) -> Result<bool, Fail> {
    let file = mode(rt, FILE)?;
    let log = mode(rt, LOG)?;
    Ok(file == 0o600 && log == 0o600)
}

/// Whether what the log alone holds is there again, and both files are for their owner alone.
fn is_kept_without_a_close(rt: &HostRuntime) -> Result<bool, Fail> {
    let mut opener = HostOpener::new(*rt);
    keep_and_drop(rt.alloc(), &mut opener, FILE, "{}")?;
    Ok(are_private(rt)? && reads(rt.alloc(), &mut opener, FILE, "{}")?)
}

/// Whether what was kept before a close is there without the log.
fn is_kept_by_a_close(rt: &HostRuntime) -> Result<bool, Fail> {
    let mut opener = HostOpener::new(*rt);
    keep_and_close(rt.alloc(), &mut opener, FILE, "{\"acls\":[]}")?;
    fs::remove_file(rt, LOG)?;
    reads(rt.alloc(), &mut opener, FILE, "{\"acls\":[]}")
}

fn is_opened_once(rt: &HostRuntime) -> Result<bool, Fail> {
    has_one_opener(
        rt.alloc(),
        &mut HostOpener::new(*rt),
        &mut HostOpener::new(*rt),
        FILE,
    )
}

#[test]
fn what_was_kept_is_there_again(rt: HostRuntime) -> Result<(), Fail> {
    let _ = fs::remove_dir_all(&rt, FOLDER);
    fs::create_dir(&rt, FOLDER)?;
    assert!(rt; is_kept_without_a_close(&rt)?);
    assert!(rt; is_kept_by_a_close(&rt)?);
    assert!(rt; is_opened_once(&rt)?);
    fs::remove_dir_all(&rt, FOLDER)?;
    Ok(())
}
