//! Names that hold no database of ours.
use harness_keeper::{fails_by, fault_of_load};
use keeper_sqlite::HostOpener;
use net_rows::Kind;
use row_keeper::LoadFault;
use sqlite::{Alter, Connection, FileStore};
use sqlite_disk::Disk;
use std::alloc::Global;
use std::fs;
use std::test::Fail;

fn fails(rt: &HostRuntime, name: &str) -> bool {
    fails_by(rt.alloc(), &mut HostOpener::new(*rt), name)
}

const FOLDER: &str = "store_cases_others";

const TEXT: &str = "store_cases_others/text.db";

const ADDRESS: &str = "file:store_cases_others.db";

/// Makes a folder anew.
fn make_folder(rt: &HostRuntime, name: &str) -> Result<(), Fail> {
    let _ = fs::remove_dir_all(rt, name);
    fs::create_dir(rt, name)?;
    Ok(())
}

/// Whether a text isn't opened, and stays as it is.
fn is_text_left(rt: &HostRuntime) -> Result<bool, Fail> {
    let words = b"a text of some length".as_slice();
    fs::write(rt, TEXT, words)?;
    let is_refused = fails(rt, TEXT);
    Ok(is_refused && fs::read(rt, TEXT)?.as_slice() == words)
}

#[test]
fn what_is_no_database_fails(rt: HostRuntime) -> Result<(), Fail> {
    make_folder(&rt, FOLDER)?;
    assert!(rt; is_text_left(&rt)?);
    assert!(rt; fails(&rt, FOLDER));
    assert!(rt; fails(&rt, "store_cases_others/no/a.db"));
    assert!(rt; fails(&rt, ADDRESS) && fs::metadata(&rt, ADDRESS).is_err());
    fs::remove_dir_all(&rt, FOLDER)?;
    Ok(())
}

const ANOTHER: &str = "store_cases_another";

const NOTES: &str = "store_cases_another/notes.db";

/// Makes a table of another program in a database.
fn is_made<S: Alter>(conn: &mut Connection<S>) -> bool {
    conn.execute("CREATE TABLE notes (note TEXT)", &[]).is_ok()
}

/// Closes a database.
fn is_closed<D: Disk + Drop>(conn: Connection<FileStore<D>>) -> bool {
    conn.close().is_ok()
}

/// Makes a database with a table of another program.
fn make_notes(rt: &HostRuntime) -> Result<(), Fail> {
    let Ok(mut conn) = Connection::open(rt, NOTES) else {
        return Err(Fail::from("the file isn't made"));
    };
    let is_made = is_made(&mut conn);
    if is_closed(conn) && is_made {
        Ok(())
    } else {
        Err(Fail::from("the table isn't made"))
    }
}

/// Why what is kept by this name isn't loaded, and whether it stays as it is.
fn fault_and_sameness(rt: &HostRuntime, name: &str) -> Result<(Option<LoadFault>, bool), Fail> {
    let before = fs::read(rt, name)?;
    let fault = fault_of_load(rt.alloc(), &mut HostOpener::new(*rt), name)?;
    let after = fs::read(rt, name)?;
    Ok((fault, before.as_slice() == after.as_slice()))
}

#[test]
fn another_programs_database_stays(rt: HostRuntime) -> Result<(), Fail> {
    make_folder(&rt, ANOTHER)?;
    make_notes(&rt)?;
    let (fault, is_same) = fault_and_sameness(&rt, NOTES)?;
    let damaged = LoadFault::Damaged {
        kind: Kind::Meta,
        id: 0,
    };
    assert!(rt; fault == Some(damaged) && is_same);
    fs::remove_dir_all(&rt, ANOTHER)?;
    Ok(())
}

const TRIGGERED: &str = "store_cases_triggered";

const TOLD: &str = "store_cases_triggered/told.db";

/// The bytes of a file of another program: each part, and how many zeros stand behind it. `sqlite3` has made it, with one table,
/// which has a trigger, and a column of a kind that the store doesn't know.
const TOLD_PARTS: [(&[u8], usize); 5] = [
    (
        b"SQLite format 3\x00\x02\x00\x02\x02\x00@  \x00\x00\x00\x02\x00\x00\x00\x02",
        11,
    ),
    (b"\x02\x00\x00\x00\x04", 11),
    (b"\x01", 35),
    (
        b"\x02\x00.c\x01\r\x00\x00\x00\x02\x01W\x00\x01\xad\x01W",
        231,
    ),
    (
        b"T\x02\x07\x1b\x15\x17\x08\x81\x07triggertoldnotesCREATE TRIGGER told AFTER INSERT ON notes BEGIN SELECT 1; ENDQ\x01\x07\x17\x17\x17\x01\x81\x01tablenotesnotes\x02CREATE TABLE notes (note TEXT, size INT AS (length(note)))\r\x00\x00\x00\x00\x02",
        506,
    ),
];

fn told(alloc: Global) -> Result<Vec<u8>, Fail> {
    let mut bytes = Vec::new(alloc);
    for (part, zeros) in TOLD_PARTS {
        bytes.extend_from_slice(part)?;
        for _zero in 0..zeros {
            bytes.push(0)?;
        }
    }
    Ok(bytes)
}

#[test]
fn a_database_with_a_trigger_stays(rt: HostRuntime) -> Result<(), Fail> {
    make_folder(&rt, TRIGGERED)?;
    fs::write(&rt, TOLD, told(rt.alloc())?.as_slice())?;
    let (fault, is_same) = fault_and_sameness(&rt, TOLD)?;
    let damaged = LoadFault::Damaged {
        kind: Kind::Meta,
        id: 0,
    };
    assert!(rt; fault == Some(damaged) && is_same);
    fs::remove_dir_all(&rt, TRIGGERED)?;
    Ok(())
}
