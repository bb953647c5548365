//! Rows and tables that aren't ours.
use crate::made::loaded_after;
use net_rows::Kind;
use row_keeper::LoadFault;
use std::alloc::Global;
use std::test::Fail;

/// A line is the kind and the id of the damage that is found, and the statements that do it.
const DAMAGES: &str = "meta 0 UPDATE meta SET version = 2
meta 0 UPDATE meta SET next_user = 0
meta 0 DELETE FROM meta
meta 0 INSERT INTO meta VALUES (2, 1, 1, 1, 1, 1)
meta 0 CREATE TABLE other (x)
meta 0 CREATE INDEX by_user ON machines (user)
meta 0 CREATE VIEW logins AS SELECT login FROM users
meta 0 DROP TABLE policy
user 3 INSERT INTO users VALUES (3, 'Ann')
user 0 INSERT INTO users VALUES (5000000000, 'ann@')
user 7 INSERT INTO users VALUES (7, 'ann@')
key 4 INSERT INTO users VALUES (9, 'ann@'); INSERT INTO auth_keys VALUES (4, 'k', 9, 2, 0, 0, NULL, '')
key 4 INSERT INTO auth_keys VALUES (4, 'k', 9, 1, 0, 0, 0.5, '')
pending 6 INSERT INTO pending VALUES (6, 'reg-6-a', x'11', x'22', '', '', '', 0, NULL, 0)
pending 6 UPDATE meta SET next_pending = 7; INSERT INTO pending VALUES (6, 'reg-6-ab', x'1111111111111111111111111111111111111111111111111111111111111111', x'2222222222222222222222222222222222222222222222222222222222222222', 'a host', 'FD00::/8', '', 0, NULL, 1000000000)
machine 7 INSERT INTO machines VALUES (7, 1, x'11', x'22', x'33', '', 'a', 1681915905, x'44', '', 0, '', '', '', 0, NULL, 0)
extras 0 INSERT INTO extras VALUES (2, 'a.example', '192.0.2.1')
extras 0 INSERT INTO extras VALUES (1, 'a.example', '192.0.2.01')
policy 0 INSERT INTO policy VALUES (2, '{}')";

/// A kind in the words of the table.
fn word_of(kind: Kind) -> &'static str {
    match kind {
        Kind::Meta => "meta",
        Kind::User => "user",
        Kind::Key => "key",
        Kind::Pending => "pending",
        Kind::Machine => "machine",
        Kind::Extras => "extras",
        Kind::Policy => "policy",
    }
}

/// The kind and the id of the damage that is found after these statements; 0 and no word if none is.
fn damage(alloc: Global, statements: &str) -> Result<(&'static str, u32), Fail> {
    match loaded_after(alloc, statements)? {
        Err(LoadFault::Damaged { kind, id }) => Ok((word_of(kind), id)),
        Ok(_) | Err(LoadFault::Failed | LoadFault::NoMemory) => Ok(("", 0)),
    }
}

/// The kind and the id of a line, and its statements.
fn parts_of(line: &str) -> Option<(&str, u32, &str)> {
    let (kind, rest) = line.split_once(" ")?;
    let (id, statements) = rest.split_once(" ")?;
    Some((kind, id.parse::<u32>().ok()?, statements))
}

#[test]
fn damage_has_kind_and_id(rt: HostRuntime) -> Result<(), Fail> {
    for line in DAMAGES.lines() {
        let (kind, id, statements) = parts_of(line).ok_or("no line")?;
        let found = damage(rt.alloc(), statements)?;
        assert!(rt; found == (kind, id), "{line}");
    }
    Ok(())
}
