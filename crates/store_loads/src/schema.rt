//! Whether a database has the tables of schema 1.
ghost use Rattle.std.specs.Prelude.{◌≡◌, ◌↔◌, ◌∷◌, [], codes, IsTrue};
ghost use Rattle.store_sql.specs.Schema.{meta_table, users_table, auth_keys_table, pending_table, machines_table, extras_table, policy_table, schema_1, no_schema, automatic_of};

use crate::forms::{blob, is_index, is_table, number, optional, text};
use sqlite_schema::schema::{Index, Schema, Table};

fn is_meta(table: &Table) -> bool
    ensures exact { IsTrue result ↔ (table.now ≡ meta_table) }
{
    let forms = [
        optional("k"),
        number("version"),
        number("next_user"),
        number("next_key"),
        number("next_pending"),
        number("next_machine"),
    ];
    is_table(table, "meta", 0, &forms, &[])
}

fn is_users(table: &Table) -> bool
    ensures exact { IsTrue result ↔ (table.now ≡ users_table) }
{
    is_table(table, "users", 1, &[optional("id"), text("login")], &[2])
}

fn is_auth_keys(table: &Table) -> bool
    ensures exact { IsTrue result ↔ (table.now ≡ auth_keys_table) }
{
    let forms = [
        optional("id"),
        text("secret"),
        number("user"),
        number("reusable"),
        number("ephemeral"),
        number("used"),
        optional("expiry"),
        text("tags"),
    ];
    is_table(table, "auth_keys", 3, &forms, &[2])
}

fn is_pending(table: &Table) -> bool
    ensures exact { IsTrue result ↔ (table.now ≡ pending_table) }
{
    let forms = [
        optional("id"),
        text("secret"),
        blob("machine"),
        blob("node"),
        text("host"),
        text("routes"),
        text("tags"),
        number("ephemeral"),
        optional("expiry"),
        number("made"),
    ];
    is_table(table, "pending", 5, &forms, &[2, 3])
}

fn is_machines(table: &Table) -> bool
    ensures exact { IsTrue result ↔ (table.now ≡ machines_table) }
{
    let forms = [
        optional("id"),
        number("user"),
        blob("machine"),
        blob("node"),
        blob("disco"),
        text("host"),
        text("name"),
        number("v4"),
        blob("v6"),
        text("endpoints"),
        number("derp"),
        text("routes"),
        text("approved"),
        text("tags"),
        number("ephemeral"),
        optional("expiry"),
        number("created"),
    ];
    is_table(table, "machines", 8, &forms, &[3, 4, 7, 8, 9])
}

fn is_extras(table: &Table) -> bool
    ensures exact { IsTrue result ↔ (table.now ≡ extras_table) }
{
    let forms = [optional("place"), text("name"), text("addr")];
    is_table(table, "extras", 14, &forms, &[])
}

fn is_policy(table: &Table) -> bool
    ensures exact { IsTrue result ↔ (table.now ≡ policy_table) }
{
    is_table(table, "policy", 15, &[optional("k"), text("body")], &[])
}

fn are_tables(tables: &[Table]) -> bool
    ensures exact { IsTrue result ↔ (tables.now ≡ schema_1.tables) }
{
    let [meta, users, auth_keys, pending, machines, extras, policy] = tables else {
        return false;
    };
    is_meta(meta)
        && is_users(users)
        && is_auth_keys(auth_keys)
        && is_pending(pending)
        && is_machines(machines)
        && is_extras(extras)
        && is_policy(policy)
}

fn are_indexes_of_addresses(indexes: &[Index]) -> bool
    ensures exact { IsTrue result ↔ (indexes.now
        ≡ automatic_of (codes "sqlite_autoindex_machines_4") 12 8 8
        ∷ automatic_of (codes "sqlite_autoindex_machines_5") 13 8 9 ∷ []) }
{
    let [v4, v6] = indexes else {
        return false;
    };
    is_index(v4, "sqlite_autoindex_machines_4", 12, 8, 8)
        && is_index(v6, "sqlite_autoindex_machines_5", 13, 8, 9)
}

fn are_indexes_of_machines(indexes: &[Index]) -> bool
    ensures exact { IsTrue result ↔ (indexes.now
        ≡ automatic_of (codes "sqlite_autoindex_machines_1") 9 8 3
        ∷ automatic_of (codes "sqlite_autoindex_machines_2") 10 8 4
        ∷ automatic_of (codes "sqlite_autoindex_machines_3") 11 8 7
        ∷ automatic_of (codes "sqlite_autoindex_machines_4") 12 8 8
        ∷ automatic_of (codes "sqlite_autoindex_machines_5") 13 8 9 ∷ []) }
{
    let [machine, node, name, addresses @ ..] = indexes else {
        return false;
    };
    is_index(machine, "sqlite_autoindex_machines_1", 9, 8, 3)
        && is_index(node, "sqlite_autoindex_machines_2", 10, 8, 4)
        && is_index(name, "sqlite_autoindex_machines_3", 11, 8, 7)
        && are_indexes_of_addresses(addresses)
}

fn are_indexes(indexes: &[Index]) -> bool
    ensures exact { IsTrue result ↔ (indexes.now ≡ schema_1.indexes) }
{
    let [users, auth_keys, secret, machine, machines @ ..] = indexes else {
        return false;
    };
    is_index(users, "sqlite_autoindex_users_1", 2, 1, 2)
        && is_index(auth_keys, "sqlite_autoindex_auth_keys_1", 4, 3, 2)
        && is_index(secret, "sqlite_autoindex_pending_1", 6, 5, 2)
        && is_index(machine, "sqlite_autoindex_pending_2", 7, 5, 3)
        && are_indexes_of_machines(machines)
}

/// Whether these are the tables of schema 1 with the indexes of their unique columns, and nothing
/// beside them.
pub(crate) fn is_schema_1(schema: &Schema) -> bool
    ensures exact { IsTrue result ↔ (schema.now ≡ schema_1) }
{
    are_tables(schema.tables.as_slice())
        && are_indexes(schema.indexes.as_slice())
        && schema.views.is_empty()
}

/// Whether there is no table, index or view that the store reads.
pub(crate) fn is_empty(schema: &Schema) -> bool
    ensures exact { IsTrue result ↔ (schema.now ≡ no_schema) }
{
    schema.tables.is_empty() && schema.indexes.is_empty() && schema.views.is_empty()
}
