//! Tables as texts, to be compared.
use net_rows::Tables;
use std::alloc::Global;
use store_rows::{
    Cell, write_auth_key, write_extra, write_machine, write_meta, write_pending, write_policy_text,
    write_user,
};
use tail_base::{Items, NoMemory};

fn add_cell(alloc: Global, out: &mut String, cell: &Cell) -> Result<(), NoMemory> {
    let shown = match cell {
        Cell::Null => format!(in alloc; " -")?,
        Cell::Number(number) => format!(in alloc; " {number}")?,
        Cell::Text(text) => format!(in alloc; " {:?}", text.as_str())?,
        Cell::Blob(bytes) => format!(in alloc; " {:?}", bytes.as_slice())?,
        Cell::Other => format!(in alloc; " other")?,
    };
    out.push_str(shown.as_str())?;
    Ok(())
}

/// A line: the row's table, and its cells.
fn add_row(
    alloc: Global,
    out: &mut String,
    table: &str,
    row: &Items<Cell>,
) -> Result<(), NoMemory> {
    out.push_str(table)?;
    for cell in row.as_slice() {
        add_cell(alloc, out, cell)?;
    }
    out.push('\n')?;
    Ok(())
}

fn add_users(alloc: Global, out: &mut String, tables: &Tables) -> Result<(), NoMemory> {
    for user in tables.users() {
        add_row(alloc, out, "user", &write_user(alloc, user)?)?;
    }
    for key in tables.keys() {
        add_row(alloc, out, "key", &write_auth_key(alloc, key)?)?;
    }
    Ok(())
}

fn add_machines(alloc: Global, out: &mut String, tables: &Tables) -> Result<(), NoMemory> {
    for entry in tables.pending() {
        add_row(alloc, out, "pending", &write_pending(alloc, entry)?)?;
    }
    for machine in tables.machines() {
        add_row(alloc, out, "machine", &write_machine(alloc, machine)?)?;
    }
    Ok(())
}

fn add_others(alloc: Global, out: &mut String, tables: &Tables) -> Result<(), NoMemory> {
    for extra in tables.extras() {
        add_row(alloc, out, "extra", &write_extra(alloc, 1, extra)?)?;
    }
    if let Some(text) = tables.policy() {
        add_row(alloc, out, "policy", &write_policy_text(alloc, text)?)?;
    }
    add_row(alloc, out, "meta", &write_meta(alloc, &tables.next())?)
}

/// The tables as a text: a line for each row as it is stored, since no two rows of a table are
/// stored alike. The places of extra records are those of their lines.
pub(crate) fn text_of(alloc: Global, tables: &Tables) -> Result<String, NoMemory> {
    let mut out = String::new(alloc);
    add_users(alloc, &mut out, tables)?;
    add_machines(alloc, &mut out, tables)?;
    add_others(alloc, &mut out, tables)?;
    Ok(out)
}
