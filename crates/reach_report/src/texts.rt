//! What operators are shown.
ghost use Rattle.std.specs.Prelude.{◌≡◌, ◌++◌, ◌∷◌, ℕ, List, [], Some, IfOk, OnOk, codes, decimal, flat_map};
ghost use Rattle.csv.specs.Writing.{default_writer, row_text};
ghost use Rattle.reach_report.specs.Records.{HasTaken};
ghost use Rattle.reach_report.specs.ReportTexts.{explain_text, numbers_line, reach_line, reach_text};

use crate::granted::Granted;
use crate::reach::Reach;
use csv::{Writer, WriterBuilder};
use itoa::Buffer;
use std::alloc::Global;
use tail_base::NoMemory;

fn granted_line(alloc: Global, rule: usize, entry: usize) -> Result<Vec<u8>, NoMemory>
    ensures value { IfOk result (λ text. text.items
        ≡ codes "granted rule " ++ decimal rule ++ codes " entry " ++ decimal entry ++ codes "\n") }
{
    Ok(format!(in alloc; "granted rule {rule} entry {entry}\n")?.into_bytes())
}

fn denied_line(alloc: Global) -> Result<Vec<u8>, NoMemory>
    ensures value { IfOk result (λ text. text.items ≡ codes "denied\n") }
{
    Ok(Vec::from_slice(alloc, b"denied\n")?)
}

/// Why a flow is granted, as a line: `granted rule R entry E`, or `denied`.
pub fn explain_text(alloc: Global, granted: &Option<Granted>) -> Result<Vec<u8>, NoMemory>
    ensures value { IfOk result (λ text. text.items ≡ explain_text granted.now) }
{
    match granted {
        Some(granted) => granted_line(alloc, granted.rule, granted.entry),
        None => denied_line(alloc),
    }
}

/// A writer of records over an empty buffer.
fn empty_writer(alloc: Global) -> Writer<Vec<u8>>
    ensures empty { HasTaken (λ v. Some v.items) result [] }
{
    WriterBuilder::new().from_writer(Vec::new(alloc))
}

/// Adds a record of three fields. The buffer is in memory, and all records have three fields: whatever is refused is so because
/// memory ran out.
fn add_record(writer: &mut Writer<Vec<u8>>, a: &[u8], b: &[u8], c: &[u8]) -> Result<(), NoMemory>
    ensures ok { OnOk result ((bytes : List ℕ) → HasTaken (λ v. Some v.items) writer.old bytes
        → HasTaken (λ v. Some v.items) writer.new
        (bytes ++ row_text default_writer (a.now ∷ b.now ∷ c.now ∷ []))) }
{
    match writer.write_fields(&[a, b, c]) {
        Ok(()) => Ok(()),
        Err(_) => Err(NoMemory),
    }
}

/// Adds the line with the names of the fields.
fn add_header(writer: &mut Writer<Vec<u8>>) -> Result<(), NoMemory>
    ensures ok { OnOk result ((bytes : List ℕ) → HasTaken (λ v. Some v.items) writer.old bytes
        → HasTaken (λ v. Some v.items) writer.new
        (bytes ++ codes "source,destination,rule\n")) }
{
    add_record(writer, b"source", b"destination", b"rule")
}

/// Adds the line of two machines.
fn add_numbers(
    writer: &mut Writer<Vec<u8>>,
    from: u32,
    to: u32,
    rule: usize,
) -> Result<(), NoMemory>
    ensures ok { OnOk result ((bytes : List ℕ) → HasTaken (λ v. Some v.items) writer.old bytes
        → HasTaken (λ v. Some v.items) writer.new
        (bytes ++ numbers_line (decimal from) (decimal to) (decimal rule))) }
{
    let mut first = Buffer::new();
    let mut second = Buffer::new();
    let mut third = Buffer::new();
    add_record(
        writer,
        first.format(from).as_bytes(),
        second.format(to).as_bytes(),
        third.format(rule).as_bytes(),
    )
}

/// Adds the lines of these.
fn add_lines(writer: &mut Writer<Vec<u8>>, reaches: &[Reach]) -> Result<(), NoMemory>
    ensures ok { OnOk result ((bytes : List ℕ) → HasTaken (λ v. Some v.items) writer.old bytes
        → HasTaken (λ v. Some v.items) writer.new (bytes ++ flat_map reach_line reaches.now)) }
{
    for reach in reaches {
        add_numbers(writer, reach.from, reach.to, reach.rule)?;
    }
    Ok(())
}

/// Adds the header and the lines.
fn add_report(writer: &mut Writer<Vec<u8>>, reaches: &[Reach]) -> Result<(), NoMemory>
    ensures ok { OnOk result (HasTaken (λ v. Some v.items) writer.old []
        → HasTaken (λ v. Some v.items) writer.new (reach_text reaches.now)) }
{
    add_header(writer)?;
    add_lines(writer, reaches)
}

/// The buffer, with all that was written.
fn bytes_of(writer: Writer<Vec<u8>>) -> Result<Vec<u8>, NoMemory>
    ensures value { IfOk result (λ text. (bytes : List ℕ)
        → HasTaken (λ v. Some v.items) writer bytes → text.items ≡ bytes) }
{
    match writer.into_inner() {
        Ok(text) => Ok(text),
        Err(_) => Err(NoMemory),
    }
}

/// A report as CSV (RFC 4180): the header `source,destination,rule`, and a line of three numbers for each two machines, each
/// line ended by a line feed.
pub fn report_text(alloc: Global, reaches: &[Reach]) -> Result<Vec<u8>, NoMemory>
    ensures value { IfOk result (λ text. text.items ≡ reach_text reaches.now) }
{
    let mut writer = empty_writer(alloc);
    add_report(&mut writer, reaches)?;
    bytes_of(writer)
}
