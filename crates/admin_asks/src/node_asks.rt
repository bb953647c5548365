//! Operators list machines, let them expire, rename, tag and remove them.
ghost use Rattle.std.specs.Prelude.{◌≡◌, IfOk};
ghost use Rattle.std.specs.Cmp.Lexicographic.{pointwise};
ghost use Rattle.std.specs.Str.{bytes_eq};
ghost use Rattle.tail_base.specs.Steps.{Gives};
ghost use Rattle.desk_state.specs.Rows.{row_replaced};
ghost use Rattle.admin_asks.specs.Nodes as spec;

use crate::operator_answer::OperatorAnswer;
use desk_state::{
    Decision, NodeLine, Refusal, Snapshot, machine_gone, node_line, row_replaced, tags_defined,
};
use net_addr::Moment;
use net_rows::{Change, Machine, Tables};
use std::alloc::Global;
use tail_base::{Duplicate, Failure, Items, Label, NoMemory, Tag, Text, sorted_once};

fn node_lines(
    alloc: Global,
    at: &Snapshot<'_>,
    machines: &[Machine],
) -> Result<Items<NodeLine>, NoMemory>
    ensures value { IfOk result (λ lines. lines ≡ spec.node_lines at.now machines.now) }
{
    let mut lines = Items::new(alloc);
    for machine in machines {
        lines.push(node_line(alloc, at, machine.copy(alloc)?)?)?;
    }
    Ok(lines)
}

/// The machines by id, whether they are live or not.
pub fn nodes(alloc: Global, at: &Snapshot<'_>) -> Result<Decision<OperatorAnswer>, Failure<Refusal>>
    ensures value { Gives (λ d. d) result (spec.nodes at.now) }
{
    let lines = node_lines(alloc, at, at.tables.machines())?;
    Ok(Decision::only(alloc, OperatorAnswer::Nodes(lines)))
}

/// The machine's row stays as it is.
pub(crate) fn same_node(
    alloc: Global,
    at: &Snapshot<'_>,
    machine: &Machine,
) -> Result<Decision<OperatorAnswer>, NoMemory>
    ensures value { IfOk result (λ d. d ≡ spec.same_node at.now machine.now) }
{
    let line = node_line(alloc, at, machine.copy(alloc)?)?;
    Ok(Decision::only(alloc, OperatorAnswer::Node(line)))
}

/// The change that puts this row in the place of the machine's.
fn replacement(alloc: Global, tables: &Tables, machine: &Machine) -> Result<Change, NoMemory>
    ensures value { IfOk result (λ change. change ≡ row_replaced tables.now.rows machine.now) }
{
    row_replaced(alloc, tables, machine.copy(alloc)?)
}

/// The machine's row is this one from now on.
pub(crate) fn changed_node(
    alloc: Global,
    at: &Snapshot<'_>,
    machine: Machine,
) -> Result<Decision<OperatorAnswer>, NoMemory>
    ensures value { IfOk result (λ d. d ≡ spec.changed_node at.now machine) }
{
    let change = replacement(alloc, at.tables, &machine)?;
    let line = node_line(alloc, at, machine)?;
    Ok(Decision::changing(alloc, change, OperatorAnswer::Node(line)))
}

fn ends_at(expiry: Option<Moment>, end: Moment) -> bool
    ensures value { result ≡ spec.ends_at expiry end }
{
    match expiry {
        None => false,
        Some(moment) => moment == end,
    }
}

fn expired_node(
    alloc: Global,
    at: &Snapshot<'_>,
    machine: &Machine,
    end: Moment,
) -> Result<Decision<OperatorAnswer>, NoMemory>
    ensures value { IfOk result (λ d. d ≡ spec.expired_node at.now machine.now end) }
{
    if ends_at(machine.expiry, end) {
        return same_node(alloc, at, machine);
    }
    let mut changed = machine.copy(alloc)?;
    changed.expiry = Some(end);
    changed_node(alloc, at, changed)
}

/// The node key of the machine of an id expires at the moment that is given, or now.
pub fn expire_node(
    alloc: Global,
    at: &Snapshot<'_>,
    id: u32,
    expiry: Option<Moment>,
) -> Result<Decision<OperatorAnswer>, Failure<Refusal>>
    ensures value { Gives (λ d. d) result (spec.expire_node at.now id expiry) }
{
    let end = expiry.unwrap_or(at.time);
    match at.tables.machine(id) {
        Some(machine) => Ok(expired_node(alloc, at, machine, end)?),
        None => Err(Failure::Fault(Refusal::UnknownMachine)),
    }
}

fn is_name_taken(machines: &[Machine], id: u32, name: &Label) -> bool
    ensures value { result ≡ spec.is_name_taken machines.now id name.now }
{
    machines.iter().any(|row| row.name.as_slice() == name.as_slice() && row.id != id)
}

fn renamed_node(
    alloc: Global,
    at: &Snapshot<'_>,
    machine: &Machine,
    name: Label,
) -> Result<Decision<OperatorAnswer>, NoMemory>
    ensures value { IfOk result (λ d. d ≡ spec.renamed_node at.now machine.now name) }
{
    if machine.name.as_slice() == name.as_slice() {
        return same_node(alloc, at, machine);
    }
    let mut changed = machine.copy(alloc)?;
    changed.name = name;
    changed_node(alloc, at, changed)
}

/// The machine of an id has this name from now on, which has to be a label that no other machine
/// has.
pub fn rename(
    alloc: Global,
    at: &Snapshot<'_>,
    id: u32,
    name: &Text,
) -> Result<Decision<OperatorAnswer>, Failure<Refusal>>
    ensures value { Gives (λ d. d) result (spec.rename at.now id name.now) }
{
    let Some(machine) = at.tables.machine(id) else {
        return Err(Failure::Fault(Refusal::UnknownMachine));
    };
    let Some(label) = Label::read(alloc, name.as_slice())? else {
        return Err(Failure::Fault(Refusal::BadName));
    };
    if is_name_taken(at.tables.machines(), machine.id, &label) {
        return Err(Failure::Fault(Refusal::NameTaken));
    }
    Ok(renamed_node(alloc, at, machine, label)?)
}

fn same_tags(held: &[Tag], tags: &[Tag]) -> bool
    ensures value { result ≡ pointwise bytes_eq held.now tags.now }
{
    if held.len() != tags.len() {
        return false;
    }
    for (i, tag) in held.iter().enumerate() {
        if tag.as_slice() != tags[i].as_slice() {
            return false;
        }
    }
    true
}

fn tagged_node(
    alloc: Global,
    at: &Snapshot<'_>,
    machine: &Machine,
    tags: Items<Tag>,
) -> Result<Decision<OperatorAnswer>, NoMemory>
    ensures value { IfOk result (λ d. d ≡ spec.tagged_node at.now machine.now tags) }
{
    if same_tags(machine.tags.as_slice(), tags.as_slice()) {
        return same_node(alloc, at, machine);
    }
    let mut changed = machine.copy(alloc)?;
    changed.tags = tags;
    changed_node(alloc, at, changed)
}

/// The machine of an id has these tags from now on, in byte order and each once.
pub fn set_tags(
    alloc: Global,
    at: &Snapshot<'_>,
    id: u32,
    tags: &[Tag],
) -> Result<Decision<OperatorAnswer>, Failure<Refusal>>
    ensures value { Gives (λ d. d) result (spec.set_tags at.now id tags.now) }
{
    let Some(machine) = at.tables.machine(id) else {
        return Err(Failure::Fault(Refusal::UnknownMachine));
    };
    tags_defined(at, tags)?;
    Ok(tagged_node(alloc, at, machine, sorted_once(alloc, tags)?)?)
}

/// The machine of an id goes.
pub fn drop_node(
    alloc: Global,
    at: &Snapshot<'_>,
    id: u32,
) -> Result<Decision<OperatorAnswer>, Failure<Refusal>>
    ensures value { Gives (λ d. d) result (spec.drop_node at.now id) }
{
    let Some(machine) = at.tables.machine(id) else {
        return Err(Failure::Fault(Refusal::UnknownMachine));
    };
    let change = machine_gone(alloc, at.tables, machine.id)?;
    Ok(Decision::changing(alloc, change, OperatorAnswer::Gone))
}
