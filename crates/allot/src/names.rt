//! Names for new machines.
ghost use Rattle.std.specs.Prelude.{◌≡◌, ◌<◌, ◌≤◌, true, is_some, length, position, IfOk, IfSome, IsTrue};
ghost use Rattle.tail_base.specs.Labels.{numbered_label};
ghost use Rattle.net_rows.specs.declared.limits.TheConstants.{MACHINE_LIMIT};
ghost use Rattle.allot.specs.Names.{holds_name, has_name, free_number, free_label, free_name};

use net_rows::{Machine, Tables};
use std::alloc::Global;
use tail_base::{Label, NoMemory};

fn holds_name(machine: &Machine, name: &Label) -> bool
    ensures value { result ≡ holds_name name.now machine.now }
{
    machine.name.as_str() == name.as_str()
}

/// The place of the first machine that has the name.
fn first_with_name(machines: &[Machine], name: &Label) -> Option<usize>
    ensures value { result ≡ position (holds_name name.now) machines.now }
{
    machines
        .iter()
        .position(|machine| holds_name(machine, name))
}

/// Whether the machine has the label with this number. It takes no memory. Of a label that is cut to
/// fit, the answer is no.
#[tactic(auto, using(crate::proofs::NumberedLemmas::bears_number))]
fn holds_number(machine: &Machine, base: &Label, n: u32) -> bool
    ensures found { IsTrue result → holds_name (numbered_label base.now n) machine.now ≡ true }
{
    let mut buffer = itoa::Buffer::new();
    let digits = buffer.format(n).as_bytes();
    if base.as_slice().len() + 1 + digits.len() > 63 {
        return false;
    }
    let Some(ending) = machine.name.as_slice().strip_prefix(base.as_slice()) else {
        return false;
    };
    let Some(rest) = ending.strip_prefix(b"-") else {
        return false;
    };
    rest == digits
}

/// The place of a machine that has the label with this number, if one has it. The guessed place is
/// looked at first, without memory: machines mostly have their numbers in their order.
#[tactic(auto, using(crate::proofs::SearchLemmas::some_position))]
fn place_with_number(
    alloc: Global,
    machines: &[Machine],
    guess: usize,
    base: &Label,
    n: u32,
) -> Result<Option<usize>, NoMemory>
    ensures value { IfOk result (λ place.
        is_some place ≡ has_name machines.now (numbered_label base.now n)) }
    ensures place { IfOk result (λ found. IfSome found (λ place. place < length machines.now)) }
{
    if let Some(machine) = machines.get(guess)
        && holds_number(machine, base, n)
    {
        return Ok(Some(guess));
    }
    let name = base.numbered(alloc, n)?;
    Ok(first_with_name(machines, &name))
}

/// The label with the least number from 1 on with which no machine has it.
fn numbered(alloc: Global, machines: &[Machine], base: &Label) -> Result<Label, NoMemory>
    requires few { length machines.now ≤ MACHINE_LIMIT }
    ensures value { IfOk result
        (λ name. name ≡ numbered_label base.now (free_number machines.now base.now)) }
{
    let mut guess = 0;
    for n in 1..machines.len() as u32 + 2 {
        match place_with_number(alloc, machines, guess, base, n)? {
            Some(place) => guess = place + 1,
            None => return base.numbered(alloc, n),
        }
    }
    unreachable!()
}

/// The label, or if a machine has it, the label with the least number from 1 on with which no
/// machine has it.
#[tactic(auto, using(crate::proofs::SearchLemmas::some_position))]
fn free_label(alloc: Global, machines: &[Machine], base: Label) -> Result<Label, NoMemory>
    requires few { length machines.now ≤ MACHINE_LIMIT }
    ensures value { IfOk result (λ name. name ≡ free_label machines.now base) }
{
    if first_with_name(machines, &base).is_some() {
        numbered(alloc, machines, &base)
    } else {
        Ok(base)
    }
}

/// The name for a new machine of this host name: the label that the host name gives, or if a machine
/// has it, that label with the least number from 1 on with which no machine has it. There always is
/// one.
#[tactic(auto, using(crate::proofs::TableLemmas::few_machines))]
pub fn free_name(alloc: Global, tables: &Tables, host: &[u8]) -> Result<Label, NoMemory>
    ensures value { IfOk result (λ name. name ≡ free_name tables.now.rows.machines host.now) }
{
    free_label(alloc, tables.machines(), Label::of_host(alloc, host)?)
}
