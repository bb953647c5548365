//! Why a text is no policy.
ghost use Rattle.std.specs.Prelude.{◌≡◌, Err, IfOk};
ghost use Rattle.tail_base.specs.Steps.{Gives};
ghost use Rattle.policy_rows.specs.Faults.{fault_at, fault_text};

use crate::code::PolicyCode;
use crate::escaping::escaped;
use std::alloc::Global;
use tail_base::{Failure, NoMemory, Text};

/// The first fault of a policy's text.
#[derive(Drop)]
pub struct PolicyFault {
    /// What is wrong.
    pub code: PolicyCode,
    /// Where: the keys that lead there, joined by dots, with `[i]` for an element of a list, counted
    /// from 0.
    pub place: Text,
}

/// The fault of that code and place.
pub fn refused<T: Drop>(
    alloc: Global,
    code: PolicyCode,
    place: &str,
) -> Result<T, Failure<PolicyFault>>
    ensures value { Gives (λ x. x) result (Err (fault_at code place.now)) }
{
    let place = Text::from_str(alloc, place)?;
    Err(Failure::Fault(PolicyFault { code, place }))
}

/// A fault as a text: `P`, the number of its code, a space, and its place as JSON has it between quotes.
pub fn fault_text(alloc: Global, fault: &PolicyFault) -> Result<Text, NoMemory>
    ensures value { IfOk result (λ text. text ≡ fault_text fault.now) }
{
    let number = fault.code.number();
    let place = escaped(alloc, fault.place.as_str())?;
    let place = place.as_str();
    let text = format!(in alloc; "P{number} {place}")?;
    Ok(Text::from_string(text))
}
