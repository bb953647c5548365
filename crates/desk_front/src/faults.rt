//! Fixed answers.
ghost use Rattle.std.specs.Prelude.{◌≡◌, IfOk};
ghost use Rattle.desk_front.specs.Faults as spec;
ghost use Rattle.desk_front.specs.Faults.{IsAnswerTo};
ghost use Rattle.desk_front.specs.Wants.{IsSound};
ghost use Rattle.desk_front.specs.declared.want.Wanted.TheVariants as wants;

use crate::want::Wanted;
use http::StatusCode;
use std::alloc::Global;
use tail_base::{Failure, NoMemory, Text};
use wire_json::WireFault;

/// The body that names a fault.
pub(crate) fn error_body(alloc: Global, name: &str) -> Result<Text, NoMemory>
    ensures value { IfOk result (λ text. text ≡ spec.error_body name.now) }
{
    let mut text = Text::from_str(alloc, "{\"error\":\"")?;
    text.push(name)?;
    text.push("\"}")?;
    Ok(text)
}

/// The body that names a fault and its field.
fn field_body(alloc: Global, name: &str, field: &str) -> Result<Text, NoMemory>
    ensures value { IfOk result (λ text. text ≡ spec.field_body name.now field.now) }
{
    let mut text = Text::from_str(alloc, "{\"error\":\"")?;
    text.push(name)?;
    text.push("\",\"field\":\"")?;
    text.push(field)?;
    text.push("\"}")?;
    Ok(text)
}

/// The answer that names a fault.
pub(crate) fn fault_answer(
    alloc: Global,
    status: StatusCode,
    name: &str,
) -> Result<Wanted, NoMemory>
    ensures value { IfOk result (λ w. w ≡ spec.fault_answer status name.now) }
    ensures sound { IfOk result IsSound }
{
    Ok(Wanted::Answer {
        status,
        body: error_body(alloc, name)?,
    })
}

/// A field's fault.
pub(crate) fn field_answer(alloc: Global, name: &str, field: &str) -> Result<Wanted, NoMemory>
    ensures value { IfOk result (λ w. w ≡ spec.field_answer name.now field.now) }
    ensures sound { IfOk result IsSound }
{
    Ok(Wanted::Fault {
        body: field_body(alloc, name, field)?,
    })
}

/// A fault that has no field.
fn named_fault(alloc: Global, name: &str) -> Result<Wanted, NoMemory>
    ensures value { IfOk result (λ w. w ≡ wants.Fault (spec.error_body name.now)) }
    ensures sound { IfOk result IsSound }
{
    Ok(Wanted::Fault {
        body: error_body(alloc, name)?,
    })
}

/// The answer to a fault of a body; out of memory has none.
pub(crate) fn body_answer(alloc: Global, failure: Failure<WireFault>) -> Result<Wanted, NoMemory>
    ensures value { IsAnswerTo failure result }
    ensures sound { IfOk result IsSound }
{
    match failure {
        Failure::Fault(WireFault::NotJson) => named_fault(alloc, "NotJson"),
        Failure::Fault(WireFault::Compressed) => named_fault(alloc, "Compressed"),
        Failure::Fault(WireFault::Missing(field)) => field_answer(alloc, "Missing", field.name()),
        Failure::Fault(WireFault::BadField(field)) => {
            field_answer(alloc, "BadField", field.name())
        }
        Failure::NoMemory => Err(NoMemory),
    }
}
