//! The protocol of a rule or a test.
ghost use Rattle.std.specs.Prelude.{◌≡◌, IfOk, Some};
ghost use Rattle.std.specs.Option.{option_copied, option_map};
ghost use Rattle.serde_json.specs.View.{view};
ghost use Rattle.tail_base.specs.Steps.{Gives};
ghost use Rattle.policy_doc.specs.Rules.{proto_at, proto_of};

use policy_rows::{PolicyCode, PolicyFault, protos_numbered, refused};
use port_sets::Protos;
use serde_json::Value;
use std::alloc::Global;
use tail_base::{Failure, NoMemory};

/// The protocol that a value names: by its name, or by its number as a text or a number.
fn proto_of(alloc: Global, value: &Value) -> Result<Option<Protos>, NoMemory>
    ensures value { IfOk result (λ protos. protos ≡ option_map Some (proto_of (view value.now))) }
{
    if let Some(text) = value.as_str() {
        return Ok(Protos::read(text.as_bytes()));
    }
    match value.as_u64() {
        Some(number) => protos_numbered(alloc, number),
        None => Ok(None),
    }
}

/// The protocol that is given, or the usual ones.
#[tactic(auto, unfolding(crate::specs::Rules::proto_at))]
pub(crate) fn read_proto(
    alloc: Global,
    place: &str,
    value: Option<&Value>,
) -> Result<Protos, Failure<PolicyFault>>
    ensures value { Gives (λ x. x) result (proto_at place.now
        (option_map view (option_copied value.entry))) }
{
    let Some(value) = value else {
        return Ok(Protos::usual());
    };
    match proto_of(alloc, value)? {
        Some(protos) => Ok(protos),
        None => refused(alloc, PolicyCode::BadProto, place),
    }
}
