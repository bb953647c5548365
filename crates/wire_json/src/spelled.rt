//! Lists of what texts spell.
ghost use Rattle.std.specs.Prelude.{◌≡◌, ℕ, List, Option, [], ◌≤◌, length, IfOk, IfSome, option_map, option_and_then};
ghost use Rattle.std.specs.Result.{result_ok};
ghost use Rattle.serde_json.specs.Find.{as_str};
ghost use Rattle.serde_json.specs.View.{view, items_view};
ghost use Rattle.net_addr.specs.EndpointTexts.{endpoint_of_text};
ghost use Rattle.tail_base.specs.Tags.{tag_of};
ghost use Rattle.tail_base.specs.Steps.{Gives, or_fault};
ghost use Rattle.wire_json.specs.Readers.{all_spelled, optional, short_array, short_list};
ghost use Rattle.wire_json.specs.Register.{prefix_spelled};
ghost use Rattle.wire_json.specs.declared.fault.WireFault.TheVariants.{BadField};

use crate::body::field_of;
use crate::fault::WireFault;
use crate::field::Field;
use net_addr::{Endpoint, Prefix};
use serde_json::Value;
use std::alloc::Global;
use tail_base::{Failure, Items, NoMemory, Tag};

/// What a text spells.
pub trait Spelled: Drop + Sized {
    ghost spelled: { List ℕ → Option Self };

    /// The value that a text spells, if it spells one.
    fn read_text(alloc: Global, text: &[u8]) -> Result<Option<Self>, NoMemory>
        ensures value { IfOk result (λ x. x ≡ spelled text.now) };
}

impl Spelled for Prefix {
    ghost spelled = { prefix_spelled };

    fn read_text(_: Global, text: &[u8]) -> Result<Option<Self>, NoMemory> {
        Ok(Prefix::read(text).ok())
    }
}

impl Spelled for Endpoint {
    ghost spelled = { endpoint_of_text };

    fn read_text(_: Global, text: &[u8]) -> Result<Option<Self>, NoMemory> {
        Ok(Endpoint::read(text))
    }
}

impl Spelled for Tag {
    ghost spelled = { tag_of };

    fn read_text(alloc: Global, text: &[u8]) -> Result<Option<Self>, NoMemory> {
        Tag::read(alloc, text)
    }
}

/// The element that a value of a list is.
fn element_of<T: Spelled>(
    alloc: Global,
    field: Field,
    value: &Value,
) -> Result<T, Failure<WireFault>>
    ensures value { Gives (λ x. x) result
        (or_fault (BadField field) (option_and_then T.spelled (as_str (view value.now)))) }
{
    let Some(text) = value.as_str() else {
        return Err(Failure::Fault(WireFault::BadField(field)));
    };
    T::read_text(alloc, text.as_bytes())?.ok_or(Failure::Fault(WireFault::BadField(field)))
}

fn elements_of<T: Spelled>(
    alloc: Global,
    field: Field,
    values: &[Value],
) -> Result<Items<T>, Failure<WireFault>>
    ensures value { Gives (λ made. made) result
        (or_fault (BadField field) (all_spelled T.spelled (items_view values.now))) }
    ensures count { IfOk result (λ made. length made ≡ length values.now) }
{
    let mut made = Items::new(alloc);
    for value in values {
        made.push(element_of(alloc, field, value)?)?;
    }
    Ok(made)
}

/// The values of a list, if there are at most so many.
#[tactic(auto, using(crate::proofs::Counts::items_count))]
pub fn short_array(value: &Value, limit: usize) -> Option<&[Value]>
    ensures value { option_map (λ vs. items_view vs.now) result
        ≡ short_array limit (view value.now) }
    ensures short { IfSome result (λ vs. length vs.now ≤ limit) }
{
    let values = value.as_array()?;
    if values.len() <= limit {
        Some(values.as_slice())
    } else {
        None
    }
}

/// A list of at most so many texts, each of which spells an element; empty where it is absent.
pub fn list_of<T: Spelled>(
    alloc: Global,
    object: Option<&Value>,
    field: Field,
    limit: usize,
) -> Result<Items<T>, Failure<WireFault>>
    ensures value { Gives (λ xs. xs) result (optional field [] (short_list limit T.spelled)
        (option_map (λ v. view v.now) object.entry)) }
    ensures short { IfOk result (λ xs. length xs ≤ limit) }
{
    let Some(value) = field_of(object, field) else {
        return Ok(Items::new(alloc));
    };
    match short_array(value, limit) {
        Some(values) => elements_of(alloc, field, values),
        None => Err(Failure::Fault(WireFault::BadField(field))),
    }
}
