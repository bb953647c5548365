//! Lists and objects of a policy, walked from the front.
ghost use Rattle.std.specs.Prelude.{◌≡◌, List, ℕ, [], Result};
ghost use Rattle.std.specs.Option.{option_copied, option_map};
ghost use Rattle.serde_json.specs.Data.{Data};
ghost use Rattle.serde_json.specs.View.{items_view, members_view, view};
ghost use Rattle.policy_rows.specs.declared.names.Names.{Names};
ghost use Rattle.policy_rows.specs.declared.fault.PolicyFault.{PolicyFault};
ghost use Rattle.tail_base.specs.Steps.{Gives};
ghost use Rattle.policy_doc.specs.Walks.{each, each_member, list_of, object_of, or_empty};

use policy_rows::{Names, PolicyCode, PolicyFault, indexed, refused, under};
use serde_json::{Map, Value};
use std::alloc::Global;
use tail_base::{Failure, Items};

/// What an element of a list is read as.
pub(crate) trait ReadElement {
    type Item: Drop;

    ghost reads: { Names → List ℕ → Data → Result Self.Item PolicyFault };

    /// Reads the element at a place, where these names have entries.
    fn read(
        alloc: Global,
        names: &Names,
        place: &str,
        value: &Value,
    ) -> Result<Self::Item, Failure<PolicyFault>>
        ensures value { Gives (λ x. x) result (reads names.now place.now (view value.now)) };
}

/// What each element of a list is read as.
pub(crate) fn each<E: ReadElement>(
    alloc: Global,
    names: &Names,
    place: &str,
    list: &[Value],
) -> Result<Items<E::Item>, Failure<PolicyFault>>
    ensures value { Gives (λ x. x) result
        (each (E.reads names.now) place.now 0 (items_view list.now)) }
{
    let mut out = Items::new(alloc);
    for (index, value) in list.iter().enumerate() {
        let within = indexed(alloc, place, index)?;
        let item = E::read(alloc, names, within.as_str(), value)?;
        out.push(item)?;
    }
    Ok(out)
}

/// The list of at most so many elements that a value is.
#[tactic(auto, using(crate::proofs::Counts::items_count_view), unfolding(crate::specs::Walks::list_of))]
pub(crate) fn list_of<E: ReadElement>(
    alloc: Global,
    most: usize,
    names: &Names,
    place: &str,
    value: &Value,
) -> Result<Items<E::Item>, Failure<PolicyFault>>
    ensures value { Gives (λ x. x) result (list_of most (E.reads names.now) place.now
        (view value.now)) }
{
    let Some(list) = value.as_array() else {
        return refused(alloc, PolicyCode::WrongShape, place);
    };
    if list.len() > most {
        return refused(alloc, PolicyCode::TooMany, place);
    }
    each::<E>(alloc, names, place, list)
}

/// The list that a value is; what is missing is empty.
pub(crate) fn list_or_empty<E: ReadElement>(
    alloc: Global,
    most: usize,
    names: &Names,
    place: &str,
    value: Option<&Value>,
) -> Result<Items<E::Item>, Failure<PolicyFault>>
    ensures value { Gives (λ x. x) result (or_empty (list_of most (E.reads names.now) place.now)
        (option_map view (option_copied value.entry))) }
{
    match value {
        Some(value) => list_of::<E>(alloc, most, names, place, value),
        None => Ok(Items::new(alloc)),
    }
}

/// What a member of an object is read as.
pub(crate) trait ReadMember: Sized + Drop {
    ghost reads: { Names → List Self → List ℕ → List ℕ → Data → Result Self PolicyFault };

    /// Reads the member of that key at a place, behind those before it, where these names have entries.
    fn read(
        alloc: Global,
        names: &Names,
        before: &[Self],
        key: &str,
        place: &str,
        value: &Value,
    ) -> Result<Self, Failure<PolicyFault>>
        ensures value { Gives (λ x. x) result (reads names.now before.now key.now place.now
            (view value.now)) };
}

fn each_member<M: ReadMember>(
    alloc: Global,
    names: &Names,
    place: &str,
    members: &Map<String, Value>,
) -> Result<Items<M>, Failure<PolicyFault>>
    ensures value { Gives (λ x. x) result (each_member (M.reads names.now) place.now []
        (members_view members.now.entries)) }
{
    let mut out = Items::new(alloc);
    for (key, value) in members {
        let within = under(alloc, place, key.as_str())?;
        let item = M::read(
            alloc,
            names,
            out.as_slice(),
            key.as_str(),
            within.as_str(),
            value,
        )?;
        out.push(item)?;
    }
    Ok(out)
}

/// The object of at most so many members that a value is.
#[tactic(auto, using(crate::proofs::Counts::members_count_view), unfolding(crate::specs::Walks::object_of))]
fn object_of<M: ReadMember>(
    alloc: Global,
    most: usize,
    names: &Names,
    place: &str,
    value: &Value,
) -> Result<Items<M>, Failure<PolicyFault>>
    ensures value { Gives (λ x. x) result (object_of most (M.reads names.now) place.now
        (view value.now)) }
{
    let Some(members) = value.as_object() else {
        return refused(alloc, PolicyCode::WrongShape, place);
    };
    if members.len() > most {
        return refused(alloc, PolicyCode::TooMany, place);
    }
    each_member(alloc, names, place, members)
}

/// The object that a value is; what is missing is empty.
pub(crate) fn members_or_empty<M: ReadMember>(
    alloc: Global,
    most: usize,
    names: &Names,
    place: &str,
    value: Option<&Value>,
) -> Result<Items<M>, Failure<PolicyFault>>
    ensures value { Gives (λ x. x) result (or_empty (object_of most (M.reads names.now) place.now)
        (option_map view (option_copied value.entry))) }
{
    match value {
        Some(value) => object_of(alloc, most, names, place, value),
        None => Ok(Items::new(alloc)),
    }
}
