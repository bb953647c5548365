//! Members of objects and elements of lists.
ghost use Rattle.std.specs.Prelude.{◌≡◌, Result, option_map};
ghost use Rattle.serde_json.specs.Data.{Data};
ghost use Rattle.serde_json.specs.View.{items_view, view};
ghost use Rattle.tail_base.specs.Steps.{Gives};
ghost use Rattle.wire_json.specs.Body.{member_of};
ghost use Rattle.response_read.specs.Members.{all_given, all_read, due, each_read, if_given};
ghost use Rattle.response_read.specs.declared.misfit.Misfit.{Misfit as Unfit};

use crate::misfit::Misfit;
use serde_json::Value;
use std::alloc::Global;
use tail_base::{Failure, Items};

/// How a value of JSON is read.
pub(crate) trait ReadJson {
    type Made: Drop;

    ghost reads: { Data → Result Self.Made Unfit };

    /// What the value is read as.
    fn read(alloc: Global, value: &Value) -> Result<Self::Made, Failure<Misfit>>
        ensures value { Gives (λ x. x) result (reads (view value.now)) };
}

/// The member of that name, if it is there and not null.
fn member<'a>(object: &'a Value, name: &str) -> Option<&'a Value>
    ensures value { option_map (λ v. view v.now) result ≡ member_of name.now (view object.now) }
{
    match object.get(name) {
        Some(value) if !value.is_null() => Some(value),
        _ => None,
    }
}

/// A member that has to be there.
pub(crate) fn due<R: ReadJson>(
    alloc: Global,
    name: &str,
    object: &Value,
) -> Result<R::Made, Failure<Misfit>>
    ensures value { Gives (λ x. x) result (due name.now R.reads (view object.now)) }
{
    match member(object, name) {
        Some(value) => R::read(alloc, value),
        None => Err(Failure::Fault(Misfit::NotResponse)),
    }
}

/// A member that may be absent.
pub(crate) fn if_given<R: ReadJson>(
    alloc: Global,
    name: &str,
    object: &Value,
) -> Result<Option<R::Made>, Failure<Misfit>>
    ensures value { Gives (λ x. x) result (if_given name.now R.reads (view object.now)) }
{
    match member(object, name) {
        Some(value) => Ok(Some(R::read(alloc, value)?)),
        None => Ok(None),
    }
}

/// What each element is read as.
pub(crate) fn each_read<R: ReadJson>(
    alloc: Global,
    values: &[Value],
) -> Result<Items<R::Made>, Failure<Misfit>>
    ensures value { Gives (λ xs. xs) result (each_read R.reads (items_view values.now)) }
{
    let mut made = Items::new(alloc);
    for value in values {
        made.push(R::read(alloc, value)?)?;
    }
    Ok(made)
}

/// What each element of a list is read as.
pub(crate) fn all_read<R: ReadJson>(
    alloc: Global,
    value: &Value,
) -> Result<Items<R::Made>, Failure<Misfit>>
    ensures value { Gives (λ xs. xs) result (all_read R.reads (view value.now)) }
{
    match value.as_array() {
        Some(values) => each_read::<R>(alloc, values.as_slice()),
        None => Err(Failure::Fault(Misfit::NotResponse)),
    }
}

/// A member that is a list and has to be there.
pub(crate) fn all_due<R: ReadJson>(
    alloc: Global,
    name: &str,
    object: &Value,
) -> Result<Items<R::Made>, Failure<Misfit>>
    ensures value { Gives (λ xs. xs) result (due name.now (all_read R.reads) (view object.now)) }
{
    match member(object, name) {
        Some(value) => all_read::<R>(alloc, value),
        None => Err(Failure::Fault(Misfit::NotResponse)),
    }
}

/// A member that is a list, empty where it is absent.
pub(crate) fn all_given<R: ReadJson>(
    alloc: Global,
    name: &str,
    object: &Value,
) -> Result<Items<R::Made>, Failure<Misfit>>
    ensures value { Gives (λ xs. xs) result (all_given name.now R.reads (view object.now)) }
{
    match member(object, name) {
        Some(value) => all_read::<R>(alloc, value),
        None => Ok(Items::new(alloc)),
    }
}

/// A member that is a list and may be absent.
pub(crate) fn list_if_given<R: ReadJson>(
    alloc: Global,
    name: &str,
    object: &Value,
) -> Result<Option<Items<R::Made>>, Failure<Misfit>>
    ensures value { Gives (λ x. x) result
        (if_given name.now (all_read R.reads) (view object.now)) }
{
    match member(object, name) {
        Some(value) => Ok(Some(all_read::<R>(alloc, value)?)),
        None => Ok(None),
    }
}
