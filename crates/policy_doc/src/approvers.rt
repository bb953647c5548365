//! The section `autoApprovers`.
ghost use Rattle.std.specs.Prelude.{◌≡◌};
ghost use Rattle.std.specs.Option.{option_copied, option_map};
ghost use Rattle.serde_json.specs.View.{view};
ghost use Rattle.tail_base.specs.Steps.{Gives};
ghost use Rattle.policy_doc.specs.Document.{approvers_at, approvers_or_none};

use crate::keys::{check_keys, section};
use crate::limits::{ENTRY_LIMIT, LIST_LIMIT};
use crate::routes::ApproverText;
use crate::walk::{list_or_empty, members_or_empty};
use policy_rows::{Approver, Names, PolicyCode, PolicyFault, Selector, refused, under};
use serde_json::Value;
use std::alloc::Global;
use tail_base::{Failure, Items};

/// Whose routes are approved.
#[derive(Drop)]
pub(crate) struct Approvers {
    pub(crate) exit: Items<Selector>,
    pub(crate) routes: Items<Approver>,
}

#[tactic(auto, unfolding(crate::specs::Document::approvers_at))]
fn read_approvers(
    alloc: Global,
    names: &Names,
    place: &str,
    value: &Value,
) -> Result<Approvers, Failure<PolicyFault>>
    ensures value { Gives (λ x. x) result (approvers_at names.now place.now (view value.now)) }
{
    let Some(members) = value.as_object() else {
        return refused(alloc, PolicyCode::WrongShape, place);
    };
    check_keys(
        alloc,
        place,
        &["exitNode", "routes"],
        &["services"],
        members,
    )?;
    let within = under(alloc, place, "exitNode")?;
    let exit = list_or_empty::<ApproverText>(
        alloc,
        LIST_LIMIT,
        names,
        within.as_str(),
        section("exitNode", members),
    )?;
    let within = under(alloc, place, "routes")?;
    let routes = members_or_empty(
        alloc,
        ENTRY_LIMIT,
        names,
        within.as_str(),
        section("routes", members),
    )?;
    Ok(Approvers { exit, routes })
}

/// The approvers that a policy has.
pub(crate) fn approvers_or_none(
    alloc: Global,
    names: &Names,
    value: Option<&Value>,
) -> Result<Approvers, Failure<PolicyFault>>
    ensures value { Gives (λ x. x) result (approvers_or_none names.now
        (option_map view (option_copied value.entry))) }
{
    match value {
        Some(value) => read_approvers(alloc, names, "autoApprovers", value),
        None => Ok(Approvers {
            exit: Items::new(alloc),
            routes: Items::new(alloc),
        }),
    }
}
