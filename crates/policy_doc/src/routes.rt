//! The approvers of routes.
ghost use Rattle.std.specs.Prelude.{◌≡◌};
ghost use Rattle.tail_base.specs.Steps.{Gives};
ghost use Rattle.policy_doc.specs.Entries.{approver_text, is_route_before, is_same_route, route_entry};

use crate::limits::LIST_LIMIT;
use crate::walk::{ReadElement, ReadMember, list_of};
use net_addr::Prefix;
use policy_rows::{Approver, Names, PolicyCode, PolicyFault, Selector, read_approver, refused};
use serde_json::Value;
use std::alloc::Global;
use tail_base::Failure;

/// Whose routes are approved: a login, a group or a tag.
pub(crate) struct ApproverText;

impl ReadElement for ApproverText {
    type Item = Selector;

    ghost reads = { approver_text };

    #[tactic(auto, unfolding(crate::specs::Entries::approver_text))]
    fn read(
        alloc: Global,
        names: &Names,
        place: &str,
        value: &Value,
    ) -> Result<Selector, Failure<PolicyFault>> {
        let Some(text) = value.as_str() else {
            return refused(alloc, PolicyCode::WrongShape, place);
        };
        read_approver(alloc, names, place, text.as_bytes())
    }
}

/// Whether the prefixes have the same addresses.
fn is_same_route(a: &Prefix, b: &Prefix) -> bool
    ensures value { result ≡ is_same_route a.now b.now }
{
    a.within(b) && b.within(a)
}

fn is_route_before(before: &[Approver], route: &Prefix) -> bool
    ensures value { result ≡ is_route_before before.now route.now }
{
    before
        .iter()
        .any(|other| is_same_route(&other.route, route))
}

impl ReadMember for Approver {
    ghost reads = { route_entry };

    #[tactic(auto, unfolding(crate::specs::Entries::route_entry))]
    fn read(
        alloc: Global,
        names: &Names,
        before: &[Approver],
        key: &str,
        place: &str,
        value: &Value,
    ) -> Result<Approver, Failure<PolicyFault>> {
        let Ok(route) = Prefix::read(key.as_bytes()) else {
            return refused(alloc, PolicyCode::BadRoute, place);
        };
        if is_route_before(before, &route) {
            return refused(alloc, PolicyCode::BadRoute, place);
        }
        let by = list_of::<ApproverText>(alloc, LIST_LIMIT, names, place, value)?;
        Ok(Approver { route, by })
    }
}
