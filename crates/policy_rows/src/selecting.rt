//! The selectors that texts name.
ghost use Rattle.std.specs.Prelude.{◌≡◌};
ghost use Rattle.tail_base.specs.Steps.{Gives};
ghost use Rattle.policy_rows.specs.Selectors.{approver_at, automatic_at, group_at, host_at, is_approver, is_source, is_test_end, plain_at, selector_at, source_at, tag_at, test_end_at, has_slash};

use crate::code::PolicyCode;
use crate::fault::{PolicyFault, refused};
use crate::names::{Names, is_name};
use crate::nets::{is_one_address, net_of_text};
use crate::selector::Selector;
use std::alloc::Global;
use tail_base::{Duplicate, Failure, Login};

fn read_group(
    alloc: Global,
    names: &Names,
    place: &str,
    text: &[u8],
) -> Result<Selector, Failure<PolicyFault>>
    ensures value { Gives (λ x. x) result (group_at names.now place.now text.now) }
{
    match names.group(text) {
        Some(group) => Ok(Selector::Group(group.name.copy(alloc)?)),
        None => refused(alloc, PolicyCode::UnknownGroup, place),
    }
}

fn read_tag(
    alloc: Global,
    names: &Names,
    place: &str,
    text: &[u8],
) -> Result<Selector, Failure<PolicyFault>>
    ensures value { Gives (λ x. x) result (tag_at names.now place.now text.now) }
{
    match names.tag(text) {
        Some(owner) => Ok(Selector::Tagged(owner.tag.copy(alloc)?)),
        None => refused(alloc, PolicyCode::UnknownTag, place),
    }
}

fn read_automatic(alloc: Global, place: &str, text: &[u8]) -> Result<Selector, Failure<PolicyFault>>
    ensures value { Gives (λ x. x) result (automatic_at place.now text.now) }
{
    if text == b"autogroup:member".as_slice() {
        Ok(Selector::Member)
    } else if text == b"autogroup:tagged".as_slice() {
        Ok(Selector::AllTagged)
    } else if text == b"autogroup:internet".as_slice() {
        Ok(Selector::Internet)
    } else if text == b"autogroup:self".as_slice() {
        Ok(Selector::OwnDevices)
    } else {
        refused(alloc, PolicyCode::Unsupported, place)
    }
}

fn read_host(
    alloc: Global,
    names: &Names,
    place: &str,
    text: &[u8],
) -> Result<Selector, Failure<PolicyFault>>
    ensures value { Gives (λ x. x) result (host_at names.now place.now text.now) }
{
    if !is_name(text) {
        return refused(alloc, PolicyCode::BadSelector, place);
    }
    match names.host(text) {
        Some(host) => Ok(Selector::Net(host.prefix)),
        None => refused(alloc, PolicyCode::UnknownHost, place),
    }
}

fn read_plain(
    alloc: Global,
    names: &Names,
    place: &str,
    text: &[u8],
) -> Result<Selector, Failure<PolicyFault>>
    ensures value { Gives (λ x. x) result (plain_at names.now place.now text.now) }
{
    if let Some(login) = Login::read(alloc, text)? {
        return Ok(Selector::User(login));
    }
    match net_of_text(text) {
        Some(net) => Ok(Selector::Net(net)),
        None => read_host(alloc, names, place, text),
    }
}

/// The selector that a text is.
#[tactic(auto, unfolding(crate::specs::Selectors::selector_at))]
pub fn read_selector(
    alloc: Global,
    names: &Names,
    place: &str,
    text: &[u8],
) -> Result<Selector, Failure<PolicyFault>>
    ensures value { Gives (λ x. x) result (selector_at names.now place.now text.now) }
{
    if text == b"*".as_slice() {
        Ok(Selector::All)
    } else if text.starts_with(b"group:") {
        read_group(alloc, names, place, text)
    } else if text.starts_with(b"tag:") {
        read_tag(alloc, names, place, text)
    } else if text.starts_with(b"autogroup:") {
        read_automatic(alloc, place, text)
    } else if text.starts_with(b"ipset:") || text.starts_with(b"svc:") {
        refused(alloc, PolicyCode::Unsupported, place)
    } else {
        read_plain(alloc, names, place, text)
    }
}

fn is_source(selector: &Selector) -> bool
    ensures value { result ≡ is_source selector.now }
{
    match selector {
        Selector::All
        | Selector::Net(_)
        | Selector::User(_)
        | Selector::Group(_)
        | Selector::Tagged(_)
        | Selector::Member
        | Selector::AllTagged => true,
        Selector::Internet | Selector::OwnDevices => false,
    }
}

/// The source of a rule that a text names: any selector but `autogroup:internet` and `autogroup:self`.
#[tactic(auto, unfolding(crate::specs::Selectors::source_at))]
pub fn read_source(
    alloc: Global,
    names: &Names,
    place: &str,
    text: &[u8],
) -> Result<Selector, Failure<PolicyFault>>
    ensures value { Gives (λ x. x) result (source_at names.now place.now text.now) }
{
    let selector = read_selector(alloc, names, place, text)?;
    if !is_source(&selector) {
        return refused(alloc, PolicyCode::NotASource, place);
    }
    Ok(selector)
}

fn is_approver(selector: &Selector) -> bool
    ensures value { result ≡ is_approver selector.now }
{
    match selector {
        Selector::User(_) | Selector::Group(_) | Selector::Tagged(_) => true,
        Selector::All
        | Selector::Net(_)
        | Selector::Member
        | Selector::AllTagged
        | Selector::Internet
        | Selector::OwnDevices => false,
    }
}

/// The approver of routes that a text names: a login, a group or a tag.
#[tactic(auto, unfolding(crate::specs::Selectors::approver_at))]
pub fn read_approver(
    alloc: Global,
    names: &Names,
    place: &str,
    text: &[u8],
) -> Result<Selector, Failure<PolicyFault>>
    ensures value { Gives (λ x. x) result (approver_at names.now place.now text.now) }
{
    let selector = read_selector(alloc, names, place, text)?;
    if !is_approver(&selector) {
        return refused(alloc, PolicyCode::BadSelector, place);
    }
    Ok(selector)
}

/// Whether a slash stands in the text, as in each prefix.
fn has_slash(text: &[u8]) -> bool
    ensures value { result ≡ has_slash text.now }
{
    text.iter().any(|b| *b == b'/')
}

fn is_test_end(text: &[u8], selector: &Selector) -> bool
    ensures value { result ≡ is_test_end text.now selector.now }
{
    match selector {
        Selector::Net(net) => is_one_address(net) && !has_slash(text),
        Selector::User(_) | Selector::Group(_) | Selector::Tagged(_) => true,
        Selector::All
        | Selector::Member
        | Selector::AllTagged
        | Selector::Internet
        | Selector::OwnDevices => false,
    }
}

/// The subject of a test that a text names, or a destination's selector there: a login, a group, a tag,
/// an address, or a host that is one address.
#[tactic(auto, unfolding(crate::specs::Selectors::test_end_at))]
pub fn read_test_end(
    alloc: Global,
    names: &Names,
    place: &str,
    text: &[u8],
) -> Result<Selector, Failure<PolicyFault>>
    ensures value { Gives (λ x. x) result (test_end_at names.now place.now text.now) }
{
    let selector = read_selector(alloc, names, place, text)?;
    if !is_test_end(text, &selector) {
        return refused(alloc, PolicyCode::BadTest, place);
    }
    Ok(selector)
}
