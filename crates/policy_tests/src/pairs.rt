//! Pairs of ends: each rule is asked once for each end, and not for each pair.
ghost use Rattle.std.specs.Prelude.{◌≡◌, ◌<◌, ◌&&◌, ◌||◌, Bool, IfOk, length, map, slice_index_or};
ghost use Rattle.std.specs.List.{list_all};
ghost use Rattle.policy_sites.specs.Covers.{joins_own};
ghost use Rattle.policy_tests.specs.Pairs.{dest_row, flags_meet, opens_own, opens_to, self_row, reaches_all, source_row, dest_target};

use crate::opening::is_open;
use policy_eval::Expanded;
use policy_rows::{Group, Rule};
use policy_sites::{End, Holder, covers, is_own_devices, joins_own, some_source};
use std::alloc::Global;
use tail_base::{Duplicate, Items, NoMemory};

/// An end, and of each rule whether an open destination of it covers the end.
#[derive(Drop)]
pub(crate) struct Target {
    pub(crate) end: End,
    pub(crate) row: Items<bool>,
}

fn copy_of_holder(alloc: Global, holder: &Holder) -> Result<Holder, NoMemory>
    ensures value { IfOk result (λ copy. copy ≡ holder.now) }
{
    let login = holder.login.copy(alloc)?;
    let tags = holder.tags.copy(alloc)?;
    Ok(Holder {
        user: holder.user,
        login,
        tags,
    })
}

fn copy_of_end(alloc: Global, end: &End) -> Result<End, NoMemory>
    ensures value { IfOk result (λ copy. copy ≡ end.now) }
{
    let addr = end.addr;
    match &end.holder {
        Some(holder) => {
            let holder = copy_of_holder(alloc, holder)?;
            Ok(End {
                addr,
                holder: Some(holder),
            })
        }
        None => Ok(End { addr, holder: None }),
    }
}

/// Whether an open destination of the rule covers the end.
fn opens_to(groups: &[Group], proto: Option<u8>, port: u16, end: &End, rule: &Rule) -> bool
    ensures value { result ≡ opens_to groups.now proto port end.now rule.now }
{
    let entries = rule.dests.as_slice();
    entries.iter().any(|entry| is_open(proto, port, rule, entry) && covers(groups, &entry.to, end))
}

/// Whether `autogroup:self` is an open destination of the rule.
fn opens_own(proto: Option<u8>, port: u16, rule: &Rule) -> bool
    ensures value { result ≡ opens_own proto port rule.now }
{
    let entries = rule.dests.as_slice();
    entries.iter().any(|entry| is_open(proto, port, rule, entry) && is_own_devices(&entry.to))
}

/// Of each rule whether the end is a source.
fn source_row(alloc: Global, x: &Expanded, end: &End) -> Result<Items<bool>, NoMemory>
    ensures value { IfOk result (λ row. row ≡ source_row x.now end.now) }
{
    let mut row = Items::new(alloc);
    for rule in x.rules() {
        row.push(some_source(x.groups(), rule, end))?;
    }
    Ok(row)
}

/// Of each rule whether an open destination covers the end.
fn dest_row(
    alloc: Global,
    x: &Expanded,
    proto: Option<u8>,
    port: u16,
    end: &End,
) -> Result<Items<bool>, NoMemory>
    ensures value { IfOk result (λ row. row ≡ dest_row x.now proto port end.now) }
{
    let mut row = Items::new(alloc);
    for rule in x.rules() {
        row.push(opens_to(x.groups(), proto, port, end, rule))?;
    }
    Ok(row)
}

/// Of each rule whether `autogroup:self` is an open destination.
pub(crate) fn self_row(
    alloc: Global,
    x: &Expanded,
    proto: Option<u8>,
    port: u16,
) -> Result<Items<bool>, NoMemory>
    ensures value { IfOk result (λ row. row ≡ self_row x.now proto port) }
{
    let mut row = Items::new(alloc);
    for rule in x.rules() {
        row.push(opens_own(proto, port, rule))?;
    }
    Ok(row)
}

fn dest_target(
    alloc: Global,
    x: &Expanded,
    proto: Option<u8>,
    port: u16,
    end: &End,
) -> Result<Target, NoMemory>
    ensures value { IfOk result (λ target. target ≡ dest_target x.now proto port end.now) }
{
    let row = dest_row(alloc, x, proto, port, end)?;
    let end = copy_of_end(alloc, end)?;
    Ok(Target { end, row })
}

/// The ends with their rows.
pub(crate) fn targets_of(
    alloc: Global,
    x: &Expanded,
    proto: Option<u8>,
    port: u16,
    ends: &[End],
) -> Result<Items<Target>, NoMemory>
    ensures value { IfOk result (λ targets. targets ≡ map (dest_target x.now proto port) ends.now) }
{
    let mut targets = Items::new(alloc);
    for end in ends {
        targets.push(dest_target(alloc, x, proto, port, end)?)?;
    }
    Ok(targets)
}

fn both_set(flag: bool, flags: &[bool], at: usize) -> bool
    requires inside { at < length flags.now }
    ensures value { (d : Bool) → result ≡ (flag && slice_index_or flags.now at d) }
{
    flag && flags[at]
}

/// Whether at some place both are set.
fn flags_meet(a: &[bool], b: &[bool]) -> bool
    ensures value { result ≡ flags_meet a.now b.now }
{
    for (at, flag) in a.iter().enumerate() {
        if at == b.len() {
            return false;
        }
        if both_set(*flag, b, at) {
            return true;
        }
    }
    false
}

fn reaches(row: &[bool], owns: bool, source: &End, target: &Target) -> bool
    ensures value { result ≡ (flags_meet row.now target.now.row
        || (owns && joins_own source.now target.now.end)) }
{
    flags_meet(row, target.row.as_slice()) || (owns && joins_own(source, &target.end))
}

fn reaches_each(row: &[bool], owns: bool, source: &End, targets: &[Target]) -> bool
    ensures value { result ≡ list_all (λ t. flags_meet row.now t.row
        || (owns && joins_own source.now t.end)) targets.now }
{
    targets
        .iter()
        .all(|target| reaches(row, owns, source, target))
}

/// Whether some rule lets the source through to each of the targets; of each rule is given whether
/// `autogroup:self` is an open destination.
pub(crate) fn reaches_all(
    alloc: Global,
    x: &Expanded,
    own: &[bool],
    source: &End,
    targets: &[Target],
) -> Result<bool, NoMemory>
    ensures value { IfOk result (λ all. all ≡ reaches_all x.now own.now targets.now source.now) }
{
    let row = source_row(alloc, x, source)?;
    let owns = flags_meet(row.as_slice(), own);
    Ok(reaches_each(row.as_slice(), owns, source, targets))
}
