//! A policy's tests are run.
ghost use Rattle.std.specs.Prelude.{◌≡◌, IfOk, None, not};
ghost use Rattle.std.specs.List.{position_from};
ghost use Rattle.tail_base.specs.Steps.{Gives};
ghost use Rattle.policy_sites.specs.Sites.{sites_of};
ghost use Rattle.policy_tests.specs.Lasting.{AcceptsLast};
ghost use Rattle.policy_tests.specs.Tests.{failure_from, first_failure, list_name, place_of, test_failure, tested};
ghost use Rattle.policy_tests.specs.Trials.{accepted_by, denied_by};

use crate::accepting::is_accepted;
use crate::denying::is_denied;
use crate::ends::core_of;
use crate::failure::TestFailure;
use crate::side::side_of;
use net_rows::Tables;
use policy_eval::Expanded;
use policy_rows::{Policy, PolicyCode, PolicyFault, Test, indexed, refused, under};
use std::alloc::Global;
use tail_base::{Failure, NoMemory, Text};

/// The first accept entry that fails.
fn first_refused(alloc: Global, x: &Expanded, test: &Test) -> Result<Option<usize>, NoMemory>
    ensures value { IfOk result (λ at. at ≡ position_from (λ e. not
        (accepted_by x.now.groups x.now.rules x.now.sites test.now e)) 0 test.now.accept) }
{
    let sources = core_of(alloc, x.groups(), x.sites(), &test.subject)?;
    for (at, entry) in test.accept.as_slice().iter().enumerate() {
        if !is_accepted(alloc, x, test, sources.as_slice(), entry)? {
            return Ok(Some(at));
        }
    }
    Ok(None)
}

/// The first deny entry that fails.
fn first_let_through(alloc: Global, x: &Expanded, test: &Test) -> Result<Option<usize>, NoMemory>
    ensures value { IfOk result (λ at. at ≡ position_from (λ e. not
        (denied_by x.now.groups x.now.rules x.now.sites test.now e)) 0 test.now.deny) }
{
    let sources = side_of(alloc, x, &test.subject)?;
    for (at, entry) in test.deny.as_slice().iter().enumerate() {
        if !is_denied(alloc, x, test, &sources, entry)? {
            return Ok(Some(at));
        }
    }
    Ok(None)
}

/// The first entry of a test that fails: `accept` goes before `deny`.
fn test_failure(
    alloc: Global,
    x: &Expanded,
    at: usize,
    test: &Test,
) -> Result<Option<TestFailure>, NoMemory>
    ensures value { IfOk result (λ failure. failure ≡ test_failure
        (accepted_by x.now.groups x.now.rules x.now.sites)
        (denied_by x.now.groups x.now.rules x.now.sites) at test.now) }
{
    if let Some(index) = first_refused(alloc, x, test)? {
        return Ok(Some(TestFailure {
            test: at,
            accept: true,
            index,
        }));
    }
    match first_let_through(alloc, x, test)? {
        Some(index) => Ok(Some(TestFailure {
            test: at,
            accept: false,
            index,
        })),
        None => Ok(None),
    }
}

fn first_of_tests(
    alloc: Global,
    x: &Expanded,
    tests: &[Test],
) -> Result<Option<TestFailure>, NoMemory>
    ensures value { IfOk result (λ failure. failure ≡ failure_from
        (accepted_by x.now.groups x.now.rules x.now.sites)
        (denied_by x.now.groups x.now.rules x.now.sites) 0 tests.now) }
{
    for (at, test) in tests.iter().enumerate() {
        if let Some(failure) = test_failure(alloc, x, at, test)? {
            return Ok(Some(failure));
        }
    }
    Ok(None)
}

/// The first failure of a policy's tests, over the machines that are live, whose ids are listed. Where
/// there is none, the accept entries between users, groups and tags pass whatever machines come.
pub fn first_failure(
    alloc: Global,
    policy: &Policy,
    tables: &Tables,
    live: &[u32],
) -> Result<Option<TestFailure>, NoMemory>
    ensures value { IfOk result (λ failure.
        failure ≡ first_failure policy.now (sites_of (Some policy.now) tables.now.rows live.now)) }
    ensures lasting { IfOk result (λ failure. failure ≡ None → AcceptsLast policy.now) }
{
    let x = Expanded::of(alloc, Some(policy), tables, live)?;
    let failure = first_of_tests(alloc, &x, policy.tests.as_slice())?;
    Ok(failure)
}

fn list_name(accept: bool) -> &'static str
    ensures value { result.now ≡ list_name accept }
{
    if accept { "accept" } else { "deny" }
}

fn place_of(alloc: Global, failure: TestFailure) -> Result<Text, NoMemory>
    ensures value { IfOk result (λ place. place ≡ place_of failure) }
{
    let test = indexed(alloc, "tests", failure.test)?;
    let list = under(alloc, test.as_str(), list_name(failure.accept))?;
    indexed(alloc, list.as_str(), failure.index)
}

/// The policy passes its tests over the machines that are live, whose ids are listed, or else its first
/// failure is its fault.
pub fn tested(
    alloc: Global,
    policy: &Policy,
    tables: &Tables,
    live: &[u32],
) -> Result<(), Failure<PolicyFault>>
    ensures value { Gives (λ t. t) result
        (tested policy.now (sites_of (Some policy.now) tables.now.rows live.now)) }
{
    // The policy's rules are expanded for its tests alone, which takes as long as reading it.
    if policy.tests.is_empty() {
        return Ok(());
    }
    match first_failure(alloc, policy, tables, live)? {
        Some(failure) => {
            let place = place_of(alloc, failure)?;
            refused(alloc, PolicyCode::TestFailed, place.as_str())
        }
        None => Ok(()),
    }
}
