//! A policy is saved.
ghost use Rattle.std.specs.Prelude.{◌≡◌, IfOk};
ghost use Rattle.tail_base.specs.Steps.{Gives};
ghost use Rattle.policy_doc.specs.Document.{policy_of_text};
ghost use Rattle.policy_asks.specs.Saving as spec;

use crate::answer::PolicyAnswer;
use desk_state::{Decision, Refusal, Snapshot, live_ids};
use net_rows::{Change, Row, Tables};
use policy_doc::read_policy;
use policy_rows::{Policy, PolicyFault};
use policy_tests::tested;
use std::alloc::Global;
use tail_base::{Duplicate, Failure, Items, NoMemory, Text};

/// The refusal that a policy's fault is.
fn refusal_by(fault: PolicyFault) -> Refusal
    ensures value { result ≡ Refusal.PolicyRefused fault.code fault.place }
{
    let PolicyFault { code, place } = fault;
    Refusal::PolicyRefused { code, place }
}

/// The policy of a text, whose fault refuses the ask.
fn policy_or_refused(alloc: Global, text: &Text) -> Result<Policy, Failure<Refusal>>
    ensures value { Gives (λ p. p) result (spec.or_refused (policy_of_text text.now)) }
{
    match read_policy(alloc, text.as_slice()) {
        Ok(policy) => Ok(policy),
        Err(Failure::Fault(fault)) => Err(Failure::Fault(refusal_by(fault))),
        Err(Failure::NoMemory) => Err(Failure::NoMemory),
    }
}

/// The tests of the policy, over the machines that are live. The first that fails refuses the ask.
fn tested_or_refused(
    alloc: Global,
    at: &Snapshot<'_>,
    policy: &Policy,
) -> Result<(), Failure<Refusal>>
    ensures value { Gives (λ t. t) result (spec.or_refused (spec.tested_in at.now policy.now)) }
{
    let live = live_ids(alloc, at)?;
    match tested(alloc, policy, at.tables, live.as_slice()) {
        Ok(()) => Ok(()),
        Err(Failure::Fault(fault)) => Err(Failure::Fault(refusal_by(fault))),
        Err(Failure::NoMemory) => Err(Failure::NoMemory),
    }
}

fn is_kept(kept: &Option<Text>, text: &Text) -> bool
    ensures value { result ≡ spec.is_kept kept.now text.now }
{
    match kept {
        Some(kept) => kept.as_slice() == text.as_slice(),
        None => false,
    }
}

fn text_change(alloc: Global, tables: &Tables, text: &Text) -> Result<Change, NoMemory>
    ensures value { IfOk result (λ change. change ≡ spec.text_change tables.now.rows text.now) }
{
    let mut puts = Items::new(alloc);
    puts.push(Row::Policy(text.copy(alloc)?))?;
    Ok(Change {
        puts,
        gone: Items::new(alloc),
        next: tables.next(),
    })
}

fn kept_anew(
    alloc: Global,
    tables: &Tables,
    text: &Text,
    policy: Policy,
) -> Result<Decision<PolicyAnswer>, NoMemory>
    ensures value { IfOk result (λ d. d ≡ spec.kept_anew tables.now.rows text.now policy) }
{
    let change = text_change(alloc, tables, text)?;
    Ok(Decision {
        change: Some(change),
        policy: Some(policy),
        offline: Items::new(alloc),
        ended: Items::new(alloc),
        answer: PolicyAnswer::Saved,
    })
}

fn saved(
    alloc: Global,
    tables: &Tables,
    text: &Text,
    policy: Policy,
) -> Result<Decision<PolicyAnswer>, NoMemory>
    ensures value { IfOk result (λ d. d ≡ spec.saved tables.now.rows text.now policy) }
{
    if is_kept(tables.policy(), text) {
        Ok(Decision::only(alloc, PolicyAnswer::Saved))
    } else {
        kept_anew(alloc, tables, text, policy)
    }
}

/// The text is kept and its policy put in force, unless the text has a fault, or else a test of the
/// policy fails, which refuses it. Where it is the text that is kept already, nothing changes.
pub(crate) fn save(
    alloc: Global,
    at: &Snapshot<'_>,
    text: &Text,
) -> Result<Decision<PolicyAnswer>, Failure<Refusal>>
    ensures value { Gives (λ d. d) result (spec.save at.now text.now) }
{
    let policy = policy_or_refused(alloc, text)?;
    tested_or_refused(alloc, at, &policy)?;
    Ok(saved(alloc, at.tables, text, policy)?)
}
