//! Whether accept entries pass: each rule is asked once for each end.
ghost use Rattle.std.specs.Prelude.{◌≡◌, IfOk};
ghost use Rattle.policy_tests.specs.Trials.{accepted_by, all_pass, core_of};

use crate::ends::core_of;
use crate::opening::port_of;
use crate::pairs::{reaches_all, self_row, targets_of};
use policy_eval::Expanded;
use policy_rows::{Dest, Test};
use policy_sites::End;
use std::alloc::Global;
use tail_base::NoMemory;

/// Whether each pair of the ends is granted.
fn all_pass(
    alloc: Global,
    x: &Expanded,
    proto: Option<u8>,
    port: u16,
    sources: &[End],
    dests: &[End],
) -> Result<bool, NoMemory>
    ensures value { IfOk result (λ passes. passes
        ≡ all_pass x.now.groups x.now.rules proto port sources.now dests.now) }
{
    let targets = targets_of(alloc, x, proto, port, dests)?;
    let own = self_row(alloc, x, proto, port)?;
    for source in sources {
        if !reaches_all(alloc, x, own.as_slice(), source, targets.as_slice())? {
            return Ok(false);
        }
    }
    Ok(true)
}

/// Whether each pair of the subject's ends and the entry's is granted. Phantoms tell it for all machines
/// that they stand for; these are the subject's.
pub(crate) fn is_accepted(
    alloc: Global,
    x: &Expanded,
    test: &Test,
    sources: &[End],
    entry: &Dest,
) -> Result<bool, NoMemory>
    requires sources { sources.now ≡ core_of x.now.groups x.now.sites test.now.subject }
    ensures value { IfOk result (λ passes. passes
        ≡ accepted_by x.now.groups x.now.rules x.now.sites test.now entry.now) }
{
    let dests = core_of(alloc, x.groups(), x.sites(), &entry.to)?;
    let (proto, port) = (test.proto, port_of(entry));
    let passes = all_pass(alloc, x, proto, port, sources, dests.as_slice())?;
    Ok(passes)
}
