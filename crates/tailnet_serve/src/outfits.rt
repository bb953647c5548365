//! The clocks and the random sources of workers.
ghost use Rattle.io_edge.specs.Edge.{Rose};
ghost use Rattle.std.specs.Prelude.{◌≡◌, ◌≤◌, ℕ, All, IfOk, IsErrOf, length};
ghost use Rattle.tailnet_serve.specs.Crews.{IsSplitDrawing, TellsSame};
ghost use Rattle.tailnet_serve.specs.Works.{drawing};

use io_edge::{Clock, EdgeFault, Entropy};
use std::alloc::Global;

/// The clock and the random source of a worker.
pub struct Outfit<C, N> {
    pub clock: C,
    pub entropy: N,
}

/// A clock and a random source that tell the same as these.
fn outfit_of<C: Clock + Drop, N: Entropy>(
    alloc: Global,
    clock: &mut C,
    entropy: &mut N,
) -> Result<Outfit<C, N>, EdgeFault>
    ensures outfit { let at = drawing C.answer N.word N.faults in
        IfOk result (λ o. IsSplitDrawing (at clock.old entropy.old) (at o.clock o.entropy)) }
    ensures same { let at = drawing C.answer N.word N.faults in
        TellsSame (at clock.old entropy.old) (at clock.new entropy.new) }
    ensures later { N.faults entropy.old ≤ N.faults entropy.new }
    ensures cause { IsErrOf result EdgeFault.Failed
        → Rose (N.faults entropy.old) (N.faults entropy.new) }
{
    let Ok(clock) = clock.split(alloc) else {
        return Err(EdgeFault::NoMemory);
    };
    match entropy.split(alloc) {
        Ok(entropy) => Ok(Outfit { clock, entropy }),
        Err(fault) => Err(fault),
    }
}

/// Joins the random sources of outfits into the one from which they were split.
pub(crate) fn join_outfits<C: Clock + Drop, N: Entropy>(entropy: &mut N, outfits: Vec<Outfit<C, N>>)
    ensures same { (k : ℕ) → N.word entropy.new k ≡ N.word entropy.old k }
    ensures later { N.faults entropy.old ≤ N.faults entropy.new }
{
    let mut outfits = outfits;
    while let Some(outfit) = outfits.pop() {
        let Outfit {
            clock: _,
            entropy: own,
        } = outfit;
        entropy.join(own);
    }
    outfits.destroy_empty();
}

/// A clock and a random source for each of so many workers. If one can't be split, those that were are
/// joined again.
pub(crate) fn outfits_of<C: Clock + Drop, N: Entropy>(
    alloc: Global,
    clock: &mut C,
    entropy: &mut N,
    count: u32,
) -> Result<Vec<Outfit<C, N>>, EdgeFault>
    ensures count { IfOk result (λ outfits. length outfits.items ≡ count) }
    ensures each { let at = drawing C.answer N.word N.faults in
        IfOk result (λ outfits. All
        (λ o. IsSplitDrawing (at clock.old entropy.old) (at o.clock o.entropy)) outfits.items) }
    ensures same { let at = drawing C.answer N.word N.faults in
        TellsSame (at clock.old entropy.old) (at clock.new entropy.new) }
    ensures later { N.faults entropy.old ≤ N.faults entropy.new }
    ensures cause { IsErrOf result EdgeFault.Failed
        → Rose (N.faults entropy.old) (N.faults entropy.new) }
{
    let wanted = count as usize;
    let Ok(mut outfits) = Vec::with_capacity(alloc, wanted) else {
        return Err(EdgeFault::NoMemory);
    };
    'outfits: while outfits.len() < wanted {
        match outfit_of(alloc, clock, entropy) {
            Ok(outfit) => outfits.push_reserved(outfit),
            Err(fault) => {
                join_outfits(entropy, outfits);
                return Err(fault);
            }
        }
    }
    Ok(outfits)
}
