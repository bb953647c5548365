//! Who reaches and who sees whom.
ghost use Rattle.std.specs.Prelude.{◌≡◌, ◌≤◌, ◌+◌, Contains};
ghost use Rattle.peer_view.specs.Seen.{node_reaches, of_ids, sees};

use crate::by_id::id_reaches;
use crate::machine::LiveMachine;
use crate::near::Spot;
use crate::steps::Steps;
use crate::world::World;
use std::sync::ledger::Ledger;

/// Whether the machine of one id reaches that of the other.
fn reaches(world: &World<'_>, a: Spot, b: Spot) -> bool
    ensures value { result ≡ of_ids (node_reaches world.now) world.now a.id b.id }
{
    let expanded = world.expanded;
    // For what it promises, that rules are sound.
    let _rules = expanded.rules();
    id_reaches(expanded, a, b)
}

/// Whether the machine of one id reaches that of the other: some flow from an address of the first to
/// an address that the second serves is granted. A machine that isn't live reaches nobody. It looks at
/// the flags of each rule and searches no set; it takes one step, whatever it answers, and no memory.
pub fn pair_test<L: Ledger>(world: &World<'_>, a: u32, b: u32, steps: &mut Steps<L>) -> bool
    ensures value { result ≡ of_ids (node_reaches world.now) world.now a b }
    ensures cost { steps.new ≡ steps.old + 1 }
{
    steps.tick();
    reaches(world, Spot { id: a, place: 0 }, Spot { id: b, place: 0 })
}

/// Whether the machine of one id sees that of the other: both are live, they differ, and one reaches
/// the other. It takes at most two steps, none where the ids are equal, and no memory.
#[tactic(auto, using(crate::proofs::SightLaws::sight_first, crate::proofs::SightLaws::sight_second))]
pub fn sees<L: Ledger>(world: &World<'_>, viewer: u32, peer: u32, steps: &mut Steps<L>) -> bool
    ensures value { result ≡ of_ids (sees world.now) world.now viewer peer }
    ensures cost { steps.new ≤ steps.old + 2 }
    ensures same { viewer ≡ peer → steps.new ≡ steps.old }
{
    if viewer == peer {
        return false;
    }
    if pair_test(world, viewer, peer, steps) {
        return true;
    }
    pair_test(world, peer, viewer, steps)
}

/// Whether one live machine sees the other. Their sites are looked for where they were found. It takes no
/// memory.
pub fn sees_machine(world: &World<'_>, viewer: &LiveMachine<'_>, peer: &LiveMachine<'_>) -> bool
    requires viewer { Contains world.now.nodes viewer.now }
    requires peer { Contains world.now.nodes peer.now }
    ensures value { result ≡ sees world.now viewer.now peer.now }
{
    let (a, b) = (viewer.spot(), peer.spot());
    if a.id == b.id {
        return false;
    }
    // For what it promises, that nodes go by id.
    let _users = world.users();
    reaches(world, a, b) || reaches(world, b, a)
}
