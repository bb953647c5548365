//! Which machines reach and see which, pair by pair.
ghost use Rattle.std.specs.Prelude.{◌≡◌, ◌<◌};

use peer_view::{Steps, World, pair_test, sees};
use std::alloc::Global;
use std::sync::ledger::{Blank, Ledger};
use tail_base::NoMemory;

fn add_pair(alloc: Global, out: &mut String, a: u32, b: u32) -> Result<(), NoMemory> {
    let pair = format!(in alloc; " {a},{b}")?;
    out.push_str(pair.as_str())?;
    Ok(())
}

/// Who reaches whom, the one that isn't live among them; a machine isn't asked of itself.
pub fn reaching<L: Ledger>(
    alloc: Global,
    world: &World<'_>,
    blank: Blank,
) -> Result<String, NoMemory>
    requires name { blank.name ≡ L.name }
    requires parts { blank.parts ≡ L.parts }
    requires some { 0 < blank.parts }
{
    let mut out = String::new(alloc);
    let mut steps = Steps::<L>::new(blank);
    for a in 1..8 {
        for b in 1..8 {
            if a != b && pair_test(world, a, b, &mut steps) {
                add_pair(alloc, &mut out, a, b)?;
            }
        }
    }
    Ok(out)
}

/// Who sees whom, each asked of itself, too.
pub fn seeing<L: Ledger>(alloc: Global, world: &World<'_>, blank: Blank) -> Result<String, NoMemory>
    requires name { blank.name ≡ L.name }
    requires parts { blank.parts ≡ L.parts }
    requires some { 0 < blank.parts }
{
    let mut out = String::new(alloc);
    let mut steps = Steps::<L>::new(blank);
    for a in 1..8 {
        for b in 1..8 {
            if sees(world, a, b, &mut steps) {
                add_pair(alloc, &mut out, a, b)?;
            }
        }
    }
    Ok(out)
}
