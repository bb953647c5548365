//! Which machines each is shown, and through how many prefixes packets may be sent to each.
ghost use Rattle.std.specs.Prelude.{Contains};

use fresh_maps::visible_of;
use harness_tailnets::SMALL_LIVE;
use peer_view::{LiveMachine, World, routers_of, shown};
use std::alloc::Global;
use tail_base::NoMemory;

/// Adds the machines that the viewer is shown.
fn add_shown_to(
    alloc: Global,
    out: &mut String,
    world: &World<'_>,
    viewer: &LiveMachine<'_>,
) -> Result<(), NoMemory>
    requires viewer { Contains world.now.nodes viewer.now }
{
    let id = viewer.row.id;
    let visible = visible_of(alloc, world, viewer)?;
    let visible = visible.as_slice();
    let routers = routers_of(alloc, world, viewer, visible)?;
    for peer in visible {
        let row = shown(alloc, world, viewer, &routers, peer)?;
        let count = row.allowed.len();
        let text = format!(in alloc; " {id}<{}:{count}", row.id)?;
        out.push_str(text.as_str())?;
    }
    Ok(())
}

fn add_shown_at(
    alloc: Global,
    out: &mut String,
    world: &World<'_>,
    id: u32,
) -> Result<(), NoMemory> {
    match world.machine(id) {
        Some(viewer) => add_shown_to(alloc, out, world, &viewer),
        None => Ok(()),
    }
}

/// What each live machine is shown.
pub fn showing(alloc: Global, world: &World<'_>) -> Result<String, NoMemory> {
    let mut out = String::new(alloc);
    for id in SMALL_LIVE {
        add_shown_at(alloc, &mut out, world, id)?;
    }
    Ok(out)
}
