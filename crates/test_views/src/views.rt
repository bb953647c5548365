//! Who sees whom, what is shown of it, and who sends and takes by which rule.
use crate::flags::flags_of_all;
use crate::pairs::{reaching, seeing};
use crate::rows::showing;
use harness_tailnets::{EXIT_RULES, ROUTER_RULES, SMALL_LIVE, small_tables, stated_policy};
use net_rows::Tables;
use peer_view::World;
use policy_eval::Expanded;
use policy_rows::Policy;
use settings::Settings;
use std::alloc::Global;
use std::marker::Brand;
use std::sync::ledger::Blank;
use std::test::Fail;
use tail_base::NoMemory;
use tail_words::read_settings;

const SETTINGS: &[u8] =
    b"base_domain = \"tail.example\"\nserver_url = \"http://tail.example\"\ntoken = \"secret\"\n";

/// Under the rules with own devices and an exit node: who reaches whom, and who sees whom.
const REACHES: &str = " 1,2 1,6 2,1 2,6 3,6 4,6 6,3";

const SEES: &str = " 1,2 1,6 2,1 2,6 3,6 4,6 6,1 6,2 6,3 6,4";

/// By which of the three rules each machine sends, and by which something that it serves is let in.
const FLAGS: &str = " 1:011,000 2:011,000 3:001,000 4:100,000 5:000,000 6:001,110";

/// Under the rules of a router: through how many prefixes each machine that is seen is reached.
const SHOWN: &str = " 1<5:3 2<5:3 3<5:3 5<1:2 5<2:2 5<3:2 5<6:2 6<5:3";

/// What is asked of a world.
#[derive(Clone, Copy, PartialEq, Eq, Drop)]
enum Asked {
    Reaching,
    Seeing,
    Showing,
    Flags,
}

fn settings_of(alloc: Global) -> Result<Settings, NoMemory> {
    match read_settings(alloc, SETTINGS) {
        Ok(settings) => Ok(settings.tailnet),
        Err(_) => Err(NoMemory),
    }
}

fn told(alloc: Global, world: &World<'_>, x: &Expanded, asked: Asked) -> Result<String, NoMemory> {
    match asked {
        Asked::Reaching => reaching::<Brand>(alloc, world, Blank::new(1)),
        Asked::Seeing => seeing::<Brand>(alloc, world, Blank::new(1)),
        Asked::Showing => showing(alloc, world),
        Asked::Flags => flags_of_all(alloc, x),
    }
}

/// The same of the world of these tables under the policy.
fn told_under(
    alloc: Global,
    settings: &Settings,
    tables: &Tables,
    policy: Option<&Policy>,
    asked: Asked,
) -> Result<String, NoMemory> {
    let x = Expanded::of(alloc, policy, tables, &SMALL_LIVE)?;
    let world = World::new(settings, tables, policy, &x, &SMALL_LIVE, &[]);
    told(alloc, &world, &x, asked)
}

/// The same under the policy that the text states.
fn told_by(
    alloc: Global,
    settings: &Settings,
    tables: &Tables,
    text: &str,
    asked: Asked,
) -> Result<String, NoMemory> {
    let policy = stated_policy(alloc, text)?;
    told_under(alloc, settings, tables, policy.as_ref(), asked)
}

/// The same of the small tailnet.
fn told_of_small(
    alloc: Global,
    settings: &Settings,
    text: &str,
    asked: Asked,
) -> Result<String, NoMemory> {
    let tables = small_tables(alloc)?;
    told_by(alloc, settings, &tables, text, asked)
}

/// Whether that is told of the small tailnet.
fn is_told(alloc: Global, text: &str, asked: Asked, want: &str) -> Result<bool, NoMemory> {
    let settings = settings_of(alloc)?;
    let found = told_of_small(alloc, &settings, text, asked)?;
    Ok(found.as_bytes() == want.as_bytes())
}

#[test]
fn pairs_that_reach_and_see(rt: HostRuntime) -> Result<(), Fail> {
    assert!(rt; is_told(rt.alloc(), EXIT_RULES, Asked::Reaching, REACHES)?);
    assert!(rt; is_told(rt.alloc(), EXIT_RULES, Asked::Seeing, SEES)?);
    Ok(())
}

#[test]
fn rows_that_are_shown(rt: HostRuntime) -> Result<(), Fail> {
    assert!(rt; is_told(rt.alloc(), ROUTER_RULES, Asked::Showing, SHOWN)?);
    Ok(())
}

#[test]
fn flags_of_each_machine(rt: HostRuntime) -> Result<(), Fail> {
    assert!(rt; is_told(rt.alloc(), EXIT_RULES, Asked::Flags, FLAGS)?);
    Ok(())
}
