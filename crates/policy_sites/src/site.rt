//! Sites: what policies see of the live machines.
ghost use Rattle.std.specs.Prelude.{◌≡◌, ◌∷◌, ◌++◌, [], IfOk, OnOk, filter, map, if◌then◌else◌};
ghost use Rattle.std.specs.Option.{option_copied};
ghost use Rattle.policy_sites.specs.Covers.{is_own};
ghost use Rattle.policy_sites.specs.Ends.{holder_of};
ghost use Rattle.policy_sites.specs.Approvals.{approved_of, is_exit};
ghost use Rattle.policy_sites.specs.Owners.{login_or_empty, machine_login};
ghost use Rattle.policy_sites.specs.Sites.{AreServedApart, AreDistinct, is_among, site_of, sites_of};

use crate::id_list::IdList;
use crate::{approved, is_exit};
use net_addr::{Addr, Prefix};
use net_rows::{HasId, Machine, Tables, User};
use policy_rows::Policy;
use std::alloc::Global;
use tail_base::{Duplicate, Items, NoMemory, Tag, Text};

/// What policies see of a live machine.
#[derive(Drop)]
pub struct Site {
    pub id: u32,
    /// The id of its user.
    pub user: u32,
    /// The login of its user.
    pub login: Text,
    pub v4: Addr,
    pub v6: Addr,
    pub tags: Items<Tag>,
    /// The routes that it advertises.
    pub routes: Items<Prefix>,
    /// The routes that an operator approved.
    pub by_operator: Items<Prefix>,
    /// Its approved routes: those of the routes that it advertises, in order, each once.
    pub approved: Items<Prefix>,
    /// Whether it is an exit node.
    pub exit: bool,
}

impl HasId for Site {
    ghost id = { λ s. s.id };

    fn id(&self) -> u32 {
        self.id
    }
}

/// Whether both machines are untagged and of one login, so that `autogroup:self` joins them.
pub fn are_own(a: &Site, b: &Site) -> bool
    ensures value { result ≡ is_own (holder_of a.now) (holder_of b.now) }
{
    a.tags.is_empty() && b.tags.is_empty() && a.login.as_slice() == b.login.as_slice()
}

fn login_or_empty(alloc: Global, user: Option<&User>) -> Result<Text, NoMemory>
    ensures value { IfOk result (λ text. text ≡ login_or_empty (option_copied user.entry)) }
{
    match user {
        Some(user) => Text::from_str(alloc, user.login.as_str()),
        None => Ok(Text::new(alloc)),
    }
}

/// The approved routes of a machine. One that advertises no routes has none, whoever approves which.
fn approved_routes(
    alloc: Global,
    policy: Option<&Policy>,
    tables: &Tables,
    machine: &Machine,
) -> Result<Items<Prefix>, NoMemory>
    ensures value { IfOk result (λ made. made ≡ approved_of (option_copied policy.entry)
        (machine_login tables.now.rows.users machine.now) machine.now) }
{
    if machine.routes.is_empty() {
        Ok(Items::new(alloc))
    } else {
        approved(alloc, policy, tables, machine)
    }
}

/// Whether the machine is an exit node. One that advertises no routes is none.
fn is_exit_node(policy: Option<&Policy>, tables: &Tables, machine: &Machine) -> bool
    ensures value { result ≡ is_exit (option_copied policy.entry)
        (machine_login tables.now.rows.users machine.now) machine.now }
{
    !machine.routes.is_empty() && is_exit(policy, tables, machine)
}

fn site_of(
    alloc: Global,
    policy: Option<&Policy>,
    tables: &Tables,
    machine: &Machine,
) -> Result<Site, NoMemory>
    ensures value { IfOk result (λ site. site
        ≡ site_of (option_copied policy.entry) tables.now.rows.users machine.now) }
{
    let login = login_or_empty(alloc, tables.user(machine.user))?;
    let approved = approved_routes(alloc, policy, tables, machine)?;
    let exit = is_exit_node(policy, tables, machine);
    Ok(Site {
        id: machine.id,
        user: machine.user,
        login,
        v4: machine.v4,
        v6: machine.v6,
        tags: machine.tags.copy(alloc)?,
        routes: machine.routes.copy(alloc)?,
        by_operator: machine.approved.copy(alloc)?,
        approved,
        exit,
    })
}

/// Whether the machine is one of the live ones, whose ids these are.
/// Its id is looked for at that place first.
pub(crate) fn is_among(live: &IdList<'_>, place: usize, machine: &Machine) -> bool
    ensures value { result ≡ is_among live.now machine.now }
{
    live.has_near(place, machine.id)
}

/// Adds the machine's site, where the machine is live.
fn add_site(
    alloc: Global,
    sites: &mut Items<Site>,
    policy: Option<&Policy>,
    tables: &Tables,
    live: &IdList<'_>,
    machine: &Machine,
) -> Result<(), NoMemory>
    ensures ok { OnOk result (sites.new ≡ sites.old ++ (if is_among live.now machine.now
        then site_of (option_copied policy.entry) tables.now.rows.users machine.now ∷ []
        else [])) }
{
    if is_among(live, sites.len(), machine) {
        sites.push(site_of(alloc, policy, tables, machine)?)
    } else {
        Ok(())
    }
}

/// The sites of those of the machines that are live.
fn sites_among(
    alloc: Global,
    policy: Option<&Policy>,
    tables: &Tables,
    machines: &[Machine],
    live: &IdList<'_>,
) -> Result<Items<Site>, NoMemory>
    ensures value { IfOk result (λ sites. sites
        ≡ map (site_of (option_copied policy.entry) tables.now.rows.users)
        (filter (is_among live.now) machines.now)) }
{
    let mut sites = Items::new(alloc);
    for machine in machines {
        add_site(alloc, &mut sites, policy, tables, live, machine)?;
    }
    Ok(sites)
}

/// The sites of the machines that are live, whose ids are listed, under a policy, or none.
pub fn sites_of(
    alloc: Global,
    policy: Option<&Policy>,
    tables: &Tables,
    live: &[u32],
) -> Result<Items<Site>, NoMemory>
    ensures value { IfOk result (λ sites. sites
        ≡ sites_of (option_copied policy.entry) tables.now.rows live.now) }
    ensures distinct { IfOk result AreDistinct }
    ensures apart { IfOk result AreServedApart }
{
    let machines = tables.machines();
    let listed = IdList::of(live);
    let sites = sites_among(alloc, policy, tables, machines, &listed)?;
    Ok(sites)
}
