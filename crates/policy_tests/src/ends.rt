//! The ends that a test speaks of.
ghost use Rattle.std.specs.Prelude.{◌≡◌, ◌++◌, [], IfOk, OnOk, flat_map};
ghost use Rattle.policy_sites.specs.Ends.{end_at, holder_of};
ghost use Rattle.policy_tests.specs.Trials.{core_of};
ghost use Rattle.policy_tests.specs.TestEnds.{machine_end, phantom, tag_phantom, user_ends, user_phantom};

use net_addr::Addr;
use policy_rows::{Group, Selector, members_of};
use policy_sites::{End, Holder, Site, end_at, holder_of};
use std::alloc::Global;
use tail_base::{Duplicate, Items, Login, NoMemory, Tag, Text};

fn machine_end(alloc: Global, site: &Site, addr: Addr) -> Result<End, NoMemory>
    ensures value { IfOk result (λ end. end ≡ machine_end site.now addr) }
{
    let holder = holder_of(alloc, site)?;
    Ok(End {
        addr: Some(addr),
        holder: Some(holder),
    })
}

/// An end without an address, whose holder has no machine yet.
fn phantom(login: Text, tags: Items<Tag>) -> End
    ensures value { result ≡ phantom login tags }
{
    let holder = Holder {
        user: 0,
        login,
        tags,
    };
    End {
        addr: None,
        holder: Some(holder),
    }
}

fn user_phantom(alloc: Global, login: &Login) -> Result<End, NoMemory>
    ensures value { IfOk result (λ end. end ≡ user_phantom login.now) }
{
    let login = Text::from_str(alloc, login.as_str())?;
    Ok(phantom(login, Items::new(alloc)))
}

fn tag_phantom(alloc: Global, tag: &Tag) -> Result<End, NoMemory>
    ensures value { IfOk result (λ end. end ≡ tag_phantom tag.now) }
{
    let mut tags = Items::new(alloc);
    tags.push(tag.copy(alloc)?)?;
    Ok(phantom(Text::new(alloc), tags))
}

/// Adds the user's phantom.
fn add_user(alloc: Global, out: &mut Items<End>, login: &Login) -> Result<(), NoMemory>
    ensures ok { OnOk result (out.new ≡ out.old ++ user_ends [] login.now) }
{
    out.push(user_phantom(alloc, login)?)
}

/// Adds the users' phantoms.
fn add_users(alloc: Global, out: &mut Items<End>, logins: &[Login]) -> Result<(), NoMemory>
    ensures ok { OnOk result (out.new ≡ out.old ++ flat_map (user_ends []) logins.now) }
{
    for login in logins {
        add_user(alloc, out, login)?;
    }
    Ok(())
}

/// The ends that a subject or a destination stands for without those of the machines of users and tags:
/// the phantoms of a user, a group or a tag, and an address's end, with who of these machines holds it.
pub(crate) fn core_of(
    alloc: Global,
    groups: &[Group],
    sites: &[Site],
    selector: &Selector,
) -> Result<Items<End>, NoMemory>
    ensures value { IfOk result (λ ends. ends ≡ core_of groups.now sites.now selector.now) }
{
    let mut ends = Items::new(alloc);
    match selector {
        Selector::User(login) => add_user(alloc, &mut ends, login)?,
        Selector::Group(name) => {
            let members = members_of(groups, name.as_slice());
            add_users(alloc, &mut ends, members)?
        }
        Selector::Tagged(tag) => ends.push(tag_phantom(alloc, tag)?)?,
        Selector::Net(net) => ends.push(end_at(alloc, sites, net.base())?)?,
        Selector::All
        | Selector::Member
        | Selector::AllTagged
        | Selector::Internet
        | Selector::OwnDevices => {}
    }
    Ok(ends)
}
