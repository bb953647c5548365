//! Profiles of users.
ghost use Rattle.std.specs.Prelude.{◌≡◌, ◌∷◌, ◌++◌, [], ℕ, IfOk, OnOk, OnErr, map, filter, if◌then◌else◌};
ghost use Rattle.std.specs.Option.{option_copied};
ghost use Rattle.policy_sites.specs.Sites.{is_listed};
ghost use Rattle.fresh_maps.specs.Profiles.{display_of, owners_of, owns_any, profile_in, profile_of, tagged_profile, user_profile};

use net_rows::{Tables, User};
use peer_view::TAGGED_OWNER;
use policy_sites::IdList;
use std::alloc::Global;
use tail_base::{Items, NoMemory, Text};
use tailcfg::{NodeRow, Profile};

/// The login before its `@`.
fn display_of(alloc: Global, login: &str) -> Result<Text, NoMemory>
    ensures value { IfOk result (λ text. text ≡ display_of login.now) }
{
    match login.split_once('@') {
        Some((display, _)) => Text::from_str(alloc, display),
        None => Text::from_str(alloc, login),
    }
}

/// The profile of a user.
fn user_profile(alloc: Global, user: &User) -> Result<Profile, NoMemory>
    ensures value { IfOk result (λ profile. profile ≡ user_profile user.now) }
{
    Ok(Profile {
        id: user.id,
        login: Text::from_str(alloc, user.login.as_str())?,
        display: display_of(alloc, user.login.as_str())?,
    })
}

fn profile_in(alloc: Global, id: u32, user: Option<&User>) -> Result<Profile, NoMemory>
    ensures value { IfOk result (λ profile. profile ≡ profile_in id (option_copied user.entry)) }
{
    match user {
        None => Ok(Profile {
            id,
            login: Text::new(alloc),
            display: Text::new(alloc),
        }),
        Some(user) => Ok(Profile {
            id,
            login: Text::from_str(alloc, user.login.as_str())?,
            display: display_of(alloc, user.login.as_str())?,
        }),
    }
}

/// The profile of the user of an id.
pub fn profile_of(alloc: Global, tables: &Tables, id: u32) -> Result<Profile, NoMemory>
    ensures value { IfOk result (λ profile. profile ≡ profile_of tables.now.rows.users id) }
{
    profile_in(alloc, id, tables.user(id))
}

/// The profile that tagged machines are shown with.
fn tagged_profile(alloc: Global) -> Result<Profile, NoMemory>
    ensures value { IfOk result (λ profile. profile ≡ tagged_profile) }
{
    Ok(Profile {
        id: TAGGED_OWNER,
        login: Text::from_str(alloc, "tagged-devices")?,
        display: Text::from_str(alloc, "Tagged Devices")?,
    })
}

/// The ids of those to whom the node and the peers belong.
fn owners_among(alloc: Global, node: &NodeRow, peers: &[NodeRow]) -> Result<Vec<u32>, NoMemory>
    ensures value { IfOk result (λ ids. ids.items
        ≡ node.now.user ∷ map (λ p. p.user) peers.now) }
{
    let mut ids = Vec::with_capacity(alloc, peers.len().saturating_add(1))?;
    ids.push(node.user)?;
    for peer in peers {
        ids.push(peer.user)?;
    }
    Ok(ids)
}

/// The same ids in order, among which one is found by halving.
fn sorted_owners(alloc: Global, node: &NodeRow, peers: &[NodeRow]) -> Result<Vec<u32>, NoMemory>
    ensures listed { IfOk result (λ ids. (id : ℕ) → is_listed ids.items id
        ≡ owns_any (node.now ∷ peers.now) id) }
{
    let mut ids = owners_among(alloc, node, peers)?;
    ids.sort_unstable();
    Ok(ids)
}

/// Adds the user's profile, where it is shown.
fn add_owner(
    alloc: Global,
    shown: &mut Items<Profile>,
    user: &User,
    is_shown: bool,
) -> Result<(), NoMemory>
    ensures ok { OnOk result (shown.new
        ≡ shown.old ++ (if is_shown then user_profile user.now ∷ [] else [])) }
{
    if is_shown {
        shown.push(user_profile(alloc, user)?)
    } else {
        Ok(())
    }
}

/// The profiles of the users whose ids are listed.
fn users_shown(
    alloc: Global,
    users: &[User],
    owners: &IdList<'_>,
) -> Result<Items<Profile>, NoMemory>
    ensures value { IfOk result (λ shown. shown
        ≡ map user_profile (filter (λ u. is_listed owners.now u.id) users.now)) }
{
    let mut shown = Items::new(alloc);
    for user in users {
        add_owner(alloc, &mut shown, user, owners.has(user.id))?;
    }
    Ok(shown)
}

/// The same, and behind them the profile of tagged machines, if it is listed.
fn owners_shown(
    alloc: Global,
    users: &[User],
    owners: &IdList<'_>,
) -> Result<Items<Profile>, NoMemory>
    ensures value { IfOk result (λ shown. shown
        ≡ map user_profile (filter (λ u. is_listed owners.now u.id) users.now)
        ++ (if is_listed owners.now TAGGED_OWNER then tagged_profile ∷ [] else [])) }
{
    let mut shown = users_shown(alloc, users, owners)?;
    if owners.has(TAGGED_OWNER) {
        shown.push(tagged_profile(alloc)?)?;
    }
    Ok(shown)
}

/// The profiles of the users that own the node or a peer, by ascending id. The nodes are gone over once,
/// however many users there are.
pub(crate) fn owners_of(
    alloc: Global,
    users: &[User],
    node: &NodeRow,
    peers: &[NodeRow],
) -> Result<Items<Profile>, NoMemory>
    ensures value { IfOk result (λ owners. owners ≡ owners_of users.now (node.now ∷ peers.now)) }
{
    let ids = sorted_owners(alloc, node, peers)?;
    let owners = IdList::of(ids.as_slice());
    let shown = owners_shown(alloc, users, &owners)?;
    Ok(shown)
}
