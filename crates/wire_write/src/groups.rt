//! Texts of IPv6 addresses, added to a text.
ghost use Rattle.std.specs.Prelude.{◌≡◌, ◌++◌, OnOk, string_bytes};
ghost use Rattle.net_addr.specs.GroupTexts.{v6_groups, groups_text, joined};

use crate::numerals::append_hex;
use net_addr::{longest_run, start_of_run, v6_groups};
use tail_base::NoMemory;

/// Adds the groups in hexadecimal, with colons between them.
fn append_joined(groups: &[u16], room: &mut String) -> Result<(), NoMemory>
    ensures ok { OnOk result (string_bytes room.new ≡ string_bytes room.old ++ joined groups.now) }
{
    let mut rest = groups;
    while let [group, more @ ..] = rest {
        append_hex(*group, room)?;
        if !more.is_empty() {
            room.push_str(":")?;
        }
        rest = more;
    }
    Ok(())
}

/// Adds the groups, with `::` for the first of the longest runs of two or more zero groups.
#[tactic(auto, using(net_addr::proofs::GroupLemmas::run_fits), unfolding(net_addr::specs::GroupTexts::groups_text))]
fn append_groups(groups: &[u16], room: &mut String) -> Result<(), NoMemory>
    ensures ok { OnOk result
        (string_bytes room.new ≡ string_bytes room.old ++ groups_text groups.now) }
{
    let n = longest_run(groups);
    if n < 2 {
        return append_joined(groups, room);
    }
    let at = start_of_run(groups, n);
    append_joined(&groups[..at], room)?;
    room.push_str("::")?;
    append_joined(&groups[at + n..], room)
}

/// Adds the text of an IPv6 address.
pub(crate) fn append_v6(bits: u128, room: &mut String) -> Result<(), NoMemory>
    ensures ok { OnOk result
        (string_bytes room.new ≡ string_bytes room.old ++ groups_text (v6_groups bits)) }
{
    append_groups(&v6_groups(bits), room)
}
