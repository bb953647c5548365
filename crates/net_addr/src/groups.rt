//! Texts of IPv6 addresses.
ghost use Rattle.std.specs.Prelude.{◌≡◌, ◌<◌, ◌^◌, IfOk, length, nat_lt, position};
ghost use Rattle.net_addr.specs.GroupTexts.{group_at, v6_groups, groups_text, joined, longest_run, start_of_run, zeros};

use std::alloc::Global;
use tail_base::{NoMemory, Text};

/// The group of 16 bits of a number, counted from the lowest.
fn group_at(bits: u128, place: u32) -> u16
    requires inside { place < 8 }
    ensures value { result ≡ group_at bits place }
{
    (bits >> (16 * place) & 0xffff) as u16
}

/// The eight groups of an IPv6 address, the highest first (RFC 4291, section 2.2).
pub fn v6_groups(bits: u128) -> [u16; 8]
    ensures value { result ≡ v6_groups bits }
{
    [
        group_at(bits, 7),
        group_at(bits, 6),
        group_at(bits, 5),
        group_at(bits, 4),
        group_at(bits, 3),
        group_at(bits, 2),
        group_at(bits, 1),
        group_at(bits, 0),
    ]
}

/// Where the first group stands that isn't zero.
fn place_of_other(groups: &[u16]) -> Option<usize>
    ensures value { result ≡ position (λ group. nat_lt 0 group) groups.now }
{
    groups.iter().position(|group| 0 < *group)
}

/// How many zero groups stand at the start.
fn zeros(groups: &[u16]) -> usize
    ensures value { result ≡ zeros groups.now }
{
    place_of_other(groups).unwrap_or(groups.len())
}

/// How long the longest run of zero groups is: 0 if no group is zero (RFC 5952, section 4.2.3).
#[tactic(auto, using(crate::proofs::GroupLemmas::longest_end))]
pub fn longest_run(groups: &[u16]) -> usize
    ensures value { result ≡ longest_run groups.now }
{
    let mut longest = 0;
    for i in 0..groups.len() {
        longest = longest.max(zeros(&groups[i..]));
    }
    longest
}

/// How many groups stand before the first run of just so many zero groups: all if there is none.
#[tactic(auto, using(crate::proofs::GroupLemmas::start_end))]
pub fn start_of_run(groups: &[u16], n: usize) -> usize
    ensures value { result ≡ start_of_run n groups.now }
{
    for i in 0..groups.len() {
        if zeros(&groups[i..]) == n {
            return i;
        }
    }
    groups.len()
}

/// The groups in hexadecimal, with colons between them.
fn joined(alloc: Global, groups: &[u16]) -> Result<Text, NoMemory>
    ensures value { IfOk result (λ text. text ≡ joined groups.now) }
{
    let mut text = Text::new(alloc);
    let mut rest = groups;
    while let [group, more @ ..] = rest {
        let digits = format!(in alloc; "{group:x}")?;
        text.push(digits.as_str())?;
        if !more.is_empty() {
            text.push(":")?;
        }
        rest = more;
    }
    Ok(text)
}

/// The groups, with `::` for the first of the longest runs of two or more zero groups.
#[tactic(auto, using(crate::proofs::GroupLemmas::run_fits), unfolding(crate::specs::GroupTexts::groups_text))]
fn groups_text(alloc: Global, groups: &[u16]) -> Result<Text, NoMemory>
    ensures value { IfOk result (λ text. text ≡ groups_text groups.now) }
{
    let n = longest_run(groups);
    if n < 2 {
        return joined(alloc, groups);
    }
    let at = start_of_run(groups, n);
    let mut text = joined(alloc, &groups[..at])?;
    let after = joined(alloc, &groups[at + n..])?;
    text.push("::")?;
    text.push(after.as_str())?;
    Ok(text)
}

/// The text of an IPv6 address.
pub(crate) fn v6_text(alloc: Global, bits: u128) -> Result<Text, NoMemory>
    ensures value { IfOk result (λ text. text ≡ groups_text (v6_groups bits)) }
{
    groups_text(alloc, &v6_groups(bits))
}
