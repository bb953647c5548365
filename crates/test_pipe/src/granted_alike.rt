//! Whether the maps of two runs differ in the form of their filters alone, and these let the same through.
use std::alloc::Global;
use tail_base::NoMemory;

/// What a map begins with, and what a head begins with, which stands behind it.
const MAP: &[u8] = b"{\"DNSConfig\":";

const HEAD: &[u8] = b"HTTP/1.1 ";

/// What a filter begins with, and what follows it, with peers and without.
const FILTER: &[u8] = b"\"PacketFilter\":[";

const BEFORE_PEERS: &[u8] = b"],\"Peers\":[";

const BEFORE_PROFILES: &[u8] = b"],\"UserProfiles\":[";

/// What a rule of a filter begins with, a destination of it, and what follows the destinations.
const RULE: &[u8] = b"{\"DstPorts\":[";

const DEST: &[u8] = b"{\"IP\":";

const BEHIND_DESTS: &[u8] = b"],\"IPProto\":";

/// What stands before the first such mark, and what stands behind it.
fn cut<'a>(bytes: &'a [u8], mark: &[u8]) -> (&'a [u8], &'a [u8]) {
    for at in 0..bytes.len() {
        if let Some(rest) = bytes[at..].strip_prefix(mark) {
            return (&bytes[..at], rest);
        }
    }
    (bytes, &[])
}

/// The parts that such a mark begins, without it.
fn parts<'a>(alloc: Global, bytes: &'a [u8], mark: &[u8]) -> Result<Vec<&'a [u8]>, NoMemory> {
    let mut parts = Vec::new(alloc);
    let (_, mut rest) = cut(bytes, mark);
    for _ in 0..bytes.len() {
        if rest.is_empty() {
            break;
        }
        let (part, more) = cut(rest, mark);
        parts.push(part)?;
        rest = more;
    }
    Ok(parts)
}

/// Without a comma at the end.
fn trimmed(bytes: &[u8]) -> &[u8] {
    match bytes.strip_suffix(b",".as_slice()) {
        Some(front) => front,
        None => bytes,
    }
}

/// The filter in the map, and what stands before and behind it.
fn filter_of(map: &[u8]) -> (&[u8], &[u8], &[u8]) {
    let (front, rest) = cut(map, FILTER);
    let (filter, end) = cut(rest, BEFORE_PEERS);
    if !end.is_empty() {
        return (filter, front, end);
    }
    let (filter, end) = cut(rest, BEFORE_PROFILES);
    (filter, front, end)
}

/// The destinations of those rules that have these protocols and sources.
fn dests_by<'a>(
    alloc: Global,
    rules: &[&'a [u8]],
    protos_and_sources: &[u8],
) -> Result<Vec<&'a [u8]>, NoMemory> {
    let mut found = Vec::new(alloc);
    for rule in rules {
        if trimmed(rule).ends_with(protos_and_sources) {
            let (dests, _) = cut(rule, BEHIND_DESTS);
            for dest in parts(alloc, dests, DEST)? {
                found.push(trimmed(dest))?;
            }
        }
    }
    Ok(found)
}

/// Whether what the first filter lets through, the second one does, too.
fn is_within(alloc: Global, first: &[u8], second: &[u8]) -> Result<bool, NoMemory> {
    let others = parts(alloc, second, RULE)?;
    for rule in parts(alloc, first, RULE)? {
        let (dests, end) = cut(rule, BEHIND_DESTS);
        let found = dests_by(alloc, others.as_slice(), trimmed(end))?;
        for dest in parts(alloc, dests, DEST)? {
            if !found.iter().any(|other| *other == trimmed(dest)) {
                return Ok(false);
            }
        }
    }
    Ok(true)
}

/// Whether two maps differ in the form of their filters alone, and these let the same through.
fn is_granted_alike(alloc: Global, first: &[u8], second: &[u8]) -> Result<bool, NoMemory> {
    let (first_map, _) = cut(first, HEAD);
    let (second_map, _) = cut(second, HEAD);
    let (first_filter, first_front, first_end) = filter_of(first_map);
    let (second_filter, second_front, second_end) = filter_of(second_map);
    Ok(
        !first_end.is_empty()
            && first_front == second_front
            && first_end == second_end
            && is_within(alloc, first_filter, second_filter)?
            && is_within(alloc, second_filter, first_filter)?,
    )
}

/// Whether the outputs of two runs have so many maps, and each of the one is granted the same as that of
/// the other.
pub(crate) fn are_granted_alike(
    alloc: Global,
    first: &[u8],
    second: &[u8],
    count: usize,
) -> Result<bool, NoMemory> {
    let others = parts(alloc, second, MAP)?;
    let maps = parts(alloc, first, MAP)?;
    if maps.len() != count || others.len() != count {
        return Ok(false);
    }
    for (map, other) in maps.iter().zip(others.iter()) {
        if !is_granted_alike(alloc, map, other)? {
            return Ok(false);
        }
    }
    Ok(true)
}
