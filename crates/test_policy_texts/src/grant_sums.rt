//! How many rules `acls` and the `ip` lists of `grants` may have together, each limit at its edge.
use crate::cases::comes_to;
use std::alloc::Global;
use std::test::Fail;

/// A rule of `acls`.
const RULE: &str = r#"{"action":"accept","src":[],"dst":[]}"#;

/// How many rules `acls` has, the lengths of the `ip` lists of three grants, each of their elements, and
/// what the text results in.
const SUMS: [(usize, [usize; 3], &str, &str); 12] = [
    (512, [0, 0, 0], "\"*\"", "ok"),
    (512, [0, 0, 1], "\"*\"", "P19 grants[2].ip"),
    (511, [1, 0, 0], "\"*\"", "ok"),
    (511, [0, 1, 0], "\"*\"", "ok"),
    (511, [0, 2, 0], "\"*\"", "P19 grants[1].ip"),
    (511, [1, 1, 0], "\"*\"", "P19 grants[1].ip"),
    (0, [256, 256, 0], "\"*\"", "ok"),
    (0, [256, 256, 1], "\"*\"", "P19 grants[2].ip"),
    (256, [255, 0, 1], "\"*\"", "ok"),
    (256, [255, 1, 1], "\"*\"", "P19 grants[2].ip"),
    (511, [0, 0, 1], "1", "P5 grants[2].ip[0]"),
    (511, [0, 0, 2], "1", "P19 grants[2].ip"),
];

/// Adds a text so many times, with commas between.
fn add_times(text: &mut String, item: &str, times: usize) -> Result<(), Fail> {
    for number in 0..times {
        text.push_str(if number == 0 { "" } else { "," })?;
        text.push_str(item)?;
    }
    Ok(())
}

/// A policy with so many rules, and these grants.
fn summed(alloc: Global, rules: usize, lengths: [usize; 3], item: &str) -> Result<String, Fail> {
    let mut text = String::from_str(alloc, "{\"acls\":[")?;
    add_times(&mut text, RULE, rules)?;
    text.push_str("],\"grants\":[")?;
    let mut comma = "";
    for length in lengths {
        text.push_str(comma)?;
        text.push_str("{\"src\":[],\"dst\":[],\"ip\":[")?;
        add_times(&mut text, item, length)?;
        text.push_str("]}")?;
        comma = ",";
    }
    text.push_str("]}")?;
    Ok(text)
}

#[test]
fn rules_of_both_sections(rt: HostRuntime) -> Result<(), Fail> {
    for (rules, lengths, item, want) in SUMS {
        let text = summed(rt.alloc(), rules, lengths, item)?;
        assert!(rt;
            comes_to(rt.alloc(), text.as_bytes(), want),
            "{rules} {want}"
        );
    }
    Ok(())
}
