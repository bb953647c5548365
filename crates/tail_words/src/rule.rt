//! The rule of each key of a settings file.
ghost use Rattle.std.specs.Prelude.{◌≡◌};
ghost use Rattle.tail_words.specs.SettingsText.{rule_of};

use server_settings::COUNT_LIMIT;
use settings::{SECONDS_LIMIT, WORKER_LIMIT};

/// What a text has to be.
#[derive(Clone, Copy, Debug, PartialEq, Eq, Drop)]
pub(crate) enum TextRule {
    /// Any text.
    Any,
    /// A domain with room for a machine's label before it.
    BaseDomain,
    /// Visible ASCII bytes, at least one, up to their limit.
    Visible,
}

/// What the value of a key has to be.
#[derive(Clone, Copy, Debug, PartialEq, Eq, Drop)]
pub(crate) enum Rule {
    /// An integer in this range.
    Number { least: u32, greatest: u32 },
    /// A string that spells a prefix of the tailnet's addresses, which has room for some.
    Prefix { v6: bool },
    /// A string that keeps a rule.
    Text(TextRule),
}

fn numbers(least: u32, greatest: u32) -> Option<Rule>
    ensures value { result ≡ Some (Rule.Number least greatest) }
{
    Some(Rule::Number { least, greatest })
}

/// The rule of a key, if it is known. `dns` has rules of its own.
#[tactic(auto, unfolding(crate::specs::SettingsText::rule_of))]
pub(crate) fn rule_of(key: &str) -> Option<Rule>
    ensures value { result ≡ rule_of key.now }
{
    if key == "base_domain" {
        Some(Rule::Text(TextRule::BaseDomain))
    } else if key == "connections" {
        numbers(0, COUNT_LIMIT)
    } else if key == "database" {
        Some(Rule::Text(TextRule::Any))
    } else if key == "ephemeral_seconds" {
        numbers(1, SECONDS_LIMIT)
    } else if key == "key_seconds" {
        numbers(0, SECONDS_LIMIT)
    } else if key == "listen" {
        Some(Rule::Text(TextRule::Any))
    } else if key == "pending_seconds" {
        numbers(1, SECONDS_LIMIT)
    } else if key == "poll_turns" {
        numbers(1, COUNT_LIMIT)
    } else if key == "prefix_v4" {
        Some(Rule::Prefix { v6: false })
    } else if key == "prefix_v6" {
        Some(Rule::Prefix { v6: true })
    } else if key == "requests" {
        numbers(1, COUNT_LIMIT)
    } else if key == "server_url" {
        Some(Rule::Text(TextRule::Visible))
    } else if key == "token" {
        Some(Rule::Text(TextRule::Visible))
    } else if key == "workers" {
        numbers(1, WORKER_LIMIT)
    } else {
        None
    }
}
