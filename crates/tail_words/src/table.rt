//! What stands in the table of a settings file.
ghost use Rattle.std.specs.Prelude.{◌≡◌, option_map, List, ℕ};
ghost use Rattle.toml.specs.Data.{get_member};
ghost use Rattle.toml.specs.View.{table_view, view};
ghost use Rattle.tail_words.specs.SettingsText.{broken_by, number_at, prefix_at, rule_of, text_at};

use crate::fault::SettingsRule;
use crate::rule::{Rule, rule_of};
use crate::values::{broken_text, number, prefix, text};
use net_addr::Prefix;
use toml::{Table, Value};

/// The value at a key.
pub(crate) fn member<'a>(table: &'a Table, key: &str) -> Option<&'a Value>
    ensures value { option_map (λ v. view v.now) result
        ≡ get_member key.now (table_view table.now) }
{
    table.get(key)
}

/// The rule that a value breaks, if it breaks one: a key without a rule isn't known.
pub(crate) fn broken_by(rule: Option<Rule>, value: &Value) -> Option<SettingsRule>
    ensures value { result ≡ broken_by rule (view value.now) }
{
    match rule {
        None => Some(SettingsRule::KnownKey),
        Some(Rule::Number { least, greatest }) => number(value, least, greatest).err(),
        Some(Rule::Prefix { v6 }) => prefix(value, v6).err(),
        Some(Rule::Text(rule)) => broken_text(value, rule),
    }
}

/// The number at a key that has the rule of a number.
pub(crate) fn number_at(table: &Table, key: &str) -> Option<u32>
    ensures value { result ≡ number_at key.now (table_view table.now) }
{
    let value = member(table, key)?;
    match rule_of(key) {
        Some(Rule::Number { least, greatest }) => number(value, least, greatest).ok(),
        Some(Rule::Prefix { .. } | Rule::Text(_)) | None => None,
    }
}

/// The prefix at a key that has the rule of a prefix.
pub(crate) fn prefix_at(table: &Table, key: &str) -> Option<Prefix>
    ensures value { result ≡ prefix_at key.now (table_view table.now) }
{
    let value = member(table, key)?;
    match rule_of(key) {
        Some(Rule::Prefix { v6 }) => prefix(value, v6).ok(),
        Some(Rule::Number { .. } | Rule::Text(_)) | None => None,
    }
}

/// The text at a key that has the rule of a text.
pub(crate) fn text_at<'a>(table: &'a Table, key: &str) -> Option<&'a str>
    ensures value { option_map (λ t. t.now) result ≡ text_at key.now (table_view table.now) }
{
    let value = member(table, key)?;
    match rule_of(key) {
        Some(Rule::Text(rule)) => text(value, rule),
        Some(Rule::Number { .. } | Rule::Prefix { .. }) | None => None,
    }
}
