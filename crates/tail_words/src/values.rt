//! Single values of a settings file. A value's fault is the rule that it breaks: that of its type,
//! or that of its key.
ghost use Rattle.std.specs.Prelude.{◌≡◌, option_and_then, option_map};
ghost use Rattle.std.specs.Result.{result_ok, result_err};
ghost use Rattle.toml.specs.View.{view};
ghost use Rattle.tail_words.specs.SettingsValues.{number, number_within, passes, prefix, prefix_fits, text};

use crate::fault::SettingsRule;
use crate::rule::TextRule;
use crate::rules::{is_base_domain, is_visible};
use net_addr::{Prefix, tailnet_v4, tailnet_v6};
use settings::{PREFIX_V4_LEN_LIMIT, PREFIX_V6_LEN_LIMIT};
use toml::Value;

fn number_within(number: i64, least: u32, greatest: u32) -> Option<u32>
    ensures value { result ≡ number_within least greatest number }
{
    match u32::try_from(number) {
        Ok(n) if least <= n && n <= greatest => Some(n),
        _ => None,
    }
}

/// The integer from the least to the greatest that a value is.
pub(crate) fn number(value: &Value, least: u32, greatest: u32) -> Result<u32, SettingsRule>
    ensures value { result ≡ number least greatest (view value.now) }
{
    let Some(number) = value.as_integer() else {
        return Err(SettingsRule::KeyType);
    };
    number_within(number, least, greatest).ok_or(SettingsRule::KeyRule)
}

fn passes(rule: TextRule, text: &str) -> bool
    ensures value { result ≡ passes rule text.now }
{
    match rule {
        TextRule::Any => true,
        TextRule::BaseDomain => is_base_domain(text.as_bytes()),
        TextRule::Visible => is_visible(text.as_bytes()),
    }
}

/// The rule that a value breaks which has to be such a text.
pub(crate) fn broken_text(value: &Value, rule: TextRule) -> Option<SettingsRule>
    ensures value { result ≡ result_err (text rule (view value.now)) }
{
    match value.as_str() {
        Some(text) if passes(rule, text) => None,
        Some(_) => Some(SettingsRule::KeyRule),
        None => Some(SettingsRule::KeyType),
    }
}

/// The text that a value is, if it keeps the rule.
pub(crate) fn text(value: &Value, rule: TextRule) -> Option<&str>
    ensures value { option_map (λ t. t.now) result ≡ result_ok (text rule (view value.now)) }
{
    match value.as_str() {
        Some(text) if passes(rule, text) => Some(text),
        _ => None,
    }
}

/// Whether the prefix is one of the tailnet's addresses, and leaves room for some.
fn prefix_fits(v6: bool, prefix: &Prefix) -> bool
    ensures value { result ≡ prefix_fits v6 prefix.now }
{
    if v6 {
        prefix.within(&tailnet_v6()) && prefix.len() <= PREFIX_V6_LEN_LIMIT
    } else {
        prefix.within(&tailnet_v4()) && prefix.len() <= PREFIX_V4_LEN_LIMIT
    }
}

/// The prefix of the tailnet's addresses that a value spells.
pub(crate) fn prefix(value: &Value, v6: bool) -> Result<Prefix, SettingsRule>
    ensures value { result ≡ prefix v6 (view value.now) }
{
    let Some(text) = value.as_str() else {
        return Err(SettingsRule::KeyType);
    };
    match Prefix::read(text.as_bytes()) {
        Ok(prefix) if prefix_fits(v6, &prefix) => Ok(prefix),
        _ => Err(SettingsRule::KeyRule),
    }
}
