//! What is wrong with a settings file.
ghost use Rattle.std.specs.Prelude.{◌≡◌, Err};
ghost use Rattle.tail_base.specs.Steps.{Gives};
ghost use Rattle.tail_words.specs.SettingsText.{broken_at, rule_number};

use std::alloc::Global;
use tail_base::{Failure, Text};

/// A rule of a settings file.
#[derive(Clone, Copy, Debug, PartialEq, Eq, Drop)]
pub enum SettingsRule {
    /// The file is a TOML document in UTF-8.
    Toml,
    /// Each key is known.
    KnownKey,
    /// Each value, and each element of it, is of its key's type.
    KeyType,
    /// Each value keeps its key's rule.
    KeyRule,
    /// Each key without a default is there.
    RequiredKey,
}

impl SettingsRule {
    /// The number of the rule, 1 to 5, as it is reported.
    pub fn number(self) -> u8
        ensures value { result ≡ rule_number self }
    {
        match self {
            SettingsRule::Toml => 1,
            SettingsRule::KnownKey => 2,
            SettingsRule::KeyType => 3,
            SettingsRule::KeyRule => 4,
            SettingsRule::RequiredKey => 5,
        }
    }
}

/// The first fault of a settings file: the rule that is broken, and the key of its entry.
#[derive(Drop)]
pub struct SettingsFault {
    /// The rule.
    pub rule: SettingsRule,
    /// The key, which is `dns.KEY` in the table `dns`, and `text` where the file is no TOML document.
    pub key: Text,
}

/// The answer that a rule is broken at a key.
pub(crate) fn refused<T>(
    alloc: Global,
    rule: SettingsRule,
    key: &str,
) -> Result<T, Failure<SettingsFault>>
    ensures value { Gives (λ x. x) result (Err (broken_at rule key.now)) }
{
    let key = Text::from_str(alloc, key)?;
    Err(Failure::Fault(SettingsFault { rule, key }))
}
