//! A tailnet's settings that keep their rules.
ghost use Rattle.std.specs.Prelude.{◌≡◌};
ghost use Rattle.settings.specs.Settings.{AreSettings};

use crate::fields::SettingsFields;
use std::marker::Model;

/// A tailnet's settings, each field of which keeps its rule. Contracts see them as their fields.
#[derive(Drop)]
pub struct Settings {
    fields: SettingsFields,
}

impl Model for Settings {
    ghost use Rattle.settings.specs.declared.fields.SettingsFields.{SettingsFields};
    ghost use Rattle.settings.specs.Settings.{AreSettings};

    ghost Value = { SettingsFields };

    ghost view = { λ a. a.fields };

    ghost invariant = { λ a. AreSettings a.fields };
}

impl Settings {
    /// The settings of these fields, which keep their rules.
    pub fn new(fields: SettingsFields) -> Settings
        requires rules { AreSettings fields }
        ensures value { result ≡ fields }
    {
        Settings { fields }
    }

    /// The fields.
    pub fn fields(&self) -> &SettingsFields
        ensures value { result.now ≡ self.now }
        ensures rules { AreSettings self.now }
    {
        &self.fields
    }
}
