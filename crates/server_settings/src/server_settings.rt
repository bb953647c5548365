//! A server's settings that keep their rules.
ghost use Rattle.std.specs.Prelude.{◌≡◌};
ghost use Rattle.server_settings.specs.ServerRules.{AreServerSettings};

use crate::fields::ServerFields;
use std::marker::Model;

/// A server's settings, each field of which keeps its rule. Contracts see them as their fields.
#[derive(Drop)]
pub struct ServerSettings {
    fields: ServerFields,
}

impl Model for ServerSettings {
    ghost use Rattle.server_settings.specs.declared.fields.ServerFields.{ServerFields};
    ghost use Rattle.server_settings.specs.ServerRules.{AreServerSettings};

    ghost Value = { ServerFields };

    ghost view = { λ a. a.fields };

    ghost invariant = { λ a. AreServerSettings a.fields };
}

impl ServerSettings {
    /// The settings of these fields, which keep their rules.
    pub fn new(fields: ServerFields) -> ServerSettings
        requires rules { AreServerSettings fields }
        ensures value { result ≡ fields }
    {
        ServerSettings { fields }
    }

    /// The fields.
    pub fn fields(&self) -> &ServerFields
        ensures value { result.now ≡ self.now }
        ensures rules { AreServerSettings self.now }
    {
        &self.fields
    }
}
