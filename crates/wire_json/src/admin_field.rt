//! Fields of the bodies that operators send.
ghost use Rattle.std.specs.Prelude.{◌≡◌};

/// A field of an operator's request.
#[derive(Clone, Copy, Debug, PartialEq, Eq, Drop)]
pub enum AdminField {
    Name,
    User,
    Reusable,
    Ephemeral,
    Expiry,
    Tags,
    Routes,
    Id,
    /// The name of an extra DNS record.
    RecordName,
    RecordType,
    RecordValue,
}

impl AdminField {
    ghost use Rattle.wire_json.specs.AdminFields.{admin_field_name};

    /// The name of the field in JSON.
    pub fn name(&self) -> &'static str
        ensures value { result.now ≡ admin_field_name self.now }
    {
        match self {
            AdminField::Name => "name",
            AdminField::User => "user",
            AdminField::Reusable => "reusable",
            AdminField::Ephemeral => "ephemeral",
            AdminField::Expiry => "expiry",
            AdminField::Tags => "tags",
            AdminField::Routes => "routes",
            AdminField::Id => "id",
            AdminField::RecordName => "Name",
            AdminField::RecordType => "Type",
            AdminField::RecordValue => "Value",
        }
    }
}
