//! Fields of request bodies.
ghost use Rattle.std.specs.Prelude.{◌≡◌};

use crate::admin_field::AdminField;

/// A field of a request's body, or of an object in it: by its name in `tailcfg`, or an operator's.
#[derive(Clone, Copy, Debug, PartialEq, Eq, Drop)]
pub enum Field {
    Auth,
    AuthKey,
    Compress,
    DiscoKey,
    Endpoints,
    Ephemeral,
    Expiry,
    Hostinfo,
    Hostname,
    MapSessionHandle,
    MapSessionSeq,
    NetInfo,
    NodeKey,
    OldNodeKey,
    OmitPeers,
    PreferredDerp,
    ReadOnly,
    RequestTags,
    RoutableIps,
    Stream,
    /// A field of an operator's request.
    Admin(AdminField),
}

impl Field {
    ghost use Rattle.wire_json.specs.Fields.{field_name};

    /// The name of the field in JSON.
    pub fn name(&self) -> &'static str
        ensures value { result.now ≡ field_name self.now }
    {
        match self {
            Field::Auth => "Auth",
            Field::AuthKey => "AuthKey",
            Field::Compress => "Compress",
            Field::DiscoKey => "DiscoKey",
            Field::Endpoints => "Endpoints",
            Field::Ephemeral => "Ephemeral",
            Field::Expiry => "Expiry",
            Field::Hostinfo => "Hostinfo",
            Field::Hostname => "Hostname",
            Field::MapSessionHandle => "MapSessionHandle",
            Field::MapSessionSeq => "MapSessionSeq",
            Field::NetInfo => "NetInfo",
            Field::NodeKey => "NodeKey",
            Field::OldNodeKey => "OldNodeKey",
            Field::OmitPeers => "OmitPeers",
            Field::PreferredDerp => "PreferredDERP",
            Field::ReadOnly => "ReadOnly",
            Field::RequestTags => "RequestTags",
            Field::RoutableIps => "RoutableIPs",
            Field::Stream => "Stream",
            Field::Admin(field) => field.name(),
        }
    }
}
