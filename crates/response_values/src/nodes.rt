//! Nodes, peer changes and profiles.
use crate::known::Known;
use crate::values::known_bytes;
use tailcfg::{NodeRow, Patch, Profile};

impl Known for NodeRow {
    ghost use Rattle.response_values.specs.Nodes.{IsTypedNode};

    ghost Typed = { IsTypedNode };

    fn known(&self) {
        self.id.known();
        self.user.known();
        known_bytes(&self.key.0);
        known_bytes(&self.machine.0);
        known_bytes(&self.disco.0);
        self.addresses.known();
        self.allowed.known();
        self.endpoints.known();
        self.derp.known();
        self.created.known();
        self.expiry.known();
    }
}

impl Known for Patch {
    ghost use Rattle.response_values.specs.Nodes.{IsTypedPatch};

    ghost Typed = { IsTypedPatch };

    fn known(&self) {
        self.id.known();
        self.derp.known();
        self.disco.known();
        self.endpoints.known();
    }
}

impl Known for Profile {
    ghost use Rattle.response_values.specs.Nodes.{IsTypedProfile};

    ghost Typed = { IsTypedProfile };

    fn known(&self) {
        self.id.known();
    }
}
