//! DNS settings.
use crate::known::Known;
use tailcfg::{Dns, DnsExtra, DnsRoute};

impl Known for DnsRoute {
    ghost use Rattle.response_values.specs.Dns.{IsTypedRoute};

    ghost Typed = { IsTypedRoute };

    fn known(&self) {
        self.resolvers.known();
    }
}

impl Known for DnsExtra {
    ghost use Rattle.response_values.specs.Dns.{IsTypedRecord};

    ghost Typed = { IsTypedRecord };

    fn known(&self) {
        self.addr.known();
    }
}

impl Known for Dns {
    ghost use Rattle.response_values.specs.Dns.{IsTypedDns};

    ghost Typed = { IsTypedDns };

    fn known(&self) {
        self.settings.resolvers.known();
        self.settings.routes.known();
        self.extras.known();
    }
}
