//! Keys, addresses, prefixes and moments.
ghost use Rattle.hex.specs.Hex.{IsBytes};

use crate::known::Known;
use net_addr::{Addr, Endpoint, Moment, Prefix};
use tail_base::DiscoKey;

/// The bytes of a key.
pub(crate) fn known_bytes(bytes: &[u8])
    ensures typed { IsBytes bytes.now }
{
    let _length = bytes.len();
}

impl Known for DiscoKey {
    ghost use Rattle.hex.specs.Hex.{IsBytes};

    ghost Typed = { λ key. IsBytes key.0 };

    fn known(&self) {
        known_bytes(&self.0);
    }
}

impl Known for Addr {
    ghost use Rattle.response_values.specs.Values.{IsTypedAddr};

    ghost Typed = { IsTypedAddr };

    fn known(&self) {
        let _bits = self.bits();
    }
}

impl Known for Prefix {
    ghost use Rattle.net_addr.specs.Bits.{IsBlock};

    ghost Typed = { IsBlock };

    fn known(&self) {
        let _length = self.len();
    }
}

impl Known for Moment {
    ghost use Rattle.net_addr.specs.Moments.{IsMoment};

    ghost Typed = { IsMoment };

    fn known(&self) {
        let _seconds = self.seconds();
    }
}

impl Known for Endpoint {
    ghost use Rattle.response_values.specs.Values.{IsTypedEndpoint};

    ghost Typed = { IsTypedEndpoint };

    fn known(&self) {
        self.addr.known();
        let _port = self.port;
    }
}
