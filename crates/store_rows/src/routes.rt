//! Prefixes and endpoints in a list.
use crate::listed::Listed;
use net_addr::{Endpoint, Prefix};
use std::alloc::Global;
use tail_base::{NoMemory, Text};

impl Listed for Prefix {
    ghost use Rattle.std.specs.Result.{result_ok};
    ghost use Rattle.net_addr.specs.Bits.{IsBlock};
    ghost use Rattle.net_addr.specs.PrefixTexts.{prefix_of_text, prefix_text};

    ghost text = { prefix_text };

    ghost of_text = { λ text. result_ok (prefix_of_text text) };

    ghost Fits = { λ p. IsBlock p };

    fn listed_text(&self, alloc: Global) -> Result<Text, NoMemory> {
        let _block = self.base();
        self.write(alloc)
    }

    fn spelled(_: Global, given: &[u8]) -> Result<Option<Self>, NoMemory> {
        match Prefix::read(given) {
            Ok(prefix) => {
                let _block = prefix.base();
                Ok(Some(prefix))
            }
            Err(_) => Ok(None),
        }
    }

    fn texts_are_listed() {}
}

impl Listed for Endpoint {
    ghost use Rattle.net_addr.specs.EndpointTexts.{endpoint_of_text, endpoint_text};
    ghost use Rattle.store_rows.specs.Endpoints.{IsEndpoint};

    ghost text = { endpoint_text };

    ghost of_text = { endpoint_of_text };

    ghost Fits = { λ e. IsEndpoint e };

    fn listed_text(&self, alloc: Global) -> Result<Text, NoMemory> {
        let _family = self.addr.bits();
        let _port = self.port;
        self.write(alloc)
    }

    fn spelled(_: Global, given: &[u8]) -> Result<Option<Self>, NoMemory> {
        match Endpoint::read(given) {
            Some(endpoint) => {
                let _family = endpoint.addr.bits();
                let _port = endpoint.port;
                Ok(Some(endpoint))
            }
            None => Ok(None),
        }
    }

    fn texts_are_listed() {}
}
