//! The entries of hosts.
ghost use Rattle.std.specs.Prelude.{◌≡◌};
ghost use Rattle.tail_base.specs.Steps.{Gives};
ghost use Rattle.policy_doc.specs.Entries.{host_entry, is_host_name};

use crate::walk::ReadMember;
use net_addr::Addr;
use policy_rows::{Host, Names, PolicyCode, PolicyFault, host_net, is_name, refused};
use serde_json::Value;
use std::alloc::Global;
use tail_base::{Failure, Text};

/// Whether the key is a name that is no address.
fn is_host_name(key: &[u8]) -> bool
    ensures value { result ≡ is_host_name key.now }
{
    is_name(key) && Addr::read(key).is_none()
}

impl ReadMember for Host {
    ghost reads = { host_entry };

    #[tactic(auto, unfolding(crate::specs::Entries::host_entry))]
    fn read(
        alloc: Global,
        _names: &Names,
        _before: &[Host],
        key: &str,
        place: &str,
        value: &Value,
    ) -> Result<Host, Failure<PolicyFault>> {
        if !is_host_name(key.as_bytes()) {
            return refused(alloc, PolicyCode::BadHost, place);
        }
        let Some(text) = value.as_str() else {
            return refused(alloc, PolicyCode::WrongShape, place);
        };
        let Some(prefix) = host_net(text.as_bytes()) else {
            return refused(alloc, PolicyCode::BadHost, place);
        };
        let name = Text::from_str(alloc, key)?;
        Ok(Host { name, prefix })
    }
}
