//! The fields of a tailnet's settings, whatever they hold.
use net_addr::Prefix;
use tail_base::Text;
use tailcfg::DnsSettings;

/// The fields of a tailnet's settings.
#[derive(Drop)]
pub struct SettingsFields {
    /// The domain that machines' names end in.
    pub base_domain: Text,
    pub dns: DnsSettings,
    /// How long an ephemeral machine outlives its last session.
    pub ephemeral_seconds: u32,
    /// How long a node key lasts; 0 is for ever.
    pub key_seconds: u32,
    /// How long a pending entry lasts.
    pub pending_seconds: u32,
    /// The IPv4 addresses that are allotted.
    pub prefix_v4: Prefix,
    /// The IPv6 addresses that are allotted.
    pub prefix_v6: Prefix,
    /// How many threads serve. At most one poll fewer than that waits.
    pub workers: u32,
}
