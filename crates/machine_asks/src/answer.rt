//! What a machine is answered.
use fresh_maps::View;
use tail_base::Text;
use tailcfg::Profile;

/// What a machine's ask that isn't refused is answered.
#[derive(Drop)]
pub enum MachineAnswer {
    /// The machine is registered for the user of this profile; its node key has expired or not.
    Registered { profile: Profile, expired: bool },
    /// The machine waits for an operator, who is given this text of its pending entry.
    LoginAt { pending: Text },
    /// What the machine told of itself is kept.
    Updated,
    /// The machine's map.
    Map(View),
}
