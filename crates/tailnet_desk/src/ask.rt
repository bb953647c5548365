//! What the desk is asked, by who asks it.
ghost use Rattle.std.specs.Prelude.{◌≡◌};
ghost use Rattle.tailnet_desk.specs.Asks.{ask_draws};

use admin_asks::OperatorAsk;
use machine_asks::MachineAsk;
use policy_asks::PolicyAsk;
use tail_base::Text;

/// One thing that is asked of the desk.
#[derive(Drop)]
pub enum Ask {
    /// The program makes a first user and a reusable pre-auth key with this text, in tables without
    /// users.
    Seed { text: Text },
    Machine(MachineAsk),
    Operator(OperatorAsk),
    /// An operator asks of the policy.
    Policy(PolicyAsk),
}

impl Ask {
    /// Whether fresh random words are drawn for it.
    pub fn draws(&self) -> bool
        ensures value { result ≡ ask_draws self.now }
    {
        match self {
            Ask::Seed { .. } | Ask::Policy(_) => false,
            Ask::Machine(ask) => machine_asks::draws(ask),
            Ask::Operator(ask) => admin_asks::draws(ask),
        }
    }
}
