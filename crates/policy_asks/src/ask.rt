//! What operators ask of the policy.
use tail_base::Text;

/// One thing that an operator asks of the policy.
#[derive(Drop)]
pub enum PolicyAsk {
    /// Shows the text of the policy.
    Policy,
    /// Keeps this text, and puts its policy in force.
    SavePolicy { text: Text },
}
