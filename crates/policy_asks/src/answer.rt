//! What operators are answered.
use tail_base::Text;

/// What an ask on the policy that isn't refused is answered.
#[derive(Drop)]
pub enum PolicyAnswer {
    /// The text of the policy; None before the first is kept.
    PolicyText(Option<Text>),
    /// The text is kept, and its policy in force.
    Saved,
}
