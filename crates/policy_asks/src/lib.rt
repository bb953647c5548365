//! What operators ask of the policy: its text, and that another is kept and put in force. Which
//! policy tables have: that of the text that they keep.
#![tactic(auto)]

mod answer;
mod ask;
mod deciding;
mod kept;
mod laws;
mod saving;

pub use answer::PolicyAnswer;
pub use ask::PolicyAsk;
pub use deciding::decide;
pub use kept::policy_in;
pub use laws::{kept_texts_change_nothing, policy_decisions_are_sound, saved_policies_are_kept};
