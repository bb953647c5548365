//! What is asked of a tailnet's policy.
use command_words::AskedFlow;

/// What is asked of a tailnet's policy.
#[derive(Clone, Copy, Drop)]
pub enum Question {
    /// By which rule, and by which of its destinations, this flow is granted first.
    Flow(AskedFlow),
    /// Which machine reaches which, and by which rule first.
    Reaches,
}
