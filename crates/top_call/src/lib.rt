//! The top call: the whole program over its outside.
#![tactic(auto)]

mod top;
mod wordless;

pub use top::tailnetd;
pub use wordless::end_wordless;
