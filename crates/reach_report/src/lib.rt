//! Why flows are granted: the first rule and destination of a policy that grant one, and which machine reaches which by
//! which rule first; and both as operators are shown them.
#![tactic(auto)]

mod explaining;
mod granted;
mod laws;
mod reach;
mod reaching;
mod texts;

pub use explaining::explain;
pub use granted::Granted;
pub use laws::{
    a_first_grant_is_least, a_report_is_reach, a_report_is_read_back, reports_agree_with_maps,
};
pub use reach::Reach;
pub use reaching::report;
pub use texts::{explain_text, report_text};
