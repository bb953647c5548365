//! What is decided on the asks of operators: on users, pre-auth keys, machines, their routes,
//! admissions, extra DNS records, and the sweep. A decision changes nothing yet.
#![tactic(auto)]

mod admit_ask;
mod deciding;
mod extra_asks;
mod key_asks;
mod laws;
mod node_asks;
mod operator_answer;
mod operator_ask;
mod route_asks;
mod row_puts;
mod sweeping;
mod user_asks;
mod waiting_list;

pub use deciding::decide;
pub use laws::operator_decisions_are_sound;
pub use operator_answer::OperatorAnswer;
pub use operator_ask::{OperatorAsk, draws};
