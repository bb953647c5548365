//! The requests of operators: the method, the path and the body of each command.
#![tactic(auto)]

mod bodies;
mod law;
mod paths;
mod request;
mod requests;

pub use law::logins_are_escaped;
pub use request::{AskMethod, OperatorRequest};
pub use requests::{file_of, operator_request};
