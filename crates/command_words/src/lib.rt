//! The words of the command line: the words of every command by one table, read by `clap`.
#![tactic(auto)]

mod argument;
mod arguments;
mod asked_flow;
mod invocation;
mod laws;
mod line;
mod operators;
mod parser;
mod values;
mod words;

pub use asked_flow::AskedFlow;
pub use invocation::{Invocation, OperatorCall, OperatorCommand};
pub use laws::the_numbers_are_these;
pub use words::read_invocation;
