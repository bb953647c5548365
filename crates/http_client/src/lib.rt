//! HTTP/1.1 of a client: the bytes of a request, and which answer a byte string begins with.
#![tactic(auto)]

mod answer;
mod asking;
mod head;
mod law;
mod looking;
mod reading;
mod stepping;

pub use answer::{ServerAnswer, TakenAnswer};
pub use asking::ask_bytes;
pub use law::{
    answers_come_back, answers_stay, one_answer, the_numbers_are_these, tokens_are_escaped,
};
pub use reading::read_answer;
