//! What a client reads of the bytes of responses. No function here does anything: each states a law.
#![tactic(auto)]

mod texts;

pub use texts::a_response_is_read_back;
