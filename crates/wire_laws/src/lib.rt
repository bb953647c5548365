//! What the bytes of responses tell of them. No function here does anything: each states a law.
#![tactic(auto)]

mod streams;
mod texts;

pub use streams::streams_tell_responses;
pub use texts::{forms_differ, json_texts_differ, texts_tell_responses};
