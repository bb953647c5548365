//! HTTP/1.1 at the edge: which requests a byte string is, and the bytes of an answer, also of one in chunks (RFC 9112, section 7.1).
#![tactic(auto)]

mod answering;
mod buffer;
mod chunk;
mod chunk_laws;
mod cutting;
mod head;
mod head_fault;
mod law;
mod lines;
mod looking;
mod request;
mod taking;
mod target;

pub use answering::{head_fault_answer, no_memory_answer, plain_answer};
pub use buffer::{Buffer, Refill};
pub use chunk::{chunk_of, last_chunk, stream_head};
pub use chunk_laws::{streams_are_read_one_way, streams_differ};
pub use head::length_value;
pub use head_fault::HeadFault;
pub use law::{
    one_reading, refusals_stay, served_first, the_numbers_are_these, there_is_a_reading,
    whole_requests,
};
pub use lines::{count_named, first_named};
pub use looking::{HEAD_LIMIT, ROOM};
pub use request::{Request, Taken};
pub use taking::take_request;
