//! The command `serve`: many connections over one desk, with a worker for each door.
#![tactic(auto)]

mod crew;
mod law;
mod manning;
mod outfits;
mod planning;
mod rooms;
mod running;
mod seat_serving;
mod serve_end;
mod serving;
mod worker;
mod working;

pub use law::{services_leave_machines_gone, serving_completeness, well_served_connections};
pub use seat_serving::serve_seat;
pub use serve_end::ServeEnd;
pub use serving::serve_command;
pub use worker::{Report, Stop, WorkLimits, Worker};
