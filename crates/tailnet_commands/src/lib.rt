//! The program's commands over its outside: `pipe`, which serves one connection, and `policy-check`.
#![tactic(auto)]

mod checking;
mod desk_opening;
mod law;
mod limits;
mod piping;
mod running;
mod seeding;

pub use checking::policy_check;
pub use desk_opening::open_desk;
pub use law::{
    completeness, connections_at_a_desk_are_followed, runs_leave_machines_gone,
    told_rows_are_opened,
};
pub use limits::FILE_LIMIT;
pub use piping::{pipe_command, settings_file};
