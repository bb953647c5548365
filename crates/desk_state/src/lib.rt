//! What all events speak of: the state of a tailnet with its policy in force and its sessions,
//! decisions, and why an event is refused; and the rows of machines as asks make them: where a machine
//! without a row gets its place, what it takes anew when it registers or is admitted, the change that
//! puts its row, and whether the row is as it was.
#![tactic(auto)]

mod changes;
mod decision;
mod entrant;
mod key_form;
mod laws;
mod life;
mod lines;
mod place;
mod presence;
mod refusal;
mod rows;
mod rules;
mod same;
mod session;
mod tags;
mod texts;
mod users;

pub use changes::machine_gone;
pub use decision::Decision;
pub use entrant::{Entrant, expiry_of, joined};
pub use key_form::KeyForm;
pub use laws::{kept_rows_stay, rows_that_stay_are_kept};
pub use life::{
    Snapshot, is_ahead, is_live, is_live_with, is_online, is_overdue, live_ids, presence_of,
};
pub use lines::{KeyLine, NodeLine, key_line, login_of, node_line, offline_line};
pub use place::{Place, is_taken, place_for};
pub use presence::{MachinePresence, Presence};
pub use refusal::{Refusal, Scarce};
pub use rows::{machine_row, pending_gone, row_change, row_replaced};
pub use rules::keep_rules;
pub use same::{same_routes, same_row, same_told};
pub use session::{Attachment, Session, Sessions};
pub use tags::{tags_defined, tags_granted};
pub use texts::{row_text, session_handle};
pub use users::user_named;
