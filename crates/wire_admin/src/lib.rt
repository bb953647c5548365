//! The JSON of operators: the bodies of their requests read, and what they are answered written.
#![tactic(auto)]

mod extra_forms;
mod extras;
mod forms;
mod keys;
mod nodes;
mod refused;
mod row_form;
mod swept;
mod users;
mod waiting;
mod written;

pub use extra_forms::read_extras_form;
pub use extras::extras_text;
pub use forms::{
    AdmitForm, read_admit_form, read_empty_form, read_expiry_form, read_key_form, read_rename_form,
    read_routes_form, read_tags_form, read_user_form,
};
pub use keys::{key_text, keys_text};
pub use nodes::{node_text, nodes_text};
pub use refused::refused_text;
pub use swept::swept_text;
pub use users::{user_text, users_text};
pub use waiting::waiting_text;
