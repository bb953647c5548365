//! Owners of tags.

use tail_base::{Login, Text};

/// Who may give a tag to a machine.
#[derive(Drop)]
pub(crate) enum Owner {
    /// A user.
    User(Login),
    /// The members of a group; its name, `group:` included.
    Group(Text),
}
