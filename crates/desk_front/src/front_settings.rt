//! What the front of a server is told by its settings.
use tail_base::Text;

/// What answers depend on beside the desk.
#[derive(Drop)]
pub struct FrontSettings {
    /// The operator's token.
    pub token: Text,
    /// Where machines that wait are sent.
    pub server_url: Text,
}
