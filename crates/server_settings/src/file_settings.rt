//! All that a settings file says.
use crate::server_settings::ServerSettings;
use settings::Settings;

/// All that a settings file says: what the tailnet is, and what its server is.
#[derive(Drop)]
pub struct FileSettings {
    pub tailnet: Settings,
    pub server: ServerSettings,
}
