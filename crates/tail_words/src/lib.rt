//! The settings file, read.
#![tactic(auto)]

mod dns;
mod fault;
mod lists;
mod rule;
mod rules;
mod settings_file;
mod table;
mod values;

pub use fault::{SettingsFault, SettingsRule};
pub use settings_file::read_settings;
