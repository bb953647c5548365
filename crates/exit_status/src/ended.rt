//! How a run ended, with what its line on errors names.
ghost use Rattle.exit_status.specs.Statuses as spec;
ghost use Rattle.std.specs.Prelude.{◌≡◌};

use crate::closed::Closed;
use crate::status::Status;
use net_rows::Kind;
use tail_base::Text;
use tail_words::SettingsRule;

/// How a run of `pipe` ended.
#[derive(Drop)]
pub enum Ended {
    /// A connection was served.
    Closed(Closed),
    /// The settings break this rule at this key.
    Settings { rule: SettingsRule, key: Text },
    /// The settings file is too large.
    TooLarge,
    /// The settings file wasn't read.
    FileFault,
    /// The keeper failed at opening or loading.
    KeeperFault,
    /// The row of this kind and id breaks a rule, or what is kept is no database of ours.
    Damaged { kind: Kind, id: u32 },
    /// Memory was refused before anything was read.
    NoMemory,
}

/// The status of how a run ended.
pub fn status_of(ended: &Ended) -> Status
    ensures value { result ≡ spec.status_of ended.now }
{
    match ended {
        Ended::Closed(Closed::End) => Status::Ok,
        Ended::Closed(Closed::Early) => Status::Early,
        Ended::Closed(Closed::ReadFault) => Status::ReadFault,
        Ended::Closed(Closed::WriteFault) => Status::WriteFault,
        Ended::Closed(Closed::NoMemory) => Status::NoMemory,
        Ended::Settings { .. } => Status::Settings,
        Ended::TooLarge => Status::Settings,
        Ended::FileFault => Status::ReadFault,
        Ended::KeeperFault => Status::KeeperFault,
        Ended::Damaged { .. } => Status::Damaged,
        Ended::NoMemory => Status::NoMemory,
    }
}
