//! The asks at a desk.
ghost use Rattle.tailnet_desk.specs.Asks.{IsShort};

use crate::asks::ask_of;
use desk_front::Front;
use net_addr::Moment;
use row_keeper::Keeper;
use server_settings::FileSettings;
use settings::Settings;
use std::alloc::Global;
use std::test::Fail;
use tail_base::NoMemory;
use tail_words::read_settings;
use tailnet_desk::{Ask, Desk, Loss, OpenFault, Reply};

const SETTINGS: &str =
    "base_domain = \"tail.example\"\nserver_url = \"http://tail.example\"\ntoken = \"secret\"\n";

/// The random words of each draw.
const WORDS: [u64; 4] = [1, 2, 3, 4];

/// The file of each desk.
fn file_settings(alloc: Global) -> Result<FileSettings, Fail> {
    match read_settings(alloc, SETTINGS.as_bytes()) {
        Ok(settings) => Ok(settings),
        Err(_) => Err(Fail::from("no settings")),
    }
}

/// The settings of each desk.
pub fn settings_of(alloc: Global) -> Result<Settings, Fail> {
    Ok(file_settings(alloc)?.tailnet)
}

/// What turns the lines into asks.
pub fn front_of(alloc: Global) -> Result<Front, Fail> {
    let settings = file_settings(alloc)?;
    Ok(Front::new(alloc, &settings.server)?)
}

fn moment() -> Moment {
    Moment::clamp(1_000_000_000)
}

/// A desk over the keeper, which comes back where it doesn't open.
pub(crate) fn opened<K: Keeper>(
    alloc: Global,
    settings: Settings,
    keeper: K,
) -> Result<Desk<K>, (OpenFault, K)> {
    Desk::open(alloc, settings, keeper, moment())
}

/// What a desk replies to an ask.
#[derive(Clone, Copy, Debug, PartialEq, Eq, Drop)]
pub enum ReplyKind {
    Done,
    /// A rule refuses it.
    Refused,
    /// The keeper fails.
    Lost,
    /// No ask of the list has such a reply.
    Otherwise,
}

/// Which of these a reply is.
fn answered_by(reply: &Reply) -> ReplyKind {
    match reply {
        Reply::Done(_) => ReplyKind::Done,
        Reply::Refused(_) => ReplyKind::Refused,
        Reply::Lost(Loss::KeeperFault) => ReplyKind::Lost,
        Reply::Lost(Loss::NoMemory)
        | Reply::Attached { .. }
        | Reply::Frames(_)
        | Reply::Ended
        | Reply::Detached => ReplyKind::Otherwise,
    }
}

/// What the desk replies to an ask.
fn answer_to<K: Keeper>(alloc: Global, desk: &mut Desk<K>, ask: &Ask) -> ReplyKind
    requires short { IsShort ask.now }
{
    let reply = desk.ask(alloc, ask, moment(), Some(WORDS));
    answered_by(&reply)
}

/// What the desk replies to a line.
fn answer<K: Keeper>(alloc: Global, front: &Front, desk: &mut Desk<K>, line: &str) -> ReplyKind {
    match ask_of(alloc, front, line) {
        Ok(ask) => answer_to(alloc, desk, &ask),
        Err(_) => ReplyKind::Otherwise,
    }
}

/// How a row of asks goes on where the keeper fails.
#[derive(Clone, Copy, Debug, PartialEq, Eq, Drop)]
pub enum Manner {
    /// The first fault is the end: the program stopped there.
    ToTheFirstFault,
    ToTheLastAsk,
}

/// What the desk replies to these lines, one behind the other.
pub(crate) fn answers<K: Keeper>(
    alloc: Global,
    front: &Front,
    desk: &mut Desk<K>,
    asks: &[&str],
    manner: Manner,
) -> Result<Vec<ReplyKind>, NoMemory> {
    let mut answers = Vec::new(alloc);
    for line in asks {
        let answer = answer(alloc, front, desk, line);
        answers.push(answer)?;
        if answer == ReplyKind::Lost && manner == Manner::ToTheFirstFault {
            return Ok(answers);
        }
    }
    Ok(answers)
}
