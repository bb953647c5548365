//! Rows of events at one desk, as lines of a text.
//!
//! Lines `: key = value` may come first, each a line more in the settings. `@ SECONDS` is the moment of what comes behind it. `> EVENT` is
//! an event, and the lines `< REPLY` behind it are what the desk replies, or, of `map`, whether the machine's client has folded the map
//! that the desk computes afresh; `%x` stands for 64 times `x`.
use crate::events::event;
use crate::follows::Followers;
use crate::parts::{cut, wide};
use net_addr::Moment;
use net_rows::Tables;
use row_keeper::{Keeper, MemoryKeeper};
use settings::Settings;
use std::alloc::Global;
use std::test::Fail;
use tail_base::Items;
use tail_words::read_settings;
use tailnet_desk::Desk;

const SETTINGS: &str =
    "base_domain = \"tail.example\"\nserver_url = \"http://tail.example\"\ntoken = \"secret\"\n";

/// The settings of a row.
fn settings_of(alloc: Global, row: &str) -> Result<Settings, Fail> {
    let mut text = String::from_str(alloc, SETTINGS)?;
    for line in row.lines() {
        if let Some(setting) = line.strip_prefix(": ") {
            text.push_str(setting)?;
            text.push('\n')?;
        }
    }
    match read_settings(alloc, text.as_bytes()) {
        Ok(settings) => Ok(settings.tailnet),
        Err(_) => Err(Fail::from("no settings")),
    }
}

/// A desk over empty tables.
fn desk_of(alloc: Global, settings: Settings) -> Result<Desk<MemoryKeeper>, Fail> {
    let keeper = MemoryKeeper::new(Tables::empty(alloc), Items::new(alloc));
    match Desk::open(alloc, settings, keeper, Moment::clamp(0)) {
        Ok(desk) => Ok(desk),
        Err(_) => Err(Fail::from("the desk doesn't open")),
    }
}

fn moment_of(word: &str) -> Result<Moment, Fail> {
    match word.parse::<i64>() {
        Ok(seconds) => Ok(Moment::clamp(seconds)),
        Err(_) => Err(Fail::from("no moment")),
    }
}

/// The replies that are wanted.
fn wanted(alloc: Global, row: &str) -> Result<String, Fail> {
    let mut told = String::new(alloc);
    for line in row.lines() {
        if let Some(reply) = line.strip_prefix("< ") {
            let reply = wide(alloc, reply)?;
            told.push_str(&reply)?;
            told.push('\n')?;
        }
    }
    Ok(told)
}

/// One line of a row at its desk.
fn play_line<K: Keeper>(
    alloc: Global,
    desk: &mut Desk<K>,
    moment: &mut Moment,
    line: &str,
    followers: &mut Followers,
    told: &mut String,
) -> Result<(), Fail> {
    let (mark, rest) = cut(line);
    match mark {
        "@" => {
            *moment = moment_of(rest)?;
            Ok(())
        }
        ">" => {
            let line = wide(alloc, rest)?;
            event(alloc, desk, *moment, &line, followers, told)
        }
        _ => Ok(()),
    }
}

/// What a desk replies to the events of a row.
fn played<K: Keeper>(alloc: Global, desk: &mut Desk<K>, row: &str) -> Result<String, Fail> {
    let mut told = String::new(alloc);
    let mut moment = Moment::clamp(1_000_000_000);
    let mut followers = Followers::new(alloc);
    for line in row.lines() {
        play_line(alloc, desk, &mut moment, line, &mut followers, &mut told)?;
    }
    Ok(told)
}

/// Whether the desk replies as the row wants it.
fn replies_so<K: Keeper>(alloc: Global, desk: &mut Desk<K>, row: &str) -> Result<bool, Fail> {
    let told = played(alloc, desk, row)?;
    let wanted = wanted(alloc, row)?;
    Ok(told == wanted)
}

/// The same of a desk that is then closed.
fn replies_at<K: Keeper>(alloc: Global, mut desk: Desk<K>, row: &str) -> (Result<bool, Fail>, K) {
    let replies = replies_so(alloc, &mut desk, row);
    (replies, desk.close())
}

/// Whether a desk replies so.
fn is_played(alloc: Global, row: &str) -> Result<bool, Fail> {
    let settings = settings_of(alloc, row)?;
    let desk = desk_of(alloc, settings)?;
    replies_at(alloc, desk, row).0
}

/// The name of the first row to which a desk replies otherwise; None if there is none.
pub(crate) fn first_not_played<'a>(
    alloc: Global,
    rows: &[(&'a str, &str)],
) -> Result<Option<&'a str>, Fail> {
    for (name, row) in rows {
        if !is_played(alloc, row)? {
            return Ok(Some(name));
        }
    }
    Ok(None)
}
