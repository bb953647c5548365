//! Texts of moments, added to a text.
ghost use Rattle.std.specs.Prelude.{◌≡◌, ◌<◌, ◌≤◌, ◌++◌, OnOk, string_bytes};
ghost use Rattle.net_addr.specs.Civil.{date_after};
ghost use Rattle.net_addr.specs.MomentTexts.{date_text, instant_text, moment_text, time_text, two};

use crate::numerals::append_decimal;
use net_addr::{FIRST_SECOND, Moment, date_after};
use tail_base::NoMemory;

/// Adds a mark and a number as two digits.
fn append_two(mark: &str, n: u32, room: &mut String) -> Result<(), NoMemory>
    requires small { n < 100 }
    ensures ok { OnOk result
        (string_bytes room.new ≡ string_bytes room.old ++ (mark.now ++ two n)) }
{
    room.push_str(mark)?;
    append_decimal(n / 10, room)?;
    append_decimal(n % 10, room)?;
    Ok(())
}

/// Adds the date as `YYYY-MM-DD`.
fn append_date(days: u32, room: &mut String) -> Result<(), NoMemory>
    requires inside { days ≤ 3652058 }
    ensures ok { OnOk result
        (string_bytes room.new ≡ string_bytes room.old ++ date_text (date_after days)) }
{
    let date = date_after(days);
    let year = date.year as u32;
    append_two("", year / 100, room)?;
    append_two("", year % 100, room)?;
    append_two("-", u32::from(date.month), room)?;
    append_two("-", u32::from(date.day), room)?;
    Ok(())
}

/// Adds the time of day as `hh:mm:ss`.
fn append_time(second: u32, room: &mut String) -> Result<(), NoMemory>
    requires inside { second < 86400 }
    ensures ok { OnOk result
        (string_bytes room.new ≡ string_bytes room.old ++ time_text second) }
{
    append_two("", second / 3600, room)?;
    append_two(":", second / 60 % 60, room)?;
    append_two(":", second % 60, room)?;
    Ok(())
}

/// Adds the date and the time of day, of a number of seconds since 0001-01-01T00:00:00Z.
fn append_instant(second: u64, room: &mut String) -> Result<(), NoMemory>
    requires inside { second ≤ 315537897599 }
    ensures ok { OnOk result
        (string_bytes room.new ≡ string_bytes room.old ++ instant_text second) }
{
    append_date((second / 86400) as u32, room)?;
    room.push_str("T")?;
    append_time((second % 86400) as u32, room)?;
    room.push_str("Z")?;
    Ok(())
}

/// Adds the text of a moment.
pub(crate) fn append_moment(moment: Moment, room: &mut String) -> Result<(), NoMemory>
    ensures ok { OnOk result (string_bytes room.new ≡ string_bytes room.old ++ moment_text moment) }
{
    append_instant((moment.seconds() - FIRST_SECOND) as u64, room)
}
