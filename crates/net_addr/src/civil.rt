//! Dates and times of day, and their texts.
ghost use Rattle.std.specs.Prelude.{◌≡◌, ◌<◌, ◌≤◌, ◌++◌, pos, IfOk, OnOk};
ghost use Rattle.net_addr.specs.Civil.{date_after};
ghost use Rattle.net_addr.specs.MomentTexts.{date_text, instant_text, time_text, two};

use jiff_core::civil::Date;
use std::alloc::Global;
use tail_base::{NoMemory, Text};

/// The day number of 0001-01-01, counted from the calendar's first day, -9999-01-01.
const YEAR_ONE: u32 = 3_652_425;

/// The date so many days after 0001-01-01, up to 9999-12-31.
pub fn date_after(days: u32) -> Date
    requires inside { days ≤ 3652058 }
    ensures year { result.year ≡ pos (date_after days).year }
    ensures month { result.month ≡ (date_after days).month }
    ensures day { result.day ≡ (date_after days).day }
{
    Date::from_days_since_min(YEAR_ONE + days)
}

/// A number as two digits.
fn two(alloc: Global, n: u32) -> Result<Text, NoMemory>
    requires small { n < 100 }
    ensures value { IfOk result (λ text. text ≡ two n) }
{
    let tens = n / 10;
    let ones = n % 10;
    Ok(Text::from_string(format!(in alloc; "{tens}{ones}")?))
}

/// Adds a mark and a number as two digits.
fn push_two(alloc: Global, text: &mut Text, mark: &str, n: u32) -> Result<(), NoMemory>
    requires small { n < 100 }
    ensures ok { OnOk result (text.new ≡ text.old ++ (mark.now ++ two n)) }
{
    let digits = two(alloc, n)?;
    text.push(mark)?;
    text.push(digits.as_str())?;
    Ok(())
}

/// The date as `YYYY-MM-DD`.
fn date_text(alloc: Global, days: u32) -> Result<Text, NoMemory>
    requires inside { days ≤ 3652058 }
    ensures value { IfOk result (λ text. text ≡ date_text (date_after days)) }
{
    let date = date_after(days);
    let year = date.year as u32;
    let mut text = two(alloc, year / 100)?;
    push_two(alloc, &mut text, "", year % 100)?;
    push_two(alloc, &mut text, "-", u32::from(date.month))?;
    push_two(alloc, &mut text, "-", u32::from(date.day))?;
    Ok(text)
}

/// The time of day as `hh:mm:ss`.
fn time_text(alloc: Global, second: u32) -> Result<Text, NoMemory>
    requires inside { second < 86400 }
    ensures value { IfOk result (λ text. text ≡ time_text second) }
{
    let mut text = two(alloc, second / 3600)?;
    push_two(alloc, &mut text, ":", second / 60 % 60)?;
    push_two(alloc, &mut text, ":", second % 60)?;
    Ok(text)
}

/// The date and the time of day, of a number of seconds since 0001-01-01T00:00:00Z.
pub(crate) fn instant_text(alloc: Global, second: u64) -> Result<Text, NoMemory>
    requires inside { second ≤ 315537897599 }
    ensures value { IfOk result (λ text. text ≡ instant_text second) }
{
    let mut text = date_text(alloc, (second / 86400) as u32)?;
    let time = time_text(alloc, (second % 86400) as u32)?;
    text.push("T")?;
    text.push(time.as_str())?;
    text.push("Z")?;
    Ok(text)
}
