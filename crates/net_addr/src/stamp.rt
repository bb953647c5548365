//! Moments of texts.
ghost use Rattle.std.specs.Prelude.{◌≡◌, ◌<◌, ◌≤◌, pos, length, IsTrue, IfSome};
ghost use Rattle.jiff_core.specs.Calendar.{IsEpochDay, IsWithin};
ghost use Rattle.net_addr.specs.MomentReads.{day_number, day_of, digit_at, digit_count, fraction_length, has_marks, numeric_offset, offset_of, seconds_of, signed, time_of, two_at};

use jiff_core::civil::Date;

/// The digit at a place.
fn digit_at(text: &[u8], place: usize) -> Option<u32>
    ensures value { result ≡ digit_at text.now place }
    ensures small { IfSome result (λ digit. digit < 10) }
{
    if place < text.len() && text[place].is_ascii_digit() {
        Some(u32::from(text[place] - b'0'))
    } else {
        None
    }
}

/// The number of the two digits from a place on.
fn two_at(text: &[u8], place: usize) -> Option<u32>
    requires near { place < 100 }
    ensures value { result ≡ two_at text.now place }
    ensures small { IfSome result (λ number. number < 100) }
{
    let tens = digit_at(text, place)?;
    let ones = digit_at(text, place + 1)?;
    Some(tens * 10 + ones)
}

/// The day number of a date, if the calendar has it.
fn day_number(year: u32, month: u32, day: u32) -> Option<i64>
    requires year_in { year ≤ 9999 }
    requires month_in { month < 100 }
    requires day_in { day < 100 }
    ensures value { result ≡ day_number year month day }
    ensures range { IfSome result IsEpochDay }
{
    match Date::new(year as i16, month as i8, day as i8) {
        Ok(date) => Some(i64::from(date.to_unix_epoch_day())),
        Err(_) => None,
    }
}

/// The day number of `YYYY-MM-DD`.
pub(crate) fn day_of(text: &[u8]) -> Option<i64>
    ensures value { result ≡ day_of text.now }
    ensures range { IfSome result IsEpochDay }
{
    let century = two_at(text, 0)?;
    let years = two_at(text, 2)?;
    let month = two_at(text, 5)?;
    let day = two_at(text, 8)?;
    day_number(century * 100 + years, month, day)
}

/// The seconds of a time of day, with no leap second.
fn seconds_of(hour: u32, minute: u32, second: u32) -> Option<u32>
    ensures value { result ≡ seconds_of hour minute second }
    ensures small { IfSome result (λ seconds. seconds < 86400) }
{
    if hour <= 23 && minute <= 59 && second <= 59 {
        Some(hour * 3600 + minute * 60 + second)
    } else {
        None
    }
}

/// The seconds since midnight of `hh:mm:ss`, behind a date and `T`.
pub(crate) fn time_of(text: &[u8]) -> Option<u32>
    ensures value { result ≡ time_of text.now }
    ensures small { IfSome result (λ seconds. seconds < 86400) }
{
    let hour = two_at(text, 11)?;
    let minute = two_at(text, 14)?;
    let second = two_at(text, 17)?;
    seconds_of(hour, minute, second)
}

/// Whether the marks stand between the numbers.
pub(crate) fn has_marks(text: &[u8]) -> bool
    ensures value { result ≡ has_marks text.now }
    ensures long { IsTrue result → 17 ≤ length text.now }
{
    text.len() > 16
        && text[4] == b'-'
        && text[7] == b'-'
        && text[10] == b'T'
        && text[13] == b':'
        && text[16] == b':'
}

/// How many digits stand at the start.
fn digit_count(text: &[u8]) -> usize
    ensures value { result ≡ digit_count text.now }
    ensures inside { result ≤ length text.now }
{
    let mut count = 0;
    for b in text {
        if !b.is_ascii_digit() {
            break;
        }
        count += 1;
    }
    count
}

/// How long the fraction is that stands at the start.
pub(crate) fn fraction_length(text: &[u8]) -> Option<usize>
    ensures value { result ≡ fraction_length text.now }
    ensures inside { IfSome result (λ long. long ≤ length text.now) }
{
    match text {
        [b'.', rest @ ..] => {
            let count = digit_count(rest);
            if count == 0 { None } else { Some(count + 1) }
        }
        _ => Some(0),
    }
}

/// An offset's seconds with its sign.
fn signed(sign: u8, seconds: u32) -> Option<i64>
    requires small { seconds < 86400 }
    ensures value { result ≡ signed sign seconds }
    ensures range { IfSome result (IsWithin 86399) }
{
    match sign {
        b'+' => Some(i64::from(seconds)),
        b'-' => Some(-i64::from(seconds)),
        _ => None,
    }
}

/// The seconds of `+hh:mm` or `-hh:mm`.
fn numeric_offset(text: &[u8]) -> Option<i64>
    ensures value { result ≡ numeric_offset text.now }
    ensures range { IfSome result (IsWithin 86399) }
{
    if text.len() != 6 || text[3] != b':' {
        return None;
    }
    let hour = two_at(text, 1)?;
    let minute = two_at(text, 4)?;
    let seconds = seconds_of(hour, minute, 0)?;
    signed(text[0], seconds)
}

/// The seconds of an offset: `Z` is none.
pub(crate) fn offset_of(text: &[u8]) -> Option<i64>
    ensures value { result ≡ offset_of text.now }
    ensures range { IfSome result (IsWithin 86399) }
{
    if text.len() == 1 && text[0] == b'Z' {
        Some(0)
    } else {
        numeric_offset(text)
    }
}
