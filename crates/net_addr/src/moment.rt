//! Moments.
ghost use Rattle.std.specs.Prelude.{◌≡◌, ◌↔◌, ℕ, ℤ, ◌<◌, pos, ◌+ℤ◌, ◌-ℤ◌, ◌*ℤ◌, int_lt, if◌then◌else◌, IfOk, drop};
ghost use Rattle.std.specs.Int.{int_min};
ghost use Rattle.net_addr.specs.Moments.{IsMoment, clamped, later_of, first_moment, last_moment};
ghost use Rattle.jiff_core.specs.Calendar.{IsEpochDay, IsWithin};
ghost use Rattle.net_addr.specs.MomentReads.{in_years, moment_of_text};
ghost use Rattle.net_addr.specs.MomentTexts.{moment_text};
ghost use Rattle.net_addr.specs.SpellsMoment.{SpellsMoment};

use crate::civil::instant_text;
use crate::stamp::{day_of, fraction_length, has_marks, offset_of, time_of};
use std::alloc::Global;
use std::marker::Model;
use tail_base::{Duplicate, NoMemory, Text};

/// A time in seconds since 1970-01-01T00:00:00Z, in the years 1 to 9999.
#[derive(Clone, Copy, Debug, PartialEq, Eq, PartialOrd, Ord, Drop)]
pub struct Moment {
    seconds: i64,
}

impl Model for Moment {
    ghost use Rattle.std.specs.Prelude.{ℤ};
    ghost use Rattle.net_addr.specs.Moments.{IsMoment};

    ghost Value = { ℤ };

    ghost view = { λ a. a.seconds };

    ghost invariant = { λ a. IsMoment a.seconds };

    ghost inverse = { λ n. record { seconds = n } };
}

/// The first moment: 0001-01-01T00:00:00Z.
pub const FIRST_SECOND: i64 = -62_135_596_800;

/// The last moment: 9999-12-31T23:59:59Z.
pub const LAST_SECOND: i64 = 253_402_300_799;

impl Moment {
    /// The moment of these seconds, or the nearer end of the moments.
    pub fn clamp(seconds: i64) -> Moment
        ensures value { result ≡ clamped seconds }
    {
        if seconds < FIRST_SECOND {
            Moment {
                seconds: FIRST_SECOND,
            }
        } else if seconds > LAST_SECOND {
            Moment {
                seconds: LAST_SECOND,
            }
        } else {
            Moment { seconds }
        }
    }

    /// Seconds since 1970.
    pub fn seconds(self) -> i64
        ensures value { result ≡ self }
        ensures moment { IsMoment self }
    {
        self.seconds
    }

    /// Whether this moment comes before the other.
    pub fn is_before(self, other: Moment) -> bool
        ensures value { result ≡ int_lt self other }
    {
        self.seconds < other.seconds
    }

    /// The later of two moments.
    pub fn or_later(self, other: Moment) -> Moment
        ensures value { result ≡ later_of self other }
    {
        if self.seconds < other.seconds {
            other
        } else {
            self
        }
    }

    /// So many seconds later, or the last moment.
    pub fn plus(self, seconds: u32) -> Moment
        ensures value { result ≡ int_min (self +ℤ pos seconds) last_moment }
    {
        Moment::clamp(self.seconds + i64::from(seconds))
    }

    /// The moment that an RFC 3339 text spells, as `2001-09-09T03:46:40.9+02:00`: with capital `T`
    /// and `Z`, hours to 23, minutes and seconds to 59. The fraction is dropped. None if the
    /// text has another form, the date isn't one, or the value leaves the years 1 to 9999.
    pub fn read(text: &[u8]) -> Option<Moment>
        ensures value { result ≡ moment_of_text text.now }
        ensures meaning { (n : ℤ) → SpellsMoment text.now n ↔ (result ≡ Some n) }
    {
        moment_of_text(text)
    }

    /// The date and time of day in UTC, as `YYYY-MM-DDThh:mm:ssZ`.
    pub fn write(&self, alloc: Global) -> Result<Text, NoMemory>
        ensures value { IfOk result (λ text. text ≡ moment_text self.now) }
        ensures read_again { IfOk result (λ text. moment_of_text text ≡ Some self.now) }
    {
        moment_text(alloc, *self)
    }
}

/// The moment that a text spells.
fn moment_of_text(text: &[u8]) -> Option<Moment>
    ensures value { result ≡ moment_of_text text.now }
{
    if !has_marks(text) {
        return None;
    }
    let day = day_of(text)?;
    let time = time_of(text)?;
    let rest = after(text, 19);
    let fraction = fraction_length(rest)?;
    let offset = offset_of(&rest[fraction..])?;
    in_years(seconds_at(day, time, offset))
}

/// The text of a moment.
fn moment_text(alloc: Global, moment: Moment) -> Result<Text, NoMemory>
    ensures value { IfOk result (λ text. text ≡ moment_text moment) }
    ensures moment { IsMoment moment }
{
    instant_text(alloc, (moment.seconds - FIRST_SECOND) as u64)
}

/// The seconds since 1970 of a time on a day, at an offset.
fn seconds_at(day: i64, time: u32, offset: i64) -> i64
    requires day_in { IsEpochDay day }
    requires time_in { time < 86400 }
    requires offset_in { IsWithin 86399 offset }
    ensures value { result ≡ day *ℤ pos 86400 +ℤ pos time -ℤ offset }
{
    day * 86400 + i64::from(time) - offset
}

/// The text from a place on.
fn after(text: &[u8], place: usize) -> &[u8]
    ensures value { result.now ≡ drop place text.now }
{
    if text.len() < place {
        &[]
    } else {
        &text[place..]
    }
}

/// The moment of these seconds, if it lies in the years 1 to 9999.
fn in_years(seconds: i64) -> Option<Moment>
    ensures value { result ≡ in_years seconds }
{
    if FIRST_SECOND <= seconds && seconds <= LAST_SECOND {
        Some(Moment { seconds })
    } else {
        None
    }
}

impl Duplicate for Moment {
    fn copy(&self, _: Global) -> Result<Self, NoMemory> {
        Ok(*self)
    }
}
