//! A day from 2000-01-01 to 2199-12-31.
ghost use Rattle.std.specs.Prelude.{◌≡◌, ◌<◌, ◌↔◌, ◌+◌, ◌-◌, ◌++◌, ℕ, nat_le, length, pos, neg_ℤ, Some, None};
ghost use Rattle.std.specs.Prelude.{IsSome, IfSome, OnOk, OnErr, if◌then◌else◌};
ghost use Rattle.jiff.specs.Types.{Day as SpanDay};
ghost use Rattle.jiff.specs.Words.{IsDate, IsOnly, IsYmd, epoch_day};
ghost use Rattle.arrayvec.specs.ArrayVec.{array_vec_len};
ghost use Rattle.exam_types.specs.Days as spec;
ghost use Rattle.exam_types.specs.Days.{IsDay};
ghost use Rattle.exam_types.specs.Refusals.{OnlyMemory};

use crate::digits::{ShortText, number_of, push_digits};
use crate::refusal::Refusal;
use jiff::civil::Date;
use jiff::{Span, ToSpan};
use jiff_core::civil::Date as PlainDate;
use std::marker::Model;
use std::{fmt, str};

/// The number of 2000-01-01, where 1970-01-01 is 0.
const FIRST_DAY: u32 = 10_957;

/// The number of 2199-12-31.
const LAST_DAY: u32 = 84_005;

/// The days from -9999-01-01, from which `jiff_core` counts, to 1970-01-01.
const EPOCH: u32 = 4_371_587;

/// A day from 2000-01-01 to 2199-12-31. Contracts see its number, where 1970-01-01 is 0.
#[derive(Clone, Copy, Debug, PartialEq, Eq, PartialOrd, Ord)]
pub struct Day {
    value: u32,
}

impl Model for Day {
    ghost use Rattle.std.specs.Prelude.{ℕ};
    ghost use Rattle.exam_types.specs.Days.{IsDay};

    ghost Value = { ℕ };

    ghost view = { λ a. a.value };

    ghost invariant = { λ a. IsDay a.value };

    ghost inverse = { λ n. record { value = n } };
}

impl Day {
    /// The day that the text `YYYY-MM-DD` names, or none if no day has this text.
    pub fn parse(bytes: &[u8]) -> Option<Day>
        ensures exact { (n : ℕ) → (result ≡ Some n) ↔ (IsDay n × (spec.day_text n ≡ bytes.now)) }
        ensures value { result ≡ spec.day_of bytes.now }
    {
        let (year, month, day) = parts_of(bytes)?;
        Day::from_date(date_of(year, month, day)?)
    }

    /// Appends the text `YYYY-MM-DD`. Refused if there is not enough memory; the vector then stays as it was.
    pub fn write_to(&self, out: &mut Vec<u8>) -> Result<(), Refusal>
        ensures form { IsDay self.now }
        ensures ok { OnOk result (out.new.items ≡ out.old.items ++ spec.day_text self.now) }
        ensures err { OnErr result (out.new.items ≡ out.old.items) }
        ensures memory { OnlyMemory result }
    {
        let text = self.text();
        out.extend_from_slice(&text)?;
        Ok(())
    }

    /// The day so many days earlier, or none if that is before 2000-01-01.
    pub fn minus(self, days: u16) -> Option<Day>
        ensures { result ≡ (if nat_le (spec.first_day + days) self then Some (self - days) else None) }
    {
        Day::from_date(self.date().checked_add(days_back(days)).ok()?)
    }

    /// The days since 1970-01-01.
    pub fn number(self) -> u32
        ensures value { result ≡ self }
        ensures range { IsDay result }
    {
        self.value
    }

    fn date(self) -> Date
        ensures number { epoch_day result ≡ pos self }
        ensures range { IsDay self }
    {
        Date::from_plain(PlainDate::from_days_since_min(self.number() + EPOCH))
    }

    fn from_date(date: Date) -> Option<Day>
        ensures { (n : ℕ) → (result ≡ Some n) ↔ (IsDay n × (epoch_day date ≡ pos n)) }
    {
        let number = date.to_plain().to_unix_epoch_day();
        if number < FIRST_DAY as i32 || number > LAST_DAY as i32 {
            return None;
        }
        Some(Day {
            value: number as u32,
        })
    }

    /// The text `YYYY-MM-DD`. Takes no memory.
    pub fn text(self) -> ShortText
        ensures text { result.items ≡ spec.day_text self }
        ensures range { IsDay self }
    {
        let date = self.date();
        let mut text = ShortText::new();
        push_digits(&mut text, 4, u32::from(date.year().unsigned_abs()));
        text.push(b'-');
        push_digits(&mut text, 2, u32::from(date.month().unsigned_abs()));
        text.push(b'-');
        push_digits(&mut text, 2, u32::from(date.day().unsigned_abs()));
        text
    }
}

impl fmt::Display for Day {
    ghost output = { λ day. Some (spec.day_text day) };

    fn fmt<W: fmt::Write>(&self, f: &mut fmt::Formatter<W>) -> fmt::Result {
        f.write_str(str::from_utf8(&self.text()).map_err(|_| fmt::Error)?)
    }
}

/// The year, the month and the day that a text of the form `YYYY-MM-DD` spells, or none if the text has another form.
fn parts_of(bytes: &[u8]) -> Option<(u32, u32, u32)>
    ensures { (y m d : ℕ) → (result ≡ Some (y, m, d))
        ↔ ((y < 10000) × (m < 100) × (d < 100) × (spec.date_text y m d ≡ bytes.now)) }
{
    if bytes.len() != 10 || bytes[4] != b'-' || bytes[7] != b'-' {
        return None;
    }
    let year = number_of(&bytes[..4])?;
    let month = number_of(&bytes[5..7])?;
    let day = number_of(&bytes[8..])?;
    Some((year, month, day))
}

/// A span that goes back by so many days.
fn days_back(days: u16) -> Span
    ensures { IsOnly SpanDay (neg_ℤ (pos days)) result }
{
    let count = -i64::from(days);
    count.days()
}

/// The date, or none if the calendar does not have it.
fn date_of(year: u32, month: u32, day: u32) -> Option<Date>
    requires year { year < 10000 }
    requires month { month < 100 }
    requires day { day < 100 }
    ensures is_date { IsSome result ↔ IsDate (pos year) (pos month) (pos day) }
    ensures value { IfSome result (IsYmd (pos year) (pos month) (pos day)) }
{
    Date::new(year as i16, month as i8, day as i8).ok()
}
