//! The day of a session, from 2000-01-11 on.
ghost use Rattle.std.specs.Prelude.{◌≡◌, ◌↔◌, ◌++◌, ℕ, nat_le, Some, None, OnOk, OnErr, if◌then◌else◌};
ghost use Rattle.exam_types.specs.Days as spec;
ghost use Rattle.exam_types.specs.Days.{IsDay, IsSessionDay};
ghost use Rattle.exam_types.specs.Refusals.{OnlyMemory};

use crate::day::Day;
use crate::refusal::Refusal;
use std::marker::Model;

/// The number of 2000-01-11, where 1970-01-01 is 0.
const FIRST_SESSION_DAY: u32 = 10_967;

/// A day from 2000-01-11 to 2199-12-31, so the day ten days earlier is a [`Day`] as well. Contracts see its number,
/// where 1970-01-01 is 0.
#[derive(Clone, Copy, Debug, PartialEq, Eq, PartialOrd, Ord)]
pub struct SessionDay {
    day: Day,
}

impl Model for SessionDay {
    ghost use Rattle.std.specs.Prelude.{ℕ};
    ghost use Rattle.exam_types.specs.Days.{IsSessionDay};

    ghost Value = { ℕ };

    ghost view = { λ a. a.day };

    ghost invariant = { λ a. IsSessionDay a.day };

    ghost inverse = { λ n. record { day = n } };
}

impl SessionDay {
    /// The day as a session's day, or none before 2000-01-11.
    pub fn new(day: Day) -> Option<SessionDay>
        ensures { result ≡ (if nat_le spec.first_session_day day then Some day else None) }
    {
        if day.number() < FIRST_SESSION_DAY {
            return None;
        }
        Some(SessionDay { day })
    }

    /// The day that the text `YYYY-MM-DD` names, or none if no session can be on a day with this text.
    pub fn parse(bytes: &[u8]) -> Option<SessionDay>
        ensures exact { (n : ℕ) → (result ≡ Some n) ↔ (IsSessionDay n × (spec.day_text n ≡ bytes.now)) }
        ensures value { result ≡ spec.session_day_in bytes.now }
    {
        SessionDay::new(Day::parse(bytes)?)
    }

    /// Appends the text `YYYY-MM-DD`. Refused if there is not enough memory; the vector then stays as it was.
    pub fn write_to(&self, out: &mut Vec<u8>) -> Result<(), Refusal>
        ensures form { IsSessionDay self.now }
        ensures ok { OnOk result (out.new.items ≡ out.old.items ++ spec.day_text self.now) }
        ensures err { OnErr result (out.new.items ≡ out.old.items) }
        ensures memory { OnlyMemory result }
    {
        self.day.write_to(out)
    }

    /// The day.
    pub fn day(self) -> Day
        ensures value { result ≡ self }
        ensures range { IsSessionDay result }
    {
        self.day
    }
}
