//! Standing grants: arrangements that were granted for one session and hold for later ones too.
ghost use Rattle.std.specs.Prelude.{◌≡◌, ◌&&◌};
ghost use Rattle.std.specs.Ordering.{is_lt};
ghost use Rattle.exam_rules.specs.Relations.{relations_of};
ghost use Rattle.exam_rules.specs.Sessions as spec;

use crate::appeals::{appeals_of, is_granted};
use crate::facts::Facts;
use crate::rows::{Appeal, Arrangement, Subject};
use exam_types::{Number, Reference, SessionCode, SessionDay};

/// What a standing grant gives: an arrangement, for sessions from its own date on.
#[derive(Clone, Copy)]
pub struct StandingGrant {
    pub day: SessionDay,
    pub session: SessionCode,
    pub arrangement: Arrangement,
}

/// The date of the session, if there is one.
fn session_day(facts: &Facts, session: &SessionCode) -> Option<SessionDay>
    ensures { result ≡ spec.session_day (relations_of facts.now) session.now }
{
    Some(facts.sessions.get(session)?.day)
}

/// Whether the appeal is granted and bears the mark.
pub fn is_standing(facts: &Facts, key: &(Number, Reference), appeal: &Appeal) -> bool
    ensures { result
        ≡ (spec.is_granted appeal.now.status && spec.is_marked (relations_of facts.now) key.now) }
{
    is_granted(&appeal.status) && facts.standing.contains_key(key)
}

/// The arrangement that the appeal asks for, with its session and the session's date.
fn standing_grant(facts: &Facts, appeal: &Appeal) -> Option<StandingGrant>
    ensures { result ≡ spec.standing_grant (relations_of facts.now) appeal.now }
{
    let Subject::Arrangement(arrangement) = appeal.subject else {
        return None;
    };
    let day = session_day(facts, &appeal.session)?;
    Some(StandingGrant {
        day,
        session: appeal.session,
        arrangement,
    })
}

/// Whether the second is of a later date, or of the same date and a greater session code.
fn is_later(last: &StandingGrant, grant: &StandingGrant) -> bool
    ensures { result ≡ is_lt (spec.standing_cmp last.now grant.now) }
{
    last.day < grant.day || (last.day == grant.day && last.session < grant.session)
}

/// The later of the two.
fn later_of(last: Option<StandingGrant>, grant: StandingGrant) -> Option<StandingGrant>
    ensures { result ≡ spec.later_of last grant }
{
    match last {
        Some(other) if !is_later(&other, &grant) => Some(other),
        _ => Some(grant),
    }
}

/// The last of the candidate's standing grants, by date and then by session code, whose date is not later than the day.
fn last_until(facts: &Facts, number: Number, day: SessionDay) -> Option<StandingGrant>
    ensures { result ≡ spec.last_until day (spec.standing_grants (relations_of facts.now) number) }
{
    let mut last = None;
    for (key, appeal) in appeals_of(facts, number) {
        if is_standing(facts, key, appeal) {
            if let Some(grant) = standing_grant(facts, appeal) {
                if grant.day <= day {
                    last = later_of(last, grant);
                }
            }
        }
    }
    last
}

/// The arrangement that the candidate's standing grants give in the session.
pub fn standing_arrangement(
    facts: &Facts,
    session: &SessionCode,
    number: Number,
) -> Option<Arrangement>
    ensures { result ≡ spec.standing_arrangement (spec.session_day (relations_of facts.now) session.now)
        (spec.standing_grants (relations_of facts.now) number) }
{
    let day = session_day(facts, session)?;
    let grant = last_until(facts, number, day)?;
    Some(grant.arrangement)
}
