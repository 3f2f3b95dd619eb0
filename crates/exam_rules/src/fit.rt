//! When a member ends, and which halls fit.
ghost use Rattle.std.specs.Prelude.{◌≡◌, ◌<◌, ◌≤◌, ◌&&◌, ℕ, None, not, length, map, if◌then◌else◌, IsTrue, IfOk};
ghost use Rattle.std.specs.List.{list_any};
ghost use Rattle.std.specs.Option.{option_map, option_and_then};
ghost use Rattle.exam_types.specs.Refusals.{OnlyMemory};
ghost use Rattle.exam_plan.specs.HallSets.{most_halls, holds, halls_below};
ghost use Rattle.exam_rules.specs.Relations.{relations_of, code_cmp, row_at, same_code};
ghost use Rattle.exam_rules.specs.Sessions as spec;
ghost use Rattle.exam_rules.specs.Seatings as seatings;

use crate::appeals::{barred_halls, is_barred};
use crate::facts::Facts;
use crate::rows::{Arrangement, Hall, Opening, Paper, Session};
use crate::sessions::{arrangement_in_force, is_member, sitting_by_entries};
use exam_plan::HallSet;
use exam_types::{
    ClosingTime, Features, HallCode, Minute, Number, PaperCode, Refusal, SessionCode,
};
use std::alloc::Global;

/// How a member sits.
#[derive(Clone, Copy)]
pub struct Terms {
    end: Minute,
    needs: Features,
    required: Features,
    /// Whether they have needs or extra time.
    special: bool,
}

/// A hall as it is opened for a session.
#[derive(Clone, Copy)]
pub struct Room {
    features: Features,
    until: ClosingTime,
    reserved: bool,
}

/// When a member ends who sits the paper under the arrangement, in minutes from the start of the day. A part of a
/// minute counts as a whole one.
fn end_of(session: &Session, paper: &Paper, arrangement: &Arrangement) -> u16
    ensures value { result ≡ spec.end_of session.now paper.now arrangement.now }
    ensures bound { result ≤ 2639 }
{
    let hundredths = u32::from(paper.minutes.get()) * (100 + u32::from(arrangement.extra.get()));
    session.start.get() + hundredths.div_ceil(100) as u16
}

fn is_special(arrangement: &Arrangement) -> bool
    ensures { result ≡ seatings.is_special arrangement.now }
{
    !Features::none().holds(arrangement.needs) || arrangement.extra.get() > 0
}

/// What `end_of` returns, as a `Minute`.
fn end_minute(session: &Session, paper: &Paper, arrangement: &Arrangement) -> Minute
    ensures { result ≡ spec.end_of session.now paper.now arrangement.now }
{
    Minute::new(end_of(session, paper, arrangement)).unwrap()
}

fn terms_of(session: &Session, paper: &Paper, arrangement: &Arrangement) -> Terms
    ensures { result ≡ seatings.terms_of session.now paper.now arrangement.now }
{
    Terms {
        end: end_minute(session, paper, arrangement),
        needs: arrangement.needs,
        required: paper.required,
        special: is_special(arrangement),
    }
}

/// The row of the paper that is sat, or none if none is.
fn sitting_row(facts: &Facts, sat: Option<PaperCode>) -> Option<&Paper>
    ensures { option_map (λ paper. paper.now) result
        ≡ option_and_then (row_at code_cmp facts.now.papers.entries) sat }
{
    match sat {
        Some(paper) => facts.papers.get(&paper),
        None => None,
    }
}

/// How the member sits in the session if this is their sitting paper.
fn sitting_terms(
    facts: &Facts,
    session: &SessionCode,
    number: Number,
    sat: Option<PaperCode>,
) -> Option<Terms>
    requires { sat ≡ spec.sitting (relations_of facts.now) session.now number }
    ensures { result ≡ seatings.sitting_terms (relations_of facts.now) session.now number }
{
    let Some(row) = facts.sessions.get(session) else {
        return None;
    };
    let Some(paper) = sitting_row(facts, sat) else {
        return None;
    };
    let arrangement = arrangement_in_force(facts, session, number);
    Some(terms_of(row, paper, &arrangement))
}

fn room_of(hall: &Hall, opening: &Opening) -> Room
    ensures { result ≡ seatings.room_of hall.now opening.now }
{
    Room {
        features: hall.features,
        until: opening.until,
        reserved: opening.reserved,
    }
}

/// The hall as it is opened for the session.
pub fn opened_room(facts: &Facts, session: &SessionCode, hall: &HallCode) -> Option<Room>
    ensures { result ≡ seatings.opened_room (relations_of facts.now) session.now hall.now }
{
    let Some(row) = facts.halls.get(hall) else {
        return None;
    };
    let Some(opening) = facts.openings.get(&(*session, *hall)) else {
        return None;
    };
    Some(room_of(row, opening))
}

fn suits(terms: &Terms, room: &Room) -> bool
    ensures { result ≡ seatings.suits terms.now room.now }
{
    room.features.holds(terms.needs)
        && room.features.holds(terms.required)
        && terms.end.get() <= room.until.get()
        && (!room.reserved || terms.special)
}

fn suits_opened(terms: &Option<Terms>, room: &Option<Room>) -> bool
    ensures { result ≡ seatings.suits_opened terms.now room.now }
{
    match (terms, room) {
        (Some(terms), Some(room)) => suits(terms, room),
        _ => false,
    }
}

/// When the member ends; it may be past midnight. None for a number that is no member's.
pub fn finish(facts: &Facts, session: &SessionCode, number: Number) -> Option<Minute>
    ensures { result ≡ (if spec.is_member (relations_of facts.now) session.now number
        then spec.finish (relations_of facts.now) session.now number else None) }
{
    if is_member(facts, session, number) {
        finish_by_entries(facts, session, number)
    } else {
        None
    }
}

/// When a candidate ends. Does not look whether the number is a candidate's: it is for callers who know that, and goes
/// by entries and appeals alone.
pub fn finish_by_entries(facts: &Facts, session: &SessionCode, number: Number) -> Option<Minute>
    ensures { result ≡ spec.finish (relations_of facts.now) session.now number }
{
    let Some(row) = facts.sessions.get(session) else {
        return None;
    };
    let arrangement = arrangement_in_force(facts, session, number);
    let sat = sitting_by_entries(facts, session, number);
    finish_beside(facts, row, sat, &arrangement)
}

/// When a member ends who sits this paper under this arrangement in a session with this row; none if no paper is sat,
/// or there is no such paper.
pub fn finish_beside(
    facts: &Facts,
    row: &Session,
    sat: Option<PaperCode>,
    arrangement: &Arrangement,
) -> Option<Minute>
    ensures { result ≡ option_map (λ paper. spec.end_of row.now paper arrangement.now)
        (option_and_then (row_at code_cmp facts.now.papers.entries) sat) }
{
    let paper = sitting_row(facts, sat)?;
    Some(end_minute(row, paper, arrangement))
}

/// Whether the hall is opened for the session and fits the member. No hall fits a number that is no member's.
pub fn fits(facts: &Facts, session: &SessionCode, number: Number, hall: &HallCode) -> bool
    ensures { result ≡ (spec.is_member (relations_of facts.now) session.now number
        && seatings.fits (relations_of facts.now) session.now number hall.now) }
{
    let sat = sitting_by_entries(facts, session, number);
    is_member(facts, session, number)
        && suits_opened(
            &sitting_terms(facts, session, number, sat),
            &opened_room(facts, session, hall),
        )
        && !is_barred(facts, session, number, hall)
}

/// The places of the halls that suit the member and that no appeal bars.
fn suiting_places(
    terms: &Option<Terms>,
    barred: &[HallCode],
    halls: &[(HallCode, Option<Room>)],
) -> HallSet
    requires { length halls.now ≤ most_halls }
    ensures places { halls_below (length halls.now) result
        ≡ seatings.positions (seatings.is_suiting terms.now barred.now) 0 halls.now }
    ensures exist { (h : ℕ) → IsTrue (holds result h) → h < length halls.now }
{
    let mut places = HallSet::empty();
    for (place, hall) in halls.iter().enumerate() {
        if is_suiting(terms, barred, hall) {
            places = places.with(place);
        }
    }
    places
}

fn is_suiting(terms: &Option<Terms>, barred: &[HallCode], hall: &(HallCode, Option<Room>)) -> bool
    ensures { result ≡ seatings.is_suiting terms.now barred.now hall.now }
{
    suits_opened(terms, &hall.1) && !is_listed(barred, &hall.0)
}

fn is_listed(codes: &[HallCode], hall: &HallCode) -> bool
    ensures { result ≡ list_any (same_code hall.now) codes.now }
{
    codes.iter().any(|code| *hall == *code)
}

/// The places of the halls that fit the candidate, who sits this paper, among the halls with their rooms.
pub fn fitting_places(
    alloc: Global,
    facts: &Facts,
    session: &SessionCode,
    number: Number,
    sat: Option<PaperCode>,
    halls: &[(HallCode, Option<Room>)],
) -> Result<HallSet, Refusal>
    requires sat { sat ≡ spec.sitting (relations_of facts.now) session.now number }
    requires halls { halls.now
        ≡ seatings.with_rooms (relations_of facts.now) session.now (map (λ hall. hall.0) halls.now) }
    requires few { length halls.now ≤ most_halls }
    ensures ok { IfOk result (λ places. halls_below (length halls.now) places
        ≡ seatings.fitting_places (relations_of facts.now) session.now number
        (map (λ hall. hall.0) halls.now)) }
    ensures exist { IfOk result (λ places. (h : ℕ) → IsTrue (holds places h) → h < length halls.now) }
    ensures memory { OnlyMemory result }
{
    // A candidate who sits no paper is no member.
    if sat.is_none() {
        return Ok(HallSet::empty());
    }
    let terms = sitting_terms(facts, session, number, sat);
    let barred = barred_halls(alloc, facts, session, number)?;
    Ok(suiting_places(&terms, &barred, halls))
}
