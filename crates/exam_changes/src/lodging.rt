//! Lodging an appeal.
ghost use Rattle.std.specs.Prelude.{◌≡◌, ◌⊎◌, ◌==◌, length, not, [], ◌∷◌, ◌++◌, None, Some, IfOk, IfErr, OnOk, OnErr};
ghost use Rattle.std.specs.Result.{result_err};
ghost use Rattle.exam_types.specs.declared.refusal.Refusal.TheVariants.{NoMemory};
ghost use Rattle.exam_types.specs.Refusals.{OnlyMemory};
ghost use Rattle.exam_rules.specs.Relations.{relations_of};
ghost use Rattle.exam_rules.specs.Sessions as sessions;
ghost use Rattle.exam_commands.specs.Appeals.{appeal_at};
ghost use Rattle.exam_commands.specs.Changes.{first_refusal};
ghost use Rattle.exam_commands.specs.Lodgings as spec;
ghost use Rattle.exam_changes.specs.Undoing as undoing;

use crate::rows::put;
use crate::undo::Undo;
use crate::unknown::check_candidate;
use exam_commands::{Lodging, has_open_appeal, is_same_subject, notice_days};
use exam_rules::{
    Appeal, Arrangement, Facts, Seats, Session, Status, Subject, arrangement_in_force, entries_of,
    is_clash, is_live_paper, is_member, is_paper_of, sitting_by_entries,
};
use exam_types::{Day, HallCode, Number, PaperCode, Refusal, SessionCode};

/// Stores the appeal, open and lodged on the day, unless an equal one is stored under its reference. Returns how to
/// take this back. Refused, in this order, for an unknown candidate; for a reference that the candidate used for
/// another appeal; if the candidate is no member of the session; after the last day to lodge; for a hall in which they
/// do not sit, or for no clash, no live entry, or nothing to change; if there is already an open appeal of the kind;
/// and if there is not enough memory. After a refusal the facts are as before. Tests no limit.
pub fn lodge(
    facts: &mut Facts,
    seats: &Seats,
    today: Day,
    lodging: &Lodging,
) -> Result<Undo, Refusal>
    ensures ok { OnOk result (relations_of facts.new
        ≡ spec.with_lodging (relations_of facts.old) today lodging.now) }
    ensures back { IfOk result (λ undo.
        undoing.TakesBack undo (relations_of facts.new) (relations_of facts.old)) }
    ensures checked { OnOk result
        (spec.lodging_refusal_but_limits (relations_of facts.old) seats.now.entries today lodging.now ≡ None) }
    ensures refusal { IfErr result (λ e. (e ≡ NoMemory)
        ⊎ (spec.lodging_refusal_but_limits (relations_of facts.old) seats.now.entries today lodging.now ≡ Some e)) }
    ensures same { OnErr result (relations_of facts.new ≡ relations_of facts.old) }
{
    check_lodging(facts, seats, today, lodging)?;
    if facts
        .appeals
        .contains_key(&(lodging.number, lodging.reference))
    {
        return Ok(Undo::Nothing);
    }
    store(facts, today, lodging)
}

/// Stores the appeal under its reference, which must be unused.
fn store(facts: &mut Facts, today: Day, lodging: &Lodging) -> Result<Undo, Refusal>
    requires { appeal_at (relations_of facts.old) lodging.now.number lodging.now.reference ≡ None }
    ensures ok { OnOk result (relations_of facts.new
        ≡ spec.with_appeal (relations_of facts.old) today lodging.now) }
    ensures back { IfOk result (λ undo.
        undoing.TakesBack undo (relations_of facts.new) (relations_of facts.old)) }
    ensures memory { OnlyMemory result }
    ensures same { OnErr result (relations_of facts.new ≡ relations_of facts.old) }
{
    let appeal = Appeal {
        session: lodging.session,
        subject: lodging.subject,
        reason: lodging.reason.copy()?,
        status: Status::Pending,
        lodged: today,
    };
    put(
        &mut facts.appeals,
        (lodging.number, lodging.reference),
        appeal,
    )?;
    Ok(Undo::NewAppeal((lodging.number, lodging.reference)))
}

fn check_lodging(facts: &Facts, seats: &Seats, today: Day, lodging: &Lodging) -> Result<(), Refusal>
    ensures { result_err result
        ≡ spec.lodging_refusal_but_limits (relations_of facts.now) seats.now.entries today lodging.now }
{
    check_candidate(facts, &lodging.number)?;
    match facts.appeals.get(&(lodging.number, lodging.reference)) {
        Some(appeal) => check_same(lodging, appeal),
        None => check_new(facts, seats, today, lodging),
    }
}

/// Refuses a reference under which another appeal is stored.
fn check_same(lodging: &Lodging, appeal: &Appeal) -> Result<(), Refusal>
    ensures { result_err result ≡ first_refusal (spec.other_appeal lodging.now appeal.now ∷ []) }
{
    if lodging.session == appeal.session
        && is_same_subject(&lodging.subject, &appeal.subject)
        && lodging.reason == appeal.reason
    {
        Ok(())
    } else {
        Err(Refusal::RefTaken)
    }
}

fn check_new(facts: &Facts, seats: &Seats, today: Day, lodging: &Lodging) -> Result<(), Refusal>
    ensures { result_err result ≡ first_refusal
        (spec.lodging_checks (relations_of facts.now) seats.now.entries today lodging.now None) }
{
    if !is_member(facts, &lodging.session, lodging.number) {
        return Err(Refusal::NotInSession);
    }
    check_closing(facts, &lodging.session, &lodging.subject, today)?;
    check_asked(facts, seats, lodging)
}

/// Refused by the kind of the appeal, and then if there is already an open appeal of the kind.
#[tactic(auto, using(exam_commands::proofs::LodgingChecks::first_passed))]
fn check_asked(facts: &Facts, seats: &Seats, lodging: &Lodging) -> Result<(), Refusal>
    ensures { result_err result ≡ first_refusal (spec.subject_checks (relations_of facts.now)
        seats.now.entries lodging.now.session lodging.now.number lodging.now.subject
        ++ spec.appeal_is_open (relations_of facts.now) lodging.now ∷ []) }
{
    check_subject(facts, seats, lodging)?;
    check_open(facts, lodging)
}

/// Refused if there is already an open appeal of the kind.
fn check_open(facts: &Facts, lodging: &Lodging) -> Result<(), Refusal>
    ensures { result_err result
        ≡ first_refusal (spec.appeal_is_open (relations_of facts.now) lodging.now ∷ []) }
{
    if has_open_appeal(facts, lodging.number, &lodging.session, &lodging.subject) {
        return Err(Refusal::AppealStands);
    }
    Ok(())
}

fn check_closing(
    facts: &Facts,
    session: &SessionCode,
    subject: &Subject,
    today: Day,
) -> Result<(), Refusal>
    ensures { result_err result ≡ first_refusal
        (spec.past_closing (relations_of facts.now) session.now subject.now today ∷ []) }
{
    let Some(row) = facts.sessions.get(session) else {
        return Err(Refusal::NotInSession);
    };
    let day = last_day(row, subject);
    if day < today {
        return Err(Refusal::PastClosing(day));
    }
    Ok(())
}

/// The last day to lodge an appeal on this subject. It always exists, because a session is at least ten days after the
/// first day.
fn last_day(session: &Session, subject: &Subject) -> Day
    ensures { result ≡ spec.last_day session.now subject.now }
{
    session.day.day().minus(notice_days(subject)).unwrap()
}

/// Refused by the kind of the appeal.
fn check_subject(facts: &Facts, seats: &Seats, lodging: &Lodging) -> Result<(), Refusal>
    ensures { result_err result ≡ first_refusal (spec.subject_checks (relations_of facts.now)
        seats.now.entries lodging.now.session lodging.now.number lodging.now.subject) }
{
    match &lodging.subject {
        Subject::Hall(hall) => check_own_hall(seats, &lodging.session, lodging.number, hall),
        Subject::Clash(paper) => check_clash(facts, &lodging.session, lodging.number, paper),
        Subject::Arrangement(arrangement) => {
            check_arrangement(facts, &lodging.session, lodging.number, arrangement)
        }
    }
}

/// Refused if the candidate does not sit in the hall.
fn check_own_hall(
    seats: &Seats,
    session: &SessionCode,
    number: Number,
    hall: &HallCode,
) -> Result<(), Refusal>
    ensures { result_err result
        ≡ first_refusal (spec.not_seated_there seats.now.entries session.now number hall.now ∷ []) }
{
    match seats.get(&(*session, number)) {
        Some(own) if *hall == *own => Ok(()),
        _ => Err(Refusal::NotSeatedThere),
    }
}

/// Refused if the candidate has no clash in the session, if the paper is no live one of theirs in it, or if they
/// already sit it.
fn check_clash(
    facts: &Facts,
    session: &SessionCode,
    number: Number,
    paper: &PaperCode,
) -> Result<(), Refusal>
    ensures { result_err result
        ≡ first_refusal (spec.clash_checks (relations_of facts.now) session.now number paper.now) }
{
    if !has_clash(facts, session, number) {
        return Err(Refusal::NoClash);
    }
    if !is_live_paper(facts, session, number, paper) {
        return Err(Refusal::NoEntry);
    }
    match sitting_by_entries(facts, session, number) {
        Some(sat) if *paper == sat => Err(Refusal::NothingToChange),
        _ => Ok(()),
    }
}

/// Refused if the arrangement is the one in force.
fn check_arrangement(
    facts: &Facts,
    session: &SessionCode,
    number: Number,
    arrangement: &Arrangement,
) -> Result<(), Refusal>
    ensures { result_err result ≡ first_refusal
        (spec.in_force (relations_of facts.now) session.now number arrangement.now ∷ []) }
{
    if *arrangement == arrangement_in_force(facts, session, number) {
        return Err(Refusal::NothingToChange);
    }
    Ok(())
}

/// Whether the candidate has a clash in the session: a live paper that they do not sit.
fn has_clash(facts: &Facts, session: &SessionCode, number: Number) -> bool
    ensures { result ≡ not (length (sessions.clash_papers (relations_of facts.now) session.now number) == 0) }
{
    let sat = sitting_by_entries(facts, session, number);
    for (key, entry) in entries_of(facts, number) {
        if entry.live && is_paper_of(facts, session, &key.1) && is_clash(&sat, &key.1) {
            return true;
        }
    }
    false
}
