//! Deciding an appeal.
ghost use Rattle.std.specs.Prelude.{◌≡◌, ◌⊎◌, ◌∷◌, [], None, Some, IsTrue, IfOk, IfErr, OnOk, OnErr};
ghost use Rattle.std.specs.Option.{option_and_then};
ghost use Rattle.std.specs.Result.{result_err};
ghost use Rattle.exam_types.specs.declared.refusal.Refusal.TheVariants.{NoMemory};
ghost use Rattle.exam_types.specs.Refusals.{OnlyMemory};
ghost use Rattle.exam_rules.specs.Relations.{Relations, appeal_cmp, put_row, relations_of};
ghost use Rattle.exam_rules.specs.declared.rows.Subject.TheVariants as subjects;
ghost use Rattle.exam_commands.specs.Appeals as appeals;
ghost use Rattle.exam_commands.specs.Changes.{first_refusal};
ghost use Rattle.exam_commands.specs.Decisions as spec;
ghost use Rattle.exam_commands.specs.Good.{marks_were_granted};
ghost use Rattle.exam_commands.specs.NextPlans as next;
ghost use Rattle.exam_commands.specs.Singles.{AreSingle};
ghost use Rattle.exam_changes.specs.Undoing as undoing;

use crate::kept::{KeptRows, put_kept};
use crate::moves::moved;
use crate::undo::Undo;
use exam_commands::granting::{bears_mark, earlier_grant, is_grant};
use exam_commands::{Command, Decision, Outcome, Reply, is_open, stored_state};
use exam_rules::{Appeal, Facts, Seats, Status, Subject, is_live_paper, is_member};
use exam_types::{Day, Number, PaperCode, Reason, Reference, Refusal, SessionCode};
use std::alloc::Global;

/// Decides the appeal; a grant of a clash or an arrangement supersedes the candidate's earlier grant of its kind for
/// the session. Returns how to take this back; nothing changes if the decision is already made. Refused, in this order,
/// for an unknown appeal; for one that is not open; from the session's day on; for a standing grant of anything but an
/// arrangement; for a grant if the candidate is no longer a member or, of a clash, if the paper is no live one of
/// theirs in the session; and if there is not enough memory. After a refusal the facts are as before. It never passes a
/// limit.
pub fn decide(
    alloc: Global,
    facts: &mut Facts,
    decision: &Decision,
    today: Day,
) -> Result<Undo, Refusal>
    requires single { AreSingle (relations_of facts.old) }
    requires marks { IsTrue (marks_were_granted (relations_of facts.old)) }
    ensures ok { OnOk result (relations_of facts.new
        ≡ spec.with_decision (relations_of facts.old) decision.now) }
    ensures back { IfOk result (λ undo.
        undoing.TakesBack undo (relations_of facts.new) (relations_of facts.old)) }
    ensures checked { OnOk result
        (spec.decision_refusal (relations_of facts.old) today decision.now ≡ None) }
    ensures refusal { IfErr result (λ e. (e ≡ NoMemory)
        ⊎ (spec.decision_refusal (relations_of facts.old) today decision.now ≡ Some e)) }
    ensures same { OnErr result (relations_of facts.new ≡ relations_of facts.old) }
{
    let key = (decision.number, decision.reference);
    let Some(appeal) = facts.appeals.get(&key) else {
        return Err(Refusal::UnknownAppeal);
    };
    if is_made(facts, decision, appeal) {
        return Ok(Undo::Nothing);
    }
    check_appeal(facts, decision, today, appeal)?;
    let earlier = superseded_grant(facts, decision.number, appeal, decision.outcome)?;
    let decided = with_status(appeal, status_of(decision.outcome, &decision.answer)?)?;
    put_decided(
        alloc,
        facts,
        earlier,
        key,
        decided,
        bears_mark(decision.outcome),
    )
}

/// The earlier grant that the decision supersedes, superseded; none if it is no grant, or there is none.
fn superseded_grant(
    facts: &Facts,
    number: Number,
    appeal: &Appeal,
    outcome: Outcome,
) -> Result<Option<((Number, Reference), Appeal)>, Refusal>
    requires { AreSingle (relations_of facts.now) }
    ensures ok { IfOk result (λ earlier. undoing.with_earlier earlier facts.now.appeals.entries
        ≡ spec.with_superseded number appeal.now outcome facts.now.appeals.entries) }
    ensures memory { OnlyMemory result }
{
    facts.show_order();
    if !is_grant(outcome) {
        return Ok(None);
    }
    match earlier_grant(facts, number, appeal) {
        Some((key, earlier)) => {
            let status = superseded_status(&earlier.status)?;
            Ok(Some((*key, with_status(earlier, status)?)))
        }
        None => Ok(None),
    }
}

/// Puts the earlier grant, the appeal under the key and its mark, if the grant bears one, and returns how to take them
/// back. An open appeal bears no mark, so none goes. After a refusal the facts are as before.
fn put_decided(
    alloc: Global,
    facts: &mut Facts,
    earlier: Option<((Number, Reference), Appeal)>,
    key: (Number, Reference),
    appeal: Appeal,
    mark: bool,
) -> Result<Undo, Refusal>
    ensures ok { OnOk result (relations_of facts.new
        ≡ undoing.with_decided_rows earlier key appeal mark (relations_of facts.old)) }
    ensures back { IfOk result (λ undo.
        undoing.TakesBack undo (relations_of facts.new) (relations_of facts.old)) }
    ensures memory { OnlyMemory result }
    ensures same { OnErr result (relations_of facts.new ≡ relations_of facts.old) }
{
    let mut kept = KeptRows::none(alloc);
    match put_rows(facts, &mut kept, earlier, key, appeal, mark) {
        Ok(()) => Ok(Undo::Rows(kept)),
        Err(refusal) => {
            kept.take_back(facts);
            Err(refusal)
        }
    }
}

/// Puts these rows, and keeps what was there.
fn put_rows(
    facts: &mut Facts,
    kept: &mut KeptRows,
    earlier: Option<((Number, Reference), Appeal)>,
    key: (Number, Reference),
    appeal: Appeal,
    mark: bool,
) -> Result<(), Refusal>
    ensures ok { OnOk result (relations_of facts.new
        ≡ undoing.with_decided_rows earlier key appeal mark (relations_of facts.old)) }
    ensures back { (first : Relations) → undoing.RowsGoBack kept.old (relations_of facts.old) first
        → undoing.RowsGoBack kept.new (relations_of facts.new) first }
    ensures memory { OnlyMemory result }
{
    put_earlier(facts, kept, earlier)?;
    put_appeal(facts, kept, &key, appeal)?;
    put_mark(facts, kept, &key, mark)
}

/// Puts the appeal under the key, and keeps what was there.
fn put_appeal(
    facts: &mut Facts,
    kept: &mut KeptRows,
    key: &(Number, Reference),
    appeal: Appeal,
) -> Result<(), Refusal>
    ensures ok { OnOk result (relations_of facts.new ≡ record (relations_of facts.old) {
      appeals = put_row appeal_cmp (relations_of facts.old).appeals key.now appeal;
    }) }
    ensures back { (first : Relations) → undoing.RowsGoBack kept.old (relations_of facts.old) first
        → undoing.RowsGoBack kept.new (relations_of facts.new) first }
    ensures memory { OnlyMemory result }
{
    put_kept(&mut facts.appeals, &mut kept.appeals, *key, appeal)
}

/// Puts the earlier grant, if there is one, and keeps what was there.
fn put_earlier(
    facts: &mut Facts,
    kept: &mut KeptRows,
    earlier: Option<((Number, Reference), Appeal)>,
) -> Result<(), Refusal>
    ensures ok { OnOk result (relations_of facts.new ≡ record (relations_of facts.old) {
      appeals = undoing.with_earlier earlier (relations_of facts.old).appeals;
    }) }
    ensures back { (first : Relations) → undoing.RowsGoBack kept.old (relations_of facts.old) first
        → undoing.RowsGoBack kept.new (relations_of facts.new) first }
    ensures memory { OnlyMemory result }
{
    match earlier {
        Some((key, appeal)) => put_appeal(facts, kept, &key, appeal),
        None => Ok(()),
    }
}

/// Puts the mark of the appeal under the key, if the grant bears one, and keeps what was there.
fn put_mark(
    facts: &mut Facts,
    kept: &mut KeptRows,
    key: &(Number, Reference),
    mark: bool,
) -> Result<(), Refusal>
    ensures ok { OnOk result (relations_of facts.new ≡ record (relations_of facts.old) {
      standing = undoing.marks_with mark key.now (relations_of facts.old).standing;
    }) }
    ensures back { (first : Relations) → undoing.RowsGoBack kept.old (relations_of facts.old) first
        → undoing.RowsGoBack kept.new (relations_of facts.new) first }
    ensures memory { OnlyMemory result }
{
    if !mark {
        return Ok(());
    }
    put_kept(&mut facts.standing, &mut kept.standing, *key, ())
}

/// Whether the decision is made already.
fn is_made(facts: &Facts, decision: &Decision, appeal: &Appeal) -> bool
    ensures { result ≡ spec.is_made (relations_of facts.now) decision.now appeal.now }
{
    let marked = facts
        .standing
        .contains_key(&(decision.number, decision.reference));
    is_decided(decision.outcome, &decision.answer, marked, &appeal.status)
}

/// The session of the appeal that the command decides, from the facts before it. None if the decision is already made,
/// if there is no such appeal, and for other commands.
pub fn newly_decided(facts: &Facts, command: &Command) -> Option<SessionCode>
    ensures { result ≡ next.newly_decided (relations_of facts.now) command.now }
{
    match command {
        Command::Decide(decision) => decided_session(facts, decision),
        _ => None,
    }
}

fn decided_session(facts: &Facts, decision: &Decision) -> Option<SessionCode>
    ensures { result ≡ option_and_then (next.decided_session (relations_of facts.now) decision.now)
        (appeals.appeal_at (relations_of facts.now) decision.now.number decision.now.reference) }
{
    let appeal = facts.appeals.get(&(decision.number, decision.reference))?;
    if is_made(facts, decision, appeal) {
        None
    } else {
        Some(appeal.session)
    }
}

/// What the decision of an appeal for the session answers, from the facts after it and the plans before and
/// after.
pub fn decided_reply(
    facts: &Facts,
    before: &Seats,
    after: &Seats,
    decision: &Decision,
    session: SessionCode,
) -> Reply
    ensures { result ≡ next.decided_reply decision.now session (relations_of facts.now)
        before.now.entries after.now.entries }
{
    Reply::Decided {
        state: stored_state(facts, decision.number, decision.reference),
        seat: after.get(&(session, decision.number)).copied(),
        moved: moved(before, after, decision.number),
    }
}

/// Whether the appeal has this outcome with this answer; `marked` says whether it bears the mark of a standing grant.
/// A superseded grant does not count.
fn is_decided(outcome: Outcome, answer: &Reason, marked: bool, status: &Status) -> bool
    ensures { result ≡ appeals.is_decided outcome answer.now marked status.now }
{
    match outcome {
        Outcome::Grant => !marked && is_granted_so(answer, status),
        Outcome::Standing => marked && is_granted_so(answer, status),
        Outcome::Refuse => is_refused_so(answer, status),
    }
}

/// Whether the appeal was granted with this answer.
fn is_granted_so(answer: &Reason, status: &Status) -> bool
    ensures { result ≡ appeals.is_granted_so answer.now status.now }
{
    match status {
        Status::Granted(stored) => *answer == *stored,
        _ => false,
    }
}

/// Whether the appeal was refused with this answer.
fn is_refused_so(answer: &Reason, status: &Status) -> bool
    ensures { result ≡ appeals.is_refused_so answer.now status.now }
{
    match status {
        Status::Refused(stored) => *answer == *stored,
        _ => false,
    }
}

/// Checks an appeal that does not have this decision already.
fn check_appeal(
    facts: &Facts,
    decision: &Decision,
    today: Day,
    appeal: &Appeal,
) -> Result<(), Refusal>
    ensures { result_err result
        ≡ first_refusal (spec.open_checks (relations_of facts.now) today decision.now appeal.now) }
{
    if !is_open(&appeal.status) {
        return Err(Refusal::NotOpenAppeal);
    }
    if is_too_late(facts, &appeal.session, today) {
        return Err(Refusal::TooLate);
    }
    check_mark(decision.outcome, appeal)?;
    check_grant(facts, decision.number, appeal, decision.outcome)
}

/// Refuses a standing grant of anything but an arrangement.
fn check_mark(outcome: Outcome, appeal: &Appeal) -> Result<(), Refusal>
    ensures { result_err result ≡ first_refusal (spec.not_arrangement appeal.now outcome ∷ []) }
{
    match (outcome, appeal.subject) {
        (Outcome::Standing, Subject::Hall(_) | Subject::Clash(_)) => Err(Refusal::NotArrangement),
        _ => Ok(()),
    }
}

/// Whether the day is the session's date or a later one.
fn is_too_late(facts: &Facts, session: &SessionCode, today: Day) -> bool
    ensures { result ≡ spec.is_too_late (relations_of facts.now) session.now today }
{
    match facts.sessions.get(session) {
        Some(row) => row.day.day() <= today,
        None => true,
    }
}

/// Checks that the candidate of a grant is still a member, and that the paper of a clash is still a live one.
fn check_grant(
    facts: &Facts,
    number: Number,
    appeal: &Appeal,
    outcome: Outcome,
) -> Result<(), Refusal>
    ensures { result_err result ≡ first_refusal
        (spec.grant_checks (relations_of facts.now) number appeal.now outcome) }
{
    if !is_grant(outcome) {
        return Ok(());
    }
    if !is_member(facts, &appeal.session, number) {
        return Err(Refusal::NotInSession);
    }
    match appeal.subject {
        Subject::Clash(paper) => check_paper(facts, &appeal.session, number, paper),
        Subject::Hall(_) | Subject::Arrangement(_) => Ok(()),
    }
}

/// Refused with `NoEntry` if the candidate has no live entry for the paper, or the paper is not of the session.
fn check_paper(
    facts: &Facts,
    session: &SessionCode,
    number: Number,
    paper: PaperCode,
) -> Result<(), Refusal>
    ensures { result_err result ≡ first_refusal
        (spec.paper_checks (relations_of facts.now) session.now number (subjects.Clash paper)) }
{
    if is_live_paper(facts, session, number, &paper) {
        Ok(())
    } else {
        Err(Refusal::NoEntry)
    }
}

fn status_of(outcome: Outcome, answer: &Reason) -> Result<Status, Refusal>
    ensures ok { IfOk result (λ status. status ≡ appeals.decided outcome answer.now) }
    ensures memory { OnlyMemory result }
{
    if is_grant(outcome) {
        Ok(Status::Granted(answer.copy()?))
    } else {
        Ok(Status::Refused(answer.copy()?))
    }
}

/// A copy of the appeal with this status.
pub fn with_status(appeal: &Appeal, status: Status) -> Result<Appeal, Refusal>
    ensures ok { IfOk result (λ changed. changed ≡ record appeal.now { status = status }) }
    ensures memory { OnlyMemory result }
{
    Ok(Appeal {
        reason: appeal.reason.copy()?,
        status,
        ..*appeal
    })
}

fn superseded_status(status: &Status) -> Result<Status, Refusal>
    ensures ok { IfOk result (λ changed. changed ≡ appeals.superseded status.now) }
    ensures memory { OnlyMemory result }
{
    match status {
        Status::Granted(answer) => Ok(Status::Superseded(answer.copy()?)),
        _ => Ok(status.clone()?),
    }
}
