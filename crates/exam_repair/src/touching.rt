//! Which sessions a command touches.
ghost use Rattle.std.specs.Prelude.{◌≡◌, ◌↔◌, ◌&&◌, ◌||◌, false, ℕ, Contains, IsTrue, IfOk, OnOk};
ghost use Rattle.std.specs.BTreeSet.{contains};
ghost use Rattle.std.specs.List.{list_any};
ghost use Rattle.std.specs.Option.{option_map_or};
ghost use Rattle.std.specs.List.Sorted.{IsStrictlySortedBy};
ghost use Rattle.exam_types.specs.Refusals.{OnlyMemory};
ghost use Rattle.exam_rules.specs.declared.rows.Appeal.{Appeal as AppealRow};
ghost use Rattle.exam_rules.specs.declared.rows.Opening.{Opening as OpeningRow};
ghost use Rattle.exam_rules.specs.Relations.{Code, code_cmp, has_row, relations_of, same_code};
ghost use Rattle.exam_rules.specs.Sessions.{has_live_entry, is_member, is_paper_of};
ghost use Rattle.exam_commands.specs.Appeals.{appeal_at, bears_mark};
ghost use Rattle.exam_commands.specs.declared.import_row.Row.{Row as ImportRow};
ghost use Rattle.exam_commands.specs.Touched as spec;

use exam_commands::granting::{self, ends_standing, is_grant};
use exam_commands::{Command, Decision, Import, Kind, Row};
use exam_rules::{Appeal, Facts, entries_of, is_standing};
use exam_types::{HallCode, Number, PaperCode, Refusal, SessionCode};
use std::alloc::Global;
use std::collections::BTreeSet;

/// Codes of sessions, in order.
type Codes = BTreeSet<SessionCode>;

/// The sessions that a command touches, over the facts before it, codes rising. An accepted command leaves every other
/// session its members, fits, desks and plan. A session that does not exist is among them only if the command imports
/// it.
pub fn touched(alloc: Global, facts: &Facts, command: &Command) -> Result<Vec<SessionCode>, Refusal>
    ensures rising { IfOk result (λ codes. IsStrictlySortedBy code_cmp codes.items) }
    ensures exact { IfOk result (λ codes. (s : Code)
        → Contains codes.items s ↔ IsTrue (spec.touches (relations_of facts.now) command.now s)) }
    ensures memory { OnlyMemory result }
{
    let mut reached = BTreeSet::new(alloc);
    add_reached(alloc, facts, command, &mut reached)?;
    let mut codes = BTreeSet::new(alloc);
    add_existing(facts, &reached, &mut codes)?;
    add_set(command, &mut codes)?;
    let list = codes.iter().copied().collect(alloc)?;
    Ok(list)
}

/// Adds those of these sessions that exist.
fn add_existing(facts: &Facts, reached: &Codes, codes: &mut Codes) -> Result<(), Refusal>
    ensures ok { OnOk result ((s : Code) → contains code_cmp codes.new s
        ≡ ((has_row code_cmp facts.now.sessions.entries s && contains code_cmp reached.now s)
        || contains code_cmp codes.old s)) }
    ensures memory { OnlyMemory result }
{
    for code in reached {
        add_known(facts, code, codes)?;
    }
    Ok(())
}

/// Adds the sessions that a command sets.
fn add_set(command: &Command, codes: &mut Codes) -> Result<(), Refusal>
    ensures ok { OnOk result ((s : Code) → contains code_cmp codes.new s
        ≡ (spec.is_set_by command.now s || contains code_cmp codes.old s)) }
    ensures memory { OnlyMemory result }
{
    match command {
        Command::Import(import) => add_imported(import, codes),
        Command::Withdraw(_, _)
        | Command::Reinstate(_, _)
        | Command::CloseHall(_, _)
        | Command::Lodge(_)
        | Command::Retract(_, _)
        | Command::Decide(_) => Ok(()),
    }
}

/// Adds the sessions that an import sets: all its rows are of its kind.
fn add_imported(import: &Import, codes: &mut Codes) -> Result<(), Refusal>
    ensures ok { OnOk result ((s : Code) → contains code_cmp codes.new s
        ≡ (list_any (spec.sets_session s) import.now.rows || contains code_cmp codes.old s)) }
    ensures memory { OnlyMemory result }
{
    let rows = import.rows();
    match import.kind() {
        Kind::Sessions => add_sessions(rows, codes),
        Kind::Papers
        | Kind::Halls
        | Kind::Openings
        | Kind::Candidates
        | Kind::Entries
        | Kind::Arrangements => Ok(()),
    }
}

/// Adds the sessions that these rows set.
fn add_sessions(rows: &[Row], codes: &mut Codes) -> Result<(), Refusal>
    ensures ok { OnOk result ((s : Code) → contains code_cmp codes.new s
        ≡ (list_any (spec.sets_session s) rows.now || contains code_cmp codes.old s)) }
    ensures memory { OnlyMemory result }
{
    for row in rows {
        if let Row::OfSession(session, _) = row {
            add_session(session, codes)?;
        }
    }
    Ok(())
}

/// Adds the sessions that a command reaches. Some may not exist.
fn add_reached(
    alloc: Global,
    facts: &Facts,
    command: &Command,
    codes: &mut Codes,
) -> Result<(), Refusal>
    ensures ok { OnOk result ((s : Code) → contains code_cmp codes.new s
        ≡ (spec.reaches (relations_of facts.now) command.now s || contains code_cmp codes.old s)) }
    ensures memory { OnlyMemory result }
{
    match command {
        Command::Import(import) => add_import(alloc, facts, import, codes),
        Command::Withdraw(_, paper) | Command::Reinstate(_, paper) => {
            add_paper(facts, paper, codes)
        }
        Command::CloseHall(session, _) => add_known(facts, session, codes),
        Command::Lodge(_) | Command::Retract(_, _) => Ok(()),
        Command::Decide(decision) => add_decision(facts, decision, codes),
    }
}

/// Adds the sessions that an import reaches. All its rows are of its kind, so they are walked once: the appeals are for
/// all rows of sessions, the openings for all rows of halls.
fn add_import(
    alloc: Global,
    facts: &Facts,
    import: &Import,
    codes: &mut Codes,
) -> Result<(), Refusal>
    ensures ok { OnOk result ((s : Code) → contains code_cmp codes.new s
        ≡ (spec.import_reaches (relations_of facts.now) import.now s || contains code_cmp codes.old s)) }
    ensures memory { OnlyMemory result }
{
    let rows = import.rows();
    match import.kind() {
        Kind::Sessions => add_standing(facts, codes),
        Kind::Halls => add_halls(alloc, facts, rows, codes),
        Kind::Candidates => Ok(()),
        Kind::Papers | Kind::Openings | Kind::Entries | Kind::Arrangements => {
            add_rows(facts, rows, codes)
        }
    }
}

/// Adds the sessions that open a hall that these rows name.
fn add_halls(alloc: Global, facts: &Facts, rows: &[Row], codes: &mut Codes) -> Result<(), Refusal>
    ensures ok { OnOk result ((s : Code) → contains code_cmp codes.new s
        ≡ (list_any (λ (o : (Code × Code) × OpeningRow). same_code o.0.0 s
        && list_any (λ (x : ImportRow). spec.names_hall x o.0.1) rows.now) facts.now.openings.entries
        || contains code_cmp codes.old s)) }
    ensures memory { OnlyMemory result }
{
    let halls = named_halls(alloc, rows)?;
    add_opened(facts, &halls, codes)
}

/// Adds the sessions that have a member with a standing grant.
fn add_standing(facts: &Facts, codes: &mut Codes) -> Result<(), Refusal>
    ensures ok { OnOk result ((s : Code) → contains code_cmp codes.new s
        ≡ (spec.has_standing_member (relations_of facts.now) s || contains code_cmp codes.old s)) }
    ensures memory { OnlyMemory result }
{
    for (key, appeal) in &facts.appeals {
        if is_standing(facts, key, appeal) {
            add_candidate(facts, key.0, codes)?;
        }
    }
    Ok(())
}

/// Adds the sessions that these rows reach in other ways than by naming a hall.
fn add_rows(facts: &Facts, rows: &[Row], codes: &mut Codes) -> Result<(), Refusal>
    ensures ok { OnOk result ((s : Code) → contains code_cmp codes.new s
        ≡ (list_any (λ (x : ImportRow). spec.names_session (relations_of facts.now) x s) rows.now
        || contains code_cmp codes.old s)) }
    ensures memory { OnlyMemory result }
{
    for row in rows {
        add_row(facts, row, codes)?;
    }
    Ok(())
}

/// Adds the sessions that a row reaches in other ways than by naming a hall.
fn add_row(facts: &Facts, row: &Row, codes: &mut Codes) -> Result<(), Refusal>
    ensures ok { OnOk result ((s : Code) → contains code_cmp codes.new s
        ≡ (spec.names_session (relations_of facts.now) row.now s || contains code_cmp codes.old s)) }
    ensures memory { OnlyMemory result }
{
    match row {
        Row::OfPaper(code, paper) => add_both(facts, code, &paper.session, codes),
        Row::OfOpening(session, _, _) => add_known(facts, session, codes),
        Row::OfSession(_, _) | Row::OfHall(_, _) | Row::OfCandidate(_, _) => Ok(()),
        Row::OfEntry(_, paper) => add_paper(facts, paper, codes),
        Row::OfArrangement(number, _) => add_candidate(facts, *number, codes),
    }
}

/// The halls that the rows name.
fn named_halls(alloc: Global, rows: &[Row]) -> Result<BTreeSet<HallCode>, Refusal>
    ensures ok { IfOk result (λ halls. (h : Code) → contains code_cmp halls h
        ≡ list_any (λ (x : ImportRow). spec.names_hall x h) rows.now) }
    ensures memory { OnlyMemory result }
{
    let mut halls = BTreeSet::new(alloc);
    for row in rows {
        add_named(row, &mut halls)?;
    }
    Ok(halls)
}

/// Adds the hall that the row names, if it does.
fn add_named(row: &Row, halls: &mut BTreeSet<HallCode>) -> Result<(), Refusal>
    ensures ok { OnOk result ((h : Code) → contains code_cmp halls.new h
        ≡ (spec.names_hall row.now h || contains code_cmp halls.old h)) }
    ensures memory { OnlyMemory result }
{
    match row {
        Row::OfHall(hall, _) => add_code(*hall, halls),
        Row::OfSession(_, _)
        | Row::OfPaper(_, _)
        | Row::OfOpening(_, _, _)
        | Row::OfCandidate(_, _)
        | Row::OfEntry(_, _)
        | Row::OfArrangement(_, _) => Ok(()),
    }
}

/// Adds a hall.
fn add_code(hall: HallCode, halls: &mut BTreeSet<HallCode>) -> Result<(), Refusal>
    ensures ok { OnOk result ((h : Code) → contains code_cmp halls.new h
        ≡ (same_code hall h || contains code_cmp halls.old h)) }
    ensures memory { OnlyMemory result }
{
    halls.insert(hall)?;
    Ok(())
}

/// Adds a session.
fn add_session(session: &SessionCode, codes: &mut Codes) -> Result<(), Refusal>
    ensures ok { OnOk result ((s : Code) → contains code_cmp codes.new s
        ≡ (same_code session.now s || contains code_cmp codes.old s)) }
    ensures memory { OnlyMemory result }
{
    codes.insert(*session)?;
    Ok(())
}

/// Adds a session that a row refers to, if it exists.
fn add_known(facts: &Facts, session: &SessionCode, codes: &mut Codes) -> Result<(), Refusal>
    ensures ok { OnOk result ((s : Code) → contains code_cmp codes.new s
        ≡ (spec.names (relations_of facts.now) session.now s || contains code_cmp codes.old s)) }
    ensures memory { OnlyMemory result }
{
    if facts.sessions.contains_key(session) {
        add_session(session, codes)
    } else {
        Ok(())
    }
}

/// Adds the session of a paper, if the paper exists.
fn add_paper(facts: &Facts, paper: &PaperCode, codes: &mut Codes) -> Result<(), Refusal>
    ensures ok { OnOk result ((s : Code) → contains code_cmp codes.new s
        ≡ (is_paper_of (relations_of facts.now) s paper.now || contains code_cmp codes.old s)) }
    ensures memory { OnlyMemory result }
{
    match facts.papers.get(paper) {
        Some(row) => add_session(&row.session, codes),
        None => Ok(()),
    }
}

/// Adds the session of a paper, if the paper exists, and its new one, if that exists.
fn add_both(
    facts: &Facts,
    paper: &PaperCode,
    session: &SessionCode,
    codes: &mut Codes,
) -> Result<(), Refusal>
    ensures ok { OnOk result ((s : Code) → contains code_cmp codes.new s
        ≡ ((is_paper_of (relations_of facts.now) s paper.now || spec.names (relations_of facts.now) session.now s)
        || contains code_cmp codes.old s)) }
    ensures memory { OnlyMemory result }
{
    add_known(facts, session, codes)?;
    add_paper(facts, paper, codes)
}

/// Adds the sessions that open one of these halls.
fn add_opened(facts: &Facts, halls: &BTreeSet<HallCode>, codes: &mut Codes) -> Result<(), Refusal>
    ensures ok { OnOk result ((s : Code) → contains code_cmp codes.new s
        ≡ (list_any (λ (o : (Code × Code) × OpeningRow). same_code o.0.0 s && contains code_cmp halls.now o.0.1)
        facts.now.openings.entries || contains code_cmp codes.old s)) }
    ensures memory { OnlyMemory result }
{
    for (key, _) in &facts.openings {
        if halls.contains(&key.1) {
            add_session(&key.0, codes)?;
        }
    }
    Ok(())
}

/// Adds the sessions that a candidate is a member of.
fn add_candidate(facts: &Facts, number: Number, codes: &mut Codes) -> Result<(), Refusal>
    ensures ok { OnOk result ((s : Code) → contains code_cmp codes.new s
        ≡ (is_member (relations_of facts.now) s number || contains code_cmp codes.old s)) }
    ensures memory { OnlyMemory result }
{
    if facts.candidates.contains_key(&number) {
        add_entered(facts, number, codes)
    } else {
        Ok(())
    }
}

/// Adds the sessions for whose papers a number has live entries.
fn add_entered(facts: &Facts, number: Number, codes: &mut Codes) -> Result<(), Refusal>
    ensures ok { OnOk result ((s : Code) → contains code_cmp codes.new s
        ≡ (has_live_entry (relations_of facts.now) s number || contains code_cmp codes.old s)) }
    ensures memory { OnlyMemory result }
{
    for (key, entry) in entries_of(facts, number) {
        if entry.live {
            add_paper(facts, &key.1, codes)?;
        }
    }
    Ok(())
}

/// Adds the sessions that a decision reaches.
fn add_decision(facts: &Facts, decision: &Decision, codes: &mut Codes) -> Result<(), Refusal>
    ensures ok { OnOk result ((s : Code) → contains code_cmp codes.new s
        ≡ (spec.decision_reaches (relations_of facts.now) decision.now s || contains code_cmp codes.old s)) }
    ensures memory { OnlyMemory result }
{
    if is_grant(decision.outcome) {
        add_appeal(facts, decision, codes)
    } else {
        Ok(())
    }
}

/// Adds the sessions that a grant of the appeal reaches, if the appeal exists.
fn add_appeal(facts: &Facts, decision: &Decision, codes: &mut Codes) -> Result<(), Refusal>
    ensures ok { OnOk result ((s : Code) → contains code_cmp codes.new s
        ≡ (option_map_or (λ (a : AppealRow). spec.grant_reaches (relations_of facts.now) decision.now a s)
        (appeal_at (relations_of facts.now) decision.now.number decision.now.reference) false
        || contains code_cmp codes.old s)) }
    ensures memory { OnlyMemory result }
{
    match facts.appeals.get(&(decision.number, decision.reference)) {
        Some(appeal) => add_appellant(facts, decision, appeal, codes),
        None => Ok(()),
    }
}

/// Adds the session of the appeal; if its grant sets or ends a standing one, also those of the appellant.
fn add_appellant(
    facts: &Facts,
    decision: &Decision,
    appeal: &Appeal,
    codes: &mut Codes,
) -> Result<(), Refusal>
    ensures ok { OnOk result ((s : Code) → contains code_cmp codes.new s
        ≡ (spec.grant_reaches (relations_of facts.now) decision.now appeal.now s
        || contains code_cmp codes.old s)) }
    ensures memory { OnlyMemory result }
{
    add_others(facts, decision, appeal, codes)?;
    add_session(&appeal.session, codes)
}

/// If a grant of the appeal sets or ends a standing one, adds the sessions that the appellant is a member of.
fn add_others(
    facts: &Facts,
    decision: &Decision,
    appeal: &Appeal,
    codes: &mut Codes,
) -> Result<(), Refusal>
    ensures ok { OnOk result ((s : Code) → contains code_cmp codes.new s
        ≡ (((bears_mark decision.now.outcome
        || spec.ends_standing (relations_of facts.now) decision.now appeal.now)
        && is_member (relations_of facts.now) s decision.now.number) || contains code_cmp codes.old s)) }
    ensures memory { OnlyMemory result }
{
    if granting::bears_mark(decision.outcome) || ends_standing(facts, decision, appeal) {
        add_candidate(facts, decision.number, codes)
    } else {
        Ok(())
    }
}
