//! The lists of members and open halls after a command.
ghost use Rattle.std.specs.Prelude.{◌≡◌, ◌∷◌, List, IsTrue, IfOk, OnOk, OnErr};
ghost use Rattle.exam_types.specs.Refusals.{OnlyMemory};
ghost use Rattle.exam_rules.specs.declared.listing.SessionLists.{SessionLists as Lists};
ghost use Rattle.exam_rules.specs.Lists.{AreListsOf, closed, listed};
ghost use Rattle.exam_rules.specs.Orders.{AreInOrder};
ghost use Rattle.exam_rules.specs.Relations.{Code, Relations, code_cmp, has_row, relations_of};
ghost use Rattle.exam_commands.specs.declared.command.Command.TheVariants as command;
ghost use Rattle.exam_commands.specs.declared.import_row.Row.{Row as ImportRow};
ghost use Rattle.exam_office.specs.declared.relisting.ListUndo.TheVariants as undo;
ghost use Rattle.exam_commands.specs.Changes.{with_row};
ghost use Rattle.exam_commands.specs.FactsMade.{WasMade};
ghost use Rattle.exam_office.specs.Relisting as spec;

use exam_commands::{Command, Import, Kind, Row};
use exam_rules::{BySession, Entrant, Facts, SessionLists, entered_session, session_lists};
use exam_types::{HallCode, Number, PaperCode, Refusal, SessionCode};
use std::alloc::Global;
use std::collections::BTreeMap;
use std::mem;

/// How to take back a change of the lists. Taking it back takes no memory.
#[derive(Drop)]
pub enum ListUndo {
    /// Nothing has changed.
    Nothing,
    /// The members of the session were these.
    Members(SessionCode, Vec<Entrant>),
    /// The members of these sessions were these.
    Several(BySession<Entrant>),
    /// The open halls of the session were these.
    Halls(SessionCode, Vec<HallCode>),
    /// The open halls of all sessions were these.
    AllHalls(BySession<HallCode>),
    /// The lists were these.
    Whole(SessionLists),
}

impl ListUndo {
    pub fn take_back(self, lists: &mut SessionLists)
        requires { spec.HasList self lists.old }
        ensures members { (s : Code) → listed lists.new.members.entries s
            ≡ spec.members_before self lists.old s }
        ensures halls { (s : Code) → listed lists.new.halls.entries s
            ≡ spec.halls_before self lists.old s }
    {
        match self {
            ListUndo::Nothing => {}
            ListUndo::Members(session, list) => lists.put_members(&session, list),
            ListUndo::Several(before) => put_back(lists, before),
            ListUndo::Halls(session, list) => lists.put_halls(&session, list),
            ListUndo::AllHalls(halls) => lists.halls = halls,
            ListUndo::Whole(old) => *lists = old,
        }
    }
}

/// Puts back the lists of these sessions. Takes no memory.
fn put_back(lists: &mut SessionLists, before: BySession<Entrant>)
    requires { (s : Code) → IsTrue (has_row code_cmp before.entries s)
        → IsTrue (has_row code_cmp lists.old.members.entries s) }
    ensures members { (s : Code) → listed lists.new.members.entries s
        ≡ spec.list_before before.entries lists.old s }
    ensures halls { lists.new.halls.entries ≡ lists.old.halls.entries }
{
    for (session, list) in before {
        lists.put_members(&session, list);
    }
}

/// Brings the lists up to date with the facts, which the command has changed. After a refusal they are as before.
pub fn relist(
    alloc: Global,
    facts: &Facts,
    lists: &mut SessionLists,
    command: &Command,
) -> Result<ListUndo, Refusal>
    requires { (r : Relations) × AreListsOf r lists.old × WasMade command.now r (relations_of facts.now) }
    ensures ok { OnOk result (AreListsOf (relations_of facts.now) lists.new) }
    ensures back { IfOk result (λ undo. spec.ListsBack undo lists.new lists.old) }
    ensures same { OnErr result (spec.SameLists lists.old lists.new) }
    ensures memory { OnlyMemory result }
{
    match command {
        Command::Lodge(_) | Command::Retract(_, _) | Command::Decide(_) => Ok(ListUndo::Nothing),
        Command::Withdraw(number, paper) | Command::Reinstate(number, paper) => {
            relist_entrant(alloc, facts, lists, *number, paper)
        }
        Command::Import(import) => relist_import(alloc, facts, lists, import),
        Command::CloseHall(session, hall) => relist_halls(alloc, lists, *session, hall),
    }
}

/// Brings the lists up to date with the facts, into which the rows of the import have been put.
fn relist_import(
    alloc: Global,
    facts: &Facts,
    lists: &mut SessionLists,
    import: &Import,
) -> Result<ListUndo, Refusal>
    requires { (r : Relations) × AreListsOf r lists.old
        × WasMade (command.Import import.now) r (relations_of facts.now) }
    ensures ok { OnOk result (AreListsOf (relations_of facts.now) lists.new) }
    ensures back { IfOk result (λ undo. spec.ListsBack undo lists.new lists.old) }
    ensures same { OnErr result (spec.SameLists lists.old lists.new) }
    ensures memory { OnlyMemory result }
{
    let rows = import.rows();
    match import.kind() {
        Kind::Sessions | Kind::Halls | Kind::Candidates | Kind::Arrangements => {
            Ok(ListUndo::Nothing)
        }
        Kind::Entries => relist_rows(alloc, facts, lists, rows),
        Kind::Openings => {
            let halls = lists.relist_halls(alloc, facts)?;
            Ok(ListUndo::AllHalls(halls))
        }
        Kind::Papers => list_anew(alloc, facts, lists),
    }
}

/// Lists the candidates of the rows. The rows are entries and have been put into the facts.
fn relist_rows(
    alloc: Global,
    facts: &Facts,
    lists: &mut SessionLists,
    rows: &[Row],
) -> Result<ListUndo, Refusal>
    requires { (r : Relations) × AreListsOf r lists.old
        × spec.EntersRows r rows.now (relations_of facts.now) }
    ensures ok { OnOk result (AreListsOf (relations_of facts.now) lists.new) }
    ensures back { IfOk result (λ undo. spec.ListsBack undo lists.new lists.old) }
    ensures same { OnErr result (spec.SameLists lists.old lists.new) }
    ensures memory { OnlyMemory result }
{
    let mut before = BTreeMap::new(alloc);
    match enter_rows(alloc, facts, lists, &mut before, rows) {
        Ok(()) => Ok(ListUndo::Several(before)),
        Err(refusal) => {
            put_back(lists, before);
            Err(refusal)
        }
    }
}

/// Enters the candidate of each row, and keeps in `before` each list as it was.
fn enter_rows(
    alloc: Global,
    facts: &Facts,
    lists: &mut SessionLists,
    before: &mut BySession<Entrant>,
    rows: &[Row],
) -> Result<(), Refusal>
    requires rows { (r : Relations) × AreListsOf r lists.old
        × spec.EntersRows r rows.now (relations_of facts.now) }
    requires back { spec.ListsBack (undo.Several before.old) lists.old lists.old }
    ensures ok { OnOk result (AreListsOf (relations_of facts.now) lists.new) }
    ensures back { spec.ListsBack (undo.Several before.new) lists.new lists.old }
    ensures memory { OnlyMemory result }
{
    for row in rows {
        enter_row(alloc, facts, lists, before, row)?;
    }
    Ok(())
}

/// Enters the candidate of the row if its entry is live in the facts, into which later rows have been put too.
fn enter_row(
    alloc: Global,
    facts: &Facts,
    lists: &mut SessionLists,
    before: &mut BySession<Entrant>,
    row: &Row,
) -> Result<(), Refusal>
    requires { spec.HasList (undo.Several before.old) lists.old }
    ensures ok { OnOk result ((r : Relations) (later : List ImportRow) → AreListsOf r lists.old
        → spec.EntersRows r (row.now ∷ later) (relations_of facts.now)
        → AreListsOf (with_row r row.now) lists.new) }
    ensures back { (was : Lists) → spec.ListsBack (undo.Several before.old) lists.old was
        → spec.ListsBack (undo.Several before.new) lists.new was }
    ensures memory { OnlyMemory result }
{
    let Row::OfEntry(number, paper) = row else {
        return Ok(());
    };
    match live_session(facts, *number, paper) {
        Some(session) => {
            set_aside(alloc, lists, before, session)?;
            lists.enter(&session, *number, *paper)
        }
        // The entry existed already, and it is withdrawn.
        None => Ok(()),
    }
}

/// The session for which the candidate's entry for the paper counts, if it is live.
fn live_session(facts: &Facts, number: Number, paper: &PaperCode) -> Option<SessionCode>
    ensures { result ≡ spec.live_session (relations_of facts.now) number paper.now }
{
    match facts.entries.get(&(number, *paper)) {
        Some(entry) => entered_session(facts, paper, entry),
        None => None,
    }
}

/// Keeps a copy of the session's list unless one is kept already, and gives the session a list if it has none.
fn set_aside(
    alloc: Global,
    lists: &mut SessionLists,
    before: &mut BySession<Entrant>,
    session: SessionCode,
) -> Result<(), Refusal>
    requires { spec.HasList (undo.Several before.old) lists.old }
    ensures same { spec.SameLists lists.old lists.new }
    ensures kept { OnOk result (IsTrue (has_row code_cmp before.new.entries session)) }
    ensures there { OnOk result (IsTrue (has_row code_cmp lists.new.members.entries session)) }
    ensures back { (was : Lists) → spec.ListsBack (undo.Several before.old) lists.old was
        → spec.ListsBack (undo.Several before.new) lists.new was }
    ensures memory { OnlyMemory result }
{
    if before.contains_key(&session) {
        return Ok(());
    }
    lists.keep_members(alloc, session)?;
    let copy = Vec::from_slice(alloc, lists.members_of(&session))?;
    before.insert(session, copy)?;
    Ok(())
}

/// Lists the candidate, whose entry for the paper has been set, again in the paper's session.
fn relist_entrant(
    alloc: Global,
    facts: &Facts,
    lists: &mut SessionLists,
    number: Number,
    paper: &PaperCode,
) -> Result<ListUndo, Refusal>
    requires { (r : Relations) × AreListsOf r lists.old × spec.SetsLive r (relations_of facts.now) number paper.now }
    ensures ok { OnOk result (AreListsOf (relations_of facts.now) lists.new) }
    ensures back { IfOk result (λ undo. spec.ListsBack undo lists.new lists.old) }
    ensures same { OnErr result (spec.SameLists lists.old lists.new) }
    ensures memory { OnlyMemory result }
{
    match facts.papers.get(paper) {
        Some(row) => {
            let list = lists.relist(alloc, facts, row.session, number)?;
            Ok(ListUndo::Members(row.session, list))
        }
        // This cannot happen: the command has looked the paper up.
        None => list_anew(alloc, facts, lists),
    }
}

/// Lists the open halls of the session without this one, which has been closed.
fn relist_halls(
    alloc: Global,
    lists: &mut SessionLists,
    session: SessionCode,
    hall: &HallCode,
) -> Result<ListUndo, Refusal>
    ensures ok { OnOk result ((r : Relations) → AreInOrder r → AreListsOf r lists.old
        → AreListsOf (closed r session hall.now) lists.new) }
    ensures back { IfOk result (λ undo. spec.ListsBack undo lists.new lists.old) }
    ensures same { OnErr result (spec.SameLists lists.old lists.new) }
    ensures memory { OnlyMemory result }
{
    let halls = lists.close(alloc, session, hall)?;
    Ok(ListUndo::Halls(session, halls))
}

/// Lists the members and open halls of all sessions again.
fn list_anew(alloc: Global, facts: &Facts, lists: &mut SessionLists) -> Result<ListUndo, Refusal>
    ensures ok { OnOk result (AreListsOf (relations_of facts.now) lists.new) }
    ensures back { IfOk result (λ undo. spec.ListsBack undo lists.new lists.old) }
    ensures same { OnErr result (spec.SameLists lists.old lists.new) }
    ensures memory { OnlyMemory result }
{
    let new = session_lists(alloc, facts)?;
    Ok(ListUndo::Whole(mem::replace(lists, new)))
}
