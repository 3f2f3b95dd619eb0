//! The lists of members and open halls, changed after a command.
ghost use Rattle.std.specs.Prelude.{◌≡◌, ◌<◌, ◌++◌, length, filter, nat_lt, slice_set, IfOk, OnOk, OnErr};
ghost use Rattle.std.specs.Prelude.{IsTrue, false, if◌then◌else◌};
ghost use Rattle.std.specs.List.Sorted.{IsNonDecreasingBy};
ghost use Rattle.exam_types.specs.Refusals.{OnlyMemory};
ghost use Rattle.exam_rules.specs.Relations.{Code, Relations, relations_of, code_cmp, same_code, has_row};
ghost use Rattle.exam_rules.specs.Orders.{AreInOrder};
ghost use Rattle.exam_rules.specs.Lists as listing;

use crate::by_session::{BySession, exchange, keep_list};
use crate::facts::Facts;
use crate::listing::{Entrant, SessionLists, halls_by_session, paper_at, place_of};
use crate::sessions::least_live_paper;
use exam_types::{HallCode, Number, PaperCode, Refusal, SessionCode};
use std::alloc::Global;
use std::mem::replace;

/// The paper with which to list the number: the least live one in the session, or none if the number is no candidate's.
fn listed_paper(facts: &Facts, session: &SessionCode, number: Number) -> Option<PaperCode>
    ensures { result ≡ listing.listed_paper (relations_of facts.now) session.now number }
{
    if facts.candidates.contains_key(&number) {
        least_live_paper(facts, session, number)
    } else {
        None
    }
}

/// The entrants with lesser numbers.
fn lesser(alloc: Global, entrants: &[Entrant], number: Number) -> Result<Vec<Entrant>, Refusal>
    ensures ok { IfOk result (λ list. list.items
        ≡ filter (λ (e : Entrant). nat_lt e.number number) entrants.now) }
    ensures memory { OnlyMemory result }
{
    let list = entrants
        .iter()
        .copied()
        .filter(|entrant| entrant.number < number)
        .collect(alloc)?;
    Ok(list)
}

/// Appends the entrants with greater numbers.
fn push_greater(
    list: &mut Vec<Entrant>,
    entrants: &[Entrant],
    number: Number,
) -> Result<(), Refusal>
    ensures ok { OnOk result (list.new.items ≡ list.old.items
        ++ filter (λ (e : Entrant). nat_lt number e.number) entrants.now) }
    ensures memory { OnlyMemory result }
{
    let greater = entrants
        .iter()
        .copied()
        .filter(|entrant| number < entrant.number);
    list.extend(greater)?;
    Ok(())
}

/// A new list, with the candidate in their place if there is a paper, and otherwise without them.
fn placed(
    alloc: Global,
    entrants: &[Entrant],
    number: Number,
    paper: Option<PaperCode>,
) -> Result<Vec<Entrant>, Refusal>
    ensures ok { IfOk result (λ list. list.items ≡ listing.placed number paper entrants.now) }
    ensures memory { OnlyMemory result }
{
    let mut list = lesser(alloc, entrants, number)?;
    if let Some(paper) = paper {
        list.push(Entrant { number, paper })?;
    }
    push_greater(&mut list, entrants, number)?;
    Ok(list)
}

/// The halls without this one.
fn without_hall(
    alloc: Global,
    halls: &[HallCode],
    hall: &HallCode,
) -> Result<Vec<HallCode>, Refusal>
    ensures ok { IfOk result (λ list. list.items ≡ listing.without_hall hall.now halls.now) }
    ensures memory { OnlyMemory result }
{
    let list = halls
        .iter()
        .copied()
        .filter(|other| *other != *hall)
        .collect(alloc)?;
    Ok(list)
}

fn lesser_paper(one: PaperCode, other: PaperCode) -> PaperCode
    ensures { result ≡ listing.lesser_paper one other }
{
    if one < other { one } else { other }
}

fn put_at(list: &mut Vec<Entrant>, place: usize, entrant: Entrant)
    requires { place < length list.old.items }
    ensures { list.new.items ≡ slice_set list.old.items place entrant }
{
    list[place] = entrant;
}

/// Puts the candidate in their place among rising numbers: with this paper, or with the paper with which they are
/// listed already if that is less. After a refusal the list is as it was.
fn enter_among(list: &mut Vec<Entrant>, number: Number, paper: PaperCode) -> Result<(), Refusal>
    ensures ok { OnOk result (IsNonDecreasingBy (λ (e : Entrant). e.number) list.old.items
        → list.new.items ≡ listing.entered number paper list.old.items) }
    ensures err { OnErr result (list.new.items ≡ list.old.items) }
    ensures memory { OnlyMemory result }
{
    let entrants = list.as_slice();
    let place = place_of(entrants, number);
    match paper_at(entrants, place, number) {
        Some(listed) => {
            let paper = lesser_paper(paper, listed);
            put_at(list, place, Entrant { number, paper });
            Ok(())
        }
        None => {
            list.insert(place, Entrant { number, paper })?;
            Ok(())
        }
    }
}

impl SessionLists {
    /// Lists the candidate again among the members of the session, after one entry of theirs for a paper of the session
    /// has been set and nothing else that the lists show has changed. Returns the list as it was, which `put_members`
    /// puts back. After a refusal the lists are as they were.
    pub fn relist(
        &mut self,
        alloc: Global,
        facts: &Facts,
        session: SessionCode,
        number: Number,
    ) -> Result<Vec<Entrant>, Refusal>
        ensures ok { OnOk result ((before : Relations) → listing.AreListsOf before self.old
            → listing.SetsEntry before (relations_of facts.now) session number
            → listing.AreListsOf (relations_of facts.now) self.new) }
        ensures old { IfOk result (λ list. list.items ≡ listing.listed self.old.members.entries session) }
        ensures back { OnOk result (IsTrue (has_row code_cmp self.new.members.entries session)) }
        ensures others { OnOk result ((s : Code) → same_code session s ≡ false
            → listing.listed self.new.members.entries s ≡ listing.listed self.old.members.entries s) }
        ensures halls { self.new.halls.entries ≡ self.old.halls.entries }
        ensures err { OnErr result ((s : Code)
            → listing.listed self.new.members.entries s ≡ listing.listed self.old.members.entries s) }
        ensures memory { OnlyMemory result }
    {
        // Because the candidates are in order, so are the members.
        facts.show_order();
        let paper = listed_paper(facts, &session, number);
        let list = placed(alloc, self.members_of(&session), number, paper)?;
        keep_list(alloc, &mut self.members, session)?;
        Ok(exchange(&mut self.members, &session, list))
    }

    /// Gives the session an empty list of members if it has none.
    pub fn keep_members(&mut self, alloc: Global, session: SessionCode) -> Result<(), Refusal>
        ensures same { (s : Code)
            → listing.listed self.new.members.entries s ≡ listing.listed self.old.members.entries s }
        ensures halls { self.new.halls.entries ≡ self.old.halls.entries }
        ensures kept { OnOk result (IsTrue (has_row code_cmp self.new.members.entries session)) }
        ensures stay { (s : Code) → IsTrue (has_row code_cmp self.old.members.entries s)
            → IsTrue (has_row code_cmp self.new.members.entries s) }
        ensures memory { OnlyMemory result }
    {
        keep_list(alloc, &mut self.members, session)
    }

    /// Lists the candidate among the members of the session, after their entry for this paper of the session has been
    /// made live and nothing else that the lists show has changed. Reads no entry. After a refusal the lists are as
    /// they were.
    pub fn enter(
        &mut self,
        session: &SessionCode,
        number: Number,
        paper: PaperCode,
    ) -> Result<(), Refusal>
        requires { IsTrue (has_row code_cmp self.old.members.entries session.now) }
        ensures ok { OnOk result ((before after : Relations) → AreInOrder before
            → listing.AreListsOf before self.old
            → listing.MakesLive before after session.now number paper
            → listing.AreListsOf after self.new) }
        ensures others { (s : Code) → same_code session.now s ≡ false
            → listing.listed self.new.members.entries s ≡ listing.listed self.old.members.entries s }
        ensures halls { self.new.halls.entries ≡ self.old.halls.entries }
        ensures stay { (s : Code) → IsTrue (has_row code_cmp self.old.members.entries s)
            → IsTrue (has_row code_cmp self.new.members.entries s) }
        ensures err { OnErr result ((s : Code)
            → listing.listed self.new.members.entries s ≡ listing.listed self.old.members.entries s) }
        ensures memory { OnlyMemory result }
    {
        match self.members.get_mut(session) {
            Some(list) => enter_among(list, number, paper),
            None => Ok(()),
        }
    }

    /// Replaces the session's list of members. Takes no memory.
    pub fn put_members(&mut self, session: &SessionCode, list: Vec<Entrant>)
        requires { IsTrue (has_row code_cmp self.old.members.entries session.now) }
        ensures members { (s : Code) → listing.listed self.new.members.entries s
            ≡ (if same_code session.now s then list.items else listing.listed self.old.members.entries s) }
        ensures halls { self.new.halls.entries ≡ self.old.halls.entries }
        ensures stay { (s : Code) → IsTrue (has_row code_cmp self.old.members.entries s)
            → IsTrue (has_row code_cmp self.new.members.entries s) }
    {
        let _ = exchange(&mut self.members, session, list);
    }

    /// Removes the hall from the session's list. So the lists are those of the facts without the hall's opening for the
    /// session. Returns the list as it was, which `put_halls` puts back. After a refusal the lists are as they were.
    pub fn close(
        &mut self,
        alloc: Global,
        session: SessionCode,
        hall: &HallCode,
    ) -> Result<Vec<HallCode>, Refusal>
        ensures ok { OnOk result ((r : Relations) → AreInOrder r → listing.AreListsOf r self.old
            → listing.AreListsOf (listing.closed r session hall.now) self.new) }
        ensures old { IfOk result (λ list. list.items ≡ listing.listed self.old.halls.entries session) }
        ensures back { OnOk result (IsTrue (has_row code_cmp self.new.halls.entries session)) }
        ensures others { OnOk result ((s : Code) → same_code session s ≡ false
            → listing.listed self.new.halls.entries s ≡ listing.listed self.old.halls.entries s) }
        ensures members { self.new.members.entries ≡ self.old.members.entries }
        ensures err { OnErr result ((s : Code)
            → listing.listed self.new.halls.entries s ≡ listing.listed self.old.halls.entries s) }
        ensures memory { OnlyMemory result }
    {
        let list = without_hall(alloc, self.halls_of(&session), hall)?;
        keep_list(alloc, &mut self.halls, session)?;
        Ok(exchange(&mut self.halls, &session, list))
    }

    /// Lists the open halls of all sessions again, after the openings and no other facts have changed. Returns the
    /// lists of halls as they were. After a refusal the lists are as they were.
    pub fn relist_halls(
        &mut self,
        alloc: Global,
        facts: &Facts,
    ) -> Result<BySession<HallCode>, Refusal>
        ensures ok { OnOk result ((r : Relations) → listing.AreListsOf r self.old
            → relations_of facts.now ≡ record r { openings = facts.now.openings.entries }
            → listing.AreListsOf (relations_of facts.now) self.new) }
        ensures old { IfOk result (λ halls. halls ≡ self.old.halls) }
        ensures members { self.new.members ≡ self.old.members }
        ensures err { OnErr result (self.new.halls ≡ self.old.halls) }
        ensures memory { OnlyMemory result }
    {
        let halls = halls_by_session(alloc, facts)?;
        Ok(replace(&mut self.halls, halls))
    }

    /// Replaces the session's list of halls. Takes no memory.
    pub fn put_halls(&mut self, session: &SessionCode, list: Vec<HallCode>)
        requires { IsTrue (has_row code_cmp self.old.halls.entries session.now) }
        ensures halls { (s : Code) → listing.listed self.new.halls.entries s
            ≡ (if same_code session.now s then list.items else listing.listed self.old.halls.entries s) }
        ensures members { self.new.members.entries ≡ self.old.members.entries }
    {
        let _ = exchange(&mut self.halls, session, list);
    }
}
