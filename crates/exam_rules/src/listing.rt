//! The members and the open halls of all sessions, listed in one walk over the facts.
ghost use Rattle.std.specs.Prelude.{◌≡◌, ◌≢◌, ◌<◌, ◌≤◌, length, All, Contains, IsNone, IfSome, IfOk, IfErr, OnOk};
ghost use Rattle.std.specs.Prelude.{IsTrue, true, false, nat_lt, map, if◌then◌else◌};
ghost use Rattle.std.specs.List.Sorted.{IsStrictlySortedBy, IsNonDecreasingBy, IsPartitionPoint};
ghost use Rattle.std.specs.Ordering.{nat_cmp};
ghost use Rattle.exam_types.specs.Refusals.{OnlyMemory};
ghost use Rattle.exam_rules.specs.Relations.{Code, Relations, relations_of, no_relations, code_cmp, same_code};
ghost use Rattle.exam_rules.specs.Relations.{has_row};
ghost use Rattle.exam_rules.specs.Sessions as spec;
ghost use Rattle.exam_rules.specs.Seatings as seatings;
ghost use Rattle.exam_rules.specs.Lists as listing;

use crate::by_session::{BySession, append_by_session, listed, one};
use crate::facts::Facts;
use crate::rows::Entry;
use crate::sessions::{entries_of, sitting_beside, sitting_by_entries};
use exam_types::{HallCode, Number, PaperCode, Refusal, SessionCode};
use std::alloc::Global;
use std::collections::BTreeMap;

/// A member of a session, with the least of their live papers for it.
#[derive(Clone, Copy)]
pub struct Entrant {
    pub number: Number,
    pub paper: PaperCode,
}

/// The members, by number, and the open halls, by code, of each session.
#[derive(Drop)]
pub struct SessionLists {
    pub members: BySession<Entrant>,
    pub halls: BySession<HallCode>,
}

/// Whether the last entrant has this number.
fn ends_with(entrants: &[Entrant], number: Number) -> bool
    ensures { result ≡ listing.ends_with entrants.now number }
{
    match entrants.last() {
        Some(last) => last.number == number,
        None => false,
    }
}

/// Appends the entrant, unless the last is the same candidate.
fn push_last(list: &mut Vec<Entrant>, entrant: Entrant) -> Result<(), Refusal>
    ensures ok { OnOk result (list.new.items ≡ listing.with_last entrant list.old.items) }
    ensures memory { OnlyMemory result }
{
    if !ends_with(list.as_slice(), entrant.number) {
        list.push(entrant)?;
    }
    Ok(())
}

/// Appends the entrant to the session's list, unless its last is the same candidate.
fn append_last(
    alloc: Global,
    members: &mut BySession<Entrant>,
    session: SessionCode,
    entrant: Entrant,
) -> Result<(), Refusal>
    ensures ok { OnOk result ((s : Code) → listing.listed members.new.entries s
        ≡ (if same_code session s then listing.with_last entrant (listing.listed members.old.entries s)
        else listing.listed members.old.entries s)) }
    ensures memory { OnlyMemory result }
{
    match members.get_mut(&session) {
        Some(list) => push_last(list, entrant),
        None => {
            let list = one(alloc, entrant)?;
            members.insert(session, list)?;
            Ok(())
        }
    }
}

/// The session for which the entry counts, if it is live.
pub fn entered_session(facts: &Facts, paper: &PaperCode, entry: &Entry) -> Option<SessionCode>
    ensures { result ≡ listing.entered_session (relations_of facts.now) paper.now entry.now }
{
    if !entry.live {
        return None;
    }
    let row = facts.papers.get(paper)?;
    Some(row.session)
}

/// Appends the candidate to the list of each session that they are a member of.
fn append_member(
    alloc: Global,
    facts: &Facts,
    number: Number,
    members: &mut BySession<Entrant>,
) -> Result<(), Refusal>
    ensures ok { OnOk result ((s : Code) → listing.listed members.new.entries s
        ≡ listing.with_member number (spec.least_live_paper (relations_of facts.now) s number)
        (listing.listed members.old.entries s)) }
    ensures memory { OnlyMemory result }
{
    for (key, entry) in entries_of(facts, number) {
        if let Some(session) = entered_session(facts, &key.1, entry) {
            let paper = key.1;
            append_last(alloc, members, session, Entrant { number, paper })?;
        }
    }
    Ok(())
}

/// The members of each session, numbers rising, each with the least of their live papers.
fn members_by_session(alloc: Global, facts: &Facts) -> Result<BySession<Entrant>, Refusal>
    ensures ok { IfOk result (λ members. (s : Code) → listing.listed members.entries s
        ≡ listing.entrants (relations_of facts.now) s) }
    ensures rising { OnOk result ((s : Code)
        → IsStrictlySortedBy nat_cmp (spec.members (relations_of facts.now) s)) }
    ensures memory { OnlyMemory result }
{
    let mut members = BTreeMap::new(alloc);
    for (number, _) in &facts.candidates {
        append_member(alloc, facts, *number, &mut members)?;
    }
    Ok(members)
}

/// The halls opened for each session, codes rising.
pub fn halls_by_session(alloc: Global, facts: &Facts) -> Result<BySession<HallCode>, Refusal>
    ensures ok { IfOk result (λ halls. (s : Code) → listing.listed halls.entries s
        ≡ seatings.open_halls (relations_of facts.now) s) }
    ensures rising { OnOk result ((s : Code)
        → IsStrictlySortedBy code_cmp (seatings.open_halls (relations_of facts.now) s)) }
    ensures memory { OnlyMemory result }
{
    let mut halls = BTreeMap::new(alloc);
    for (key, _) in &facts.openings {
        append_by_session(alloc, &mut halls, key.0, key.1)?;
    }
    Ok(halls)
}

/// The members and the open halls of all sessions.
pub fn session_lists(alloc: Global, facts: &Facts) -> Result<SessionLists, Refusal>
    ensures ok { IfOk result (λ both. listing.AreListsOf (relations_of facts.now) both) }
    ensures memory { OnlyMemory result }
{
    Ok(SessionLists {
        members: members_by_session(alloc, facts)?,
        halls: halls_by_session(alloc, facts)?,
    })
}

/// The members and the open halls of all sessions. Refused if this session is none of them, or if memory runs out.
pub fn lists_with(
    alloc: Global,
    facts: &Facts,
    session: &SessionCode,
) -> Result<SessionLists, Refusal>
    ensures ok { IfOk result (λ lists. listing.AreListsOf (relations_of facts.now) lists) }
    ensures known { OnOk result (IsTrue (has_row code_cmp facts.now.sessions.entries session.now)) }
    ensures refusal { IfErr result (spec.IsSessionRefusal (relations_of facts.now) session.now) }
{
    if !facts.sessions.contains_key(session) {
        return Err(Refusal::UnknownSession);
    }
    session_lists(alloc, facts)
}

/// Which candidates these are.
pub fn numbers_of(alloc: Global, entrants: &[Entrant]) -> Result<Vec<Number>, Refusal>
    ensures ok { IfOk result (λ numbers. numbers.items
        ≡ map (λ (entrant : Entrant). entrant.number) entrants.now) }
    ensures memory { OnlyMemory result }
{
    let numbers = entrants
        .iter()
        .map(|entrant| entrant.number)
        .collect(alloc)?;
    Ok(numbers)
}

/// The place of the first entrant whose number is no less. The numbers must rise.
pub fn place_of(entrants: &[Entrant], number: Number) -> usize
    ensures within { result ≤ length entrants.now }
    ensures place { IsNonDecreasingBy (λ (e : Entrant). e.number) entrants.now
        → IsPartitionPoint (λ (e : Entrant). nat_lt e.number number ≡ true)
        (λ (e : Entrant). nat_lt e.number number ≡ false) entrants.now result }
{
    entrants.partition_point(|entrant| entrant.number < number)
}

/// The paper of the entrant at the place, if they have this number.
pub fn paper_at(entrants: &[Entrant], place: usize, number: Number) -> Option<PaperCode>
    ensures found { IfSome result (λ paper.
        listing.StandsAt entrants.now place (listing.entrant number paper)) }
    ensures none { IsNone result → listing.HasOtherAt entrants.now place number }
{
    match entrants.get(place) {
        Some(entrant) => {
            if entrant.number == number {
                Some(entrant.paper)
            } else {
                None
            }
        }
        None => None,
    }
}

impl SessionLists {
    /// The lists of an office without facts. Takes no memory.
    pub fn empty(alloc: Global) -> Self
        ensures { listing.AreListsOf no_relations result }
    {
        SessionLists {
            members: BTreeMap::new(alloc),
            halls: BTreeMap::new(alloc),
        }
    }

    /// The members of the session, by number.
    pub fn members_of(&self, session: &SessionCode) -> &[Entrant]
        ensures { result.now ≡ listing.listed self.now.members.entries session.now }
    {
        listed(&self.members, session)
    }

    /// How many members the session has.
    pub fn member_count(&self, session: &SessionCode) -> usize
        ensures count { result ≡ length (listing.listed self.now.members.entries session.now) }
        ensures members { (r : Relations) → listing.AreListsOf r self.now
            → result ≡ length (spec.members r session.now) }
    {
        self.members_of(session).len()
    }

    /// The halls opened for the session, by code.
    pub fn halls_of(&self, session: &SessionCode) -> &[HallCode]
        ensures { result.now ≡ listing.listed self.now.halls.entries session.now }
    {
        listed(&self.halls, session)
    }
}

/// What [`sitting_by_entries`] finds for the candidate. `entrants` are the members of the session. For a member it
/// reads at most one entry: that for the paper of a granted clash appeal.
pub fn sitting_among(
    facts: &Facts,
    entrants: &[Entrant],
    session: &SessionCode,
    number: Number,
) -> Option<PaperCode>
    requires { entrants.now ≡ listing.entrants (relations_of facts.now) session.now }
    ensures { result ≡ spec.sitting (relations_of facts.now) session.now number }
{
    match paper_among(entrants, number) {
        Some(least) => sitting_beside(facts, session, number, least),
        None => sitting_by_entries(facts, session, number),
    }
}

/// The least live paper of the candidate if they are among these members, whose numbers rise.
fn paper_among(entrants: &[Entrant], number: Number) -> Option<PaperCode>
    ensures found { IfSome result (λ paper. Contains entrants.now (listing.entrant number paper)) }
    ensures none_only_if_absent { IsNonDecreasingBy (λ (e : Entrant). e.number) entrants.now → IsNone result
        → All (λ (e : Entrant). e.number ≢ number) entrants.now }
{
    paper_at(entrants, place_of(entrants, number), number)
}
