//! Who belongs to a session, which paper each sits, and under which arrangement.
ghost use Rattle.std.specs.Prelude.{◌≡◌, ◌↔◌, [], None, Some, filter, codes, Contains, IsTrue, if◌then◌else◌};
ghost use Rattle.std.specs.BTreeMap.Range.{entries_between};
ghost use Rattle.std.specs.declared.ops.Bound.TheVariants.{Unbounded, Excluded};
ghost use Rattle.exam_rules.specs.Relations.{Code, relations_of, entry_cmp, is_row_of};
ghost use Rattle.exam_rules.specs.Sessions as spec;

use crate::appeals::{granted_arrangement, granted_paper};
use crate::facts::Facts;
use crate::own_rows::OwnRows;
use crate::rows::{Arrangement, Entry};
use crate::standing::standing_arrangement;
use exam_types::{Extra, Features, Number, PaperCode, SessionCode};

/// The least paper code, with which a candidate's entries begin.
fn least_paper() -> PaperCode
    ensures { result ≡ codes "-" }
{
    PaperCode::parse(b"-").unwrap()
}

/// The candidate has no entry before the least key. Only the proof of `entries_of` uses it.
fn no_entry_before(facts: &Facts, number: Number, least: PaperCode)
    requires { least ≡ codes "-" }
    ensures { filter (is_row_of number)
        (entries_between entry_cmp Unbounded (Excluded (number, least)) facts.now.entries.entries) ≡ [] }
{
    match facts.entries.range(..(number, least)).next_back() {
        Some((key, _)) => {
            // Reading the bytes shows that no code is less, so the row before is another candidate's.
            let _code = key.1.as_bytes();
        }
        None => {}
    }
}

/// The candidate's entries, by paper.
pub fn entries_of<'a>(facts: &'a Facts, number: Number) -> OwnRows<'a, PaperCode, Entry>
    ensures rows { result ≡ (number, filter (is_row_of number) facts.now.entries.entries) }
    ensures live { (s : Code)
        → spec.live_papers_in (relations_of facts.now) result.1 s number
        ≡ spec.live_papers (relations_of facts.now) s number }
{
    let least = least_paper();
    no_entry_before(facts, number, least);
    OwnRows::new(number, facts.entries.range((number, least)..))
}

/// Whether the paper exists and is of the session.
pub fn is_paper_of(facts: &Facts, session: &SessionCode, paper: &PaperCode) -> bool
    ensures { result ≡ spec.is_paper_of (relations_of facts.now) session.now paper.now }
{
    match facts.papers.get(paper) {
        Some(row) => row.session == *session,
        None => false,
    }
}

/// Whether the candidate has a live entry for the paper, and it is of the session.
pub fn is_live_paper(
    facts: &Facts,
    session: &SessionCode,
    number: Number,
    paper: &PaperCode,
) -> bool
    ensures { result ≡ spec.is_live_paper (relations_of facts.now) session.now number paper.now }
{
    match facts.entries.get(&(number, *paper)) {
        Some(entry) => entry.live && is_paper_of(facts, session, paper),
        None => false,
    }
}

/// The least paper of the session for which the candidate has a live entry.
pub fn least_live_paper(facts: &Facts, session: &SessionCode, number: Number) -> Option<PaperCode>
    ensures { result ≡ spec.least_live_paper (relations_of facts.now) session.now number }
{
    for (key, row) in entries_of(facts, number) {
        if row.live && is_paper_of(facts, session, &key.1) {
            return Some(key.1);
        }
    }
    None
}

/// Whether the number has a live entry for a paper of the session. In an office every entry has a candidate.
pub fn has_live_entry(facts: &Facts, session: &SessionCode, number: Number) -> bool
    ensures { result ≡ spec.has_live_entry (relations_of facts.now) session.now number }
{
    least_live_paper(facts, session, number).is_some()
}

/// Whether the number is that of a candidate who has a live entry for a paper of the session.
pub fn is_member(facts: &Facts, session: &SessionCode, number: Number) -> bool
    ensures value { result ≡ spec.is_member (relations_of facts.now) session.now number }
    ensures listed { IsTrue result ↔ Contains (spec.members (relations_of facts.now) session.now) number }
{
    facts.candidates.contains_key(&number) && has_live_entry(facts, session, number)
}

/// The paper of the candidate's granted clash appeal, where it is live and of this session.
fn granted_sitting(facts: &Facts, session: &SessionCode, number: Number) -> Option<PaperCode>
    ensures { result ≡ spec.option_filter (spec.is_live_paper (relations_of facts.now) session.now number)
        (spec.granted_paper (relations_of facts.now) session.now number) }
{
    let paper = granted_paper(facts, session, number)?;
    if is_live_paper(facts, session, number, &paper) {
        Some(paper)
    } else {
        None
    }
}

/// The paper that the member sits: that of the granted clash appeal if it is live and of this session, otherwise the
/// least live one. None for a number that is no member's.
pub fn sitting(facts: &Facts, session: &SessionCode, number: Number) -> Option<PaperCode>
    ensures { result ≡ (if spec.is_member (relations_of facts.now) session.now number
        then spec.sitting (relations_of facts.now) session.now number else None) }
{
    if is_member(facts, session, number) {
        sitting_by_entries(facts, session, number)
    } else {
        None
    }
}

/// The paper that a candidate sits. Does not look whether the number is a candidate's: it is for callers who know that,
/// and goes by entries and appeals alone.
pub fn sitting_by_entries(facts: &Facts, session: &SessionCode, number: Number) -> Option<PaperCode>
    ensures { result ≡ spec.sitting (relations_of facts.now) session.now number }
{
    match granted_sitting(facts, session, number) {
        Some(paper) => Some(paper),
        None => least_live_paper(facts, session, number),
    }
}

/// The paper that a candidate sits, if `least` is their least live paper in the session. Does not search for `least`.
pub fn sitting_beside(
    facts: &Facts,
    session: &SessionCode,
    number: Number,
    least: PaperCode,
) -> Option<PaperCode>
    ensures { spec.least_live_paper (relations_of facts.now) session.now number ≡ Some least
        → result ≡ spec.sitting (relations_of facts.now) session.now number }
{
    match granted_sitting(facts, session, number) {
        Some(paper) => Some(paper),
        None => Some(least),
    }
}

/// The arrangement in force: the one granted for the session; otherwise that of the candidate's standing
/// grant of the latest date, and then of the greatest session code, among those whose date is not later than the
/// session's; otherwise the imported one; otherwise no needs and no extra time.
pub fn arrangement_in_force(facts: &Facts, session: &SessionCode, number: Number) -> Arrangement
    ensures { result ≡ spec.arrangement_in_force (relations_of facts.now) session.now number }
{
    if let Some(arrangement) = granted_arrangement(facts, session, number) {
        return arrangement;
    }
    if let Some(arrangement) = standing_arrangement(facts, session, number) {
        return arrangement;
    }
    match facts.arrangements.get(&number) {
        Some(arrangement) => *arrangement,
        None => Arrangement {
            needs: Features::none(),
            extra: no_extra(),
        },
    }
}

/// No extra time.
fn no_extra() -> Extra
    ensures { result ≡ 0 }
{
    Extra::new(0).unwrap()
}

/// Whether this live paper is not the one that is sat; yes if none is sat.
pub fn is_clash(sat: &Option<PaperCode>, paper: &PaperCode) -> bool
    ensures { result ≡ spec.is_clash sat.now paper.now }
{
    match sat {
        Some(other) => *other != *paper,
        None => true,
    }
}
