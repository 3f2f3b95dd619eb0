//! The order of the desks in a hall.
ghost use Rattle.std.specs.Prelude.{◌≡◌, ◌≤◌, length, map, count_by, IsSorted, IfOk};
ghost use Rattle.std.specs.Ordering.{is_lt};
ghost use Rattle.exam_types.specs.Refusals.{OnlyMemory};
ghost use Rattle.exam_plan.specs.Problems.{most_members};
ghost use Rattle.exam_rules.specs.declared.listing.Entrant.{Entrant};
ghost use Rattle.exam_rules.specs.Relations.{relations_of};
ghost use Rattle.exam_rules.specs.Lists as listing;
ghost use Rattle.exam_rules.specs.Seatings as seatings;

use crate::facts::Facts;
use crate::listing::{Entrant, sitting_among};
use crate::sessions::sitting_beside;
use exam_types::{Number, PaperCode, Refusal, SessionCode};
use std::alloc::Global;

/// What the order of desks compares: the sitting paper, and then the number.
pub type DeskKey = (Option<PaperCode>, Number);

/// The key of the candidate. `entrants` are the members of the session. For a member it reads at most one entry: that
/// for the paper of a granted clash appeal.
pub fn desk_key_among(
    facts: &Facts,
    entrants: &[Entrant],
    session: &SessionCode,
    number: Number,
) -> DeskKey
    requires { entrants.now ≡ listing.entrants (relations_of facts.now) session.now }
    ensures { result ≡ seatings.desk_key (relations_of facts.now) session.now number }
{
    (sitting_among(facts, entrants, session, number), number)
}

/// The keys of these members.
pub fn entrant_keys(
    alloc: Global,
    facts: &Facts,
    session: &SessionCode,
    entrants: &[Entrant],
) -> Result<Vec<DeskKey>, Refusal>
    requires { entrants.now ≡ listing.entrants (relations_of facts.now) session.now }
    ensures ok { IfOk result (λ keys. keys.items
        ≡ map (seatings.desk_key (relations_of facts.now) session.now)
        (map (λ (entrant : Entrant). entrant.number) entrants.now)) }
    ensures memory { OnlyMemory result }
{
    let mut keys = Vec::with_capacity(alloc, entrants.len())?;
    for entrant in entrants {
        let sat = sitting_beside(facts, session, entrant.number, entrant.paper);
        keys.push((sat, entrant.number))?;
    }
    Ok(keys)
}

/// Whether the first key comes before the other.
pub fn comes_before(key: &DeskKey, other: &DeskKey) -> bool
    ensures { result ≡ is_lt (seatings.desk_cmp key.now other.now) }
{
    *key < *other
}

/// For each key, how many keys are less.
pub fn ranks(alloc: Global, keys: &[DeskKey]) -> Result<Vec<u32>, Refusal>
    requires { length keys.now ≤ most_members }
    ensures ok { IfOk result (λ ranks. ranks.items ≡ seatings.ranks_of keys.now) }
    ensures memory { OnlyMemory result }
{
    let mut sorted = Vec::from_slice(alloc, keys)?;
    sorted.sort()?;
    let mut ranks = Vec::new(alloc);
    for key in keys {
        ranks.push(place_in(&sorted, key))?;
    }
    Ok(ranks)
}

/// How many keys of a sorted list are less than a key.
fn place_in(sorted: &[DeskKey], key: &DeskKey) -> u32
    requires few { length sorted.now ≤ most_members }
    requires sorted { IsSorted seatings.desk_cmp sorted.now }
    ensures { result ≡ count_by (λ other. is_lt (seatings.desk_cmp other key.now)) sorted.now }
{
    sorted.partition_point(|other| comes_before(other, key)) as u32
}
