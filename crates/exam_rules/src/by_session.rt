//! A map with a list for each session.
ghost use Rattle.std.specs.Prelude.{◌≡◌, ◌++◌, ◌∷◌, [], IfOk, OnOk, IsTrue, if◌then◌else◌};
ghost use Rattle.exam_types.specs.Refusals.{OnlyMemory};
ghost use Rattle.exam_rules.specs.Relations.{Code, code_cmp, has_row, same_code};
ghost use Rattle.exam_rules.specs.Lists as listing;

use exam_types::{Refusal, SessionCode};
use std::alloc::Global;
use std::collections::BTreeMap;
use std::mem::replace;

/// A list for each session; it is empty if the map has none.
pub type BySession<T> = BTreeMap<SessionCode, Vec<T>>;

/// Appends to the session's list. Refused if there is not enough memory; the contract does not say what the lists are
/// then.
pub fn append_by_session<T: Copy + Drop>(
    alloc: Global,
    lists: &mut BySession<T>,
    session: SessionCode,
    value: T,
) -> Result<(), Refusal>
    ensures ok { OnOk result ((s : Code) → listing.listed lists.new.entries s
        ≡ (if same_code session s then listing.listed lists.old.entries s ++ value ∷ []
        else listing.listed lists.old.entries s)) }
    ensures memory { OnlyMemory result }
{
    match lists.get_mut(&session) {
        Some(list) => {
            list.push(value)?;
            Ok(())
        }
        None => {
            let list = one(alloc, value)?;
            lists.insert(session, list)?;
            Ok(())
        }
    }
}

/// A list of one value.
pub fn one<T: Copy + Drop>(alloc: Global, value: T) -> Result<Vec<T>, Refusal>
    ensures ok { IfOk result (λ list. list.items ≡ value ∷ []) }
    ensures memory { OnlyMemory result }
{
    let mut list = Vec::new(alloc);
    list.push(value)?;
    Ok(list)
}

/// The session's list, or an empty one.
pub fn listed<'a, T: Copy>(lists: &'a BySession<T>, session: &SessionCode) -> &'a [T]
    ensures { result.now ≡ listing.listed lists.now.entries session.now }
{
    match lists.get(session) {
        Some(list) => list.as_slice(),
        None => &[],
    }
}

/// Gives the session an empty list if it has none.
pub fn keep_list<T: Copy + Drop>(
    alloc: Global,
    lists: &mut BySession<T>,
    session: SessionCode,
) -> Result<(), Refusal>
    ensures same { (s : Code) → listing.listed lists.new.entries s ≡ listing.listed lists.old.entries s }
    ensures kept { OnOk result (IsTrue (has_row code_cmp lists.new.entries session)) }
    ensures stay { (s : Code) → IsTrue (has_row code_cmp lists.old.entries s)
        → IsTrue (has_row code_cmp lists.new.entries s) }
    ensures memory { OnlyMemory result }
{
    if lists.contains_key(&session) {
        return Ok(());
    }
    lists.insert(session, Vec::new(alloc))?;
    Ok(())
}

/// Replaces the session's list, and returns the old one. Takes no memory.
pub fn exchange<T: Copy + Drop>(
    lists: &mut BySession<T>,
    session: &SessionCode,
    list: Vec<T>,
) -> Vec<T>
    requires { IsTrue (has_row code_cmp lists.old.entries session.now) }
    ensures old { result.items ≡ listing.listed lists.old.entries session.now }
    ensures lists { (s : Code) → listing.listed lists.new.entries s
        ≡ (if same_code session.now s then list.items else listing.listed lists.old.entries s) }
    ensures kept { IsTrue (has_row code_cmp lists.new.entries session.now) }
    ensures stay { (s : Code) → IsTrue (has_row code_cmp lists.old.entries s)
        → IsTrue (has_row code_cmp lists.new.entries s) }
{
    match lists.get_mut(session) {
        Some(place) => replace(place, list),
        None => list,
    }
}
