//! What turns one table into another: the rows to put and the keys to delete.
ghost use Rattle.std.specs.Prelude.{◌≡◌, ◌<◌, ◌+◌, length, map, IfOk, OnOk};
ghost use Rattle.std.specs.Map.Iter.{deref_pair};
ghost use Rattle.std.specs.Ordering.{MatchOrdering};
ghost use Rattle.exam_rules.specs.Orders.{KeysRise};
ghost use Rattle.exam_tables.specs.Differences.{AreExact, Differs, Turns, first_cmp};

use std::alloc::{AllocError, Global};
use std::cmp::Ordering;
use std::collections::BTreeMap;

/// A row of a table, by its key.
pub type Keyed<'a, K, V> = (&'a K, &'a V);

/// Rows to insert or update, and keys to delete, to turn the old table into the new one. Both are in the order of the
/// keys.
#[derive(Drop)]
pub struct Difference<'a, K, V> {
    pub put: Vec<Keyed<'a, K, V>>,
    pub delete: Vec<&'a K>,
}

/// What turns the old table into the new one. A row is put if the old table does not have its key, or has an unequal
/// value there. Refused if there is not enough memory.
pub fn difference_of<'a, K: Ord, V: PartialEq>(
    alloc: Global,
    old: &'a BTreeMap<K, V>,
    new: &'a BTreeMap<K, V>,
) -> Result<Difference<'a, K, V>, AllocError>
    ensures differs { IfOk result (λ d. Differs K.cmp V.eq old.now.entries new.now.entries
        (map deref_pair d.put.items) (map (λ key. key.now) d.delete.items)) }
    ensures turns { AreExact K.cmp V.eq → IfOk result (λ d. Turns K.cmp old.now.entries new.now.entries
        (map deref_pair d.put.items) (map (λ key. key.now) d.delete.items)) }
    ensures rise { OnOk result (KeysRise K.cmp old.now.entries × KeysRise K.cmp new.now.entries) }
{
    let old = entries_of(alloc, old)?;
    let new = entries_of(alloc, new)?;
    merge(alloc, old.as_slice(), new.as_slice())
}

/// All entries, in the order of their keys.
fn entries_of<'a, K: Ord, V>(
    alloc: Global,
    table: &'a BTreeMap<K, V>,
) -> Result<Vec<Keyed<'a, K, V>>, AllocError>
    ensures entries { IfOk result (λ entries. map deref_pair entries.items ≡ table.now.entries) }
    ensures rises { KeysRise K.cmp table.now.entries }
{
    let mut entries = Vec::with_capacity(alloc, table.len())?;
    'entries: for (key, row) in table.iter() {
        entries.push((key, row))?;
    }
    Ok(entries)
}

/// One walk over both tables, which are in the order of the keys.
fn merge<'a, K: Ord, V: PartialEq>(
    alloc: Global,
    mut old: &[Keyed<'a, K, V>],
    mut new: &[Keyed<'a, K, V>],
) -> Result<Difference<'a, K, V>, AllocError>
    requires old_rises { KeysRise K.cmp (map deref_pair old.now) }
    requires new_rises { KeysRise K.cmp (map deref_pair new.now) }
    ensures { IfOk result (λ d. Differs K.cmp V.eq (map deref_pair old.entry.now)
        (map deref_pair new.entry.now) (map deref_pair d.put.items) (map (λ key. key.now) d.delete.items)) }
{
    let mut put = Vec::new(alloc);
    let mut delete = Vec::new(alloc);
    'rows: while !old.is_empty() || !new.is_empty() {
        match first_of(old, new) {
            Ordering::Less => {
                delete.push(old[0].0)?;
                old = &old[1..];
            }
            Ordering::Greater => {
                put.push(new[0])?;
                new = &new[1..];
            }
            Ordering::Equal => {
                if old[0].1 != new[0].1 {
                    put.push(new[0])?;
                }
                old = &old[1..];
                new = &new[1..];
            }
        }
    }
    Ok(Difference { put, delete })
}

/// How the first key of the old table compares with that of the new one. An empty table compares as greater.
fn first_of<K: Ord, V>(old: &[Keyed<'_, K, V>], new: &[Keyed<'_, K, V>]) -> Ordering
    requires { 0 < length old.now + length new.now }
    ensures first { result ≡ first_cmp K.cmp (map deref_pair old.now) (map deref_pair new.now) }
    ensures bounds { MatchOrdering result (0 < length old.now)
        ((0 < length old.now) × (0 < length new.now)) (0 < length new.now) }
{
    if old.is_empty() {
        return Ordering::Greater;
    }
    if new.is_empty() {
        return Ordering::Less;
    }
    old[0].0.cmp(new[0].0)
}
