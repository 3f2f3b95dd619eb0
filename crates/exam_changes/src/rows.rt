//! One row of a table.
ghost use Rattle.std.specs.Prelude.{◌≡◌, IsSome, IsTrue, Some, OnOk, OnErr};
ghost use Rattle.std.specs.BTreeMap.{insert_entry};
ghost use Rattle.exam_types.specs.Refusals.{OnlyMemory};
ghost use Rattle.exam_rules.specs.Orders.{KeysRise};
ghost use Rattle.exam_rules.specs.Relations.{has_row, put_row, row_at};
ghost use Rattle.exam_commands.specs.Exchanges.{set_row};

use exam_types::Refusal;
use std::collections::BTreeMap;

/// Sets a key to a row. After a refusal the rows are as before.
pub fn put<K: Ord + Copy, V: Drop>(rows: &mut BTreeMap<K, V>, key: K, row: V) -> Result<(), Refusal>
    ensures ok { OnOk result (rows.new.entries ≡ insert_entry K.cmp rows.old.entries key row) }
    ensures memory { OnlyMemory result }
    ensures err { OnErr result (rows.new.entries ≡ rows.old.entries) }
{
    rows.insert(key, row)?;
    Ok(())
}

/// Replaces the row of a key, and returns the row that it had. Takes no memory, since only a new key does.
pub fn exchange<K: Ord + Copy, V: Drop>(rows: &mut BTreeMap<K, V>, key: K, row: V) -> V
    requires { IsTrue (has_row K.cmp rows.old.entries key) }
    ensures old { row_at K.cmp rows.old.entries key ≡ Some result }
    ensures new { rows.new.entries ≡ put_row K.cmp rows.old.entries key row }
    ensures rising { KeysRise K.cmp rows.old.entries }
{
    match rows.insert(key, row) {
        Ok(old) => old.unwrap(),
        // This cannot happen: a key that has a row takes no memory.
        Err(refused) => refused.value.1,
    }
}

/// Sets a key to a row, or takes its row away. Takes no memory, since a key that is set must have a row already.
pub fn set<K: Ord + Copy, V: Drop>(rows: &mut BTreeMap<K, V>, key: K, row: Option<V>)
    requires { IsSome row → IsTrue (has_row K.cmp rows.old.entries key) }
    ensures set { rows.new.entries ≡ set_row K.cmp rows.old.entries key row }
    ensures rises { KeysRise K.cmp rows.new.entries }
{
    match row {
        Some(row) => {
            let _ = exchange(rows, key, row);
        }
        None => {
            let _ = rows.remove(&key);
        }
    }
    // The contract of `len` says that the keys rise.
    let _ = rows.len();
}
