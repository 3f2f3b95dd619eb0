//! A table of the office.
ghost use Rattle.std.specs.Prelude.{◌≡◌, ℕ, List, [], ◌∷◌, map};
ghost use Rattle.sqlite.specs.Held.{state};
ghost use Rattle.sqlite_value.specs.Order.{Row as Columns};
ghost use Rattle.exam_tables.specs.Forms.{Form, IsOurTable, row_put, with_put};
ghost use Rattle.exam_tables.specs.Inside.{Makes, delete_of};
ghost use Rattle.exam_tables.specs.Reading.{MayRead, WantsMemoryOfRow};

use crate::differences::Keyed;
use exam_types::Refusal;
use sqlite::{Alter, Row, Transaction};
use std::alloc::Global;

/// How the rows of a table are put and read.
///
/// A row is put by its whole key, whether it exists or not. A row that others may refer to is changed in place: if it
/// were replaced, it would be deleted first, and SQLite would look for its key in each table that refers to it, mostly
/// without an index.
pub trait StoredRows {
    type Key: Ord + Drop;

    type Value: PartialEq + Drop;

    /// How its rows are stored.
    ghost form: { Form Self.Key Self.Value };

    /// The statement that shows all rows.
    fn load_text() -> &'static str
        ensures { result.now ≡ form.load };

    /// Sets the row with this key. Takes no memory of its own.
    fn put<'a, S: Alter>(
        tx: &mut Transaction<'_, S>,
        key: &'a Self::Key,
        value: &'a Self::Value,
    ) -> Result<(), Refusal>
        ensures same_reference { tx.new.conn.ghost_name ≡ tx.old.conn.ghost_name }
        ensures made { Makes (state S.Store tx.old.conn.now) (state S.Store tx.new.conn.now) result
            (row_put form key.now value.now ∷ []) };

    /// The key and the value that this row shows. Refused with `BadStore` if it is not the stored form of any, and with
    /// `NoMemory` only if a column is a name or a reason, which is copied.
    fn read(alloc: Global, row: &Row) -> Result<(Self::Key, Self::Value), Refusal>
        ensures read { MayRead (λ p. form.IsRow p.0 p.1) (λ p. form.row p.0 p.1) row.now result }
        ensures memory { WantsMemoryOfRow row.now result };

    /// What the texts of all tables have in common.
    ghost ours: { IsOurTable Self.Key.cmp form };
}

/// A table that can lose rows. No command deletes a row of any other table.
pub trait Shrinks: StoredRows {
    /// The statement that deletes a row, and the columns of its key.
    ghost delete_text: { List ℕ };

    ghost key_of: { Self.Key → Columns };

    /// Deletes the row with this key, if there is one.
    fn delete<S: Alter>(tx: &mut Transaction<'_, S>, key: &Self::Key) -> Result<(), Refusal>
        ensures same_reference { tx.new.conn.ghost_name ≡ tx.old.conn.ghost_name }
        ensures made { Makes (state S.Store tx.old.conn.now) (state S.Store tx.new.conn.now) result
            (delete_of Self.delete_text Self.form.tree Self.form.places (Self.key_of key.now) ∷ []) };
}

/// Sets these rows.
pub fn put_rows<T: StoredRows, S: Alter>(
    tx: &mut Transaction<'_, S>,
    rows: &[Keyed<'_, T::Key, T::Value>],
) -> Result<(), Refusal>
    ensures same_reference { tx.new.conn.ghost_name ≡ tx.old.conn.ghost_name }
    ensures made { Makes (state S.Store tx.old.conn.now) (state S.Store tx.new.conn.now) result
        (with_put T.form rows.now) }
{
    'rows: for row in rows {
        T::put(tx, row.0, row.1)?;
    }
    Ok(())
}

/// Deletes the rows with these keys.
pub fn delete_rows<T: Shrinks, S: Alter>(
    tx: &mut Transaction<'_, S>,
    keys: &[&T::Key],
) -> Result<(), Refusal>
    ensures same_reference { tx.new.conn.ghost_name ≡ tx.old.conn.ghost_name }
    ensures made { Makes (state S.Store tx.old.conn.now) (state S.Store tx.new.conn.now) result
        (map (λ key. delete_of T.delete_text T.form.tree T.form.places (T.key_of key.now)) keys.now) }
{
    'keys: for key in keys {
        T::delete(tx, key)?;
    }
    Ok(())
}
