//! Writes inside a transaction, one after the other.
ghost use Rattle.std.specs.Prelude.{◌≡◌, ◌++◌, ℕ, List};
ghost use Rattle.sqlite.specs.Held.{state};
ghost use Rattle.exam_tables.specs.Forms.{with_put};
ghost use Rattle.exam_tables.specs.Inside.{Makes, Write};
ghost use Rattle.exam_tables.specs.Writes.{with_deleted};

use crate::differences::Keyed;
use crate::table::{Shrinks, StoredRows, delete_rows, put_rows};
use exam_types::Refusal;
use sqlite::{Alter, Transaction};

/// What is written. Two in a pair are written one after the other.
pub trait Writes {
    ghost writes: { Self → List Write };

    fn write<S: Alter>(&self, tx: &mut Transaction<'_, S>) -> Result<(), Refusal>
        ensures same_reference { tx.new.conn.ghost_name ≡ tx.old.conn.ghost_name }
        ensures made { Makes (state S.Store tx.old.conn.now) (state S.Store tx.new.conn.now) result
            (Self.writes self.now) };
}

impl<A: Writes, B: Writes> Writes for (A, B) {
    ghost writes = { λ both. A.writes both.0 ++ B.writes both.1 };

    fn write<S: Alter>(&self, tx: &mut Transaction<'_, S>) -> Result<(), Refusal> {
        self.0.write(tx)?;
        self.1.write(tx)
    }
}

/// The rows to put into a table.
#[derive(Drop)]
pub struct Puts<'a, T: StoredRows> {
    rows: &'a [Keyed<'a, T::Key, T::Value>],
}

pub fn put<'a, T: StoredRows>(rows: &'a Vec<Keyed<'a, T::Key, T::Value>>) -> Puts<'a, T>
    ensures { result.rows.now ≡ rows.now.items }
{
    Puts {
        rows: rows.as_slice(),
    }
}

impl<T: StoredRows> Writes for Puts<'_, T> {
    ghost writes = { λ put. with_put T.form put.rows.now };

    fn write<S: Alter>(&self, tx: &mut Transaction<'_, S>) -> Result<(), Refusal> {
        put_rows::<T, S>(tx, self.rows)
    }
}

/// The keys of the rows to delete from a table.
#[derive(Drop)]
pub struct Deletes<'a, T: Shrinks> {
    keys: &'a [&'a T::Key],
}

pub fn delete<'a, T: Shrinks>(keys: &'a Vec<&'a T::Key>) -> Deletes<'a, T>
    ensures { result.keys.now ≡ keys.now.items }
{
    Deletes {
        keys: keys.as_slice(),
    }
}

impl<T: Shrinks> Writes for Deletes<'_, T> {
    ghost writes = { λ delete. with_deleted T.form T.delete_text T.key_of delete.keys.now };

    fn write<S: Alter>(&self, tx: &mut Transaction<'_, S>) -> Result<(), Refusal> {
        delete_rows::<T, S>(tx, self.keys)
    }
}
