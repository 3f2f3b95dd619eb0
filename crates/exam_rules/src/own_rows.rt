//! The rows of one candidate in a table whose keys begin with a number.
ghost use Rattle.std.specs.Prelude.{◌≡◌};
ghost use Rattle.exam_rules.specs.Relations.{is_row_of, leading};

use exam_types::Number;
use std::collections::btree_map::Range;
use std::iter::Iterator;
use std::marker::Model;

/// A candidate's rows, in the order of their keys. It ends before the rows of the next number.
#[derive(Drop)]
pub struct OwnRows<'a, C, V> {
    number: Number,
    rows: Range<'a, (Number, C), V>,
    is_over: bool,
}

impl<'a, C, V> Model for OwnRows<'a, C, V> {
    ghost use Rattle.std.specs.Prelude.{List, ℕ, if◌then◌else◌, []};
    ghost use Rattle.exam_rules.specs.Relations.{is_row_of, leading};

    // The number, and the rows that are left.
    ghost Value = { ℕ × List ((ℕ × C) × V) };

    ghost view = { λ a. (a.number, if a.is_over then [] else leading (is_row_of a.number) a.rows) };
}

impl<'a, C, V> OwnRows<'a, C, V> {
    /// The rows of the number at the beginning of these.
    pub(crate) fn new(number: Number, rows: Range<'a, (Number, C), V>) -> OwnRows<'a, C, V>
        ensures { result ≡ (number, leading (is_row_of number) rows.entry) }
    {
        OwnRows {
            number,
            rows,
            is_over: false,
        }
    }
}

impl<'a, C, V> Iterator for OwnRows<'a, C, V> {
    ghost use Rattle.std.specs.Prelude.{◌≡◌, IfSome};
    ghost use Rattle.std.specs.Map.Iter.{deref_pair};
    ghost use Rattle.std.specs.Iterator.{YieldsFirstBy, item_count};

    type Item = (&'a (Number, C), &'a V);

    ghost next_gives = { λ s r t. YieldsFirstBy deref_pair (λ a. a.1) s r t × (t.0 ≡ s.0)
        × IfSome r (λ x. x.0.now.0 ≡ s.0) };

    ghost remaining = { item_count (λ a. a.1) };

    fn next(&mut self) -> Option<(&'a (Number, C), &'a V)> {
        if !self.is_over {
            if let Some((key, row)) = self.rows.next() {
                if key.0 == self.number {
                    return Some((key, row));
                }
            }
        }
        self.is_over = true;
        None
    }
}
