//! The rows of an import file.
ghost use Rattle.std.specs.Prelude.{◌≤◌, ◌≡◌, ◌⊎◌, ◌<◌, ◌+◌, ◌++◌, ◌∷◌, ◌==◌, [], length, true, false, Some, None};
ghost use Rattle.std.specs.Prelude.{OnOk, OnErr, IfErr, option_copied};
ghost use Rattle.std.specs.List.{find};
ghost use Rattle.std.specs.Option.{option_map_or};
ghost use Rattle.exam_commands.specs.Imports as spec;
ghost use Rattle.exam_types.specs.declared.refusal.Refusal.TheVariants as refusals;
ghost use Rattle.exam_types.specs.Refusals.{OnlyMemory};

use crate::import_row::{Key, Kind, Row};
use exam_types::Refusal;
use std::alloc::Global;
use std::collections::BTreeMap;
use std::marker::Model;

/// The rows of an import file, in the order of the file: at most 4,194,304, all of one kind.
#[derive(Drop)]
pub struct Import {
    kind: Kind,
    rows: Vec<Row>,
    /// The index of the first row with each key.
    places: BTreeMap<Key, usize>,
}

impl Model for Import {
    ghost use Rattle.std.specs.Prelude.{◌≡◌, ◌≤◌, length, true};
    ghost use Rattle.std.specs.BTreeMap.{get};
    ghost use Rattle.std.specs.List.{position_from};
    ghost use Rattle.exam_commands.specs.contracts.import_row.KeyOrd.TheImpl as keys;
    ghost use Rattle.exam_commands.specs.declared.import_row.Key.{Key};
    ghost use Rattle.exam_commands.specs.Imports.{ImportRows, AreOfKind, has_key, is_consistent, most_rows};

    ghost Value = { ImportRows };

    ghost view = { λ a. record { kind = a.kind; rows = a.rows.items } };

    ghost invariant = { λ a. (is_consistent a.rows.items ≡ true) × AreOfKind a.kind a.rows.items
        × ((k : Key) → get keys.ghosts.cmp a.places k ≡ position_from (has_key k) 0 a.rows.items)
        × (length a.rows.items ≤ most_rows) };
}

impl Import {
    /// An import of the kind with no rows. Takes no memory.
    pub fn new(alloc: Global, kind: Kind) -> Self
        ensures { result ≡ record { kind = kind; rows = [] } }
    {
        Import {
            kind,
            rows: Vec::new(alloc),
            places: BTreeMap::new(alloc),
        }
    }

    /// Appends a row. A row with the key of an earlier one but other contents is refused as a conflict; the conflict
    /// names the row's place, counted from 1. Any other row is refused only if there is not enough memory. After a
    /// refusal the import is as it was.
    pub fn push(&mut self, row: Row) -> Result<(), Refusal>
        requires kind { spec.kind_of row ≡ self.old.kind }
        requires room { length self.old.rows < spec.most_rows }
        ensures ok { OnOk result (self.new ≡ record self.old { rows = self.old.rows ++ row ∷ [] }) }
        ensures agrees { OnOk result (spec.conflicts row self.old.rows ≡ false) }
        ensures refused { IfErr result (λ e. (e ≡ refusals.NoMemory)
            ⊎ ((e ≡ refusals.RowConflict (length self.old.rows + 1))
            × (spec.conflicts row self.old.rows ≡ true))) }
        ensures memory { IfErr result
            (λ e. e ≡ refusals.NoMemory → spec.conflicts row self.old.rows ≡ false) }
        ensures err { OnErr result (self.new ≡ self.old) }
    {
        match self.first_with_key(&row) {
            Some(first) if *first == row => self.push_repeated(row),
            Some(_) => Err(Refusal::RowConflict(self.rows.len() as u32 + 1)),
            None => self.push_new(row),
        }
    }

    /// Appends a row that repeats an earlier one.
    fn push_repeated(&mut self, row: Row) -> Result<(), Refusal>
        requires kind { spec.kind_of row ≡ self.old.kind }
        requires room { length self.old.rows < spec.most_rows }
        requires repeated { find (spec.has_key (spec.key_of row)) self.old.rows ≡ Some row }
        ensures ok { OnOk result (self.new ≡ record self.old { rows = self.old.rows ++ row ∷ [] }) }
        ensures memory { OnlyMemory result }
        ensures err { OnErr result (self.new ≡ self.old) }
    {
        self.rows.push(row)?;
        Ok(())
    }

    /// Appends a row with a new key.
    fn push_new(&mut self, row: Row) -> Result<(), Refusal>
        requires kind { spec.kind_of row ≡ self.old.kind }
        requires room { length self.old.rows < spec.most_rows }
        requires new { find (spec.has_key (spec.key_of row)) self.old.rows ≡ None }
        ensures ok { OnOk result (self.new ≡ record self.old { rows = self.old.rows ++ row ∷ [] }) }
        ensures memory { OnlyMemory result }
        ensures err { OnErr result (self.new ≡ self.old) }
    {
        // Make room for the row first, so that nothing fails once its place is kept.
        self.rows.reserve(1)?;
        self.places.insert(row.key(), self.rows.len())?;
        self.rows.push(row)?;
        Ok(())
    }

    /// The first row with the key of this one.
    fn first_with_key(&self, row: &Row) -> Option<&Row>
        ensures { option_copied result ≡ find (spec.has_key (spec.key_of row.now)) self.now.rows }
    {
        let place = self.places.get(&row.key())?;
        Some(&self.rows[*place])
    }

    /// Whether the first row with the key of this one is at the place, counted from 0.
    pub fn is_first(&self, place: usize, row: &Row) -> bool
        ensures { result ≡ option_map_or (λ first. first == place)
            (spec.place_of row.now self.now.rows) false }
    {
        match self.places.get(&row.key()) {
            Some(first) => *first == place,
            None => false,
        }
    }

    pub fn kind(&self) -> Kind
        ensures { result ≡ self.now.kind }
    {
        self.kind
    }

    /// The rows, in the order of the file.
    pub fn rows(&self) -> &[Row]
        ensures value { result.now ≡ self.now.rows }
        ensures few { length result.now ≤ spec.most_rows }
        ensures consistent { spec.is_consistent result.now ≡ true }
        ensures kind { spec.AreOfKind self.now.kind result.now }
    {
        self.rows.as_slice()
    }
}
