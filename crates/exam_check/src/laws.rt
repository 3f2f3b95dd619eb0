//! Laws of the first bad table.
ghost use Rattle.std.specs.Prelude.{◌≡◌, ◌≢◌, ◌↔◌, false, Option, None};
ghost use Rattle.sqlite_trees.specs.Tree.{Trees};
ghost use Rattle.sqlite.specs.Effect.{Database};
ghost use Rattle.sqlite.specs.Held.{Held, state};
ghost use Rattle.sqlite.specs.State.{HasCleanDisk};
ghost use Rattle.exam_types.specs.declared.refusal.Refusal.{Refusal};
ghost use Rattle.exam_types.specs.declared.refusal.Refusal.TheVariants as refusal;
ghost use Rattle.exam_commands.specs.Good.{IsGood};
ghost use Rattle.exam_commands.specs.State.{State};
ghost use Rattle.exam_sql.specs.Made.{lists_newest};
ghost use Rattle.exam_tables.specs.Versions.{version};
ghost use Rattle.exam_store.specs.Found.{FailsToOpen, Finds, HoldsGood};
ghost use Rattle.exam_check.specs.FirstBad.{ContainsIfListed, IsFirstBadTable, OpensNothing};
ghost use Rattle.exam_check.specs.declared.tables.Table.{Table};

use sqlite::Alter;

/// `check` finds no bad table exactly if `Store::open` accepts, unless memory runs out or a query fails. No table is
/// bad exactly if the tables are those of the newest version and hold a good office of it. A database that was opened
/// has no bad table; if each of the eleven names is that of a table, the tables have to be this product's for that. One
/// that was refused has one, unless the refusal is 22 or 23, whatever its schema is. Where one of the names is that of
/// no table, as that of a view, nothing is opened, and the first bad table is `office`.
pub fn check_finds_nothing_exactly_where_open_accepts<S: Alter>()
    ensures good { (db : Database) (all : Trees) → IsFirstBadTable db all None ↔ HoldsGood version db all }
    ensures accepted { (old new : Held S) (office : State) (all : Trees)
        → ContainsIfListed (state S.Store old).now all
        → HasCleanDisk (state S.Store new) → Finds (state S.Store old) (state S.Store new) office → IsGood office
        → IsFirstBadTable (state S.Store old).now all None }
    ensures refused { (old new : Held S) (e : Refusal) (all : Trees) → FailsToOpen S.Store old new e
        → e ≢ refusal.NoMemory → e ≢ refusal.Store → IsFirstBadTable (state S.Store old).now all None → ⊥ }
    ensures unlisted { (old new : Held S) (office : State) (all : Trees) (found : Option Table)
        → lists_newest (state S.Store old).now.schema ≡ false
        → OpensNothing (state S.Store old) (state S.Store new) office all found }
{}
