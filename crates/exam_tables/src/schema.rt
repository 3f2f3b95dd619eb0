//! The tables of each version of the schema, and how an older version becomes the newest.
ghost use Rattle.std.specs.Prelude.{◌≡◌, [], ◌∷◌, false, map, IsTrue, IfOk, IfErr, OnOk};
ghost use Rattle.std.specs.Bool.{Decides};
ghost use Rattle.std.specs.List.{list_all};
ghost use Rattle.sqlite.specs.Held.{state};
ghost use Rattle.sqlite.specs.State.{HasCleanDisk, IsLive, IsUnchanged, Survives};
ghost use Rattle.sqlite_value.specs.Order.{column};
ghost use Rattle.exam_sql.specs.Made.{is_free, is_table, lists_marks, lists_tables};
ghost use Rattle.exam_sql.specs.Tables as tables;
ghost use Rattle.exam_sql.specs.Texts.{load_office};
ghost use Rattle.exam_types.specs.declared.refusal.Refusal.TheVariants.{BadStore};
ghost use Rattle.exam_tables.specs.Faults.{is_store_refusal};
ghost use Rattle.exam_tables.specs.Stored.{whole};
ghost use Rattle.exam_tables.specs.Unasked.{FailsToAsk, IsUnasked};
ghost use Rattle.exam_tables.specs.Versions.{HasOlder, HasFirst, HasNewest, HasNoRows, HasRuled};
ghost use Rattle.exam_tables.specs.Versions.{IsBlank, IsKnown, IsMade, IsVersion, Leads, version_row};
ghost use Rattle.exam_tables.specs.Parts.{LoadingBy, version_part};

use crate::columns::whole_at;
use crate::faults::refusal_of;
use crate::statements::{all_rows, run};
use crate::version::{FIRST, NEWEST, SECOND, Version};
use exam_types::Refusal;
use sqlite::types::ValueRef;
use sqlite::{Alter, Connection, Row, Transaction};
use sqlite_schema::schema::Schema;

/// Whether the database has no table, no index and no view.
pub fn is_blank<S: Alter>(conn: &Connection<S>) -> bool
    ensures { Decides result (IsBlank (state S.Store conn.now).now) }
{
    let schema = conn.schema();
    schema.tables.len() == 0 && schema.indexes.len() == 0 && schema.views.len() == 0
}

/// Whether the table of marks exists, as it does since version 2.
pub fn has_marks<S: Alter>(conn: &Connection<S>) -> bool
    ensures { result ≡ lists_marks (state S.Store conn.now).now.schema }
{
    conn.schema().table_named(b"standing").is_some()
}

/// The rows of an open database obey each rule of its schema. Does nothing.
pub fn show_rules<S: Alter>(conn: &Connection<S>)
    ensures { IsLive (state S.Store conn.now) }
{
    let _ = conn.schema();
}

/// Makes the tables in a database that has no table, index or view. They have no rows but the version.
pub fn create_tables<S: Alter>(tx: &mut Transaction<'_, S>) -> Result<(), Refusal>
    ensures same_reference { tx.new.conn.ghost_name ≡ tx.old.conn.ghost_name }
    ensures made { Leads IsBlank IsMade
        (state S.Store tx.old.conn.now) (state S.Store tx.new.conn.now) result }
{
    create_first(tx, &FIRST_TABLES)?;
    widen_tables(tx, false)
}

/// Turns the tables of an older version, whatever rows they have, into those of the newest. `has_marks` says whether
/// the table of marks exists.
pub fn widen_tables<S: Alter>(tx: &mut Transaction<'_, S>, has_marks: bool) -> Result<(), Refusal>
    ensures same_reference { tx.new.conn.ghost_name ≡ tx.old.conn.ghost_name }
    ensures made { (all : _)
        → Leads (HasOlder (state S.Store tx.old.conn.now).is_open has_marks all) (HasNewest all)
        (state S.Store tx.old.conn.now) (state S.Store tx.new.conn.now) result }
{
    add_standing(tx, has_marks)?;
    put_version(tx)
}

/// Adds the table of marks, without rows, if it does not exist.
fn add_standing<S: Alter>(tx: &mut Transaction<'_, S>, has_marks: bool) -> Result<(), Refusal>
    ensures same_reference { tx.new.conn.ghost_name ≡ tx.old.conn.ghost_name }
    ensures made { (all : _) → Leads (HasOlder (state S.Store tx.old.conn.now).is_open has_marks all)
        (HasRuled (state S.Store tx.new.conn.now).is_open all)
        (state S.Store tx.old.conn.now) (state S.Store tx.new.conn.now) result }
{
    if has_marks {
        return Ok(());
    }
    create_standing(tx)
}

/// Adds the table of marks, without rows.
fn create_standing<S: Alter>(tx: &mut Transaction<'_, S>) -> Result<(), Refusal>
    ensures same_reference { tx.new.conn.ghost_name ≡ tx.old.conn.ghost_name }
    ensures made { (is_open : _) (all : _) → Leads (HasFirst all) (HasRuled is_open all)
        (state S.Store tx.old.conn.now) (state S.Store tx.new.conn.now) result }
{
    run(
        tx,
        "CREATE TABLE standing (number INTEGER NOT NULL, ref TEXT NOT NULL, PRIMARY KEY (number, ref), FOREIGN KEY (number, ref) REFERENCES appeal (number, ref)) STRICT",
        &[],
    )
}

/// Sets the one row of the table `office`.
fn put_version<S: Alter>(tx: &mut Transaction<'_, S>) -> Result<(), Refusal>
    ensures same_reference { tx.new.conn.ghost_name ≡ tx.old.conn.ghost_name }
    ensures made { (all : _)
        → Leads (HasRuled (state S.Store tx.old.conn.now).is_open all) (HasNewest all)
        (state S.Store tx.old.conn.now) (state S.Store tx.new.conn.now) result }
{
    run(
        tx,
        "INSERT OR REPLACE INTO office (one, version) VALUES (1, ?1)",
        &[ValueRef::Int(i64::from(NEWEST.number))],
    )
}

/// The statements that make the tables of version 1, each after those to which its rows refer.
const FIRST_TABLES: [&str; 10] = [
    "CREATE TABLE office (one INTEGER NOT NULL, version INTEGER NOT NULL, PRIMARY KEY (one)) STRICT",
    "CREATE TABLE session (code TEXT NOT NULL, day TEXT NOT NULL, start INTEGER NOT NULL, PRIMARY KEY (code)) STRICT",
    "CREATE TABLE paper (code TEXT NOT NULL, title TEXT NOT NULL, session TEXT NOT NULL, minutes INTEGER NOT NULL, requires INTEGER NOT NULL, PRIMARY KEY (code), FOREIGN KEY (session) REFERENCES session (code)) STRICT",
    "CREATE TABLE hall (code TEXT NOT NULL, title TEXT NOT NULL, features INTEGER NOT NULL, PRIMARY KEY (code)) STRICT",
    "CREATE TABLE candidate (number INTEGER NOT NULL, name TEXT NOT NULL, code TEXT NOT NULL, PRIMARY KEY (number)) STRICT",
    "CREATE TABLE opening (session TEXT NOT NULL, hall TEXT NOT NULL, desks INTEGER NOT NULL, until INTEGER NOT NULL, reserved INTEGER NOT NULL, PRIMARY KEY (session, hall), FOREIGN KEY (session) REFERENCES session (code), FOREIGN KEY (hall) REFERENCES hall (code)) STRICT",
    "CREATE TABLE entry (number INTEGER NOT NULL, paper TEXT NOT NULL, live INTEGER NOT NULL, PRIMARY KEY (number, paper), FOREIGN KEY (number) REFERENCES candidate (number), FOREIGN KEY (paper) REFERENCES paper (code)) STRICT",
    "CREATE TABLE arrangement (number INTEGER NOT NULL, needs INTEGER NOT NULL, extra INTEGER NOT NULL, PRIMARY KEY (number), FOREIGN KEY (number) REFERENCES candidate (number)) STRICT",
    "CREATE TABLE appeal (number INTEGER NOT NULL, ref TEXT NOT NULL, session TEXT NOT NULL, kind INTEGER NOT NULL, target TEXT NOT NULL, needs INTEGER NOT NULL, extra INTEGER NOT NULL, reason TEXT NOT NULL, state INTEGER NOT NULL, answer TEXT, lodged TEXT NOT NULL, PRIMARY KEY (number, ref), FOREIGN KEY (number) REFERENCES candidate (number), FOREIGN KEY (session) REFERENCES session (code)) STRICT",
    "CREATE TABLE seat (session TEXT NOT NULL, number INTEGER NOT NULL, hall TEXT NOT NULL, PRIMARY KEY (session, number), FOREIGN KEY (number) REFERENCES candidate (number), FOREIGN KEY (session, hall) REFERENCES opening (session, hall)) STRICT",
];

/// Makes the tables of version 1 in an empty database, with no rows, by these statements.
fn create_first<S: Alter>(tx: &mut Transaction<'_, S>, statements: &[&str]) -> Result<(), Refusal>
    requires { map (λ s. s.now) statements.now ≡ map (λ d. d.create) tables.first_tables }
    ensures same_reference { tx.new.conn.ghost_name ≡ tx.old.conn.ghost_name }
    ensures made { Leads (HasNoRows (tables.made 0)) (HasNoRows (tables.made 10))
        (state S.Store tx.old.conn.now) (state S.Store tx.new.conn.now) result }
{
    'texts: for text in statements {
        run(tx, text, &[])?;
    }
    Ok(())
}

/// The names of these tables, in the same order.
const FIRST_NAMES: [&str; 10] = [
    "office",
    "session",
    "paper",
    "hall",
    "candidate",
    "opening",
    "entry",
    "arrangement",
    "appeal",
    "seat",
];

/// Whether the names of the tables are those of tables. A view of such a name would be read as the table is, and a
/// query on a view may have no end.
fn lists_tables<S: Alter>(conn: &Connection<S>) -> bool
    ensures { result ≡ lists_tables (state S.Store conn.now).now.schema }
{
    let schema = conn.schema();
    are_tables(schema, &FIRST_NAMES) && (has_marks(conn) || is_free(schema, "standing"))
}

/// Whether each name is that of a table of the schema.
fn are_tables(schema: &Schema, names: &[&str]) -> bool
    ensures { result ≡ list_all (λ n. is_table schema.now n.now) names.now }
{
    names
        .iter()
        .all(|name| schema.table_named(name.as_bytes()).is_some())
}

/// Whether nothing in the schema has this name.
fn is_free(schema: &Schema, name: &str) -> bool
    ensures { result ≡ is_free schema.now name.now }
{
    let name = name.as_bytes();
    schema.table_named(name).is_none()
        && schema.index_named(name).is_none()
        && schema.view_named(name).is_none()
}

/// Refuses if no statement can be run, since a failure has shut the connection, a call of the disk fails or memory runs
/// out. Reads no row.
pub fn ask_nothing<S: Alter>(conn: &mut Connection<S>) -> Result<(), Refusal>
    ensures ok { HasCleanDisk (state S.Store conn.new)
        → OnOk result (IsUnchanged (state S.Store conn.old) (state S.Store conn.new)) }
    ensures failed { HasCleanDisk (state S.Store conn.new)
        → IfErr result (FailsToAsk (state S.Store conn.old) (state S.Store conn.new)) }
    ensures survives { Survives (state S.Store conn.old) (state S.Store conn.new) (λ _. ⊥) }
    ensures ended { conn.old.in_transaction ≡ false → conn.new.in_transaction ≡ false }
    ensures told { IfErr result (λ e. IsTrue (is_store_refusal e)) }
{
    if let Err(error) = conn.prepare("SELECT 1") {
        return Err(refusal_of(error));
    }
    Ok(())
}

/// The version of the office. It is refused before any query if a table of version 1 is missing, or if the name of the
/// table of marks is that of a view or an index: with `BadStore`, or with `NoMemory` or `Store` if no statement can be
/// run. Otherwise it is refused as `Loads::load` says, with `BadStore` also if the rows of the table `office` are not
/// the one row of a version.
pub fn version_of<S: Alter>(conn: &mut Connection<S>) -> Result<Version, Refusal>
    ensures listed { OnOk result (IsTrue (lists_tables (state S.Store conn.old).now.schema)) }
    ensures unlisted { HasCleanDisk (state S.Store conn.new)
        → lists_tables (state S.Store conn.old).now.schema ≡ false
        → IfErr result (IsUnasked (state S.Store conn.old) (state S.Store conn.new)) }
    ensures reads { LoadingBy load_office S.Store conn.old conn.new result version_part }
    ensures known { IfOk result IsKnown }
{
    if !lists_tables(conn) {
        ask_nothing(conn)?;
        return Err(Refusal::BadStore);
    }
    let rows = all_rows(conn, "SELECT one, version FROM office")?;
    version_in(rows.as_slice())
}

/// The version whose one row these rows are. Refused with `BadStore` if they are something else.
fn version_in(rows: &[Row]) -> Result<Version, Refusal>
    ensures ok { IfOk result (λ version. rows.now ≡ version_row version.number ∷ []) }
    ensures known { IfOk result IsKnown }
    ensures bad { IfErr result (λ e. (e ≡ BadStore)
        × ((version : _) → IsVersion version → rows.now ≡ version_row version ∷ [] → ⊥)) }
{
    if are_version(rows, NEWEST.number) {
        Ok(NEWEST)
    } else if are_version(rows, SECOND.number) {
        Ok(SECOND)
    } else if are_version(rows, FIRST.number) {
        Ok(FIRST)
    } else {
        Err(Refusal::BadStore)
    }
}

/// Whether the rows are exactly the one row of this version.
fn are_version(rows: &[Row], version: u8) -> bool
    ensures { Decides result (rows.now ≡ version_row version ∷ []) }
{
    match rows {
        [row] => is_version(row, version),
        _ => false,
    }
}

/// Whether the columns are 1 and this version.
fn is_version(row: &Row, version: u8) -> bool
    ensures { Decides result (row.now ≡ version_row version) }
{
    row.column_count() == 2 && holds_at(row, 0, 1) && holds_at(row, 1, u32::from(version))
}

/// Whether the column holds this whole number.
fn holds_at(row: &Row, at: usize, value: u32) -> bool
    ensures { Decides result (column row.now at ≡ whole value) }
{
    match whole_at(row, at) {
        Ok(found) => found == value,
        Err(_) => false,
    }
}
