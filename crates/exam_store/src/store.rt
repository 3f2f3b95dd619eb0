//! An office in a database.
ghost use Rattle.std.specs.Prelude.{◌≡◌, true, false, length, IsTrue, IsSome, IfOk, IfErr, OnOk, OnErr};
ghost use Rattle.std.specs.Prelude.{MatchResult};
ghost use Rattle.std.specs.Borrow.{sem, RestsIfErr};
ghost use Rattle.std.specs.Option.{option_map};
ghost use Rattle.sqlite.specs.Held.{state};
ghost use Rattle.sqlite.specs.State.{HasCleanDisk, Survives};
ghost use Rattle.sqlite.specs.Steps.{over_memory};
ghost use Rattle.exam_types.specs.declared.refusal.Refusal.TheVariants.{NoMemory, UnknownSession};
ghost use Rattle.exam_types.specs.Refusals.{OnlyMemory};
ghost use Rattle.exam_rules.specs.Relations.{Code, code_cmp, has_row};
ghost use Rattle.exam_rules.specs.Sessions.{IsSessionRefusal};
ghost use Rattle.exam_commands.specs.Good.{IsGood};
ghost use Rattle.exam_commands.specs.Headline.{IsSeated};
ghost use Rattle.exam_commands.specs.Orders.{IsInOrder};
ghost use Rattle.exam_commands.specs.Own.{own_of, shown};
ghost use Rattle.exam_commands.specs.State.{empty_state};
ghost use Rattle.exam_views.specs.Desks.{rows_without_desks};
ghost use Rattle.exam_views.specs.Sources.{Gives, is_source_refusal};
ghost use Rattle.exam_views.specs.Views.{IsViewOf, appeals_of};
ghost use Rattle.exam_sql.specs.Made.{lists_tables};
ghost use Rattle.exam_store.specs.Applied.{MayApply, Refuses, TurnsBy, Applies, AreApplied};
ghost use Rattle.exam_store.specs.Found.{FailsToOpen, Finds, MakesEmpty, RefusesCreating, RefusesOpening};
ghost use Rattle.exam_store.specs.Found.{is_open_refusal};
ghost use Rattle.exam_tables.specs.Transactions.{IsSound, Commits};
ghost use Rattle.exam_store.specs.InTurn.{FailsToRead, bound_after, rows_from, rows_to_come, store_held};
ghost use Rattle.exam_store.specs.contracts.store.Store.{the_row};
ghost use Rattle.exam_store.specs.Kept.{IsKept, KeepsOurs, Rekeeps};
ghost use Rattle.exam_store.specs.OnlyRead.{OnlyIsRead};
ghost use Rattle.exam_tables.specs.Loaded.{OnlyReads};
ghost use Rattle.exam_tables.specs.Unasked.{IsUnasked};
ghost use Rattle.exam_tables.specs.Versions.{FailsToCreate, IsBlank};

use crate::appeal_rows::{AppealRows, confirmed_row};
use crate::loading::load_version;
use crate::saving::save;
use exam_office::{AppealRow, Command, Draft, Office, Own, Reply, SessionView};
use exam_tables::{NEWEST, count_appeals, first_appeal, is_blank, save_empty, version_of};
use exam_types::{AccessCode, Day, Number, Reference, Refusal, SessionCode};
use sqlite::{Alter, Connection, MemStore};
use std::alloc::Global;
use std::marker::Model;
use std::mem;
use std::ops::Bound;

/// An office, whole in memory, and the database that has its tables. `create`, `open`, `apply` and `apply_all` use the
/// database, and so does the source that `appeals` gives; all else is answered from memory. What needs memory is
/// refused with `NoMemory` if there is not enough, and what uses the database with `Store` if a call of the database
/// fails.
pub struct Store<S: Alter> {
    conn: Connection<S>,
    office: Office,
}

impl<S: Alter> Model for Store<S> {
    ghost use Rattle.std.specs.Prelude.{◌≡◌, false};
    ghost use Rattle.exam_store.specs.Stores.{OfficeIn, office_code};

    ghost Value = { OfficeIn S };

    ghost coded = { office_code S.code };

    ghost view = { λ s. record { office = s.office; database = s.conn } };

    // No transaction is open between two calls.
    ghost invariant = { λ s. s.conn.in_transaction ≡ false };
}

impl<S: Alter + Drop> Drop for Store<S> {
    fn drop(self) {
        let Store { conn: _, office: _ } = self;
    }
}

impl Store<MemStore> {
    /// An empty office in memory. Refused only if there is not enough memory.
    pub fn in_memory(alloc: Global) -> Result<Store<MemStore>, Refusal>
        ensures office { IfOk result (λ store. store.office ≡ empty_state) }
        ensures kept { IfOk result (λ store. IsKept (state over_memory store.database) store.office
            × IsTrue (state over_memory store.database).is_open) }
        ensures good { IfOk result (λ store. IsGood store.office × IsInOrder store.office) }
        ensures memory { OnlyMemory result }
    {
        let mut conn = Connection::open_in_memory(alloc)?;
        save_empty(&mut conn)?;
        let store = Store {
            conn,
            office: Office::empty(alloc),
        };
        store.show_good();
        Ok(store)
    }
}

impl<S: Alter> Store<S> {
    /// Makes an empty office in a database that has no table, index or view, in one transaction or not at all; or opens
    /// the good office in the database as `open` does. A refusal returns the connection. It is `OldSchema` if the
    /// tables have the number of an older version, `BadStore` if the database holds something else, and `Store` also if
    /// a transaction is already open. If a failure shuts the connection while the office is made, or the machine stops
    /// then, the database has the empty office or nothing.
    pub fn create(
        alloc: Global,
        mut conn: Connection<S>,
    ) -> Result<Store<S>, (Refusal, Connection<S>)>
        ensures empty { IsBlank (state S.Store conn).now → IfOk result (λ store. store.office ≡ empty_state) }
        ensures made { IsBlank (state S.Store conn).now → MatchResult result
            (λ store. Commits (state S.Store conn) (state S.Store store.database) result MakesEmpty)
            (λ e. Commits (state S.Store conn) (state S.Store e.1) result MakesEmpty) }
        ensures found { (IsBlank (state S.Store conn).now → ⊥) → IfOk result (λ store.
            Finds (state S.Store conn) (state S.Store store.database) store.office) }
        ensures kept { IfOk result (λ store. KeepsOurs (state S.Store store.database) store.office) }
        ensures good { IfOk result (λ store. IsGood store.office × IsInOrder store.office) }
        ensures refused { IfErr result (λ e. RefusesCreating S.Store conn e.1 e.0) }
        ensures told { IfErr result (λ e. IsTrue (is_open_refusal e.0)) }
    {
        match create_office(alloc, &mut conn) {
            Ok(office) => store_of(conn, office),
            Err(refusal) => Err((refusal, conn)),
        }
    }

    /// Opens the good office in the database, and changes nothing. A refusal returns the connection. It is `OldSchema`
    /// if the tables have the number of an older version, whatever their other rows are; `BadStore` if the database
    /// holds no good office of the newest version; and `Store` also if a transaction is already open. A query that
    /// fails may undo such a transaction.
    pub fn open(
        alloc: Global,
        mut conn: Connection<S>,
    ) -> Result<Store<S>, (Refusal, Connection<S>)>
        ensures found { IfOk result (λ store.
            Finds (state S.Store conn) (state S.Store store.database) store.office) }
        ensures kept { IfOk result (λ store. KeepsOurs (state S.Store store.database) store.office) }
        ensures good { IfOk result (λ store. IsGood store.office × IsInOrder store.office) }
        ensures refused { IfErr result (λ e. RefusesOpening S.Store conn e.1 e.0) }
        ensures told { IfErr result (λ e. IsTrue (is_open_refusal e.0)) }
    {
        match load_kept(alloc, &mut conn) {
            Ok(office) => store_of(conn, office),
            Err(refusal) => Err((refusal, conn)),
        }
    }

    /// Carries out a command on a day, in one transaction, or refuses it. After a refusal the office is as before, and
    /// so are the tables as long as the connection stays open. If a failure of the database has shut it, or the machine
    /// stops after `NoMemory` or `Store`, the tables have all of the command or nothing of it. Over a connection that
    /// was shut before, each command is refused and nothing is written.
    pub fn apply(&mut self, alloc: Global, command: &Command, today: Day) -> Result<Reply, Refusal>
        ensures step { MayApply command.now today self.old.office result self.new.office }
        ensures kept { IsSound (state S.Store self.new.database) → Rekeeps self.old.office self.new.office
            (state S.Store self.old.database).now (state S.Store self.new.database).now }
        ensures made { Commits (state S.Store self.old.database) (state S.Store self.new.database) result
            (TurnsBy command.now today self.old.office) }
        ensures refusal { Refuses S.Store command.now today self.old result self.new }
        ensures shut { (state S.Store self.old.database).is_open ≡ false
            → Survives (state S.Store self.old.database) (state S.Store self.new.database) (λ _. ⊥) }
    {
        // The draft holds the office until it is saved or taken back.
        let office = mem::replace(&mut self.office, Office::empty(alloc));
        match Draft::of(alloc, office, command, today) {
            Ok(draft) => match save(alloc, &mut self.conn, &draft) {
                Ok(()) => {
                    let (office, reply) = draft.finish();
                    self.office = office;
                    Ok(reply)
                }
                Err(refusal) => {
                    self.office = draft.take_back();
                    Err(refusal)
                }
            },
            Err((refusal, office)) => {
                self.office = office;
                Err(refusal)
            }
        }
    }

    /// Applies commands in order, each on its day, and returns what each answers. A command that is refused stops none
    /// of the later ones; what it leaves is said at `apply`. The call itself refuses only with `NoMemory`, if there is
    /// not enough memory for the replies, before any command; then everything is as before. Whatever it answers, every
    /// session is seated as `show_seated` says.
    pub fn apply_all(
        &mut self,
        alloc: Global,
        commands: &[(Command, Day)],
    ) -> Result<Vec<Result<Reply, Refusal>>, Refusal>
        ensures run { IfOk result (λ replies. Applies commands.now self.old.office replies.items self.new.office) }
        ensures each { IfOk result (λ replies. AreApplied S.Store commands.now self.old replies.items self.new) }
        ensures kept { IsSound (state S.Store self.new.database) → Rekeeps self.old.office self.new.office
            (state S.Store self.old.database).now (state S.Store self.new.database).now }
        ensures was_open { IsSound (state S.Store self.new.database)
            → IsSound (state S.Store self.old.database) }
        ensures headline { (s : Code) → IsSeated self.new.office s }
        ensures memory { OnlyMemory result }
        ensures same { OnErr result (self.new ≡ self.old) }
    {
        // Shows the promise for a refusal here, and again after the commands.
        self.show_seated();
        // Make room for all replies first, so that nothing fails once a command is applied.
        let mut replies = Vec::with_capacity(alloc, commands.len())?;
        'commands: for (command, today) in commands {
            replies.push_reserved(self.apply(alloc, command, *today));
        }
        self.show_seated();
        Ok(replies)
    }

    /// In every session, each seated candidate has a fitting hall and a desk of their own, and no lawful plan seats
    /// more. Does nothing at run time.
    pub fn show_seated(&self)
        ensures { (s : Code) → IsSeated self.now.office s }
    {
        self.office.show_seated();
    }

    /// The office is good, and the keys of its tables and of its seats rise. Does nothing at run time.
    pub fn show_good(&self)
        ensures good { IsGood self.now.office }
        ensures order { IsInOrder self.now.office }
    {
        self.office.show_good();
        self.office.show_order();
    }

    /// One session with its plan. Refused with `UnknownSession` if there is no such session, and otherwise only with
    /// `NoMemory`.
    pub fn load_session(
        &mut self,
        alloc: Global,
        session: &SessionCode,
    ) -> Result<SessionView, Refusal>
        ensures ok { IfOk result (IsViewOf self.old.office session.now) }
        ensures refusal { IfErr result (IsSessionRefusal self.old.office.relations session.now) }
        ensures same { self.new ≡ self.old }
    {
        self.office.session_view(alloc, session)
    }

    /// The access code of a candidate, or none if there is no such candidate. Takes no memory.
    pub fn access_code(&self, number: Number) -> Option<AccessCode>
        ensures { result ≡ option_map (λ own. own.code) (own_of self.now.office number) }
    {
        Some(self.office.facts().candidates.get(&number)?.code)
    }

    /// What the office shows of one candidate, or none if there is no such candidate. Their desks are counted over all
    /// who sit in their sessions. Refused only with `NoMemory`.
    pub fn view_candidate(&mut self, alloc: Global, number: Number) -> Result<Option<Own>, Refusal>
        ensures ok { IfOk result (λ own. option_map shown own ≡ own_of self.old.office number) }
        ensures memory { IfErr result (λ e. (e ≡ NoMemory) × IsSome (own_of self.old.office number)) }
        ensures same { self.new ≡ self.old }
    {
        self.office.own(alloc, number)
    }

    /// What `view_candidate` shows, but with no desk in any session, also where the candidate has a hall. Counts
    /// nobody.
    pub fn view_without_desks(
        &mut self,
        alloc: Global,
        number: Number,
    ) -> Result<Option<Own>, Refusal>
        ensures ok { IfOk result (λ own. option_map shown own
            ≡ option_map rows_without_desks (own_of self.old.office number)) }
        ensures memory { IfErr result (λ e. (e ≡ NoMemory) × IsSome (own_of self.old.office number)) }
        ensures same { self.new ≡ self.old }
    {
        self.office.own_without_desks(alloc, number)
    }

    /// How many appeals the session has, and a source that gives them one by one, by candidate and reference. Refused
    /// with `UnknownSession` exactly if the office has no such session. Takes no memory, and does not ask the database
    /// yet.
    pub fn appeals(
        &mut self,
        alloc: Global,
        session: &SessionCode,
    ) -> Result<(u32, AppealRows<'_, S>), Refusal>
        ensures* refused { sem 𝓛 (RestsIfErr (the_row S.row S.Store) self.entry
            (λ r. (store_held r.1).ghost_name) result (λ last. last ≡ self.old)) }
        ensures held { IfOk result (λ r. (store_held r.1).ghost_name ≡ self.entry.ghost_name) }
        ensures same { IfOk result (λ r. (store_held r.1).now ≡ self.old) }
        ensures known { OnOk result (has_row code_cmp self.old.office.relations.sessions session.now ≡ true) }
        ensures rows { IfOk result (λ r. rows_to_come r.1 ≡ appeals_of self.old.office.relations session.now) }
        ensures count { IfOk result (λ r. r.0 ≡ length (appeals_of self.old.office.relations session.now)) }
        ensures refusal { IfErr result (λ e. (e ≡ UnknownSession)
            × (has_row code_cmp self.old.office.relations.sessions session.now ≡ false)) }
    {
        let count = count_of(&self.office, session)?;
        Ok((count, AppealRows::new(self, alloc, *session)))
    }

    /// The session's first appeal with a key from `from` on, as the database confirms it.
    pub(crate) fn read_appeal(
        &mut self,
        alloc: Global,
        session: &SessionCode,
        from: Bound<(Number, Reference)>,
    ) -> Result<Option<AppealRow>, Refusal>
        ensures row { IfOk result (λ row. Gives row (rows_from self.old.office session.now from)
            (rows_from self.old.office session.now (bound_after from row))) }
        ensures refusal { IfErr result (λ e. IsTrue (is_source_refusal e) × FailsToRead S.Store self.old self.new e) }
        ensures read { OnlyIsRead S.Store self.old self.new }
    {
        // This shows that the appeals are in the order of their keys.
        self.office.show_order();
        match first_appeal(self.office.facts(), session, from) {
            Some((key, appeal)) => confirmed_row(alloc, &mut self.conn, key, appeal),
            None => Ok(None),
        }
    }

    /// Returns the connection. Takes no memory.
    pub fn close(self) -> Connection<S>
        ensures { result ≡ self.database }
    {
        let Store { conn, office: _ } = self;
        conn
    }
}

/// How many appeals the session has.
fn count_of(office: &Office, session: &SessionCode) -> Result<u32, Refusal>
    ensures known { OnOk result (has_row code_cmp office.now.relations.sessions session.now ≡ true) }
    ensures count { IfOk result (λ count. count ≡ length (appeals_of office.now.relations session.now)) }
    ensures refusal { IfErr result (λ e. (e ≡ UnknownSession)
        × (has_row code_cmp office.now.relations.sessions session.now ≡ false)) }
{
    let facts = office.facts();
    if !facts.sessions.contains_key(session) {
        return Err(Refusal::UnknownSession);
    }
    // A good office has few appeals, so the count fits.
    office.show_good();
    let count = count_appeals(facts, session);
    Ok(count as u32)
}

/// The store of this office. Refused with `Store` if a transaction is open.
fn store_of<S: Alter>(
    conn: Connection<S>,
    office: Office,
) -> Result<Store<S>, (Refusal, Connection<S>)>
    ensures ok { IfOk result (λ store. (store.office ≡ office) × (store.database ≡ conn)
        × (conn.in_transaction ≡ false)) }
    ensures good { IfOk result (λ store. IsGood store.office × IsInOrder store.office) }
    ensures err { IfErr result (λ e. (e.0 ≡ Refusal.Store) × (e.1 ≡ conn) × IsTrue conn.in_transaction) }
{
    office.show_good();
    office.show_order();
    if conn.is_autocommit() {
        Ok(Store { conn, office })
    } else {
        Err((Refusal::Store, conn))
    }
}

/// Makes the empty office with its tables, or loads the office that exists.
fn create_office<S: Alter>(alloc: Global, conn: &mut Connection<S>) -> Result<Office, Refusal>
    ensures empty { IsBlank (state S.Store conn.old).now
        → IfOk result (λ office. (office ≡ empty_state) × (conn.new.in_transaction ≡ false)) }
    ensures made { IsBlank (state S.Store conn.old).now
        → Commits (state S.Store conn.old) (state S.Store conn.new) result MakesEmpty }
    ensures found { (IsBlank (state S.Store conn.old).now → ⊥)
        → IfOk result (Finds (state S.Store conn.old) (state S.Store conn.new)) }
    ensures kept { IfOk result (KeepsOurs (state S.Store conn.new)) }
    ensures blank { HasCleanDisk (state S.Store conn.new) → IsBlank (state S.Store conn.old).now
        → IfErr result (FailsToCreate (state S.Store conn.old) (state S.Store conn.new)) }
    ensures refusal { HasCleanDisk (state S.Store conn.new) → (IsBlank (state S.Store conn.old).now → ⊥)
        → IfErr result (FailsToOpen S.Store conn.old conn.new) }
    ensures unlisted { HasCleanDisk (state S.Store conn.new) → (IsBlank (state S.Store conn.old).now → ⊥)
        → lists_tables (state S.Store conn.old).now.schema ≡ false
        → IfErr result (IsUnasked (state S.Store conn.old) (state S.Store conn.new)) }
    ensures left { HasCleanDisk (state S.Store conn.new) → (IsBlank (state S.Store conn.old).now → ⊥)
        → OnlyReads (state S.Store conn.old) (state S.Store conn.new) result }
    ensures survives { (IsBlank (state S.Store conn.old).now → ⊥)
        → Survives (state S.Store conn.old) (state S.Store conn.new) (λ _. ⊥) }
    ensures told { IfErr result (λ e. IsTrue (is_open_refusal e)) }
{
    if !is_blank(conn) {
        return load_kept(alloc, conn);
    }
    save_empty(conn)?;
    Ok(Office::empty(alloc))
}

/// The office in the database. Refused with `OldSchema` if it is of an older version.
fn load_kept<S: Alter>(alloc: Global, conn: &mut Connection<S>) -> Result<Office, Refusal>
    ensures found { IfOk result (Finds (state S.Store conn.old) (state S.Store conn.new)) }
    ensures kept { IfOk result (KeepsOurs (state S.Store conn.new)) }
    ensures refusal { HasCleanDisk (state S.Store conn.new)
        → IfErr result (FailsToOpen S.Store conn.old conn.new) }
    ensures unlisted { HasCleanDisk (state S.Store conn.new)
        → lists_tables (state S.Store conn.old).now.schema ≡ false
        → IfErr result (IsUnasked (state S.Store conn.old) (state S.Store conn.new)) }
    ensures left { HasCleanDisk (state S.Store conn.new)
        → OnlyReads (state S.Store conn.old) (state S.Store conn.new) result }
    ensures survives { Survives (state S.Store conn.old) (state S.Store conn.new) (λ _. ⊥) }
    ensures told { IfErr result (λ e. IsTrue (is_open_refusal e)) }
{
    let version = version_of(conn)?;
    if version.number != NEWEST.number {
        return Err(Refusal::OldSchema);
    }
    load_version(alloc, conn, version)
}
