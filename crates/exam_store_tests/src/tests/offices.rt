//! Offices in memory as statements make them.
use exam_store::Store;
use sqlite::{Connection, MemStore};
use std::alloc::Global;
use std::test::Fail;

/// The connection to a closed office in memory.
pub type InMemory = Connection<MemStore>;

/// Runs statements over a connection.
pub fn after(conn: InMemory, sql: &str) -> Result<InMemory, Fail> {
    let mut conn = conn;
    conn.execute_batch(sql)?;
    Ok(conn)
}

/// A closed empty office.
pub fn empty_office(alloc: Global) -> Result<InMemory, Fail> {
    Ok(Store::in_memory(alloc)?.close())
}

/// A closed office after these statements.
pub fn office_of(alloc: Global, statements: &[&str]) -> Result<InMemory, Fail> {
    let mut conn = empty_office(alloc)?;
    for sql in statements {
        conn = after(conn, sql)?;
    }
    Ok(conn)
}

/// Opens the office, or gives the number of the refusal. It is dear to prove, as each call that takes a connection in
/// memory for one of any kind.
fn opening(alloc: Global, conn: InMemory) -> Result<Store<MemStore>, u16> {
    match Store::open(alloc, conn) {
        Ok(store) => Ok(store),
        Err((refusal, conn)) => {
            drop(conn);
            Err(refusal.number())
        }
    }
}

/// Opens the office.
pub fn opened(alloc: Global, conn: InMemory) -> Result<Store<MemStore>, Fail> {
    match opening(alloc, conn) {
        Ok(store) => Ok(store),
        Err(number) => Err(Fail::new(number)),
    }
}

/// The number of the refusal of opening what this connection holds, or 0 if it is opened.
pub fn refusal_of_opening(alloc: Global, conn: InMemory) -> u16 {
    match opening(alloc, conn) {
        Ok(store) => {
            drop(store);
            0
        }
        Err(number) => number,
    }
}
