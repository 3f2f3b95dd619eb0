//! The whole life of an office, from a database of any version.
ghost use Rattle.std.specs.Prelude.{◌≡◌, map, IfOk, IfErr, OnErr, string_bytes};
ghost use Rattle.sqlite.specs.Held.{state};
ghost use Rattle.exam_rules.specs.Relations.{Code};
ghost use Rattle.exam_commands.specs.Good.{IsGood};
ghost use Rattle.exam_commands.specs.Headline.{IsSeated};
ghost use Rattle.exam_theorem.specs.Life.{EndsAlike, GoesOn, HadFirst, HasItsTables, LivesFrom};
ghost use Rattle.exam_theorem.specs.Orders.{sheet_asked, shown};
ghost use Rattle.exam_theorem.specs.Resting.{HadOffice, OpensIt, RefusesCarrying, StopsWith};

use crate::orders::Order;
use crate::printing::{EndOfDay, print_after};
use exam_store::{Store, migrate};
use exam_types::Refusal;
use sqlite::{Alter, Connection};
use std::alloc::Global;
use std::io::Write;

/// Brings the office in the database to the newest version, if it is of an older one, and opens it. A refusal returns
/// the connection. The database then has the office that it had, in its old version or in the newest.
pub fn carry_over<S: Alter>(
    alloc: Global,
    mut conn: Connection<S>,
) -> Result<Store<S>, (Refusal, Connection<S>)>
    ensures had { IfOk result (λ store. HadOffice S.Store conn store) }
    ensures same { IfOk result (λ store. OpensIt S.Store conn store) }
    ensures stops { IfOk result (λ store. StopsWith (state S.Store conn) (state S.Store store.database)) }
    ensures good { IfOk result (λ store. IsGood store.office) }
    ensures refused { IfErr result (λ e. RefusesCarrying S.Store conn e.1 e.0) }
{
    match migrate(alloc, &mut conn) {
        Ok(_) => Store::open(alloc, conn),
        Err(refusal) => Err((refusal, conn)),
    }
}

/// Carries the office in the database over, follows orders in turn, and then prints the sheet that the words ask for. A
/// refusal returns the connection: there is no good office of any version, memory has run out before the first order,
/// or the database cannot be used. Then no order was followed and nothing went out, and the database has the office
/// that it had, in its old version or in the newest.
pub fn live<S: Alter, O: Write>(
    alloc: Global,
    conn: Connection<S>,
    orders: &[Order<'_>],
    words: &[String],
    out: &mut O,
) -> Result<(Store<S>, EndOfDay), (Refusal, Connection<S>)>
    ensures had { IfOk result (λ life. HadFirst S.Store conn life.0) }
    ensures lives { IfOk result (λ life. LivesFrom S.Store O.contents (map shown orders.now)
        (sheet_asked (map string_bytes words.now)) conn out.old life.1 life.0 out.new) }
    ensures headline { IfOk result (λ life. (s : Code) → IsSeated life.0.office s) }
    ensures rests { IfOk result (λ life. GoesOn S.Store conn life.0) }
    ensures one { IfOk result (λ life. EndsAlike S.Store (map shown orders.now) conn life.1 life.0) }
    ensures tables { IfOk result (λ life. HasItsTables S.Store conn life.0) }
    ensures refused { IfErr result (λ e. RefusesCarrying S.Store conn e.1 e.0) }
    ensures unsent { OnErr result (out.new ≡ out.old) }
{
    match carry_over(alloc, conn) {
        Ok(mut store) => match print_after(alloc, &mut store, orders, words, out) {
            Ok(day) => Ok((store, day)),
            Err(refusal) => Err((refusal, store.close())),
        },
        Err(refused) => Err(refused),
    }
}
