//! An office after orders, and a sheet of it.
ghost use Rattle.std.specs.Prelude.{◌≡◌, map, is_some, IfOk, OnErr, string_bytes};
ghost use Rattle.exam_types.specs.Refusals.{OnlyMemory};
ghost use Rattle.exam_rules.specs.Relations.{Code};
ghost use Rattle.exam_commands.specs.Headline.{IsSeated};
ghost use Rattle.exam_line.specs.Lines as lines;
ghost use Rattle.exam_theorem.specs.Keeping.{KeepsOn};
ghost use Rattle.exam_theorem.specs.Life.{EndsDay, FollowsDay, PassesDay, SparesDay, Stays};
ghost use Rattle.exam_theorem.specs.Orders.{sheet_asked, sheet_of, shown};
ghost use Rattle.exam_theorem.specs.Printing.{PrintsAsked};

use crate::orders::{LineEnd, LineStop, Order, Outcome, follow_all, told};
use exam_job::carry_out;
use exam_line::{Job, Line, LineFault, parse_line};
use exam_office::one_step_has_one_result;
use exam_request::requests_ask_one_thing;
use exam_store::Store;
use exam_types::Refusal;
use sqlite::Alter;
use std::alloc::Global;
use std::io::{self, Write};

/// What became of orders, and of a sheet after them.
#[derive(Drop)]
pub struct EndOfDay {
    /// What became of each order.
    pub outcomes: Vec<Outcome>,
    /// What became of the sheet.
    pub printed: LineEnd,
}

/// Follows orders in turn over the office in a store, and then prints the sheet that the words ask for. Refused only
/// with `NoMemory`, before the first order; then everything is as before. If the words ask for no sheet, nothing is
/// printed, and `printed` is `NoLine`. Whatever it answers, every session is seated as `Store::show_seated` says.
pub fn print_after<S: Alter, O: Write>(
    alloc: Global,
    store: &mut Store<S>,
    orders: &[Order<'_>],
    words: &[String],
    out: &mut O,
) -> Result<EndOfDay, Refusal>
    ensures run { IfOk result (λ day. FollowsDay (map shown orders.now) store.old day store.new) }
    ensures spares { IfOk result (λ day. SparesDay (map shown orders.now) store.old day store.new) }
    ensures passes { IfOk result (λ day. PassesDay S.Store O.contents (map shown orders.now)
        (sheet_asked (map string_bytes words.now)) store.old out.old day store.new out.new) }
    ensures headline { (s : Code) → IsSeated store.new.office s }
    ensures kept { KeepsOn S.Store store.old store.new }
    ensures one { IfOk result (λ day. EndsDay (map shown orders.now) store.old day store.new) }
    ensures memory { OnlyMemory result }
    ensures same { OnErr result ((store.new ≡ store.old) × (out.new ≡ out.old)) }
{
    // Shows the promise for a refusal here, and again after the orders.
    store.show_seated();
    let outcomes = follow_all(alloc, store, orders)?;
    let printed = print_asked(alloc, store, words, out);
    store.show_seated();
    one_step_has_one_result();
    requests_ask_one_thing();
    Ok(EndOfDay { outcomes, printed })
}

/// Prints the sheet that the words ask for.
fn print_asked<S: Alter, O: Write>(
    alloc: Global,
    store: &mut Store<S>,
    words: &[String],
    out: &mut O,
) -> LineEnd
    ensures sheet { PrintsAsked S.Store O.contents store.old store.new (sheet_asked (map string_bytes words.now))
        out.old result out.new }
    ensures office { store.new.office ≡ store.old.office }
    ensures stays { Stays S.Store store.old store.new }
    ensures kept { KeepsOn S.Store store.old store.new }
{
    match parse_line(alloc, words) {
        Ok(line) => print_line(alloc, store, &line, out),
        Err(fault) => Err(LineStop::NoLine(fault)),
    }
}

/// Prints the sheet of a line that asks for one.
fn print_line<S: Alter, O: Write>(
    alloc: Global,
    store: &mut Store<S>,
    line: &Line<'_>,
    out: &mut O,
) -> LineEnd
    ensures sheet { PrintsAsked S.Store O.contents store.old store.new (sheet_of (lines.job_shown line.now.job))
        out.old result out.new }
    ensures office { store.new.office ≡ store.old.office }
    ensures stays { Stays S.Store store.old store.new }
    ensures kept { KeepsOn S.Store store.old store.new }
{
    if is_sheet(line) {
        told(carry_out(alloc, line, store, &mut io::empty(), out))
    } else {
        Err(LineStop::NoLine(LineFault::NotUnderstood))
    }
}

/// Whether the line asks for a sheet.
fn is_sheet(line: &Line<'_>) -> bool
    ensures { result ≡ is_some (sheet_of (lines.job_shown line.now.job)) }
{
    matches!(&line.job, Job::Sheet { .. })
}
