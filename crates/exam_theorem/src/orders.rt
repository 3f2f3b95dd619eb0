//! What comes in, and what becomes of it.
ghost use Rattle.std.specs.Prelude.{◌≡◌, map, IfOk, IsTrue, OnErr, string_bytes};
ghost use Rattle.exam_types.specs.Refusals.{OnlyMemory};
ghost use Rattle.exam_rules.specs.Relations.{Code};
ghost use Rattle.exam_commands.specs.Headline.{IsSeated};
ghost use Rattle.exam_line.specs.Lines as lines;
ghost use Rattle.exam_theorem.specs.Following as spec;
ghost use Rattle.exam_theorem.specs.Keeping.{KeepsOn};
ghost use Rattle.exam_theorem.specs.Life.{ArePassed, HasJobDays, LeadsTo, OwnRowsDecide};
ghost use Rattle.exam_theorem.specs.Orders.{command_of, of_line, of_request, shown};
ghost use Rattle.exam_theorem.specs.Requests.{FollowsRequest};
ghost use Rattle.exam_theorem.specs.Resting.{Settles};

use exam_http::{HttpFault, serve_one};
use exam_job::{JobFault, carry_out};
use exam_line::{Line, LineFault, parse_line};
use exam_office::{lodging_and_retracting_move_nobody, one_step_has_one_result};
use exam_request::{choices_are_of_who_shows_the_code, requests_ask_one_thing};
use exam_store::{Store, offices_have_days};
use exam_types::{Day, Refusal};
use sqlite::Alter;
use std::alloc::Global;
use std::io;

/// What comes in.
#[derive(Clone, Copy)]
pub enum Order<'o> {
    /// The words of a command line, the program's name first, and the bytes of the file that it imports, if it imports
    /// one.
    Line { words: &'o [String], file: &'o [u8] },
    /// The bytes of a request over HTTP, and the day on which it comes in.
    Request { bytes: &'o [u8], today: Day },
}

/// Why a command line was not carried out.
#[derive(Drop)]
pub enum LineStop {
    /// The words are no line: they are not understood, they ask for help or for the version, or memory ran out.
    NoLine(LineFault),
    /// The line was not carried out, or what it prints was not written.
    Job(JobFault),
}

/// What became of a command line.
pub type LineEnd = Result<(), LineStop>;

/// What became of a request: the bytes of its answer, or why they are not complete.
#[derive(Drop)]
pub struct Answered {
    pub served: Result<(), HttpFault>,
    pub answer: Vec<u8>,
}

/// What became of an order.
#[derive(Drop)]
pub enum Outcome {
    Line(LineEnd),
    Request(Answered),
}

/// Follows orders in turn, and returns what became of each. Refused if memory runs out before the first order; then
/// everything is as before.
pub fn follow_all<S: Alter>(
    alloc: Global,
    store: &mut Store<S>,
    orders: &[Order<'_>],
) -> Result<Vec<Outcome>, Refusal>
    ensures run { IfOk result (λ outcomes.
        spec.AreFollowed (map shown orders.now) store.old.office outcomes.items store.new.office) }
    ensures spares { IfOk result (λ outcomes. spec.EachSparesOthers (map shown orders.now) store.old.office
        outcomes.items store.new.office) }
    ensures passes { IfOk result (λ outcomes.
        ArePassed S.Store (map shown orders.now) store.old outcomes.items store.new) }
    ensures kept { KeepsOn S.Store store.old store.new }
    ensures memory { OnlyMemory result }
    ensures same { OnErr result (store.new ≡ store.old) }
{
    // Make room for all outcomes first, so that nothing fails once an order is followed.
    let mut outcomes = Vec::with_capacity(alloc, orders.len())?;
    'orders: for order in orders {
        outcomes.push_reserved(follow(alloc, store, order));
    }
    Ok(outcomes)
}

/// Follows one order.
fn follow<S: Alter>(alloc: Global, store: &mut Store<S>, order: &Order<'_>) -> Outcome
    ensures follows { spec.Follows (shown order.now) store.old.office result store.new.office }
    ensures spares { spec.Spares (shown order.now) store.old.office store.new.office }
    ensures own { OwnRowsDecide (shown order.now) store.old.office result }
    ensures settles { Settles S.Store (spec.MeetsFailure result) (LeadsTo (shown order.now) store.old.office)
        store.old store.new }
    ensures headline { (s : Code) → IsSeated store.new.office s }
    ensures kept { KeepsOn S.Store store.old store.new }
{
    let outcome = match *order {
        Order::Line { words, file } => Outcome::Line(follow_words(alloc, store, words, file)),
        Order::Request { bytes, today } => {
            Outcome::Request(follow_request(alloc, store, bytes, today))
        }
    };
    store.show_seated();
    outcome
}

/// Follows the words of a command line.
fn follow_words<S: Alter>(
    alloc: Global,
    store: &mut Store<S>,
    words: &[String],
    file: &[u8],
) -> LineEnd
    ensures follows { spec.FollowsWords (map string_bytes words.now) file.now store.old.office result
        store.new.office }
    ensures spares { spec.Spares (of_line (map string_bytes words.now) file.now) store.old.office store.new.office }
    ensures own { OwnRowsDecide (of_line (map string_bytes words.now) file.now) store.old.office
        (Outcome.Line result) }
    ensures settles { Settles S.Store (IsTrue (spec.is_failure result))
        (LeadsTo (of_line (map string_bytes words.now) file.now) store.old.office) store.old store.new }
    ensures kept { KeepsOn S.Store store.old store.new }
{
    match parse_line(alloc, words) {
        Ok(line) => follow_line(alloc, store, line, file),
        Err(fault) => Err(LineStop::NoLine(fault)),
    }
}

/// Follows a line with the file that it imports. The output of the line is discarded.
fn follow_line<S: Alter>(
    alloc: Global,
    store: &mut Store<S>,
    line: Line<'_>,
    mut file: &[u8],
) -> LineEnd
    ensures follows { spec.FollowsCommand (command_of (lines.job_shown line.entry.job) file.entry.now)
        line.entry.today store.old.office result store.new.office }
    ensures settles { HasJobDays (lines.job_shown line.entry.job) → Settles S.Store (IsTrue (spec.is_failure result))
        (λ at. (end : spec.LineEnd) × spec.FollowsCommand (command_of (lines.job_shown line.entry.job) file.entry.now)
        line.entry.today store.old.office end at) store.old store.new }
    ensures kept { KeepsOn S.Store store.old store.new }
{
    // A command has one result, and leaves the days of sessions and appeals between 2000 and 2199, as its own day is.
    one_step_has_one_result();
    offices_have_days();
    let _ = line.today.number();
    told(carry_out(alloc, &line, store, &mut file, &mut io::sink()))
}

/// What became of a line that was read.
pub fn told(job: Result<(), JobFault>) -> LineEnd
    ensures { result ≡ spec.told job }
{
    match job {
        Ok(()) => Ok(()),
        Err(fault) => Err(LineStop::Job(fault)),
    }
}

/// Follows a request, and keeps its answer.
fn follow_request<S: Alter>(
    alloc: Global,
    store: &mut Store<S>,
    mut bytes: &[u8],
    today: Day,
) -> Answered
    ensures follows { FollowsRequest bytes.entry.now today store.old.office result store.new.office }
    ensures spares { spec.Spares (of_request bytes.entry.now today) store.old.office store.new.office }
    ensures own { OwnRowsDecide (of_request bytes.entry.now today) store.old.office (Outcome.Request result) }
    ensures settles { Settles S.Store (spec.IsFailureOf result.served result.answer.items)
        (LeadsTo (of_request bytes.entry.now today) store.old.office) store.old store.new }
    ensures kept { KeepsOn S.Store store.old store.new }
{
    // A command has one result, so the office that the tables keep is the one that it led to.
    one_step_has_one_result();
    // It leaves the days of sessions and appeals between 2000 and 2199, as its own day is.
    offices_have_days();
    let _ = today.number();
    // In a good office a lodging and a retraction move nobody.
    lodging_and_retracting_move_nobody();
    store.show_good();
    // The bytes ask one thing, and what they ask is for the candidate whom they name.
    requests_ask_one_thing();
    choices_are_of_who_shows_the_code();
    let mut answer = Vec::new(alloc);
    let served = serve_one(alloc, store, today, &mut bytes, &mut answer);
    Answered { served, answer }
}
