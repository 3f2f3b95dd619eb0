//! Answers a request, by what it asks and the office.
ghost use Rattle.std.specs.Prelude.{◌≡◌, ◌⊎◌, option_and_then, option_map, IsSome, IsSomeAnd, IfOk};
ghost use Rattle.exam_types.specs.declared.refusal.Refusal.TheVariants.{NoMemory};
ghost use Rattle.exam_types.specs.Refusals.{OnlyMemory};
ghost use Rattle.exam_rules.specs.Relations.{Code};
ghost use Rattle.exam_commands.specs.Headline.{IsSeated};
ghost use Rattle.exam_commands.specs.Own.{own_of, shown};
ghost use Rattle.exam_request.specs.Answer.{ok_told, refusal_told};
ghost use Rattle.exam_request.specs.Asked.{asked_of, request_of};
ghost use Rattle.exam_request.specs.Bodies as bodies;
ghost use Rattle.exam_request.specs.Choices.{number_named};
ghost use Rattle.exam_request.specs.Targets as targets;
ghost use Rattle.exam_http.specs.Answering as spec;

use exam_office::{AppealState, Command, Own, Reply};
use exam_request::{
    Answer, Asked, Choice, Found, Named, Page, Request, candidate_of, choose, find, page_body,
    server_routes,
};
use exam_store::Store;
use exam_types::{Day, Number, Refusal};
use sqlite::Alter;
use std::alloc::Global;

/// Answers, on a day, what was asked. If memory runs out where no command was begun, the answer is 22 and nothing has
/// changed. What a lodging or a retraction leaves that is answered 22, 23 or 24 is said at `Store::apply`. Whatever the
/// answer is, every session is seated as `Store::show_seated` says.
pub fn answer<S: Alter>(
    alloc: Global,
    store: &mut Store<S>,
    today: Day,
    asked: &Asked<'_>,
) -> Answer
    ensures answers { spec.AnswersAsked S.Store today store.old (asked_of asked.now) result store.new }
    ensures headline { (s : Code) → IsSeated store.new.office s }
{
    let answer = match asked {
        Asked::Request(request) => answer_request(alloc, store, today, request),
        Asked::Fault(fault) => Answer::error(fault.number()),
    };
    store.show_seated();
    answer
}

/// Answers a request.
fn answer_request<S: Alter>(
    alloc: Global,
    store: &mut Store<S>,
    today: Day,
    request: &Request<'_>,
) -> Answer
    ensures { spec.Answers S.Store today store.old (request_of request.now) result store.new }
{
    match server_routes(alloc) {
        Ok(routes) => answer_found(alloc, store, today, request, find(&routes, request.target)),
        Err(_) => Answer::refusal(Refusal::NoMemory),
    }
}

/// Answers a request; `found` is what its target says. The access code comes first: until the request has shown it,
/// only the code is looked up, which takes no memory. So a stranger's request takes no memory here, and makes no rows
/// of a candidate.
fn answer_found<S: Alter>(
    alloc: Global,
    store: &mut Store<S>,
    today: Day,
    request: &Request<'_>,
    found: Option<Found<'_>>,
) -> Answer
    requires { option_map targets.target_of found ≡ targets.reading request.now.target.now }
    ensures { spec.AnswersFound S.Store today store.old (request_of request.now) result store.new }
{
    let named = named_by(store, &found);
    match choose(alloc, request, found, named) {
        Ok(choice) => done(alloc, store, today, choice),
        Err(refusal) => Answer::refusal(refusal),
    }
}

/// The candidate that a target names, if there is one.
fn named_by<S: Alter>(store: &Store<S>, found: &Option<Found<'_>>) -> Option<Named>
    ensures { result ≡ option_map spec.named_as (option_and_then (own_of store.now.office)
        (number_named (option_map targets.target_of found.now))) }
{
    let number = candidate_of(found)?;
    let code = store.access_code(number)?;
    Some(Named { number, code })
}

/// Does what was chosen, and answers it.
fn done<S: Alter>(alloc: Global, store: &mut Store<S>, today: Day, choice: Choice) -> Answer
    requires { spec.IsOfOffice store.old.office choice }
    ensures { spec.MayDo S.Store today store.old choice result store.new }
{
    match choice {
        Choice::Fault(fault) => Answer::error(fault.number()),
        Choice::OtherMethod(route) => Answer::other_method(route),
        Choice::Refused(refusal) => Answer::refusal(refusal),
        Choice::Show(number, page) => show(alloc, store, number, page),
        Choice::Lodge(lodging) => told(store.apply(alloc, &Command::Lodge(lodging), today)),
        Choice::Retract(number, reference) => {
            told(store.apply(alloc, &Command::Retract(number, reference), today))
        }
    }
}

/// Shows a candidate a page made from their own rows, which are made only here.
fn show<S: Alter>(alloc: Global, store: &mut Store<S>, number: Number, page: Page) -> Answer
    requires { IsSome (own_of store.old.office number) }
    ensures body { (result ≡ refusal_told NoMemory) ⊎ IsSomeAnd (own_of store.old.office number)
        (λ own. result ≡ ok_told (bodies.page_body page own)) }
    ensures same { store.new ≡ store.old }
{
    match own_page(alloc, store, number, page) {
        Ok(body) => Answer::ok(body),
        Err(refusal) => Answer::refusal(refusal),
    }
}

fn own_page<S: Alter>(
    alloc: Global,
    store: &mut Store<S>,
    number: Number,
    page: Page,
) -> Result<Vec<u8>, Refusal>
    requires { IsSome (own_of store.old.office number) }
    ensures body { IfOk result (λ body. IsSomeAnd (own_of store.old.office number)
        (λ own. body.items ≡ bodies.page_body page own)) }
    ensures memory { OnlyMemory result }
    ensures same { store.new ≡ store.old }
{
    let own = viewed(alloc, store, number, page)?.unwrap();
    page_body(alloc, page, &own)
}

/// The candidate's rows, with what the page shows of them: desks are counted only for the page that has them.
fn viewed<S: Alter>(
    alloc: Global,
    store: &mut Store<S>,
    number: Number,
    page: Page,
) -> Result<Option<Own>, Refusal>
    ensures ok { IfOk result (λ own. option_map (λ own. bodies.page_body page (shown own)) own
        ≡ option_map (bodies.page_body page) (own_of store.old.office number)) }
    ensures memory { OnlyMemory result }
    ensures same { store.new ≡ store.old }
{
    match page {
        Page::Seats => store.view_candidate(alloc, number),
        Page::Clashes | Page::Appeals => store.view_without_desks(alloc, number),
    }
}

/// The answer to a lodging or a retraction.
fn told(answered: Result<Reply, Refusal>) -> Answer
    ensures { spec.TellsReply answered result }
{
    match answered {
        Ok(Reply::Lodged(state)) => Answer::state(state),
        Ok(_) => Answer::state(AppealState::Retracted),
        Err(refusal) => Answer::refusal(refusal),
    }
}
