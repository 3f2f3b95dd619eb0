//! What is done for a request, by what it asks and the candidate that it names.
ghost use Rattle.std.specs.Prelude.{◌≡◌, IfOk, IfErr, IfSome, option_map};
ghost use Rattle.exam_types.specs.declared.refusal.Refusal.TheVariants.{NoMemory};
ghost use Rattle.exam_request.specs.Asked.{request_of};
ghost use Rattle.exam_request.specs.Choices as spec;
ghost use Rattle.exam_request.specs.Posted.{IsReadable};
ghost use Rattle.exam_request.specs.Targets as targets;

use crate::fault::Fault;
use crate::methods::{allows, is_posting};
use crate::own_bodies::Page;
use crate::posted::{Posted, posted_in};
use crate::reading::Request;
use crate::routes::{Found, Route};
use crate::secret::is_secret;
use exam_commands::Lodging;
use exam_types::{AccessCode, Number, Reference, Refusal};
use std::alloc::Global;

/// What the code of a request is compared with if there is no such candidate. Showing it lets nobody in.
const CODE_OF_NOBODY: &[u8] = b"00000000";

/// The candidate that a request names, and the code that lets them in.
#[derive(Clone, Copy)]
pub struct Named {
    pub number: Number,
    pub code: AccessCode,
}

/// What is done for a request.
#[derive(Drop)]
pub enum Choice {
    /// The request is not served.
    Fault(Fault),
    /// The method of the request is none of the route's.
    OtherMethod(Route),
    /// The request is refused.
    Refused(Refusal),
    /// The candidate is shown a page.
    Show(Number, Page),
    /// The candidate lodges an appeal.
    Lodge(Lodging),
    /// The candidate takes an appeal back.
    Retract(Number, Reference),
}

/// The candidate that a target names, whether the office has one of this number or not.
pub fn candidate_of(found: &Option<Found<'_>>) -> Option<Number>
    ensures { result ≡ spec.number_named (option_map targets.target_of found.now) }
{
    match found {
        Some(found) => Number::parse(found.number),
        None => None,
    }
}

/// What is done for a request, by the candidate that it names; `found` is what its target says, and `named` is none if
/// the office does not know the candidate. A fault of the route comes first, then one of the method, then the access
/// code, then the body or the reference. Refused only with `NoMemory`, which only a text that is posted with the
/// candidate's code can cause.
pub fn choose(
    alloc: Global,
    request: &Request<'_>,
    found: Option<Found<'_>>,
    named: Option<Named>,
) -> Result<Choice, Refusal>
    requires { option_map targets.target_of found ≡ targets.reading request.now.target.now }
    ensures ok { IfOk result (λ choice. choice ≡ spec.choice_of (request_of request.now) named) }
    ensures memory { IfErr result (λ e. (e ≡ NoMemory) × spec.ReadsText (request_of request.now) named) }
{
    match found {
        Some(found) => choose_at(alloc, request, found, named),
        None => Ok(Choice::Fault(Fault::Route)),
    }
}

fn choose_at(
    alloc: Global,
    request: &Request<'_>,
    found: Found<'_>,
    named: Option<Named>,
) -> Result<Choice, Refusal>
    ensures ok { IfOk result (λ choice. choice
        ≡ spec.choice_at (request_of request.now) named (targets.target_of found.entry)) }
    ensures memory { IfErr result (λ e. (e ≡ NoMemory) × spec.ShowsCode (request_of request.now) named
        × spec.PostsText (request_of request.now) (targets.target_of found.entry)) }
{
    if allows(found.route, request.method) {
        choose_known(alloc, request, found, named)
    } else {
        Ok(Choice::OtherMethod(found.route))
    }
}

/// Compares the code first. For an unknown candidate it takes the steps that it takes for one whose code the request
/// does not show, so that the time of an answer tells as little as possible of which of the two it is.
fn choose_known(
    alloc: Global,
    request: &Request<'_>,
    found: Found<'_>,
    named: Option<Named>,
) -> Result<Choice, Refusal>
    ensures ok { IfOk result (λ choice. choice
        ≡ spec.choice_of_known (request_of request.now) (targets.target_of found.entry) named) }
    ensures memory { IfErr result (λ e. (e ≡ NoMemory) × spec.ShowsCode (request_of request.now) named
        × spec.PostsText (request_of request.now) (targets.target_of found.entry)) }
{
    let shows_code = has_code(request.code, code_of(&named));
    match named {
        Some(named) if shows_code => choose_own(alloc, request, found, named.number),
        _ => Ok(Choice::Refused(Refusal::UnknownCandidate)),
    }
}

/// The code of the candidate, or of nobody if there is none.
fn code_of(named: &Option<Named>) -> &[u8]
    ensures { IfSome named.now (λ n. result.now ≡ n.code) }
{
    match named {
        Some(named) => named.code.as_bytes(),
        None => CODE_OF_NOBODY,
    }
}

fn has_code(given: Option<&[u8]>, code: &[u8]) -> bool
    ensures { result ≡ spec.has_code (option_map (λ g. g.now) given.entry) code.now }
{
    match given {
        Some(given) => is_secret(given, code),
        None => false,
    }
}

/// What is done for a candidate who has shown their code.
fn choose_own(
    alloc: Global,
    request: &Request<'_>,
    found: Found<'_>,
    number: Number,
) -> Result<Choice, Refusal>
    ensures ok { IfOk result (λ choice. choice
        ≡ spec.choice_own (request_of request.now) number (targets.target_of found.entry)) }
    ensures memory { IfErr result (λ e. (e ≡ NoMemory)
        × spec.PostsText (request_of request.now) (targets.target_of found.entry)) }
{
    match found.route {
        Route::Seats => Ok(Choice::Show(number, Page::Seats)),
        Route::Clashes => Ok(Choice::Show(number, Page::Clashes)),
        Route::Appeals if is_posting(request.method) => lodging(alloc, number, request.body),
        Route::Appeals => Ok(Choice::Show(number, Page::Appeals)),
        Route::Appeal => Ok(retraction(number, found.reference)),
    }
}

fn lodging(alloc: Global, number: Number, body: &[u8]) -> Result<Choice, Refusal>
    ensures ok { IfOk result (λ choice. choice ≡ spec.lodging number body.now) }
    ensures memory { IfErr result (λ e. (e ≡ NoMemory) × IsReadable body.now) }
{
    match posted_in(alloc, body)? {
        Some(posted) => Ok(Choice::Lodge(lodged(number, posted))),
        None => Ok(Choice::Fault(Fault::Body)),
    }
}

fn lodged(number: Number, posted: Posted) -> Lodging
    ensures { result ≡ spec.lodged number posted }
{
    Lodging {
        number,
        reference: posted.reference,
        session: posted.session,
        subject: posted.subject,
        reason: posted.reason,
    }
}

fn retraction(number: Number, reference: &[u8]) -> Choice
    ensures { result ≡ spec.retraction number reference.now }
{
    match Reference::parse(reference) {
        Some(reference) => Choice::Retract(number, reference),
        None => Choice::Refused(Refusal::UnknownAppeal),
    }
}
