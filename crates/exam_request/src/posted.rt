//! The body of a posting.
ghost use Rattle.std.specs.Prelude.{◌≡◌, ◌<◌, false, length, nat_le, IsTrue, IsSome, IfOk, IfErr, Some, None};
ghost use Rattle.std.specs.Prelude.{option_map, if◌then◌else◌};
ghost use Rattle.json.specs.Find.{as_object};
ghost use Rattle.json.specs.Value.{value_view};
ghost use Rattle.serde_json.specs.Read.{read};
ghost use Rattle.serde_json.specs.View.{view};
ghost use Rattle.exam_types.specs.declared.refusal.Refusal.TheVariants.{NoMemory};
ghost use Rattle.exam_request.specs.Posted as spec;

use exam_rules::{Arrangement, Subject};
use exam_types::{
    Extra, Features, HallCode, PaperCode, Reason, Reference, Refusal, SessionCode, text_of,
};
use json::{Error, Scratch, Value as Tree};
use serde_json::Value;
use serde_json::error::Category;
use std::alloc::Global;

/// How many members the object of an appeal has that names one thing: `kind`, `reason`, `ref`, `session` and the thing.
const MEMBERS_WITH_ONE: usize = 5;

/// How many members the object of an appeal for an arrangement has, which names its needs and its extra time.
const MEMBERS_WITH_TWO: usize = 6;

/// What a posting lodges: the appeal of this reference, about this session.
#[derive(Drop)]
pub struct Posted {
    pub reference: Reference,
    pub session: SessionCode,
    pub subject: Subject,
    pub reason: Reason,
}

/// What a body lodges, or none if it is not the JSON object (RFC 8259) of an appeal, with exactly its members, each
/// once. Refused if memory runs out, which only a text that is not empty can cause.
pub fn posted_in(alloc: Global, body: &[u8]) -> Result<Option<Posted>, Refusal>
    ensures posted { IfOk result (λ posted. posted ≡ spec.posted_of body.now) }
    ensures memory { IfErr result (λ e. (e ≡ NoMemory) × spec.IsReadable body.now) }
{
    match text_of(body) {
        Some(text) => lodged_in(alloc, text),
        None => Ok(None),
    }
}

fn lodged_in(alloc: Global, text: &str) -> Result<Option<Posted>, Refusal>
    ensures posted { IfOk result (λ posted. posted ≡ spec.lodged_in text.now) }
    ensures memory { IfErr result (λ e. (e ≡ NoMemory) × (0 < length text.now)) }
{
    let Some(count) = members_written(alloc, text)? else {
        return Ok(None);
    };
    match value_of(alloc, text)? {
        Some(object) => lodged_by(alloc, count, &object),
        None => Ok(None),
    }
}

/// How many members an object has as it is written. A [`Value`] keeps only the last member of a name that comes twice,
/// so this counts in the tree, which keeps all of them.
fn members_written(alloc: Global, text: &str) -> Result<Option<usize>, Refusal>
    ensures count { IfOk result (λ count. count ≡ spec.members_written text.now) }
    ensures memory { IfErr result (λ e. (e ≡ NoMemory) × (0 < length text.now)) }
{
    let mut scratch = Scratch::new(alloc);
    match Tree::parse(alloc, text, &mut scratch) {
        Ok(tree) => Ok(member_count(&tree)),
        Err(Error::OutOfMemory) => Err(Refusal::NoMemory),
        Err(_) => Ok(None),
    }
}

fn member_count(tree: &Tree<'_>) -> Option<usize>
    ensures { result ≡ option_map spec.count_of (as_object (value_view tree.now)) }
{
    match tree {
        Tree::Object(members) => Some(members.len()),
        _ => None,
    }
}

/// The value that a text is.
fn value_of(alloc: Global, text: &str) -> Result<Option<Value>, Refusal>
    ensures value { IfOk result (λ value. option_map view value ≡ read text.now) }
    ensures memory { IfErr result (λ e. (e ≡ NoMemory) × (0 < length text.now)) }
{
    match Value::from_str(alloc, text) {
        Ok(value) => Ok(Some(value)),
        Err(e) => match e.classify() {
            Category::Memory => Err(Refusal::NoMemory),
            _ => Ok(None),
        },
    }
}

/// The appeal that an object of so many members lodges.
fn lodged_by(alloc: Global, count: usize, object: &Value) -> Result<Option<Posted>, Refusal>
    ensures posted { IfOk result (λ posted. posted ≡ spec.lodged_by count (view object.now)) }
    ensures memory { IfErr result (λ e. (e ≡ NoMemory) × IsSome (spec.lodged_by count (view object.now))) }
{
    let Some(reference) = reference_in(object) else {
        return Ok(None);
    };
    let Some(session) = session_in(object) else {
        return Ok(None);
    };
    let Some(subject) = subject_in(count, object) else {
        return Ok(None);
    };
    match reason_in(alloc, object)? {
        Some(reason) => Ok(Some(Posted {
            reference,
            session,
            subject,
            reason,
        })),
        None => Ok(None),
    }
}

/// What the appeal asks, in an object of as many members as its kind has.
fn subject_in(count: usize, object: &Value) -> Option<Subject>
    ensures { result ≡ spec.subject_in count (view object.now) }
{
    let kind = text_at(object, "kind")?;
    if count != members_of_kind(kind) {
        return None;
    }
    subject_of_kind(kind, object)
}

fn members_of_kind(kind: &[u8]) -> usize
    ensures { result ≡ spec.members_of_kind kind.now }
{
    if kind == b"arrangement".as_slice() {
        MEMBERS_WITH_TWO
    } else {
        MEMBERS_WITH_ONE
    }
}

fn subject_of_kind(kind: &[u8], object: &Value) -> Option<Subject>
    ensures { result ≡ spec.subject_of_kind kind.now (view object.now) }
{
    if kind == b"hall".as_slice() {
        Some(Subject::Hall(hall_in(object)?))
    } else if kind == b"clash".as_slice() {
        Some(Subject::Clash(paper_in(object)?))
    } else if kind == b"arrangement".as_slice() {
        Some(Subject::Arrangement(arrangement_in(object)?))
    } else {
        None
    }
}

fn reference_in(object: &Value) -> Option<Reference>
    ensures { result ≡ spec.reference_in (view object.now) }
{
    Reference::parse(text_at(object, "ref")?)
}

fn session_in(object: &Value) -> Option<SessionCode>
    ensures { result ≡ spec.session_in (view object.now) }
{
    SessionCode::parse(text_at(object, "session")?)
}

fn reason_in(alloc: Global, object: &Value) -> Result<Option<Reason>, Refusal>
    ensures reason { IfOk result (λ reason. reason ≡ spec.reason_in (view object.now)) }
    ensures memory { IfErr result (λ e. (e ≡ NoMemory) × IsSome (spec.reason_in (view object.now))) }
{
    match text_at(object, "reason") {
        Some(text) => Reason::parse(alloc, text),
        None => Ok(None),
    }
}

fn hall_in(object: &Value) -> Option<HallCode>
    ensures { result ≡ spec.hall_in (view object.now) }
{
    HallCode::parse(text_at(object, "hall")?)
}

fn paper_in(object: &Value) -> Option<PaperCode>
    ensures { result ≡ spec.paper_in (view object.now) }
{
    PaperCode::parse(text_at(object, "paper")?)
}

fn arrangement_in(object: &Value) -> Option<Arrangement>
    ensures { result ≡ spec.arrangement_in (view object.now) }
{
    let needs = Features::parse(text_at(object, "needs")?)?;
    let extra = extra_in(object)?;
    Some(Arrangement { needs, extra })
}

/// The extra time, if it is written with digits only.
fn extra_in(object: &Value) -> Option<Extra>
    ensures { result ≡ spec.extra_in (view object.now) }
{
    extra_of(object.get("extra").and_then(Value::as_u64)?)
}

fn extra_of(number: u64) -> Option<Extra>
    ensures { result ≡ (if nat_le number 100 then Some number else None) }
{
    Extra::new(u16::try_from(number).ok()?)
}

/// The text that the member of that name is.
fn text_at<'v>(object: &'v Value, name: &str) -> Option<&'v [u8]>
    ensures { option_map (λ text. text.now) result ≡ spec.text_at name.now (view object.now) }
{
    Some(object.get(name)?.as_str()?.as_bytes())
}
