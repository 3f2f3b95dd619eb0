//! What an appeal asks for, and its state, as columns of its row.
ghost use Rattle.std.specs.Prelude.{◌≡◌, ◌<◌, ◌≤◌, ◌+◌, ◌^◌, pos, List, [], ◌∷◌, length, IsTrue, OnOk, IfErr};
ghost use Rattle.sqlite_value.specs.Value.{owned};
ghost use Rattle.sqlite_value.specs.Order.{column};
ghost use Rattle.sqlite_value.specs.declared.value.Value.TheVariants.{Null, Text};
ghost use Rattle.exam_types.specs.Codes.{is_hall_code, is_paper_code};
ghost use Rattle.exam_types.specs.Features.{greatest_sum};
ghost use Rattle.exam_types.specs.Numbers.{IsExtra};
ghost use Rattle.exam_types.specs.Texts.{is_reason};
ghost use Rattle.exam_types.specs.declared.refusal.Refusal.TheVariants.{BadStore};
ghost use Rattle.std.specs.Bool.{Decides};
ghost use Rattle.exam_tables.specs.Reading.{Reads, MayRead, WantsMemoryOf};
ghost use Rattle.exam_tables.specs.Stored as stored;
ghost use Rattle.exam_tables.specs.Stored.{IsSubject, IsAnswer, IsStatus};

use crate::columns::{
    extra_at, features_at, hall_code_at, paper_code_at, reason_at, text_at, whole_at,
};
use exam_rules::{Arrangement, Status, Subject};
use exam_types::{HallCode, PaperCode, Reason, Refusal};
use sqlite::Row;
use sqlite::types::ValueRef;
use std::alloc::Global;

/// 1 for a hall, 2 for a clash, 3 for an arrangement.
pub fn kind_number(subject: &Subject) -> i64
    ensures { result ≡ pos (stored.kind_number subject.now) }
{
    match subject {
        Subject::Hall(_) => 1,
        Subject::Clash(_) => 2,
        Subject::Arrangement(_) => 3,
    }
}

/// The code of the hall or the paper; empty for an arrangement.
pub fn target_of(subject: &Subject) -> &[u8]
    ensures { result.now ≡ stored.target_of subject.now }
{
    match subject {
        Subject::Hall(hall) => hall.as_bytes(),
        Subject::Clash(paper) => paper.as_bytes(),
        Subject::Arrangement(_) => b"",
    }
}

/// The sum of the needs; 0 if the appeal asks for no arrangement.
pub fn needs_of(subject: &Subject) -> u32
    ensures value { result ≡ stored.needs_of subject.now }
    ensures range { result ≤ greatest_sum }
{
    match subject {
        Subject::Arrangement(wanted) => wanted.needs.sum(),
        _ => 0,
    }
}

/// The extra time in percent; 0 if the appeal asks for no arrangement.
pub fn extra_of(subject: &Subject) -> u16
    ensures value { result ≡ stored.extra_of subject.now }
    ensures range { result ≤ 100 }
{
    match subject {
        Subject::Arrangement(wanted) => wanted.extra.get(),
        _ => 0,
    }
}

/// Reads the kind, the target, the needs and the extra time from the columns from `at` on.
pub fn subject_at(row: &Row, at: usize) -> Result<Subject, Refusal>
    requires { at < 900 }
    ensures { Reads IsSubject stored.subject
        (column row.now at ∷ column row.now (at + 1) ∷ column row.now (at + 2) ∷ column row.now (at + 3) ∷ []) result }
{
    match whole_at(row, at)? {
        1 => Ok(Subject::Hall(hall_at(row, at + 1)?)),
        2 => Ok(Subject::Clash(paper_at(row, at + 1)?)),
        3 => Ok(Subject::Arrangement(arrangement_at(row, at + 1)?)),
        _ => Err(Refusal::BadStore),
    }
}

/// The code of a hall, without needs and extra time.
fn hall_at(row: &Row, at: usize) -> Result<HallCode, Refusal>
    requires { at < 1000 }
    ensures { Reads (λ hall. IsTrue (is_hall_code hall))
        (λ hall. Text hall ∷ stored.whole 0 ∷ stored.whole 0 ∷ [])
        (column row.now at ∷ column row.now (at + 1) ∷ column row.now (at + 2) ∷ []) result }
{
    let hall = hall_code_at(row, at)?;
    zero_at(row, at + 1)?;
    zero_at(row, at + 2)?;
    Ok(hall)
}

/// The code of a paper, without needs and extra time.
fn paper_at(row: &Row, at: usize) -> Result<PaperCode, Refusal>
    requires { at < 1000 }
    ensures { Reads (λ paper. IsTrue (is_paper_code paper))
        (λ paper. Text paper ∷ stored.whole 0 ∷ stored.whole 0 ∷ [])
        (column row.now at ∷ column row.now (at + 1) ∷ column row.now (at + 2) ∷ []) result }
{
    let paper = paper_code_at(row, at)?;
    zero_at(row, at + 1)?;
    zero_at(row, at + 2)?;
    Ok(paper)
}

/// Needs and extra time, after an empty text.
fn arrangement_at(row: &Row, at: usize) -> Result<Arrangement, Refusal>
    requires { at < 1000 }
    ensures { Reads (λ wanted. IsExtra wanted.extra)
        (λ wanted. Text [] ∷ stored.features wanted.needs ∷ stored.whole wanted.extra ∷ [])
        (column row.now at ∷ column row.now (at + 1) ∷ column row.now (at + 2) ∷ []) result }
{
    nothing_at(row, at)?;
    let needs = features_at(row, at + 1)?;
    let extra = extra_at(row, at + 2)?;
    Ok(Arrangement { needs, extra })
}

/// Accepts the number 0. Refuses everything else with `BadStore`.
fn zero_at(row: &Row, at: usize) -> Result<(), Refusal>
    ensures ok { OnOk result (column row.now at ≡ stored.whole 0) }
    ensures err { IfErr result (λ e. (e ≡ BadStore) × (column row.now at ≡ stored.whole 0 → ⊥)) }
{
    match whole_at(row, at)? {
        0 => Ok(()),
        _ => Err(Refusal::BadStore),
    }
}

/// Accepts the empty text. Refuses everything else with `BadStore`.
fn nothing_at(row: &Row, at: usize) -> Result<(), Refusal>
    ensures ok { OnOk result (column row.now at ≡ Text []) }
    ensures err { IfErr result (λ e. (e ≡ BadStore) × (column row.now at ≡ Text [] → ⊥)) }
{
    if text_at(row, at)?.is_empty() {
        Ok(())
    } else {
        Err(Refusal::BadStore)
    }
}

/// 1 open, 2 granted, 3 refused, 4 retracted, 5 superseded.
pub fn state_number(status: &Status) -> i64
    ensures { result ≡ pos (stored.state_number status.now) }
{
    match status {
        Status::Pending => 1,
        Status::Granted(_) => 2,
        Status::Refused(_) => 3,
        Status::Retracted => 4,
        Status::Superseded(_) => 5,
    }
}

/// The reason of the decision, or NULL if there was none.
pub fn answer_of(status: &Status) -> ValueRef<'_>
    ensures { owned result ≡ stored.text_or_null (stored.answer_of status.now) }
{
    match status {
        Status::Granted(answer) | Status::Refused(answer) | Status::Superseded(answer) => {
            ValueRef::Text(answer.as_str().as_bytes())
        }
        Status::Pending | Status::Retracted => ValueRef::Null,
    }
}

/// Reads the state and the answer from the columns from `at` on.
pub fn status_at(alloc: Global, row: &Row, at: usize) -> Result<Status, Refusal>
    requires small { at < 900 }
    requires within { at + 1 < length row.now }
    ensures read { MayRead IsStatus stored.status (column row.now at ∷ column row.now (at + 1) ∷ []) result }
    ensures memory { WantsMemoryOf is_reason (column row.now (at + 1)) result }
{
    let state = whole_at(row, at)?;
    match (state, answer_at(alloc, row, at + 1)?) {
        (1, None) => Ok(Status::Pending),
        (2, Some(answer)) => Ok(Status::Granted(answer)),
        (3, Some(answer)) => Ok(Status::Refused(answer)),
        (4, None) => Ok(Status::Retracted),
        (5, Some(answer)) => Ok(Status::Superseded(answer)),
        _ => Err(Refusal::BadStore),
    }
}

/// The reason that a column holds, or none if it is NULL.
fn answer_at(alloc: Global, row: &Row, at: usize) -> Result<Option<Reason>, Refusal>
    requires { at < length row.now }
    ensures read { MayRead IsAnswer stored.text_or_null (column row.now at) result }
    ensures memory { WantsMemoryOf is_reason (column row.now at) result }
{
    if is_null_at(row, at) {
        return Ok(None);
    }
    Ok(Some(reason_at(alloc, row, at)?))
}

fn is_null_at(row: &Row, at: usize) -> bool
    requires { at < length row.now }
    ensures { Decides result (column row.now at ≡ Null) }
{
    match row.get_ref(at) {
        Ok(ValueRef::Null) => true,
        _ => false,
    }
}
