//! The columns of a row that a query shows, counted from 0. Each reader refuses with `BadStore` if its column does not
//! hold the stored form of such a value.
ghost use Rattle.std.specs.Prelude.{pos, if◌then◌else◌, ◌≡◌, ◌<◌, ◌≤◌, ◌^◌, ◌↔◌, ℕ, IsTrue, IfOk, IfErr};
ghost use Rattle.sqlite_value.specs.Order.{column};
ghost use Rattle.sqlite_value.specs.declared.value.Value.TheVariants.{Text};
ghost use Rattle.exam_types.specs.Codes.{is_session_code, is_paper_code, is_hall_code, is_reference, is_access_code};
ghost use Rattle.exam_types.specs.Days.{IsDay, IsSessionDay, day_text};
ghost use Rattle.exam_types.specs.Numbers.{IsNumber, IsStartTime, IsClosingTime, IsExamMinutes, IsExtra, IsDeskCount};
ghost use Rattle.exam_types.specs.Texts.{is_name, is_reason};
ghost use Rattle.exam_types.specs.declared.refusal.Refusal.TheVariants.{NoMemory, BadStore};
ghost use Rattle.exam_tables.specs.Reading.{Reads, MayRead, WantsMemoryOf};
ghost use Rattle.exam_tables.specs.Stored as stored;
ghost use Rattle.exam_tables.specs.Stored.{IsAny};

use exam_types::{
    AccessCode, ClosingTime, Day, DeskCount, ExamMinutes, Extra, Features, HallCode, Name, Number,
    PaperCode, Reason, Reference, Refusal, SessionCode, SessionDay, StartTime,
};
use sqlite::Row;
use sqlite::types::ValueRef;
use std::alloc::Global;

/// The bytes of a text. Refused with `BadStore` if the column holds none.
pub fn text_at(row: &Row, at: usize) -> Result<&[u8], Refusal>
    ensures ok { IfOk result (λ text. column row.now at ≡ Text text.now) }
    ensures err { IfErr result (λ e. (e ≡ BadStore) × ((text : _) → column row.now at ≡ Text text → ⊥)) }
{
    match row.get_ref(at) {
        Ok(ValueRef::Text(text)) => Ok(text),
        _ => Err(Refusal::BadStore),
    }
}

/// A whole number of at most 4,294,967,295. Refused with `BadStore` if the column holds none.
pub fn whole_at(row: &Row, at: usize) -> Result<u32, Refusal>
    ensures { Reads (λ n. n < 2 ^ 32) stored.whole (column row.now at) result }
{
    match row.get_ref(at) {
        Ok(ValueRef::Int(value)) => match u32::try_from(value) {
            Ok(whole) => Ok(whole),
            Err(_) => Err(Refusal::BadStore),
        },
        _ => Err(Refusal::BadStore),
    }
}

/// `false` for 0, `true` for 1. Refused with `BadStore` for anything else.
pub fn flag_at(row: &Row, at: usize) -> Result<bool, Refusal>
    ensures { Reads IsAny stored.flag (column row.now at) result }
{
    match row.get_ref(at) {
        Ok(ValueRef::Int(0)) => Ok(false),
        Ok(ValueRef::Int(1)) => Ok(true),
        _ => Err(Refusal::BadStore),
    }
}

pub fn session_code_at(row: &Row, at: usize) -> Result<SessionCode, Refusal>
    ensures { Reads (λ text. IsTrue (is_session_code text)) Text (column row.now at) result }
{
    SessionCode::parse(text_at(row, at)?).ok_or(Refusal::BadStore)
}

pub fn day_at(row: &Row, at: usize) -> Result<Day, Refusal>
    ensures { Reads IsDay stored.day (column row.now at) result }
{
    Day::parse(text_at(row, at)?).ok_or(Refusal::BadStore)
}

pub fn number_at(row: &Row, at: usize) -> Result<Number, Refusal>
    ensures { Reads IsNumber stored.whole (column row.now at) result }
{
    Number::new(whole_at(row, at)?).ok_or(Refusal::BadStore)
}

pub fn paper_code_at(row: &Row, at: usize) -> Result<PaperCode, Refusal>
    ensures { Reads (λ text. IsTrue (is_paper_code text)) Text (column row.now at) result }
{
    PaperCode::parse(text_at(row, at)?).ok_or(Refusal::BadStore)
}

pub fn hall_code_at(row: &Row, at: usize) -> Result<HallCode, Refusal>
    ensures { Reads (λ text. IsTrue (is_hall_code text)) Text (column row.now at) result }
{
    HallCode::parse(text_at(row, at)?).ok_or(Refusal::BadStore)
}

pub fn reference_at(row: &Row, at: usize) -> Result<Reference, Refusal>
    ensures { Reads (λ text. IsTrue (is_reference text)) Text (column row.now at) result }
{
    Reference::parse(text_at(row, at)?).ok_or(Refusal::BadStore)
}

pub fn access_code_at(row: &Row, at: usize) -> Result<AccessCode, Refusal>
    ensures { Reads (λ text. IsTrue (is_access_code text)) Text (column row.now at) result }
{
    AccessCode::parse(text_at(row, at)?).ok_or(Refusal::BadStore)
}

pub fn desk_count_at(row: &Row, at: usize) -> Result<DeskCount, Refusal>
    ensures { Reads IsDeskCount stored.whole (column row.now at) result }
{
    DeskCount::new(whole_at(row, at)?).ok_or(Refusal::BadStore)
}

pub fn closing_time_at(row: &Row, at: usize) -> Result<ClosingTime, Refusal>
    ensures { Reads IsClosingTime stored.whole (column row.now at) result }
{
    ClosingTime::new(small_at(row, at)?).ok_or(Refusal::BadStore)
}

pub fn exam_minutes_at(row: &Row, at: usize) -> Result<ExamMinutes, Refusal>
    ensures { Reads IsExamMinutes stored.whole (column row.now at) result }
{
    ExamMinutes::new(small_at(row, at)?).ok_or(Refusal::BadStore)
}

pub fn extra_at(row: &Row, at: usize) -> Result<Extra, Refusal>
    ensures { Reads IsExtra stored.whole (column row.now at) result }
{
    Extra::new(small_at(row, at)?).ok_or(Refusal::BadStore)
}

pub fn features_at(row: &Row, at: usize) -> Result<Features, Refusal>
    ensures { Reads IsAny stored.features (column row.now at) result }
{
    Features::from_sum(whole_at(row, at)?).ok_or(Refusal::BadStore)
}

/// 1 for yes, 0 for no.
pub fn flag(yes: bool) -> i64
    ensures { result ≡ pos (if yes then 1 else 0) }
{
    if yes { 1 } else { 0 }
}

/// A name. Refused with `BadStore` if the column holds none, and with `NoMemory` if there is not enough memory for it.
pub fn name_at(alloc: Global, row: &Row, at: usize) -> Result<Name, Refusal>
    ensures read { MayRead (λ text. IsTrue (is_name text)) Text (column row.now at) result }
    ensures memory { WantsMemoryOf is_name (column row.now at) result }
{
    Name::parse(alloc, text_at(row, at)?)?.ok_or(Refusal::BadStore)
}

pub fn session_day_at(row: &Row, at: usize) -> Result<SessionDay, Refusal>
    ensures { Reads IsSessionDay stored.day (column row.now at) result }
{
    SessionDay::parse(text_at(row, at)?).ok_or(Refusal::BadStore)
}

pub fn start_at(row: &Row, at: usize) -> Result<StartTime, Refusal>
    ensures { Reads IsStartTime stored.whole (column row.now at) result }
{
    StartTime::new(small_at(row, at)?).ok_or(Refusal::BadStore)
}

/// A whole number of at most 65,535. Refused with `BadStore` if the column holds none.
pub fn small_at(row: &Row, at: usize) -> Result<u16, Refusal>
    ensures { Reads (λ n. n < 2 ^ 16) stored.whole (column row.now at) result }
{
    match row.get_ref(at) {
        Ok(ValueRef::Int(value)) => match u16::try_from(value) {
            Ok(whole) => Ok(whole),
            Err(_) => Err(Refusal::BadStore),
        },
        _ => Err(Refusal::BadStore),
    }
}

/// A reason. Refused with `BadStore` if the column holds none, and with `NoMemory` if there is not enough memory for
/// it.
pub fn reason_at(alloc: Global, row: &Row, at: usize) -> Result<Reason, Refusal>
    ensures read { MayRead (λ text. IsTrue (is_reason text)) Text (column row.now at) result }
    ensures memory { WantsMemoryOf is_reason (column row.now at) result }
{
    Reason::parse(alloc, text_at(row, at)?)?.ok_or(Refusal::BadStore)
}
