//! The bodies that show a candidate their own rows.
ghost use Rattle.std.specs.Prelude.{◌≡◌, ◌++◌, IfOk, OnOk, flat_map, map, option_map};
ghost use Rattle.std.specs.Str.{IsAscii};
ghost use Rattle.exam_types.specs.Days.{day_text};
ghost use Rattle.exam_types.specs.Refusals.{OnlyMemory};
ghost use Rattle.exam_commands.specs.Own.{shown, shown_session};
ghost use Rattle.exam_commands.specs.Words.{subject_text};
ghost use Rattle.exam_request.specs.Bodies as spec;
ghost use Rattle.exam_request.specs.SeatRows.{HasSeatTexts};
ghost use Rattle.exam_request.specs.Values.{object_data};
ghost use Rattle.serde_json.specs.View.{view};

use crate::objects::{
    ascii_text, list_body, put_flag, put_number, put_number_or_null, put_text, put_text_or_null,
};
use exam_commands::{Own, OwnAppeal, OwnSession, kind_word, status_word, write_subject};
use exam_rules::{Status, Subject};
use exam_types::{HallCode, PaperCode, Refusal, SessionCode};
use serde_json::{Map, Value};
use std::alloc::Global;

/// What a candidate is shown.
#[derive(Clone, Copy, Debug, PartialEq, Eq)]
pub enum Page {
    Seats,
    Clashes,
    Appeals,
}

/// The body that shows a candidate this page. Only the page of seats has desks, so for the others `own` needs none.
pub fn page_body(alloc: Global, page: Page, own: &Own) -> Result<Vec<u8>, Refusal>
    ensures ok { IfOk result (λ body. body.items ≡ spec.page_body page (shown own.now)) }
    ensures memory { OnlyMemory result }
{
    match page {
        Page::Seats => seats_body(alloc, own),
        Page::Clashes => clashes_body(alloc, own),
        Page::Appeals => appeals_body(alloc, own),
    }
}

/// The body that shows a candidate's seats: an object for each of their sessions, by the codes of these.
pub fn seats_body(alloc: Global, own: &Own) -> Result<Vec<u8>, Refusal>
    ensures ok { IfOk result (λ body. body.items ≡ spec.seats_body (shown own.now)) }
    ensures memory { OnlyMemory result }
{
    let seats = seat_values(alloc, &own.sessions)?;
    list_body(alloc, "seats", seats)
}

fn seat_values(alloc: Global, sessions: &[OwnSession]) -> Result<Vec<Value>, Refusal>
    ensures ok { IfOk result (λ values. map view values.items
        ≡ map object_data (map spec.seat_object (map shown_session sessions.now))) }
    ensures memory { OnlyMemory result }
{
    let mut values = Vec::new(alloc);
    for session in sessions {
        let texts = seat_texts(alloc, session)?;
        values.push(seat_value(alloc, session, &texts)?)?;
    }
    Ok(values)
}

/// The texts of a seat that the office does not keep as bytes.
#[derive(Drop)]
struct SeatTexts {
    date: Vec<u8>,
    finish: Vec<u8>,
    needs: Vec<u8>,
    start: Vec<u8>,
}

fn seat_texts(alloc: Global, own: &OwnSession) -> Result<SeatTexts, Refusal>
    ensures ok { IfOk result (HasSeatTexts (shown_session own.now)) }
    ensures memory { OnlyMemory result }
{
    let mut date = Vec::new(alloc);
    own.day.write_to(&mut date)?;
    let mut finish = Vec::new(alloc);
    own.finish.write_to(&mut finish)?;
    let mut needs = Vec::new(alloc);
    own.arrangement.needs.write_to(&mut needs)?;
    let mut start = Vec::new(alloc);
    own.start.write_to(&mut start)?;
    Ok(SeatTexts {
        date,
        finish,
        needs,
        start,
    })
}

#[tactic(auto, unfolding(crate::specs::Bodies::seat_object))]
fn seat_value(alloc: Global, own: &OwnSession, texts: &SeatTexts) -> Result<Value, Refusal>
    requires { HasSeatTexts (shown_session own.now) texts.now }
    ensures ok { IfOk result (λ value. view value ≡ object_data (spec.seat_object (shown_session own.now))) }
    ensures memory { OnlyMemory result }
{
    let mut seat = Map::new(alloc);
    put_text(&mut seat, alloc, "date", ascii_text(&texts.date))?;
    put_number_or_null(&mut seat, alloc, "desk", own.desk)?;
    put_number(
        &mut seat,
        alloc,
        "extra",
        u32::from(own.arrangement.extra.get()),
    )?;
    put_text(&mut seat, alloc, "finish", ascii_text(&texts.finish))?;
    put_text_or_null(&mut seat, alloc, "hall", hall_text(&own.hall))?;
    put_text(&mut seat, alloc, "needs", ascii_text(&texts.needs))?;
    put_text(
        &mut seat,
        alloc,
        "paper",
        ascii_text(own.sitting.as_bytes()),
    )?;
    put_text(
        &mut seat,
        alloc,
        "session",
        ascii_text(own.session.as_bytes()),
    )?;
    put_text(&mut seat, alloc, "start", ascii_text(&texts.start))?;
    Ok(Value::Object(seat))
}

/// The code's text, if there is a hall.
fn hall_text(hall: &Option<HallCode>) -> Option<&str>
    ensures { option_map (λ h. h.now) result ≡ hall.now }
{
    match hall {
        Some(code) => Some(ascii_text(code.as_bytes())),
        None => None,
    }
}

/// A paper that a candidate does not sit, its session, and the paper that they sit there.
#[derive(Clone, Copy)]
struct MissedPaper {
    paper: PaperCode,
    session: SessionCode,
    sitting: PaperCode,
}

/// The body that shows a candidate's clashes: an object for each live paper that they do not sit, by session and paper.
pub fn clashes_body(alloc: Global, own: &Own) -> Result<Vec<u8>, Refusal>
    ensures ok { IfOk result (λ body. body.items ≡ spec.clashes_body (shown own.now)) }
    ensures memory { OnlyMemory result }
{
    let mut missed = Vec::new(alloc);
    collect_missed(&mut missed, &own.sessions)?;
    let clashes = clash_values(alloc, &missed)?;
    list_body(alloc, "clashes", clashes)
}

fn clash_values(alloc: Global, rows: &[MissedPaper]) -> Result<Vec<Value>, Refusal>
    ensures ok { IfOk result (λ values. map view values.items
        ≡ map object_data (map spec.clash_object rows.now)) }
    ensures memory { OnlyMemory result }
{
    let mut values = Vec::new(alloc);
    for row in rows {
        values.push(clash_value(alloc, row)?)?;
    }
    Ok(values)
}

fn collect_missed(rows: &mut Vec<MissedPaper>, sessions: &[OwnSession]) -> Result<(), Refusal>
    ensures ok { OnOk result (rows.new.items
        ≡ rows.old.items ++ flat_map spec.missed_in (map shown_session sessions.now)) }
    ensures memory { OnlyMemory result }
{
    for session in sessions {
        push_missed(rows, session, &session.clashes)?;
    }
    Ok(())
}

fn push_missed(
    rows: &mut Vec<MissedPaper>,
    own: &OwnSession,
    papers: &[PaperCode],
) -> Result<(), Refusal>
    ensures ok { OnOk result (rows.new.items
        ≡ rows.old.items ++ map (spec.missed_paper (shown_session own.now)) papers.now) }
    ensures memory { OnlyMemory result }
{
    for paper in papers {
        rows.push(MissedPaper {
            paper: *paper,
            session: own.session,
            sitting: own.sitting,
        })?;
    }
    Ok(())
}

#[tactic(auto, unfolding(crate::specs::Bodies::clash_object))]
fn clash_value(alloc: Global, row: &MissedPaper) -> Result<Value, Refusal>
    ensures ok { IfOk result (λ value. view value ≡ object_data (spec.clash_object row.now)) }
    ensures memory { OnlyMemory result }
{
    let mut clash = Map::new(alloc);
    put_text(&mut clash, alloc, "paper", ascii_text(row.paper.as_bytes()))?;
    put_text(
        &mut clash,
        alloc,
        "session",
        ascii_text(row.session.as_bytes()),
    )?;
    put_text(
        &mut clash,
        alloc,
        "sitting",
        ascii_text(row.sitting.as_bytes()),
    )?;
    Ok(Value::Object(clash))
}

/// The body that shows a candidate's appeals: an object for each, by reference.
pub fn appeals_body(alloc: Global, own: &Own) -> Result<Vec<u8>, Refusal>
    ensures ok { IfOk result (λ body. body.items ≡ spec.appeals_body (shown own.now)) }
    ensures memory { OnlyMemory result }
{
    let appeals = appeal_values(alloc, &own.appeals)?;
    list_body(alloc, "appeals", appeals)
}

fn appeal_values(alloc: Global, rows: &[OwnAppeal]) -> Result<Vec<Value>, Refusal>
    ensures ok { IfOk result (λ values. map view values.items
        ≡ map object_data (map spec.appeal_object rows.now)) }
    ensures memory { OnlyMemory result }
{
    let mut values = Vec::new(alloc);
    for row in rows {
        values.push(appeal_value(alloc, row)?)?;
    }
    Ok(values)
}

fn appeal_value(alloc: Global, row: &OwnAppeal) -> Result<Value, Refusal>
    ensures ok { IfOk result (λ value. view value ≡ object_data (spec.appeal_object row.now)) }
    ensures memory { OnlyMemory result }
{
    let mut lodged = Vec::new(alloc);
    row.appeal.lodged.write_to(&mut lodged)?;
    let mut subject = Vec::new(alloc);
    write_subject(&row.appeal.subject, &mut subject)?;
    show_ascii(&row.appeal.subject);
    appeal_value_of(alloc, row, &lodged, &subject)
}

/// What an appeal asks for is ASCII. Does nothing at run time.
fn show_ascii(subject: &Subject)
    ensures { IsAscii (subject_text subject.now) }
{
    match subject {
        Subject::Hall(hall) => {
            hall.as_bytes();
        }
        Subject::Clash(paper) => {
            paper.as_bytes();
        }
        Subject::Arrangement(wanted) => {
            wanted.extra.get();
        }
    }
}

#[tactic(auto, unfolding(crate::specs::Bodies::appeal_object))]
fn appeal_value_of(
    alloc: Global,
    row: &OwnAppeal,
    lodged: &[u8],
    subject: &[u8],
) -> Result<Value, Refusal>
    requires lodged { lodged.now ≡ day_text row.now.appeal.lodged }
    requires subject { subject.now ≡ subject_text row.now.appeal.subject }
    requires ascii { IsAscii subject.now }
    ensures ok { IfOk result (λ value. view value ≡ object_data (spec.appeal_object row.now)) }
    ensures memory { OnlyMemory result }
{
    let appeal = &row.appeal;
    let mut shown = Map::new(alloc);
    put_text_or_null(&mut shown, alloc, "answer", decision_reason(&appeal.status))?;
    put_text(
        &mut shown,
        alloc,
        "kind",
        ascii_text(kind_word(&appeal.subject)),
    )?;
    put_text(&mut shown, alloc, "lodged", ascii_text(lodged))?;
    put_text(&mut shown, alloc, "reason", appeal.reason.as_str())?;
    put_text(
        &mut shown,
        alloc,
        "ref",
        ascii_text(row.reference.as_bytes()),
    )?;
    put_text(
        &mut shown,
        alloc,
        "session",
        ascii_text(appeal.session.as_bytes()),
    )?;
    put_flag(&mut shown, alloc, "standing", row.standing)?;
    put_text(
        &mut shown,
        alloc,
        "state",
        ascii_text(status_word(&appeal.status)),
    )?;
    put_text(&mut shown, alloc, "subject", ascii_text(subject))?;
    Ok(Value::Object(shown))
}

/// The reason of the decision, if there was one.
fn decision_reason(status: &Status) -> Option<&str>
    ensures { option_map (λ r. r.now) result ≡ spec.decision_reason status.now }
{
    match status {
        Status::Granted(answer) | Status::Refused(answer) | Status::Superseded(answer) => {
            Some(answer.as_str())
        }
        Status::Pending | Status::Retracted => None,
    }
}
