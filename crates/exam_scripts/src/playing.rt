//! Texts that are played at a closed office.
use crate::steps::answer_to;
use exam_school::{Step, expect_same};
use sqlite::{Alter, Connection};
use std::alloc::Global;
use std::test::Fail;

/// Takes a step at the closed office, and compares its answer.
fn expect_answer<S: Alter>(
    alloc: Global,
    conn: Connection<S>,
    step: &Step<'_>,
) -> (Connection<S>, Result<(), Fail>) {
    let (conn, answer) = answer_to(alloc, conn, step.line, step.file.as_bytes());
    let compared = match answer {
        Ok(answer) => expect_same(answer.as_str(), step.answer, step.line),
        Err(fail) => Err(fail),
    };
    (conn, compared)
}

/// Takes the step that stands behind a `$ `.
fn expect_part<S: Alter>(
    alloc: Global,
    conn: Connection<S>,
    part: &str,
) -> (Connection<S>, Result<(), Fail>) {
    match Step::parse(part) {
        Some(step) => expect_answer(alloc, conn, &step),
        None => (conn, Err(Fail::new("step"))),
    }
}

/// Plays a text at the closed office, up to the first answer that is not as the text says.
pub fn played<S: Alter>(
    alloc: Global,
    conn: Connection<S>,
    text: &str,
) -> (Connection<S>, Result<(), Fail>) {
    let mut conn = conn;
    for part in text.split("$ ").skip(1) {
        let (left, compared) = expect_part(alloc, conn, part);
        conn = left;
        if let Err(fail) = compared {
            return (conn, Err(fail));
        }
    }
    (conn, Ok(()))
}
