//! One command, and lists of commands.
ghost use Rattle.std.specs.Prelude.{◌≡◌, IfOk, OnErr};
ghost use Rattle.exam_types.specs.Refusals.{OnlyMemory};
ghost use Rattle.exam_rules.specs.Relations.{Code};
ghost use Rattle.exam_commands.specs.Headline.{IsSeated};
ghost use Rattle.exam_commands.specs.Steps as steps;

use crate::draft::Draft;
use crate::office::Office;
use exam_commands::{Command, Reply};
use exam_types::{Day, Refusal};
use std::alloc::Global;
use std::mem;

/// Carries out a command on a day, or refuses it; after a refusal the office is as before.
pub fn step(
    alloc: Global,
    office: &mut Office,
    command: &Command,
    today: Day,
) -> Result<Reply, Refusal>
    ensures step { steps.MayStep command.now today office.old result office.new }
    ensures err { OnErr result (office.new ≡ office.old) }
{
    let old = mem::replace(office, Office::empty(alloc));
    match Draft::of(alloc, old, command, today) {
        Ok(draft) => {
            let (next, reply) = draft.finish();
            *office = next;
            Ok(reply)
        }
        Err((refusal, old)) => {
            *office = old;
            Err(refusal)
        }
    }
}

/// Carries out commands in order, each on its day, and returns what each answers. If there is not enough memory for the
/// replies, it refuses before any command, and the office is as before. Whatever it answers, every session is seated as
/// promised.
pub fn run(
    alloc: Global,
    office: &mut Office,
    commands: &[(Command, Day)],
) -> Result<Vec<Result<Reply, Refusal>>, Refusal>
    ensures run { IfOk result (λ replies. steps.Run commands.now office.old replies.items office.new) }
    ensures headline { (s : Code) → IsSeated office.new s }
    ensures memory { OnlyMemory result }
    ensures err { OnErr result (office.new ≡ office.old) }
{
    // Shows the promise for a refusal here, and again after the commands.
    office.show_seated();
    // Make room for all replies first, so that nothing fails once a command is carried out.
    let mut replies = Vec::with_capacity(alloc, commands.len())?;
    for (command, today) in commands {
        replies.push_reserved(step(alloc, office, command, *today));
    }
    office.show_seated();
    Ok(replies)
}
