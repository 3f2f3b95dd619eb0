//! A command over the part of the office that it reads: what it answers and who sits where after it, who sat where before
//! it once it is taken back, and what it answers and who sits where if it is carried out again.
ghost use Rattle.std.specs.Prelude.{IfOk, OnOk, OnErr};
ghost use Rattle.exam_commands.specs.Parts.{IsPutBack};
ghost use Rattle.exam_commands.specs.State.{State};
ghost use Rattle.exam_commands.specs.Steps.{MayStep};
ghost use Rattle.exam_office.specs.declared.part.Part.{Part as Held};
ghost use Rattle.exam_office.specs.HeldParts as spec;

use super::orders::order_of;
use super::play;
use super::questions::text_of;
use exam_office::{Command, Office, Part, Reply, Seats, step_part};
use exam_types::{Day, Refusal};
use std::alloc::Global;
use std::test::Fail;

/// Carries a command out over a part that is made of the facts and the plans alone. No other crate's proof needs what
/// `step_part` promises whoever holds a part.
fn stepped_part(
    alloc: Global,
    office: &Office,
    command: &Command,
    today: Day,
) -> Result<(Part, Result<Reply, Refusal>), Refusal>
    ensures step { IfOk result (λ made. (after : State)
        → IsPutBack command.now office.now (spec.part_state made.0) after
        → MayStep command.now today office.now made.1 after) }
    ensures back { IfOk result (λ made. OnOk made.1 (spec.CanGoBack made.0)) }
    ensures again { IfOk result (λ made. OnOk made.1
        ((back : Held) → spec.IsBack made.0 back → spec.IsPartFor command.now back)) }
    ensures ready { IfOk result (λ made. OnErr made.1 (spec.IsPartFor command.now made.0)) }
{
    office.show_good();
    office.show_order();
    let copy = Part::copy_of(alloc, office, command)?;
    let mut part = Part::new(alloc, copy.facts, copy.plans);
    let answer = step_part(alloc, &mut part, command, today);
    Ok((part, answer))
}

/// Who sits where, by session.
fn seats_text(alloc: Global, seats: &Seats) -> Result<String, Fail> {
    let mut text = String::new(alloc);
    for ((session, number), hall) in seats {
        let number = number.get();
        text.push_str(format!(in alloc; "{session} {number} {hall} ")?.as_str())?;
    }
    Ok(text)
}

/// What a command has answered over the part, and who sits where after it.
fn told(alloc: Global, answer: &Result<Reply, Refusal>, plans: &Seats) -> Result<String, Fail> {
    let answer = text_of(alloc, answer)?;
    let seats = seats_text(alloc, plans)?;
    Ok(format!(in alloc; "{answer} {seats}")?)
}

/// Takes the command back, if it was accepted. So it can be carried out again.
fn undo(part: &mut Part, command: &Command, answer: &Result<Reply, Refusal>)
    requires back { OnOk answer.now (spec.CanGoBack part.old) }
    requires again { OnOk answer.now
        ((back : Held) → spec.IsBack part.old back → spec.IsPartFor command.now back) }
    requires ready { OnErr answer.now (spec.IsPartFor command.now part.old) }
    ensures { spec.IsPartFor command.now part.new }
{
    match answer {
        Ok(_) => part.take_back(),
        Err(_) => {}
    }
}

/// What the part of the office that a command reads tells of the command.
pub fn part_text(alloc: Global, office: &Office, line: &str) -> Result<String, Fail> {
    let (command, today) = order_of(alloc, line)?;
    let (mut part, answer) = stepped_part(alloc, office, &command, today)?;
    let first = told(alloc, &answer, &part.plans)?;
    undo(&mut part, &command, &answer);
    let before = seats_text(alloc, &part.plans)?;
    let answer = step_part(alloc, &mut part, &command, today);
    let second = told(alloc, &answer, &part.plans)?;
    Ok(format!(in alloc; "{first}< {before}> {second}")?)
}

/// In S1 hall A has one desk and B two, and everybody has one; in S2 candidate 4 sits in hall B.
const SEATED: &str = "\
session S2 2027-06-02
paper BI-1 S2 60 -
opening S1 A 1 12:00
opening S1 B 2 12:00
opening S2 B 1 12:00
entry 1 MA-1
entry 2 MA-1
entry 3 MA-1
entry 4 BI-1
seat S1 1 A
seat S1 2 B
seat S1 3 B
seat S2 4 B
";

const PARTED: &str = "\
# a part has the plans of the sessions that its command reads
part withdraw 1 MA-1 > Withdrawn S1 2 B S1 3 B < S1 1 A S1 2 B S1 3 B > Withdrawn S1 2 B S1 3 B
part withdraw 4 BI-1 > Withdrawn < S2 4 B > Withdrawn
part close-hall S1 A > Closed S1 2 B S1 3 B < S1 1 A S1 2 B S1 3 B > Closed S1 2 B S1 3 B
seats S1 > 1 A 2 B 3 B
seats S2 > 4 B
# so has one whose command is refused
part withdraw 1 XX > UnknownPaper < > UnknownPaper
part close-hall S2 A > HallNotOpened S2 4 B < S2 4 B > HallNotOpened S2 4 B
part decide 1 HA1 granted > UnknownAppeal < > UnknownAppeal
# a grant moves two over the part as over the office
lodged 1 HA1 S1 hall A
part decide 1 HA1 granted > Decided Granted B 1 S1 1 B S1 2 A S1 3 B < S1 1 A S1 2 B S1 3 B > Decided Granted B 1 S1 1 B S1 2 A S1 3 B
decide 1 HA1 granted > Decided Granted B 1
seats S1 > 1 B 2 A 3 B
# an import reads each session that it changes
part import openings S1 B 1 12:00, S2 A 1 12:00 > Imported 1 1 0 S1 1 A S1 2 B S2 4 B < S1 1 A S1 2 B S1 3 B S2 4 B > Imported 1 1 0 S1 1 A S1 2 B S2 4 B
# a lodging reads the session that it names
part lodge 4 HA1 S2 hall B draught > Lodged Pending S2 4 B < S2 4 B > Lodged Pending S2 4 B
";

#[test]
fn a_part_does_as_the_office_does(rt: HostRuntime) -> Result<(), Fail> {
    play(rt.alloc(), SEATED, PARTED)
}
