//! Laws of offices, of imports and of appeals.
ghost use Rattle.std.specs.Prelude.{◌≡◌, ◌⊎◌, ℕ, true, false, List, Result, Ok, Err, length};
ghost use Rattle.exam_types.specs.declared.refusal.Refusal.{Refusal};
ghost use Rattle.exam_types.specs.declared.refusal.Refusal.TheVariants as refusal;
ghost use Rattle.exam_rules.specs.Orders.{AreInOrder};
ghost use Rattle.exam_plan.specs.Matching.{SamePlan};
ghost use Rattle.exam_rules.specs.Relations.{Code, Relations};
ghost use Rattle.exam_rules.specs.Seatings.{plan_of, seating};
ghost use Rattle.exam_commands.specs.declared.command.Command.{Command};
ghost use Rattle.exam_commands.specs.declared.command.Command.TheVariants as command;
ghost use Rattle.exam_commands.specs.declared.command.AppealState.TheVariants as state;
ghost use Rattle.exam_commands.specs.declared.command.Decision.{Decision};
ghost use Rattle.exam_commands.specs.declared.command.Lodging.{Lodging};
ghost use Rattle.exam_commands.specs.declared.command.Reply.{Reply};
ghost use Rattle.exam_commands.specs.declared.command.Reply.TheVariants as reply;
ghost use Rattle.exam_commands.specs.declared.import_row.Row.{Row};
ghost use Rattle.exam_commands.specs.Appeals.{stored_state};
ghost use Rattle.exam_commands.specs.Between.{NoneImportsOrCloses};
ghost use Rattle.exam_commands.specs.Changes.{imported};
ghost use Rattle.exam_commands.specs.Good.{IsGood};
ghost use Rattle.exam_commands.specs.Headline.{IsSeated};
ghost use Rattle.exam_commands.specs.Imports.{ImportRows, distinct_rows, is_consistent};
ghost use Rattle.exam_commands.specs.KeptRows.{KeepsOpenings, KeepsRows};
ghost use Rattle.exam_commands.specs.Orders.{IsInOrder};
ghost use Rattle.exam_commands.specs.Replies.{import_reply};
ghost use Rattle.exam_commands.specs.State.{State};
ghost use Rattle.exam_commands.specs.Steps.{NoneLacksMemory, Run, SameSeating, Step};
ghost use Rattle.exam_commands.specs.Touched.{touches};

/// A good office whose tables are in order seats every session as promised: `Office::show_seated`. Every
/// `Office` is good (`Office::show_good`) and in order (`Office::show_order`).
pub fn good_office_is_seated()
    ensures { (office : State) (s : Code) → IsGood office → AreInOrder office.relations → IsSeated office s }
{}

/// A command on a day has one result, unless memory runs out: one office leads to one reply and one office.
pub fn one_step_has_one_result()
    ensures { (done : Command) (today : ℕ) (before one other : State) (first second : Result Reply Refusal)
        → Step done today before first one → Step done today before second other
        → (first ≡ second) × (one ≡ other) }
{}

/// A list of commands, each on its day, gives from one office the same replies and the same office each time it is run,
/// as long as no command is refused because memory ran out.
pub fn one_list_gives_one_office()
    ensures { (done : List (Command × ℕ)) (before one other : State)
        (first second : List (Result Reply Refusal))
        → NoneLacksMemory first → NoneLacksMemory second
        → Run done before first one → Run done before second other
        → (first ≡ second) × (one ≡ other) }
{}

/// An accepted import, repeated at once, is accepted, makes the same facts, and answers that all of its keys
/// have the same row. Every `Facts` is in order (`Facts::show_order`), and the rows of every `Import` agree
/// (`Import::rows`).
pub fn repeated_import_makes_the_same_facts()
    ensures { (r t : Relations) (rows : List Row) → AreInOrder r → is_consistent rows ≡ true
        → imported r rows ≡ Ok t
        → (imported t rows ≡ Ok t)
        × (import_reply t rows ≡ reply.Imported 0 0 (length (distinct_rows rows))) }
{}

/// After an accepted import, the same import as the next command, on any day, changes nothing. Every `Office` is in
/// order (`Office::show_order`), and the rows of every `Import` agree (`Import::rows`).
pub fn repeated_import_changes_nothing()
    ensures { (import : ImportRows) (day later : ℕ) (before mid after : State) (first : Reply)
        (second : Result Reply Refusal)
        → IsInOrder before → IsInOrder mid → IsInOrder after → is_consistent import.rows ≡ true
        → Step (command.Import import) day before (Ok first) mid
        → Step (command.Import import) later mid second after
        → (second ≡ Ok (reply.Imported 0 0 (length (distinct_rows import.rows)))) × (after ≡ mid) }
{}

/// After an accepted import, the same import at any later moment, on any day, changes nothing, if no command between is
/// an import or the closing of a hall. Every `Office` is good (`Office::show_good`).
pub fn import_repeated_later_changes_nothing()
    ensures { (import : ImportRows) (day later : ℕ) (before mid late after : State) (first : Reply)
        (done : List (Command × ℕ)) (replies : List (Result Reply Refusal)) (second : Result Reply Refusal)
        → IsGood late → is_consistent import.rows ≡ true → NoneImportsOrCloses done
        → Step (command.Import import) day before (Ok first) mid
        → Run done mid replies late
        → Step (command.Import import) later late second after
        → (second ≡ Ok (reply.Imported 0 0 (length (distinct_rows import.rows)))) × (after ≡ late) }
{}

/// After an accepted lodging, the same lodging at any later moment, on any day and after any commands between, changes
/// nothing and answers the appeal's current state. Every `Office` is in order (`Office::show_order`).
pub fn repeated_lodging_changes_nothing()
    ensures { (lodging : Lodging) (day later : ℕ) (before mid late after : State) (first : Reply)
        (done : List (Command × ℕ)) (replies : List (Result Reply Refusal)) (second : Result Reply Refusal)
        → IsInOrder late → IsInOrder after
        → Step (command.Lodge lodging) day before (Ok first) mid
        → Run done mid replies late
        → Step (command.Lodge lodging) later late second after
        → (second ≡ Ok (reply.Lodged (stored_state late.relations lodging.number lodging.reference)))
        × (after ≡ late) }
{}

/// After an accepted retraction, the same retraction at any later moment, on any day and after any commands between,
/// changes nothing and answers again that the appeal is retracted. Every `Office` is in order (`Office::show_order`).
pub fn repeated_retraction_changes_nothing()
    ensures { (number : ℕ) (reference : Code) (day later : ℕ) (before mid late after : State) (first : Reply)
        (done : List (Command × ℕ)) (replies : List (Result Reply Refusal)) (second : Result Reply Refusal)
        → IsInOrder late → IsInOrder after
        → Step (command.Retract number reference) day before (Ok first) mid
        → Run done mid replies late
        → Step (command.Retract number reference) later late second after
        → (second ≡ Ok reply.Retracted) × (after ≡ late) }
{}

/// After an accepted decision, the same decision at any later moment, on any day and after any commands between,
/// changes nothing. It answers that nothing has changed or, if a later grant has superseded the appeal, that it is not
/// open. Every `Office` is in order (`Office::show_order`).
pub fn repeated_decision_changes_nothing()
    ensures { (decision : Decision) (day later : ℕ) (before mid late after : State) (first : Reply)
        (done : List (Command × ℕ)) (replies : List (Result Reply Refusal)) (second : Result Reply Refusal)
        → IsInOrder late → IsInOrder after
        → Step (command.Decide decision) day before (Ok first) mid
        → Run done mid replies late
        → Step (command.Decide decision) later late second after
        → ((second ≡ Ok reply.Unchanged)
        ⊎ ((stored_state late.relations decision.number decision.reference ≡ state.Superseded)
        × (second ≡ Err refusal.NotOpenAppeal)))
        × (after ≡ late) }
{}

/// A lodging and a retraction leave every plan as it is. Every `Office` is good (`Office::show_good`) and in
/// order (`Office::show_order`).
pub fn lodging_and_retracting_move_nobody()
    ensures lodging { (lodging : Lodging) (day : ℕ) (before after : State) (first : Reply)
        → IsGood before → IsInOrder before → IsInOrder after
        → Step (command.Lodge lodging) day before (Ok first) after → after.seats ≡ before.seats }
    ensures retracting { (number : ℕ) (reference : Code) (day : ℕ) (before after : State) (first : Reply)
        → IsGood before → IsInOrder before → IsInOrder after
        → Step (command.Retract number reference) day before (Ok first) after → after.seats ≡ before.seats }
{}

/// An accepted command leaves every session that it does not touch with its members, fits and desks, and with
/// its plan. Every `Office` is good (`Office::show_good`) and in order (`Office::show_order`).
pub fn untouched_session_stays()
    ensures { (done : Command) (today : ℕ) (before after : State) (reply : Reply) (s : Code)
        → IsGood before → IsInOrder before → Step done today before (Ok reply) after
        → touches before.relations done s ≡ false
        → SameSeating (seating before.relations s) (seating after.relations s)
        × SamePlan (plan_of after.seats s) (plan_of before.seats s) }
{}

/// No command takes a row away from the facts, except that closing a hall takes away its one opening. Rows may be
/// replaced. Every `Office` is good (`Office::show_good`).
pub fn only_closing_takes_a_row_away()
    ensures { (done : Command) (today : ℕ) (before after : State) (reply : Reply)
        → IsGood before → Step done today before (Ok reply) after
        → KeepsRows before.relations after.relations × KeepsOpenings done before.relations after.relations }
{}
