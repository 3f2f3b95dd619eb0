//! Laws of stored offices.
ghost use Rattle.std.specs.Prelude.{◌≡◌, ◌⊎◌, ℕ, List, map, Result, Ok};
ghost use Rattle.sqlite_trees.specs.Tree.{Trees};
ghost use Rattle.sqlite.specs.Effect.{Database};
ghost use Rattle.exam_types.specs.declared.refusal.Refusal.{Refusal};
ghost use Rattle.exam_types.specs.Days.{IsDay};
ghost use Rattle.exam_rules.specs.Relations.{Code};
ghost use Rattle.exam_commands.specs.declared.command.Command.{Command};
ghost use Rattle.exam_commands.specs.declared.command.Command.TheVariants as command;
ghost use Rattle.exam_commands.specs.declared.command.Decision.{Decision};
ghost use Rattle.exam_commands.specs.declared.command.Lodging.{Lodging};
ghost use Rattle.exam_commands.specs.declared.command.Reply.{Reply};
ghost use Rattle.exam_commands.specs.declared.command.Reply.TheVariants as reply;
ghost use Rattle.exam_commands.specs.Appeals.{stored_state};
ghost use Rattle.exam_commands.specs.Orders.{IsInOrder};
ghost use Rattle.exam_commands.specs.State.{State, empty_state};
ghost use Rattle.exam_commands.specs.Steps.{Run, Step};
ghost use Rattle.exam_store.specs.Applied.{Applies, FailsInStore, IsDecidedAgain, MayApply, NoneFails, in_memory};
ghost use Rattle.exam_store.specs.Kept.{HaveSameTables, Keeps};
ghost use Rattle.exam_store.specs.Refused.{HoldsFormed};
ghost use Rattle.exam_store.specs.Stops.{FindAfterAnswer, FindBeforeOrAfter, HasDays, HasRowDays, WriteNothingShut};

use sqlite::Alter;

/// Tables hold one office: two offices in the stored forms with the same rows, in any order, are the same.
pub fn tables_hold_one_office()
    ensures { (all : Trees) (a b : State) → HoldsFormed all a → HoldsFormed all b → a ≡ b }
{}

/// A list of commands over a store has the same replies as one over an office in memory, except that memory runs out
/// there when memory runs out or the database fails here. So each law over lists in memory holds for a store.
pub fn applied_lists_are_runs()
    ensures { (done : List (Command × ℕ)) (before after : State) (replies : List (Result Reply Refusal))
        → Applies done before replies after → Run done before (map in_memory replies) after }
{}

/// A list of commands gives from one office the same replies and the same office in any store, as long as no store
/// refuses a command. Databases that keep the offices then have the same tables.
pub fn applied_list_gives_one_office()
    ensures office { (done : List (Command × ℕ)) (before one other : State)
        (first second : List (Result Reply Refusal)) → NoneFails first → NoneFails second
        → Applies done before first one → Applies done before second other
        → (first ≡ second) × (one ≡ other) }
    ensures tables { (done : List (Command × ℕ)) (before one other : State)
        (first second : List (Result Reply Refusal)) (here there : Database)
        → NoneFails first → NoneFails second
        → Applies done before first one → Applies done before second other
        → Keeps here one → Keeps there other → HaveSameTables here there }
{}

/// After an accepted lodging in a store, the same lodging at any later moment, on any day and after any commands
/// between, answered or refused, changes nothing. It answers the appeal's current state, unless the store refuses it.
/// The office of a store is in order (`Store::show_good`).
pub fn repeated_lodging_is_applied_once()
    ensures { (lodging : Lodging) (day later : ℕ) (before mid late after : State) (first : Reply)
        (done : List (Command × ℕ)) (replies : List (Result Reply Refusal)) (second : Result Reply Refusal)
        → IsInOrder late → IsInOrder after
        → MayApply (command.Lodge lodging) day before (Ok first) mid
        → Applies done mid replies late
        → MayApply (command.Lodge lodging) later late second after
        → ((second ≡ Ok (reply.Lodged (stored_state late.relations lodging.number lodging.reference)))
        ⊎ FailsInStore second)
        × (after ≡ late) }
{}

/// After an accepted retraction in a store, the same retraction at any later moment, on any day and after any commands
/// between, answered or refused, changes nothing. It answers again that the appeal is retracted, unless the store
/// refuses it. The office of a store is in order (`Store::show_good`).
pub fn repeated_retraction_is_applied_once()
    ensures { (number : ℕ) (reference : Code) (day later : ℕ) (before mid late after : State) (first : Reply)
        (done : List (Command × ℕ)) (replies : List (Result Reply Refusal)) (second : Result Reply Refusal)
        → IsInOrder late → IsInOrder after
        → MayApply (command.Retract number reference) day before (Ok first) mid
        → Applies done mid replies late
        → MayApply (command.Retract number reference) later late second after
        → ((second ≡ Ok reply.Retracted) ⊎ FailsInStore second) × (after ≡ late) }
{}

/// After an accepted decision in a store, the same decision at any later moment, on any day and after any commands
/// between, answered or refused, changes nothing. It answers that nothing has changed or, if a later grant has
/// superseded the appeal, that it is not open, unless the store refuses it. The office of a store is in order
/// (`Store::show_good`).
pub fn repeated_decision_is_applied_once()
    ensures { (decision : Decision) (day later : ℕ) (before mid late after : State) (first : Reply)
        (done : List (Command × ℕ)) (replies : List (Result Reply Refusal)) (second : Result Reply Refusal)
        → IsInOrder late → IsInOrder after
        → MayApply (command.Decide decision) day before (Ok first) mid
        → Applies done mid replies late
        → MayApply (command.Decide decision) later late second after
        → (IsDecidedAgain late decision second ⊎ FailsInStore second) × (after ≡ late) }
{}

/// A store that was open and kept its office stops at any moment of a command, and what the stop left is opened. Then
/// the office that opening finds is the one before the command or the one after it, also if the command was refused;
/// once the command has replied, it is the one after it. A stop in the middle of a call is a disk that fails from some
/// call on, so `new` is what the call gave on such a disk, and its `may_leave` is what a crash may have left on the
/// disk. If a failure has shut the connection before, the command is refused, and a stop leaves only what it would have
/// left before the command.
pub fn stopped_command_is_made_or_not<S: Alter, T: Alter>()
    ensures any_moment { FindBeforeOrAfter S.Store T.Store }
    ensures answered { FindAfterAnswer S.Store T.Store }
    ensures shut { WriteNothingShut S.Store }
{}

/// The day of each session and of each appeal is from 2000-01-01 to 2199-12-31 in the empty office and in one that was
/// opened. A command on such a day, whose rows have such days, leaves it true. (A `Day` is such a day, and so is the
/// day of each `Row`.) So the office that is found after a stop is exactly the one before the command or after it, and
/// not only one with the same texts in the tables (`IsFoundAs`).
pub fn offices_have_days()
    ensures empty { HasDays empty_state.relations }
    ensures opened { (all : Trees) (office : State) → HoldsFormed all office → HasDays office.relations }
    ensures kept { (done : Command) (today : ℕ) (before after : State) (first : Reply)
        → HasDays before.relations → IsDay today → HasRowDays done
        → Step done today before (Ok first) after → HasDays after.relations }
{}
