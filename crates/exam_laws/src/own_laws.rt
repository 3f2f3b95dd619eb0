//! Laws of what the office answers and shows a candidate: their own rows decide it, and nobody else's do. The laws ask
//! for offices that are good and in order; every `Office` is (`Office::show_good`, `Office::show_order`).
ghost use Rattle.std.specs.Prelude.{◌≡◌, ◌≢◌, ◌↔◌, ℕ, true, Contains, Result, Some, filter, length, map};
ghost use Rattle.std.specs.Map.{keys_of};
ghost use Rattle.exam_types.specs.declared.refusal.Refusal.{Refusal};
ghost use Rattle.exam_rules.specs.declared.rows.Session.{Session};
ghost use Rattle.exam_rules.specs.Relations.{Code};
ghost use Rattle.exam_rules.specs.Sessions.{is_member};
ghost use Rattle.exam_commands.specs.declared.command.Command.TheVariants as command;
ghost use Rattle.exam_commands.specs.declared.command.Lodging.{Lodging};
ghost use Rattle.exam_commands.specs.declared.command.Reply.{Reply};
ghost use Rattle.exam_commands.specs.Good.{IsGood};
ghost use Rattle.exam_commands.specs.Lodgings.{lodging_refusal, retraction_refusal};
ghost use Rattle.exam_commands.specs.Orders.{IsInOrder};
ghost use Rattle.exam_commands.specs.Own.{OwnRows, OwnSessionRow, own_of};
ghost use Rattle.exam_commands.specs.State.{State};
ghost use Rattle.exam_commands.specs.Steps.{Step};

/// Two offices that show a candidate the same give the same answer to a lodging of theirs on one day, and show them the
/// same after it: both accept it, or both refuse it for the same reason, whatever they hold about others. So lodging
/// shows a candidate nothing about others beyond what they are shown already.
pub fn own_rows_decide_a_lodging()
    ensures refusal { (lodging : Lodging) (day : ℕ) (one other : State)
        → IsGood one → IsInOrder one → IsGood other → IsInOrder other
        → own_of one lodging.number ≡ own_of other lodging.number
        → lodging_refusal one.relations one.seats day lodging
        ≡ lodging_refusal other.relations other.seats day lodging }
    ensures answer { (lodging : Lodging) (day : ℕ) (one other one_after other_after : State)
        (first second : Result Reply Refusal)
        → IsGood one → IsInOrder one → IsGood other → IsInOrder other
        → own_of one lodging.number ≡ own_of other lodging.number
        → Step (command.Lodge lodging) day one first one_after
        → Step (command.Lodge lodging) day other second other_after → first ≡ second }
    ensures shown { (lodging : Lodging) (day : ℕ) (one other one_after other_after : State)
        (first second : Result Reply Refusal)
        → IsGood one → IsInOrder one → IsGood other → IsInOrder other
        → IsInOrder one_after → IsInOrder other_after
        → own_of one lodging.number ≡ own_of other lodging.number
        → Step (command.Lodge lodging) day one first one_after
        → Step (command.Lodge lodging) day other second other_after
        → own_of one_after lodging.number ≡ own_of other_after lodging.number }
{}

/// Two offices that show a candidate the same give the same answer to a retraction of theirs, on any days, and show
/// them the same after it.
pub fn own_rows_decide_a_retraction()
    ensures refusal { (number : ℕ) (reference : Code) (one other : State)
        → IsGood one → IsGood other → own_of one number ≡ own_of other number
        → retraction_refusal one.relations number reference
        ≡ retraction_refusal other.relations number reference }
    ensures answer { (number : ℕ) (reference : Code) (day later : ℕ)
        (one other one_after other_after : State) (first second : Result Reply Refusal)
        → IsGood one → IsGood other → own_of one number ≡ own_of other number
        → Step (command.Retract number reference) day one first one_after
        → Step (command.Retract number reference) later other second other_after → first ≡ second }
    ensures shown { (number : ℕ) (reference : Code) (day later : ℕ)
        (one other one_after other_after : State) (first second : Result Reply Refusal)
        → IsGood one → IsInOrder one → IsGood other → IsInOrder other
        → IsInOrder one_after → IsInOrder other_after → own_of one number ≡ own_of other number
        → Step (command.Retract number reference) day one first one_after
        → Step (command.Retract number reference) later other second other_after
        → own_of one_after number ≡ own_of other_after number }
{}

/// What the office shows of a candidate stays as it is when another candidate lodges or retracts an appeal, whether it
/// is accepted or refused.
pub fn lodging_and_retracting_show_others_nothing()
    ensures lodging { (lodging : Lodging) (day number : ℕ) (before after : State)
        (answer : Result Reply Refusal)
        → IsGood before → IsInOrder before → IsInOrder after → lodging.number ≢ number
        → Step (command.Lodge lodging) day before answer after → own_of after number ≡ own_of before number }
    ensures retracting { (appellant : ℕ) (reference : Code) (day number : ℕ) (before after : State)
        (answer : Result Reply Refusal)
        → IsGood before → IsInOrder before → IsInOrder after → appellant ≢ number
        → Step (command.Retract appellant reference) day before answer after
        → own_of after number ≡ own_of before number }
{}

/// What the office shows of a candidate leaves out no session: it has as many rows as there are sessions that the
/// candidate is a member of, one for each of them, by code.
pub fn own_rows_show_each_session()
    ensures rows { (office : State) (number : ℕ) (own : OwnRows) → own_of office number ≡ Some own
        → map (λ (row : OwnSessionRow). row.session) own.sessions
        ≡ keys_of (filter (λ (held : Code × Session). is_member office.relations held.0 number)
        office.relations.sessions) }
    ensures count { (office : State) (number : ℕ) (own : OwnRows) → own_of office number ≡ Some own
        → length own.sessions
        ≡ length (filter (λ (held : Code × Session). is_member office.relations held.0 number)
        office.relations.sessions) }
    ensures each { (office : State) (number : ℕ) (own : OwnRows) → IsGood office
        → own_of office number ≡ Some own → (s : Code)
        → (is_member office.relations s number ≡ true)
        ↔ Contains (map (λ (row : OwnSessionRow). row.session) own.sessions) s }
{}
