//! Whether facts that a command has made are within the limits.
ghost use Rattle.std.specs.Prelude.{◌≡◌};
ghost use Rattle.exam_rules.specs.Relations.{Relations, relations_of};
ghost use Rattle.exam_rules.specs.Lists.{AreListsOf};
ghost use Rattle.exam_commands.specs.FactsMade as made;
ghost use Rattle.exam_commands.specs.FactsMade.{WasMade};
ghost use Rattle.exam_commands.specs.Limits as spec;

use exam_commands::Command;
use exam_repair::limits::{MOST_APPEALS, is_within_limits};
use exam_rules::{Facts, SessionLists, has_at_most};

/// Whether the facts that the command made of good ones are within every limit. Looks only at what the command may have
/// added.
pub fn stays_within(facts: &Facts, lists: &SessionLists, command: &Command) -> bool
    requires lists { AreListsOf (relations_of facts.now) lists.now }
    requires made { (r : Relations) × WasMade command.now r (relations_of facts.now) }
    ensures { result ≡ spec.within_limits (relations_of facts.now) }
{
    if !may_pass_limit(command) {
        return true;
    }
    match command {
        Command::Lodge(lodging) => has_at_most(facts, lodging.number, MOST_APPEALS),
        _ => is_within_limits(facts, lists),
    }
}

/// Whether commands of this kind may add to what a limit counts.
fn may_pass_limit(command: &Command) -> bool
    ensures { result ≡ made.may_pass_limit command.now }
{
    matches!(
        command,
        Command::Import(_) | Command::Reinstate(_, _) | Command::Lodge(_)
    )
}
