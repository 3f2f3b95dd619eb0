//! Who moves when plans change.
ghost use Rattle.std.specs.Prelude.{◌≡◌};
ghost use Rattle.exam_commands.specs.Moves as spec;

use exam_rules::Seats;
use exam_types::{HallCode, Number, SessionCode};

/// How many others than the candidate sit in another hall after than before, over all sessions in which they sit both
/// before and after. One who moves in two sessions counts twice. There are at most as many as seats before. Takes no
/// memory.
pub fn moved(before: &Seats, after: &Seats, number: Number) -> usize
    ensures { result ≡ spec.moved before.now.entries after.now.entries number }
{
    before
        .iter()
        .filter(|(key, hall)| key.1 != number && is_elsewhere(after, key, hall))
        .count()
}

/// Whether the candidate of this seat sits, in the same session, in another hall.
fn is_elsewhere(after: &Seats, key: &(SessionCode, Number), hall: &HallCode) -> bool
    ensures { result ≡ spec.is_elsewhere after.now.entries (key.now, hall.now) }
{
    match after.get(key) {
        Some(other) => *other != *hall,
        None => false,
    }
}
