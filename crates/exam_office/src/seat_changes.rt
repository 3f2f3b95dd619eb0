//! How the seats of some sessions replace others.
ghost use Rattle.std.specs.Prelude.{◌≡◌, ℕ, false, IsTrue, OnOk};
ghost use Rattle.exam_types.specs.Refusals.{OnlyMemory};
ghost use Rattle.exam_rules.specs.Orders.{KeysRise};
ghost use Rattle.exam_rules.specs.Relations.{Code, has_row, row_at, seat_cmp};
ghost use Rattle.exam_commands.specs.Exchanges as spec;

use exam_changes::rows::set;
use exam_rules::Seats;
use exam_types::Refusal;

/// Seats everybody as in the new plans. After a refusal some of them may already be seated so, and all others are as
/// before.
pub fn put_seats(seats: &mut Seats, new: &Seats) -> Result<(), Refusal>
    ensures ok { OnOk result (seats.new.entries
        ≡ spec.all_put seat_cmp seats.old.entries new.now.entries) }
    ensures others { (k : Code × ℕ) → has_row seat_cmp new.now.entries k ≡ false
        → row_at seat_cmp seats.new.entries k ≡ row_at seat_cmp seats.old.entries k }
    ensures stays { (k : Code × ℕ) → IsTrue (has_row seat_cmp seats.old.entries k)
        → IsTrue (has_row seat_cmp seats.new.entries k) }
    ensures rises { KeysRise seat_cmp seats.new.entries }
    ensures memory { OnlyMemory result }
{
    // The contract of `len` says that the keys rise.
    let _ = seats.len();
    for (key, hall) in new {
        seats.insert(*key, *hall)?;
    }
    Ok(())
}

/// Puts everybody that the new plans seat back to where the old plans seat them, or takes their seat away if the old
/// plans have none.
pub fn take_back_seats(seats: &mut Seats, old: &Seats, new: &Seats)
    requires { (k : Code × ℕ) → IsTrue (has_row seat_cmp old.now.entries k)
        → IsTrue (has_row seat_cmp seats.old.entries k) }
    ensures { seats.new.entries
        ≡ spec.taken_back seat_cmp seats.old.entries old.now.entries new.now.entries }
{
    // The contract of `len` says that the keys rise.
    let _ = seats.len();
    for (key, _) in new {
        set(seats, *key, old.get(key).copied());
    }
}

/// Takes away the seats of the old plans that have no seat in the new ones.
pub fn drop_old_seats(seats: &mut Seats, old: &Seats, new: &Seats)
    ensures { seats.new.entries
        ≡ spec.without_old seat_cmp seats.old.entries old.now.entries new.now.entries }
{
    for (key, _) in old {
        if !new.contains_key(key) {
            let _ = seats.remove(key);
        }
    }
}
