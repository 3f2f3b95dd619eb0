//! Appeals that come one by one.
ghost use Rattle.std.specs.Prelude.{◌≡◌, List, IsTrue, IfOk, IfErr};
ghost use Rattle.exam_types.specs.declared.refusal.Refusal.{Refusal as Error};
ghost use Rattle.exam_views.specs.declared.view.AppealRow.{AppealRow as Row};
ghost use Rattle.exam_views.specs.Sources.{Gives, is_source_refusal};

use crate::view::AppealRow;
use exam_types::Refusal;

/// Appeals of a session that come one by one, so they need not all be in memory at once.
pub trait AppealSource {
    /// The rows to come.
    ghost coming: { Self → List Row };

    /// Whether what it reads from, such as a disk, has returned what was written, so far.
    ghost IsHonest: { Self → Type 0 };

    /// The refusals for which it has a reason, from the source before some calls to the source after them. The last
    /// call refused.
    ghost Refuses: { Self → Self → Error → Type 0 };

    /// What every call leaves as it is, from the source before to the source after.
    ghost Stays: { Self → Self → Type 0 };

    /// The next row, or none after the last one. This is said only of a source that is honest after the call. Refused
    /// with `NoMemory`, `Store` or `BadStore`, each for a reason that `Refuses` names.
    fn next(&mut self) -> Result<Option<AppealRow>, Refusal>
        ensures row { Self.IsHonest self.new → IfOk result (λ row.
            Gives row (Self.coming self.old) (Self.coming self.new)) }
        ensures honest { Self.IsHonest self.new → Self.IsHonest self.old }
        ensures refusal { IfErr result (λ e. IsTrue (is_source_refusal e) × Self.Refuses self.old self.new e) }
        ensures stays { Self.Stays self.old self.new };

    ghost stays_itself: { (a : Self) → Stays a a };

    ghost stays_then: { (a b c : Self) → Stays a b → Stays b c → Stays a c };

    ghost refuses_then: { (a b c : Self) → (e : Error) → Stays a b → Refuses b c e → Refuses a c e };
}

/// Rows in memory. Reading them refuses nothing.
#[derive(Drop)]
pub struct ListedAppeals<'a> {
    pub rows: &'a [AppealRow],
}

impl<'a> AppealSource for ListedAppeals<'a> {
    ghost use Rattle.std.specs.Prelude.{⊤};

    ghost coming = { λ s. s.rows.now };

    ghost IsHonest = { λ s. ⊤ };

    ghost Refuses = { λ a b e. ⊥ };

    ghost Stays = { λ a b. ⊤ };

    fn next(&mut self) -> Result<Option<AppealRow>, Refusal> {
        match self.rows.split_first() {
            Some((row, rest)) => {
                self.rows = rest;
                Ok(Some(*row))
            }
            None => Ok(None),
        }
    }

    ghost stays_itself = { λ a. tt };

    ghost stays_then = { λ a b c first second. tt };

    ghost refuses_then = { λ a b c e stays refuses. refuses };
}
