//! The codes: the bytes and the lengths of each.
ghost use Rattle.std.proofs.Common.{arith};

use crate::code::{CapitalsAndDigits, Code, Dashed, Kind};

/// The length of the shortest session code.
const SHORTEST_SESSION_CODE: usize = 1;

/// The length of the longest session code.
const LONGEST_SESSION_CODE: usize = 12;

/// A session code: 1 to 12 capitals, digits and dashes. Codes are ordered by their bytes.
pub type SessionCode = Code<SessionCodeKind, Dashed, SHORTEST_SESSION_CODE, LONGEST_SESSION_CODE>;

/// Tells a [`SessionCode`] from the other codes.
pub struct SessionCodeKind;

impl Kind<LONGEST_SESSION_CODE> for SessionCodeKind {
    ghost is_short = { Prim.omega arith };
}

/// The length of the shortest paper code.
const SHORTEST_PAPER_CODE: usize = 1;

/// The length of the longest paper code.
const LONGEST_PAPER_CODE: usize = 12;

/// A paper code: 1 to 12 capitals, digits and dashes. Codes are ordered by their bytes.
pub type PaperCode = Code<PaperCodeKind, Dashed, SHORTEST_PAPER_CODE, LONGEST_PAPER_CODE>;

/// Tells a [`PaperCode`] from the other codes.
pub struct PaperCodeKind;

impl Kind<LONGEST_PAPER_CODE> for PaperCodeKind {
    ghost is_short = { Prim.omega arith };
}

/// The length of the shortest hall code.
const SHORTEST_HALL_CODE: usize = 1;

/// The length of the longest hall code.
const LONGEST_HALL_CODE: usize = 8;

/// A hall code: 1 to 8 capitals and digits. Codes are ordered by their bytes.
pub type HallCode = Code<HallCodeKind, CapitalsAndDigits, SHORTEST_HALL_CODE, LONGEST_HALL_CODE>;

/// Tells a [`HallCode`] from the other codes.
pub struct HallCodeKind;

impl Kind<LONGEST_HALL_CODE> for HallCodeKind {
    ghost is_short = { Prim.omega arith };
}

/// The length of the shortest reference.
const SHORTEST_REFERENCE: usize = 1;

/// The length of the longest reference.
const LONGEST_REFERENCE: usize = 16;

/// An appeal reference: 1 to 16 capitals and digits. Each candidate has references of their own. References are ordered
/// by their bytes.
pub type Reference = Code<ReferenceKind, CapitalsAndDigits, SHORTEST_REFERENCE, LONGEST_REFERENCE>;

/// Tells a [`Reference`] from the other codes.
pub struct ReferenceKind;

impl Kind<LONGEST_REFERENCE> for ReferenceKind {
    ghost is_short = { Prim.omega arith };
}

/// The length of the shortest access code.
const SHORTEST_ACCESS_CODE: usize = 8;

/// The length of the longest access code.
const LONGEST_ACCESS_CODE: usize = 16;

/// An access code: 8 to 16 capitals and digits. Codes are ordered by their bytes.
pub type AccessCode = Code<
    AccessCodeKind,
    CapitalsAndDigits,
    SHORTEST_ACCESS_CODE,
    LONGEST_ACCESS_CODE,
>;

/// Tells an [`AccessCode`] from the other codes.
pub struct AccessCodeKind;

impl Kind<LONGEST_ACCESS_CODE> for AccessCodeKind {
    ghost is_short = { Prim.omega arith };
}
