//! A short text of bytes in a fixed array, ordered by its bytes.
ghost use Rattle.std.specs.Prelude.{◌≡◌, ℕ, ◌-◌, ◌<◌, ◌≤◌, ◌++◌, length, nat_eq, Bool, IsTrue, OnOk, OnErr};
ghost use Rattle.std.specs.Prelude.{Some, None, if◌then◌else◌, refl};
ghost use Rattle.exam_types.specs.Codes.{is_code, is_dashed, is_capital_or_digit};
ghost use Rattle.exam_types.specs.Refusals.{OnlyMemory};
ghost use Rattle.std.specs.List.{list_all};
ghost use Rattle.std.specs.Ordering.{nat_cmp};
ghost use Rattle.std.specs.Cmp.{partial_equiv_from_equiv};
ghost use Rattle.std.specs.Cmp.Lexicographic.{pointwise, slice_cmp, nat_list_eq_equiv, nat_list_cmp_total};
ghost use Rattle.std.specs.Cmp.Lexicographic.{texts_po, texts_ties};

use crate::refusal::Refusal;
use crate::text::append;
use std::cmp::Ordering;
use std::marker::{Model, PhantomData};
use std::{fmt, str};

/// The bytes that a code may have.
pub trait Alphabet {
    ghost allowed: { ℕ → Bool };

    /// Whether a code may have this byte.
    fn allows(byte: u8) -> bool
        ensures { result ≡ allowed byte };
}

/// Allows capitals and digits.
pub struct CapitalsAndDigits;

impl Alphabet for CapitalsAndDigits {
    ghost allowed = { is_capital_or_digit };

    fn allows(byte: u8) -> bool {
        matches!(byte, b'A'..=b'Z' | b'0'..=b'9')
    }
}

/// Allows capitals, digits and dashes.
pub struct Dashed;

impl Alphabet for Dashed {
    ghost allowed = { is_dashed };

    fn allows(byte: u8) -> bool {
        CapitalsAndDigits::allows(byte) || byte == b'-'
    }
}

/// A kind of code that has at most `GREATEST` bytes, so few that one byte holds how many they are.
pub trait Kind<const GREATEST: usize> {
    ghost is_short: { GREATEST < 256 };
}

/// A code of the kind `K`: `LEAST` to `GREATEST` bytes of its alphabet, kept in the value itself, so a code takes no
/// memory. Contracts see its bytes. Codes are ordered by their bytes.
#[derive_where(Clone, Copy)]
pub struct Code<K, A: Alphabet, const LEAST: usize, const GREATEST: usize> {
    cells: [u8; GREATEST],
    len: u8,
    kind: PhantomData<(K, A)>,
}

impl<K, A: Alphabet, const LEAST: usize, const GREATEST: usize> Model
    for Code<K, A, LEAST, GREATEST> {
    ghost use Rattle.std.specs.Prelude.{◌≡◌, ℕ, ◌-◌, ◌≤◌, List, IsTrue, length, take, drop, replicate};
    ghost use Rattle.exam_types.specs.Codes.{is_code};
    ghost use Rattle.exam_types.specs.Padding.{padded, padded-take, length-front};

    ghost Value = { List ℕ };

    ghost view = { λ a. take a.len a.cells };

    ghost invariant = { λ a. (a.len ≤ GREATEST) × (length a.cells ≡ GREATEST)
        × (drop a.len a.cells ≡ replicate (GREATEST - a.len) 0)
        × IsTrue (is_code A.allowed LEAST GREATEST (take a.len a.cells)) };

    ghost inverse = { λ text. record { cells = padded GREATEST text; len = length text; kind = record {} } };

    ghost inverse_ok = { λ a h i. record {
      cells = padded-take GREATEST a.len a.cells h.0 h.1 h.2 i;
      len = length-front GREATEST a.len a.cells h.0 h.1 i;
      kind = record {};
    } };
}

impl<K, A: Alphabet, const LEAST: usize, const GREATEST: usize> Code<K, A, LEAST, GREATEST>
where
    K: Kind<GREATEST>,
{
    /// The code that these bytes are, or none.
    #[tactic(auto, using(crate::proofs::CodeFacts::longest))]
    pub fn parse(bytes: &[u8]) -> Option<Self>
        ensures { result ≡ (if is_code A.allowed LEAST GREATEST bytes.now then Some bytes.now else None) }
    {
        if !has_form::<A>(bytes, LEAST, GREATEST) {
            return None;
        }
        let mut cells = [0; GREATEST];
        cells[..bytes.len()].copy_from_slice(bytes);
        Some(Code {
            cells,
            len: bytes.len() as u8,
            kind: PhantomData,
        })
    }
}

impl<K, A: Alphabet, const LEAST: usize, const GREATEST: usize> Code<K, A, LEAST, GREATEST> {
    /// Appends the code's bytes. Refused if there is not enough memory; the vector then stays as it was.
    pub fn write_to(&self, out: &mut Vec<u8>) -> Result<(), Refusal>
        ensures ok { OnOk result (out.new.items ≡ out.old.items ++ self.now) }
        ensures form { IsTrue (is_code A.allowed LEAST GREATEST self.now) }
        ensures err { OnErr result (out.new.items ≡ out.old.items) }
        ensures memory { OnlyMemory result }
    {
        append(out, self.as_bytes())
    }

    /// The code's bytes.
    pub fn as_bytes(&self) -> &[u8]
        ensures value { result.now ≡ self.now }
        ensures form { IsTrue (is_code A.allowed LEAST GREATEST self.now) }
    {
        &self.cells[..usize::from(self.len)]
    }
}

impl<K, A: Alphabet, const LEAST: usize, const GREATEST: usize> fmt::Display
    for Code<K, A, LEAST, GREATEST> {
    ghost output = { λ code. Some code };

    fn fmt<W: fmt::Write>(&self, f: &mut fmt::Formatter<W>) -> fmt::Result {
        f.write_str(str::from_utf8(self.as_bytes()).map_err(|_| fmt::Error)?)
    }
}

/// Whether these are `low` to `high` bytes, each of them in the alphabet.
fn has_form<A: Alphabet>(bytes: &[u8], low: usize, high: usize) -> bool
    ensures { result ≡ is_code A.allowed low high bytes.now }
{
    low <= bytes.len() && bytes.len() <= high && are_allowed::<A>(bytes)
}

fn are_allowed<A: Alphabet>(bytes: &[u8]) -> bool
    ensures { result ≡ list_all A.allowed bytes.now }
{
    bytes.iter().all(|byte| A::allows(*byte))
}

impl<K, A: Alphabet, const LEAST: usize, const GREATEST: usize> PartialEq
    for Code<K, A, LEAST, GREATEST> {
    ghost eq = { pointwise nat_eq };

    ghost laws = { partial_equiv_from_equiv nat_list_eq_equiv };

    fn eq(&self, other: &Self) -> bool {
        self.as_bytes() == other.as_bytes()
    }
}

impl<K, A: Alphabet, const LEAST: usize, const GREATEST: usize> Eq for Code<K, A, LEAST, GREATEST> {
    ghost laws = { nat_list_eq_equiv };
}

impl<K, A: Alphabet, const LEAST: usize, const GREATEST: usize> PartialOrd
    for Code<K, A, LEAST, GREATEST> {
    ghost partial_cmp = { λ a b. Some (slice_cmp nat_cmp a b) };

    ghost laws = { texts_po };

    fn partial_cmp(&self, other: &Self) -> Option<Ordering> {
        Some(self.cmp(other))
    }
}

impl<K, A: Alphabet, const LEAST: usize, const GREATEST: usize> Ord
    for Code<K, A, LEAST, GREATEST> {
    ghost cmp = { slice_cmp nat_cmp };

    ghost total = { nat_list_cmp_total };

    ghost matches_partial_cmp = { λ a b. refl };

    ghost matches_eq = { texts_ties };

    fn cmp(&self, other: &Self) -> Ordering {
        self.as_bytes().cmp(&other.as_bytes())
    }
}
