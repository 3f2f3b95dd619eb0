//! A number in a range, with a text of its own.
ghost use Rattle.std.specs.Prelude.{◌≡◌, ◌↔◌, ◌++◌, ◌<◌, ◌≤◌, ℕ, List, IsTrue, OnOk, OnErr, Some};
ghost use Rattle.exam_types.specs.Numbers.{value_in};
ghost use Rattle.exam_types.specs.Refusals.{OnlyMemory};

use crate::numerals::{ShortSpelling, Spelling};
use crate::refusal::Refusal;
use crate::text::append;
use std::marker::{Model, PhantomData};

/// The range of a value, and how its numbers are written.
pub trait Form {
    type Spelling: Spelling;

    ghost least: { ℕ };

    ghost greatest: { ℕ };

    ghost in_range: { ℕ → Type 0 };

    /// Whether a value may have this number.
    fn is_in_range(number: u32) -> bool
        ensures { IsTrue result ↔ in_range number };

    ghost is_spelled: { (n : ℕ) → in_range n → n < Self.Spelling.limit };

    ghost is_between: { (n : ℕ) → in_range n ↔ ((least ≤ n) × (n ≤ greatest)) };
}

/// A number in the range of its form, made from a `W` and returned as one. Contracts see the number.
#[derive_where(Clone, Copy, Debug, PartialEq, Eq, PartialOrd, Ord)]
pub struct Ranged<W, F: Form> {
    value: u32,
    #[derive_where(skip)]
    form: PhantomData<(W, F)>,
}

impl<W, F: Form> Model for Ranged<W, F> {
    ghost use Rattle.std.specs.Prelude.{ℕ};

    ghost Value = { ℕ };

    ghost view = { λ a. a.value };

    ghost invariant = { λ a. F.in_range a.value };

    ghost inverse = { λ n. record { value = n; form = record {} } };
}

impl<W, F: Form> Ranged<W, F> {
    /// The value that these bytes spell, or none.
    pub fn parse(bytes: &[u8]) -> Option<Self>
        ensures exact { (n : ℕ) → (result ≡ Some n) ↔ (F.in_range n × (F.Spelling.text n ≡ bytes.now)) }
        ensures value { result ≡ value_in F.Spelling.text F.least F.greatest bytes.now }
    {
        Ranged::of(F::Spelling::read(bytes)?)
    }

    /// Appends the text. Refused if there is not enough memory; the vector then stays as it was.
    pub fn write_to(&self, out: &mut Vec<u8>) -> Result<(), Refusal>
        ensures ok { OnOk result (out.new.items ≡ out.old.items ++ F.Spelling.text self.now) }
        ensures form { F.in_range self.now }
        ensures err { OnErr result (out.new.items ≡ out.old.items) }
        ensures memory { OnlyMemory result }
    {
        append(out, F::Spelling::write(self.value).as_slice())
    }

    fn of(value: u32) -> Option<Self>
        ensures { (n : ℕ) → (result ≡ Some n) ↔ (F.in_range n × (n ≡ value)) }
    {
        if !F::is_in_range(value) {
            return None;
        }
        Some(Ranged {
            value,
            form: PhantomData,
        })
    }
}

impl<F: Form> Ranged<u32, F> {
    /// The value with this number, or none if it is out of range.
    pub fn new(value: u32) -> Option<Self>
        ensures { (n : ℕ) → (result ≡ Some n) ↔ (F.in_range n × (n ≡ value)) }
    {
        Ranged::of(value)
    }

    /// The number.
    pub fn get(self) -> u32
        ensures value { result ≡ self }
        ensures range { F.in_range result }
    {
        self.value
    }
}

impl<F: Form> Ranged<u16, F>
where
    F::Spelling: ShortSpelling,
{
    /// The value with this number, or none if it is out of range.
    pub fn new(value: u16) -> Option<Self>
        ensures { (n : ℕ) → (result ≡ Some n) ↔ (F.in_range n × (n ≡ value)) }
    {
        Ranged::of(u32::from(value))
    }

    /// The number.
    pub fn get(self) -> u16
        ensures value { result ≡ self }
        ensures range { F.in_range result }
    {
        self.value as u16
    }
}
