//! The texts of numbers and times.
ghost use Rattle.std.specs.Prelude.{◌≡◌, ◌≤◌, ◌<◌, ◌+◌, ◌↔◌, ◌++◌, ℕ, List, length, Some};
ghost use Rattle.std.proofs.Common.{arith};
ghost use Rattle.std.specs.Fmt.{decimal};
ghost use Rattle.arrayvec.specs.ArrayVec.{array_vec_len};
ghost use Rattle.exam_types.specs.Numbers as spec;

use crate::digits::{ShortText, number_of, push_digits};
use arrayvec::ArrayVec;

/// A way to write numbers below a limit.
pub trait Spelling {
    ghost limit: { ℕ };

    ghost text: { ℕ → List ℕ };

    /// The number that these bytes spell, or none.
    fn read(bytes: &[u8]) -> Option<u32>
        ensures { (n : ℕ) → (result ≡ Some n) ↔ ((n < limit) × (text n ≡ bytes.now)) };

    /// The text of a number.
    fn write(number: u32) -> ShortText
        requires { number < limit }
        ensures { result.items ≡ text number };
}

/// A way to write numbers of at most 16 bits.
pub trait ShortSpelling: Spelling {
    ghost is_short: { (n : ℕ) → n < Self.limit → n < 65536 };
}

/// Seven digits.
pub struct SevenDigits;

impl Spelling for SevenDigits {
    ghost limit = { 10000000 };

    ghost text = { spec.number_text };

    #[tactic(auto, unfolding(crate::specs::Numbers::number_text))]
    fn read(bytes: &[u8]) -> Option<u32> {
        if bytes.len() != 7 {
            return None;
        }
        number_of(bytes)
    }

    #[tactic(auto, unfolding(crate::specs::Numbers::number_text))]
    fn write(number: u32) -> ShortText {
        let mut text = ArrayVec::new();
        push_digits(&mut text, 7, number);
        text
    }
}

/// `HH:MM`, from the number of minutes.
pub struct HourAndMinute;

impl Spelling for HourAndMinute {
    ghost limit = { 6000 };

    ghost text = { spec.minute_text };

    #[tactic(auto, unfolding(crate::specs::Numbers::minute_text))]
    fn read(bytes: &[u8]) -> Option<u32> {
        if bytes.len() != 5 || bytes[2] != b':' {
            return None;
        }
        let hours = number_of(&bytes[..2])?;
        let minutes = number_of(&bytes[3..])?;
        if minutes > 59 {
            return None;
        }
        Some(hours * 60 + minutes)
    }

    #[tactic(auto, unfolding(crate::specs::Numbers::minute_text))]
    fn write(number: u32) -> ShortText {
        let mut text = ArrayVec::new();
        push_digits(&mut text, 2, number / 60);
        text.push(b':');
        push_digits(&mut text, 2, number % 60);
        text
    }
}

impl ShortSpelling for HourAndMinute {
    ghost is_short = { λ n h. Prim.omega arith };
}

/// A decimal without leading zeros.
pub struct Decimal;

impl Spelling for Decimal {
    ghost limit = { 10000 };

    ghost text = { decimal };

    fn read(bytes: &[u8]) -> Option<u32> {
        if bytes.len() > 4 {
            return None;
        }
        let number = number_of(bytes)?;
        // A number with leading zeros is written without them, so its bytes differ.
        if Decimal::write(number).as_slice() == bytes {
            Some(number)
        } else {
            None
        }
    }

    #[tactic(auto, using(crate::proofs::NumeralFacts::decimal_short))]
    fn write(number: u32) -> ShortText {
        let mut text = ArrayVec::new();
        push_decimal(&mut text, number);
        text
    }
}

impl ShortSpelling for Decimal {
    ghost is_short = { λ n h. Prim.omega arith };
}

/// Appends a decimal without leading zeros.
#[tactic(auto, using(crate::proofs::NumeralFacts::decimal_one, crate::proofs::NumeralFacts::decimal_length))]
fn push_decimal(text: &mut ShortText, number: u32)
    requires { array_vec_len text.old + length (decimal number) ≤ 16 }
    ensures text { text.new.items ≡ text.old.items ++ decimal number }
    ensures len { array_vec_len text.new ≡ array_vec_len text.old + length (decimal number) }
{
    if number < 10 {
        text.push(b'0' + number as u8);
        return;
    }
    push_decimal(text, number / 10);
    text.push(b'0' + (number % 10) as u8);
}
