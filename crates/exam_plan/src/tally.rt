//! How often each hall was counted.
ghost use Rattle.std.specs.Prelude.{◌≡◌, ◌↔◌, ◌<◌, ◌≤◌, ◌+◌, ℕ, length, IsTrue};
ghost use Rattle.exam_plan.specs.HallSets.{holds};
ghost use Rattle.exam_plan.specs.Problems.{most_members};
ghost use Rattle.exam_plan.specs.Tallies.{IsWhole, digit_count, tallied, tally_of, one_if};

use crate::hall_set::HallSet;

/// As many binary digits as the number of all candidates has.
const DIGITS: usize = 13;

/// A number for each hall of a word, in binary: each digit is the set of the halls whose number has a one there, the
/// last digit first. So all halls of a word are counted at once.
type Digits = [u128; DIGITS];

/// A number for each hall, word by word: mostly one of the two words has nothing to count.
#[derive(Clone, Copy)]
pub struct Tally {
    /// The halls below 128.
    low: Digits,
    /// The halls from 128 on.
    high: Digits,
}

/// Counts each hall of the word once more, if it was counted at most as often as a problem may have candidates.
fn count_word(digits: &mut Digits, word: u128)
    requires { length digits.old ≡ digit_count }
    ensures whole { length digits.new ≡ digit_count }
    ensures more { (h : ℕ) → tallied digits.old h ≤ most_members
        → tallied digits.new h ≡ tallied digits.old h + one_if (holds word h) }
{
    let mut carry = word;
    for place in 0..DIGITS {
        if carry == 0 {
            return;
        }
        let digit = digits[place];
        digits[place] = digit ^ carry;
        carry &= digit;
    }
}

/// Counts each hall of the word once less, if it was counted.
fn discount_word(digits: &mut Digits, word: u128)
    requires { length digits.old ≡ digit_count }
    ensures whole { length digits.new ≡ digit_count }
    ensures less { (h : ℕ) → (IsTrue (holds word h) → 0 < tallied digits.old h)
        → tallied digits.new h + one_if (holds word h) ≡ tallied digits.old h }
{
    let mut borrow = word;
    for place in 0..DIGITS {
        if borrow == 0 {
            return;
        }
        let digit = digits[place] ^ borrow;
        digits[place] = digit;
        borrow &= digit;
    }
}

/// The halls of the word that are counted at least once.
fn counted_word(digits: &Digits) -> u128
    requires { length digits.now ≡ digit_count }
    ensures { (h : ℕ) → IsTrue (holds result h) ↔ 0 < tallied digits.now h }
{
    let mut counted = 0;
    for digit in digits {
        counted |= *digit;
    }
    counted
}

impl Tally {
    /// No hall was counted.
    pub fn none() -> Tally
        ensures whole { IsWhole result }
        ensures none { (h : ℕ) → tally_of result h ≡ 0 }
    {
        Tally {
            low: [0; DIGITS],
            high: [0; DIGITS],
        }
    }

    /// Counts each hall of the set once more.
    pub fn count(&mut self, halls: HallSet)
        requires whole { IsWhole self.old }
        requires room { (h : ℕ) → tally_of self.old h ≤ most_members }
        ensures whole { IsWhole self.new }
        ensures more { (h : ℕ) → tally_of self.new h ≡ tally_of self.old h + one_if (holds halls h) }
    {
        let [low, high] = halls.mask();
        count_word(&mut self.low, low);
        count_word(&mut self.high, high);
    }

    /// Counts each hall of the set once less.
    pub fn discount(&mut self, halls: HallSet)
        requires whole { IsWhole self.old }
        requires counted { (h : ℕ) → IsTrue (holds halls h) → 0 < tally_of self.old h }
        ensures whole { IsWhole self.new }
        ensures less { (h : ℕ) → tally_of self.new h + one_if (holds halls h) ≡ tally_of self.old h }
    {
        let [low, high] = halls.mask();
        discount_word(&mut self.low, low);
        discount_word(&mut self.high, high);
    }

    /// The halls that are counted at least once.
    pub fn counted(&self) -> HallSet
        requires { IsWhole self.now }
        ensures { (h : ℕ) → IsTrue (holds result h) ↔ 0 < tally_of self.now h }
    {
        HallSet::of_mask([counted_word(&self.low), counted_word(&self.high)])
    }
}
