//! Sets of halls, each hall by its number.
ghost use Rattle.std.specs.Prelude.{◌≡◌, ◌↔◌, ◌<◌, ◌≤◌, ◌%◌, ◌^◌, ◌||◌, ◌&&◌, ℕ, false, not, slice_index, nat_eq};
ghost use Rattle.std.specs.Prelude.{if◌then◌else◌, IsTrue, MatchOption};
ghost use Rattle.exam_plan.specs.HallSets.{most_halls, holds, IsLeast, set_of_mask};

use std::marker::Model;

/// The most halls that a set tells apart, and so the most halls of a problem.
pub const MOST_HALLS: usize = 256;

/// The bits of a set of halls: hall h is in it where bit h % 128 of word h / 128 is 1.
pub type Mask = [u128; 2];

/// A set of halls.
#[derive(Clone, Copy)]
pub struct HallSet {
    /// The halls below 128, hall h at bit h.
    low: u128,
    /// The halls from 128 on, hall h at bit h - 128.
    high: u128,
}

impl Model for HallSet {
    ghost use Rattle.std.specs.Prelude.{ℕ, ◌<◌, ◌+◌, ◌*◌, ◌/◌, ◌%◌, ◌^◌};
    ghost use Rattle.std.proofs.lemmas.Nat.{mod_low, shr_high};

    ghost Value = { ℕ };

    ghost view = { λ a. a.high * 2 ^ 128 + a.low };

    ghost invariant = { λ a. (a.low < 2 ^ 128) × (a.high < 2 ^ 128) };

    ghost inverse = { λ n. record { low = n % 2 ^ 128; high = n / 2 ^ 128 } };

    ghost inverse_ok = { λ a within i. record {
      low = mod_low a.high 128 a.low within.0 i;
      high = shr_high a.high 128 a.low within.0 i;
    } };
}

impl HallSet {
    /// The set of no hall.
    pub fn empty() -> HallSet
        ensures { (h : ℕ) → holds result h ≡ false }
    {
        HallSet { low: 0, high: 0 }
    }

    /// The set of the halls whose bits are 1.
    pub fn of_mask(mask: Mask) -> HallSet
        ensures { result ≡ set_of_mask mask }
    {
        HallSet {
            low: mask[0],
            high: mask[1],
        }
    }

    /// The bits of the set.
    pub fn mask(self) -> Mask
        ensures bits { set_of_mask result ≡ self }
        ensures word { slice_index result 0 < 2 ^ 128 }
    {
        [self.low, self.high]
    }

    /// The word of the hall, where the hall's bit is bit hall % 128.
    fn word_of(self, hall: usize) -> u128
        ensures { holds result (hall % 128) ≡ holds self hall }
    {
        if hall < 128 {
            self.low
        } else if hall < MOST_HALLS {
            self.high
        } else {
            0
        }
    }

    /// Whether the hall is in the set.
    pub fn contains(self, hall: usize) -> bool
        ensures { result ≡ holds self hall }
    {
        (self.word_of(hall) >> (hall % 128)) & 1 != 0
    }

    /// The set with the hall in it.
    pub fn with(self, hall: usize) -> HallSet
        requires { hall < most_halls }
        ensures { (h : ℕ) → holds result h ≡ (nat_eq h hall || holds self h) }
    {
        let bit = 1 << (hall % 128);
        if hall < 128 {
            HallSet {
                low: self.low | bit,
                high: self.high,
            }
        } else {
            HallSet {
                low: self.low,
                high: self.high | bit,
            }
        }
    }

    /// The set with the hall in it, or without it.
    pub fn put(self, hall: usize, inside: bool) -> HallSet
        requires { hall < most_halls }
        ensures { (h : ℕ) → holds result h ≡ (if nat_eq h hall then inside else holds self h) }
    {
        let one = HallSet::empty().with(hall);
        if inside {
            self.union(one)
        } else {
            self.minus(one)
        }
    }

    /// The halls that are in either set.
    pub fn union(self, other: HallSet) -> HallSet
        ensures { (h : ℕ) → holds result h ≡ (holds self h || holds other h) }
    {
        HallSet {
            low: self.low | other.low,
            high: self.high | other.high,
        }
    }

    /// The halls of this set that are not in the other.
    pub fn minus(self, other: HallSet) -> HallSet
        ensures { (h : ℕ) → holds result h ≡ (holds self h && not (holds other h)) }
    {
        HallSet {
            low: self.low & !other.low,
            high: self.high & !other.high,
        }
    }

    /// The halls that are in both sets.
    pub fn common(self, other: HallSet) -> HallSet
        ensures { (h : ℕ) → holds result h ≡ (holds self h && holds other h) }
    {
        HallSet {
            low: self.low & other.low,
            high: self.high & other.high,
        }
    }

    /// Whether there is no hall in the set.
    pub fn is_empty(self) -> bool
        ensures { IsTrue result ↔ ((h : ℕ) → holds self h ≡ false) }
    {
        self.first().is_none()
    }

    /// Whether a hall is in both sets.
    pub fn meets(self, other: HallSet) -> bool
        ensures { IsTrue result ↔ ((h : ℕ) × IsTrue (holds self h) × IsTrue (holds other h)) }
    {
        self.common(other).first().is_some()
    }

    /// The least hall of the set, or none if the set is empty.
    pub fn first(self) -> Option<usize>
        ensures { MatchOption result
            ((h : ℕ) → holds self h ≡ false)
            (IsLeast self) }
    {
        if self.low != 0 {
            Some(self.low.trailing_zeros() as usize)
        } else if self.high != 0 {
            Some(128 + self.high.trailing_zeros() as usize)
        } else {
            None
        }
    }

    /// The least hall of the set and the set of the others, or none if the set is empty.
    pub fn split_first(self) -> Option<(usize, HallSet)>
        ensures { MatchOption result
            ((h : ℕ) → holds self h ≡ false)
            (λ (least, others). IsLeast self least
            × ((h : ℕ) → holds others h ≡ (if nat_eq h least then false else holds self h))) }
    {
        if self.low != 0 {
            let others = HallSet {
                low: self.low & (self.low - 1),
                high: self.high,
            };
            Some((self.low.trailing_zeros() as usize, others))
        } else if self.high != 0 {
            let others = HallSet {
                low: 0,
                high: self.high & (self.high - 1),
            };
            Some((128 + self.high.trailing_zeros() as usize, others))
        } else {
            None
        }
    }
}
