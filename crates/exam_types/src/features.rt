//! Features of halls, and needs of candidates.
ghost use Rattle.std.specs.Prelude.{◌≡◌, ◌<◌, ◌≤◌, ◌+◌, ◌^◌, ◌↔◌, ◌==◌, ◌++◌, nat_eq, length, map, IsTrue, Some, OnOk};
ghost use Rattle.std.specs.Prelude.{OnErr};
ghost use Rattle.std.specs.List.{list_any, slice_split};
ghost use Rattle.std.specs.Cmp.Lexicographic.{pointwise};
ghost use Rattle.arrayvec.specs.ArrayVec.{array_vec_len};
ghost use Rattle.exam_types.specs.Features as spec;
ghost use Rattle.exam_types.specs.Refusals.{OnlyMemory};

use crate::refusal::Refusal;
use crate::text::append;
use arrayvec::ArrayVec;
use std::marker::Model;

/// The features. In a sum the first counts 1, and each further one twice as much as the one before it. Texts list them
/// in this order. Files hold sums and texts, so a new feature comes last.
const NAMES: &[&[u8]] = &[
    b"step-free",
    b"screen",
    b"reader",
    b"small-room",
    b"computer",
    b"quiet",
];

/// The sum of the set of all features.
const GREATEST_SUM: u32 = (1 << NAMES.len()) - 1;

/// A set of features: bit k of the mask, counted from 0, is 1 exactly if feature k of `NAMES` is in the set. Contracts
/// see for each feature whether it is in the set.
#[derive(Clone, Copy, Debug, PartialEq, Eq)]
#[tactic(auto, using(crate::specs::FeatureSums::sum_of_summed))]
pub struct Features {
    mask: u8,
}

impl Model for Features {
    ghost use Rattle.std.specs.Prelude.{◌≤◌};
    ghost use Rattle.exam_types.specs.Features.{Features, greatest_sum, features_sum, summed_features};
    ghost use Rattle.exam_types.specs.FeatureSums.{sum_of_summed};

    ghost Value = { Features };

    ghost view = { λ a. summed_features a.mask };

    ghost invariant = { λ a. a.mask ≤ greatest_sum };

    ghost inverse = { λ f. record { mask = features_sum f } };

    ghost inverse_ok = { λ a h i. record { mask = sum_of_summed a.mask h i } };
}

impl Features {
    /// The empty set.
    pub fn none() -> Features
        ensures { result ≡ spec.no_features }
    {
        Features { mask: 0 }
    }

    /// Whether the set has each wanted feature.
    pub fn holds(self, wanted: Features) -> bool
        ensures { result ≡ spec.holds_features self wanted }
    {
        self.mask & wanted.mask == wanted.mask
    }

    /// The sum of 1 for the first feature, 2 for the next, and so on by powers of two.
    pub fn sum(self) -> u32
        ensures value { result ≡ spec.features_sum self }
        ensures range { result ≤ spec.greatest_sum }
    {
        u32::from(self.mask)
    }

    /// The set with this sum, or none.
    #[tactic(auto, using(crate::proofs::FeatureFacts::set_of_sum, crate::specs::FeatureSums::sum_of_summed))]
    pub fn from_sum(sum: u32) -> Option<Features>
        ensures { (f : spec.Features) → (result ≡ Some f) ↔ (spec.features_sum f ≡ sum) }
    {
        if sum <= GREATEST_SUM {
            Some(Features { mask: sum as u8 })
        } else {
            None
        }
    }

    /// The set that these bytes spell, or none.
    #[tactic(auto, using(crate::proofs::FeatureFacts::named_again), unfolding(crate::specs::Features::features_in))]
    pub fn parse(bytes: &[u8]) -> Option<Features>
        ensures exact { (f : spec.Features) → (result ≡ Some f) ↔ (spec.features_text f ≡ bytes.now) }
        ensures value { result ≡ spec.features_in bytes.now }
    {
        let features = named_features(bytes);
        if features.text().as_slice() == bytes {
            Some(features)
        } else {
            None
        }
    }

    /// Appends the text. Refused if there is not enough memory; the vector then stays as it was.
    pub fn write_to(&self, out: &mut Vec<u8>) -> Result<(), Refusal>
        ensures ok { OnOk result (out.new.items ≡ out.old.items ++ spec.features_text self.now) }
        ensures err { OnErr result (out.new.items ≡ out.old.items) }
        ensures memory { OnlyMemory result }
    {
        append(out, self.text().as_slice())
    }

    /// The names joined by `+`, or `-` for the empty set.
    fn text(&self) -> ArrayVec<u8, 64>
        ensures { result.items ≡ spec.features_text self.now }
    {
        let mut text = ArrayVec::new();
        add_names(&mut text, self.mask, NAMES);
        if text.is_empty() {
            text.push(b'-');
        }
        text
    }
}

/// Appends the names whose bits are in the mask.
fn add_names(text: &mut ArrayVec<u8, 64>, mask: u8, names: &[&[u8]])
    requires { array_vec_len text.old + spec.room_of (map (λ name. name.now) names.now) ≤ 64 }
    ensures { let all = map (λ name. name.now) names.now in
        text.new.items ≡ spec.add_names all (spec.summed_among all mask) text.old.items }
{
    if let Some((name, others)) = names.split_first() {
        add_name(text, mask % 2 == 1, name);
        add_names(text, mask / 2, others);
    }
}

/// Appends the name if it is wanted, after a `+` if there is text before it.
fn add_name(text: &mut ArrayVec<u8, 64>, wanted: bool, name: &[u8])
    requires { array_vec_len text.old + length name.now < 64 }
    ensures text { text.new.items ≡ spec.add_name text.old.items wanted name.now }
    ensures len { array_vec_len text.new ≤ array_vec_len text.old + length name.now + 1 }
{
    if wanted {
        if !text.is_empty() {
            text.push(b'+');
        }
        let _fits = text.try_extend_from_slice(name);
    }
}

/// The features that are named by the parts of the text between its `+`.
fn named_features(bytes: &[u8]) -> Features
    ensures { result ≡ spec.named_features bytes.now }
{
    Features {
        mask: named_among(NAMES, bytes),
    }
}

/// The sum of the features among `names` that are named by the parts of the text between its `+`.
fn named_among(names: &[&[u8]], bytes: &[u8]) -> u8
    requires { length names.now ≤ 8 }
    ensures value { let all = map (λ name. name.now) names.now in
        result ≡ spec.sum_among all (spec.named_among all bytes.now) }
    ensures range { result < 2 ^ length names.now }
{
    match names.split_first() {
        Some((name, others)) => u8::from(has_part(bytes, name)) + 2 * named_among(others, bytes),
        None => 0,
    }
}

fn has_part(bytes: &[u8], name: &[u8]) -> bool
    ensures { result ≡ spec.has_part bytes.now name.now }
{
    bytes.split(|b| *b == b'+').any(|part| part == name)
}
