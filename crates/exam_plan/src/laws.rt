//! Laws of matchings.
ghost use Rattle.std.specs.Prelude.{◌≡◌, ◌↔◌, ◌<◌, ◌≤◌, ℕ, List, Option, Some, IsTrue, Contains, length};
ghost use Rattle.std.specs.List.Sorted.{IsStrictlySortedBy};
ghost use Rattle.std.specs.Ordering.{nat_cmp};
ghost use Rattle.exam_plan.specs.Matching.{Seating, Plan, SamePlan, IsLawful, IsBest, IsCertificate};
ghost use Rattle.exam_plan.specs.Matching.{IsContested, desk_number, size};
ghost use Rattle.exam_plan.specs.Chains.{Chain, IsLeastChain};
ghost use Rattle.exam_plan.specs.Repair.{kept_part, IsRepair, IsSweep};
ghost use Rattle.exam_plan.specs.Problems as problems;
ghost use Rattle.exam_plan.specs.Problems.{IsProblem, seating_of, ranks_before};

/// Two best plans seat equally many.
pub fn best_sizes_agree()
    ensures { (g : Seating ℕ ℕ) (p q : Plan ℕ ℕ) → IsBest g p → IsBest g q → size g p ≡ size g q }
{}

/// A lawful plan with a deficiency certificate is best.
pub fn certificate_shows_best()
    ensures { (p : problems.Problem) (q : Plan ℕ ℕ) (candidates halls : List ℕ) → IsProblem p
        → IsLawful (seating_of p) q → IsCertificate (seating_of p) q candidates halls
        → IsBest (seating_of p) q }
{}

/// Every problem has a best plan.
pub fn some_plan_is_best()
    ensures { (p : problems.Problem) → IsProblem p → (q : Plan ℕ ℕ) × IsBest (seating_of p) q }
{}

/// The contested candidates, with all halls that fit any of them, are a certificate of every best plan. There are such
/// lists, and any two rising lists that name exactly these candidates and these halls are a certificate.
pub fn contested_are_a_certificate()
    ensures some { (p : problems.Problem) → IsProblem p
        → (candidates : List ℕ) × (halls : List ℕ)
        × ((c : ℕ) → Contains candidates c ↔ IsContested (seating_of p) c)
        × ((r : Plan ℕ ℕ) → IsBest (seating_of p) r → IsCertificate (seating_of p) r candidates halls) }
    ensures every { (p : problems.Problem) (q : Plan ℕ ℕ) (candidates halls : List ℕ) → IsProblem p
        → IsBest (seating_of p) q → IsStrictlySortedBy nat_cmp candidates
        → ((c : ℕ) → Contains candidates c ↔ IsContested (seating_of p) c) → IsStrictlySortedBy nat_cmp halls
        → ((h : ℕ) → Contains halls h ↔ ((c : ℕ) × Contains candidates c × IsTrue ((seating_of p).fits c h)))
        → IsCertificate (seating_of p) q candidates halls }
{}

/// A least chain is the only one.
pub fn least_chain_is_one()
    ensures { (p : problems.Problem) (q : Plan ℕ ℕ) (c : ℕ) (a b : Chain ℕ ℕ)
        → IsLeastChain (seating_of p) q c a → IsLeastChain (seating_of p) q c b → a ≡ b }
{}

/// What stays of a plan is lawful.
pub fn what_stays_is_lawful()
    ensures { (p : problems.Problem) (q : Plan ℕ ℕ) → IsLawful (seating_of p) (kept_part (seating_of p) q) }
{}

/// A sweep from a plan has one result.
pub fn sweep_has_one_result()
    ensures { (p : problems.Problem) (first : Option ℕ) (q r s : Plan ℕ ℕ) → IsSweep (seating_of p) first q r
        → IsSweep (seating_of p) first q s → SamePlan r s }
{}

/// A repair has one result.
pub fn repair_has_one_result()
    ensures { (p : problems.Problem) (first : Option ℕ) (q r s : Plan ℕ ℕ) → IsRepair (seating_of p) first q r
        → IsRepair (seating_of p) first q s → SamePlan r s }
{}

/// The repair of a best plan whose problem has not changed is that plan.
pub fn best_plan_is_its_repair()
    ensures { (p : problems.Problem) (first : Option ℕ) (q r : Plan ℕ ℕ) → IsBest (seating_of p) q
        → IsRepair (seating_of p) first q r → SamePlan r q }
{}

/// In a lawful plan a desk number is at most the number of desks of the hall.
pub fn desk_number_is_within_the_hall()
    ensures { (p : problems.Problem) (q : Plan ℕ ℕ) (h c n : ℕ) → IsLawful (seating_of p) q → q c ≡ Some h
        → desk_number (seating_of p) (ranks_before p) q c ≡ Some n → n ≤ (seating_of p).desks h }
{}

/// Two candidates of one hall have two desk numbers.
pub fn desk_numbers_are_distinct()
    ensures { (p : problems.Problem) (q : Plan ℕ ℕ) (h c d : ℕ) → IsProblem p → c < length p.fit
        → d < length p.fit → q c ≡ Some h → q d ≡ Some h
        → desk_number (seating_of p) (ranks_before p) q c ≡ desk_number (seating_of p) (ranks_before p) q d
        → c ≡ d }
{}
