//! Laws of the rules: what holds for indices holds for numbers and codes, because both are sorted in any facts
//! (`Facts::show_order`); and which standing grant counts.
ghost use Rattle.std.specs.Prelude.{◌≡◌, ◌↔◌, ◌<◌, ◌≤◌, ℕ, List, Option, None, Some, false, length, map};
ghost use Rattle.std.specs.Prelude.{All, Contains};
ghost use Rattle.std.specs.Ordering.{is_gt};
ghost use Rattle.exam_plan.specs.Matching.{Plan, SamePlan, IsLawful, IsBest, IsCertificate};
ghost use Rattle.exam_plan.specs.Matching.{desk_number, size, unseated};
ghost use Rattle.exam_plan.specs.Repair.{IsRepair};
ghost use Rattle.exam_plan.specs.Problems.{most_members};
ghost use Rattle.exam_rules.specs.Relations.{Code, Relations};
ghost use Rattle.exam_rules.specs.declared.standing.StandingGrant.{StandingGrant};
ghost use Rattle.exam_rules.specs.Sessions.{last_until, members, standing_cmp, standing_grants};
ghost use Rattle.exam_rules.specs.Seatings.{indexed_seating, seating, desks, comes_before};
ghost use Rattle.exam_rules.specs.Names.{ListsRise, SeatsInOpenHalls, named_plan, indexed_plan};
ghost use Rattle.exam_rules.specs.Names.{number_at, hall_at};

/// A lawful plan of the problem seats candidates only in open halls. Read by numbers and codes it is a lawful plan of
/// the session that seats as many, a best one is a best one, and the unseated are the same. If it is read by indices
/// again, the plan is the first one.
pub fn plans_by_name()
    ensures lawful { (r : Relations) (s : Code) (p : Plan ℕ ℕ) → ListsRise r s
        → IsLawful (indexed_seating r s) p → IsLawful (seating r s) (named_plan r s p) }
    ensures size { (r : Relations) (s : Code) (p : Plan ℕ ℕ) → ListsRise r s
        → size (seating r s) (named_plan r s p) ≡ size (indexed_seating r s) p }
    ensures best { (r : Relations) (s : Code) (p : Plan ℕ ℕ) → ListsRise r s → IsBest (indexed_seating r s) p
        → IsBest (seating r s) (named_plan r s p) }
    ensures unseated { (r : Relations) (s : Code) (p : Plan ℕ ℕ) → ListsRise r s
        → unseated (seating r s) (named_plan r s p) ≡ map (number_at r s) (unseated (indexed_seating r s) p) }
    ensures back { (r : Relations) (s : Code) (p : Plan ℕ ℕ) → ListsRise r s
        → IsLawful (indexed_seating r s) p → SamePlan (indexed_plan r s (named_plan r s p)) p }
    ensures seats { (r : Relations) (s : Code) (p : Plan ℕ ℕ) → IsLawful (indexed_seating r s) p
        → SeatsInOpenHalls r s p }
{}

/// By numbers and codes, a certificate of the problem is one of the session.
pub fn certificates_by_name()
    ensures { (r : Relations) (s : Code) (p : Plan ℕ ℕ) (candidates halls : List ℕ) → ListsRise r s
        → IsCertificate (indexed_seating r s) p candidates halls
        → IsCertificate (seating r s) (named_plan r s p)
        (map (number_at r s) candidates) (map (hall_at r s) halls) }
{}

/// In a lawful plan the desk number of a seated candidate is at most the number of desks of the hall. Two candidates in
/// a hall have different ones if the session has at most 4,096 members.
/// Within the limits of an office no session has more.
pub fn desks_are_of_their_own()
    ensures within { (r : Relations) (s : Code) (q : Plan ℕ Code) (c n : ℕ) (h : Code) → ListsRise r s
        → IsLawful (seating r s) q → q c ≡ Some h → desk_number (seating r s) (comes_before r s) q c ≡ Some n
        → n ≤ desks r s h }
    ensures apart { (r : Relations) (s : Code) (q : Plan ℕ Code) (c d : ℕ) (h : Code) → ListsRise r s
        → IsLawful (seating r s) q → length (members r s) ≤ most_members → q c ≡ Some h → q d ≡ Some h
        → desk_number (seating r s) (comes_before r s) q c
        ≡ desk_number (seating r s) (comes_before r s) q d
        → c ≡ d }
{}

/// A plan of the session has at most one repair.
pub fn repair_is_one()
    ensures { (r : Relations) (s : Code) (first : Option ℕ) (before one other : Plan ℕ Code)
        → IsRepair (seating r s) first before one → IsRepair (seating r s) first before other
        → SamePlan one other }
{}

/// The standing grant that counts on a day is one of the candidate's, and its date is not later than the day. No other
/// such grant of theirs is of a later date, or of the same date and a greater session code. None counts exactly if each
/// has a later date.
pub fn last_standing_grant_counts()
    ensures last { (r : Relations) (c day : ℕ) (g : StandingGrant) → last_until day (standing_grants r c) ≡ Some g
        → Contains (standing_grants r c) g × (g.day ≤ day)
        × All (λ (other : StandingGrant). other.day ≤ day → is_gt (standing_cmp other g) ≡ false)
        (standing_grants r c) }
    ensures none { (r : Relations) (c day : ℕ) → (last_until day (standing_grants r c) ≡ None)
        ↔ All (λ (g : StandingGrant). day < g.day) (standing_grants r c) }
{}
