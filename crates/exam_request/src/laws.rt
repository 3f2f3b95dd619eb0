//! Laws about the definitions alone; no call is needed to use them.
ghost use Rattle.std.specs.Prelude.{◌≡◌, List, ℕ, Option, Result};
ghost use Rattle.exam_request.specs.Asked.{Asks, Request};
ghost use Rattle.exam_request.specs.Choices as spec;
ghost use Rattle.exam_request.specs.declared.choice.Named.{Named};
ghost use Rattle.exam_request.specs.declared.fault.Fault.{Fault};

/// The bytes of a request alone determine what it asks, or its fault.
pub fn requests_ask_one_thing()
    ensures { (input : List ℕ) (one other : Result Request Fault)
        → Asks input one → Asks input other → one ≡ other }
{}

/// What is done for a stranger depends on the request alone, whether there is such a candidate or not. A stranger's
/// request does not show the code of the candidate that it names.
pub fn strangers_are_told_alike()
    ensures { (request : Request) (one other : Option Named)
        → spec.IsStranger request one → spec.IsStranger request other
        → spec.choice_of request one ≡ spec.choice_of request other }
{}

/// No posted text of a stranger is read, so the choice for them takes no memory.
pub fn texts_of_strangers_are_not_read()
    ensures { (request : Request) (named : Option Named) → spec.IsStranger request named
        → spec.ReadsText request named → ⊥ }
{}

/// Only the candidate that the request names, and whose code it shows, sees a page, lodges an appeal or takes one back.
pub fn choices_are_of_who_shows_the_code()
    ensures { (request : Request) (named : Option Named)
        → spec.IsOwnChoice request named (spec.choice_of request named) }
{}
