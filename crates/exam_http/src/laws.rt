//! What the answers of two offices have in common.
ghost use Rattle.std.specs.Prelude.{◌≡◌, ℕ};
ghost use Rattle.exam_request.specs.Answer.{Told};
ghost use Rattle.exam_request.specs.Asked.{Request};
ghost use Rattle.exam_request.specs.Choices.{IsStranger};
ghost use Rattle.exam_store.specs.Stores.{OfficeIn};
ghost use Rattle.exam_http.specs.Alike.{AreAlike, AreSame, stranger_told};
ghost use Rattle.exam_http.specs.Answering.{Answers, AnswersFound, named_in, own_named};

use exam_store::Store;
use sqlite::Alter;

/// If two offices show the same of the candidate that a request names, they answer the request the same on a day,
/// unless one of them fails. So the bytes of an answer show nobody anything about another candidate.
pub fn own_rows_decide_an_answer<S: Alter, T: Alter>(one: &Store<S>, other: &Store<T>)
    ensures { (today : ℕ) (request : Request) (one_after : OfficeIn S) (other_after : OfficeIn T)
        (first second : Told) → own_named one.now.office request ≡ own_named other.now.office request
        → Answers S.Store today one.now request first one_after
        → Answers T.Store today other.now request second other_after → AreAlike first second }
{
    one.show_good();
    other.show_good();
}

/// A stranger's request does not show the code of the candidate that it names, or there is no such candidate. Once the
/// routes are made, its answer depends on the request alone, not on what the office holds or on the day; nothing
/// changes, and it takes no memory. Before that, memory may run out for the routes.
pub fn strangers_are_answered_alike<S: Alter, T: Alter>()
    ensures found { (today : ℕ) (request : Request) (one one_after : OfficeIn S) (told : Told)
        → IsStranger request (named_in one.office request)
        → AnswersFound S.Store today one request told one_after
        → (told ≡ stranger_told request) × (one_after ≡ one) }
    ensures whole { (today later : ℕ) (request : Request) (one one_after : OfficeIn S) (other other_after : OfficeIn T)
        (first second : Told) → IsStranger request (named_in one.office request)
        → IsStranger request (named_in other.office request)
        → Answers S.Store today one request first one_after
        → Answers T.Store later other request second other_after
        → AreSame first second × (one_after ≡ one) }
{}
