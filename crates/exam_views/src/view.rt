//! What the office shows of one session.
ghost use Rattle.std.specs.Prelude.{◌≡◌, ◌<◌, ℕ, List, All, IfOk, IfSome, length, map};
ghost use Rattle.std.specs.Option.{option_map};
ghost use Rattle.exam_types.specs.Refusals.{OnlyMemory};
ghost use Rattle.exam_commands.specs.Words as words;
ghost use Rattle.exam_views.specs.Views as views;

use exam_commands::{AppealState, kind_word};
use exam_plan::{Plan, Problem, desks, shortage};
use exam_rules::{Opening, Session, Subject};
use exam_types::{Day, HallCode, Minute, Name, Number, PaperCode, Reference, Refusal, SessionCode};
use std::alloc::Global;
use std::marker::Model;

/// A member of a session, and their place.
#[derive(Drop)]
pub struct Seat {
    pub number: Number,
    pub name: Name,
    /// The sitting paper.
    pub paper: PaperCode,
    pub finish: Minute,
    /// None if the member is not seated.
    pub hall: Option<HallCode>,
    /// The desk number in the hall, from 1; none if the member is not seated.
    pub desk: Option<u32>,
}

/// A deficiency certificate of a session: the candidates outnumber all desks of all halls that fit any of them by the
/// number of unseated candidates.
#[derive(Drop)]
pub struct SessionShortage {
    /// How many members have no desk.
    pub unseated: usize,
    /// Each hall with its desks, by code.
    pub halls: Vec<(HallCode, u32)>,
    /// The candidates, by number.
    pub candidates: Vec<Number>,
}

/// A live paper of a member that they do not sit.
#[derive(Clone, Copy)]
pub struct Clash {
    pub number: Number,
    /// The paper that they sit.
    pub sitting: PaperCode,
    pub paper: PaperCode,
}

/// An appeal as the register of its session lists it.
#[derive(Clone, Copy)]
pub struct AppealRow {
    pub number: Number,
    pub reference: Reference,
    pub subject: Subject,
    pub state: AppealState,
    /// The day on which it was lodged.
    pub lodged: Day,
}

impl AppealRow {
    /// The kind of what it asks for: `hall`, `clash` or `arrangement`.
    pub fn kind(&self) -> &'static [u8]
        ensures { result.now ≡ words.kind_word self.now.subject }
    {
        kind_word(&self.subject)
    }
}

/// A member of a session, without their seat.
#[derive(Drop)]
pub struct Member {
    pub number: Number,
    pub name: Name,
    /// The sitting paper.
    pub paper: PaperCode,
    pub finish: Minute,
}

/// One session with its plan.
#[derive(Drop)]
pub struct SessionView {
    pub(crate) code: SessionCode,
    pub(crate) session: Session,
    /// The codes of all halls of the office, rising.
    pub(crate) hall_codes: Vec<HallCode>,
    /// The openings of the session, by hall.
    pub(crate) openings: Vec<(HallCode, Opening)>,
    /// The members, by number.
    pub(crate) members: Vec<Member>,
    /// The codes of the papers of the session, rising.
    pub(crate) papers: Vec<PaperCode>,
    /// The clashes, by number and paper.
    pub(crate) clashes: Vec<Clash>,
    /// The appeals, by number and reference.
    pub(crate) appeals: Vec<AppealRow>,
    pub(crate) problem: Problem,
    pub(crate) plan: Plan,
}

impl Model for SessionView {
    ghost use Rattle.exam_views.specs.Views.{View, IsView};

    ghost Value = { View };

    ghost view = { λ a. record {
      code = a.code;
      session = a.session;
      hall_codes = a.hall_codes.items;
      openings = a.openings.items;
      members = a.members.items;
      papers = a.papers.items;
      clashes = a.clashes.items;
      appeals = a.appeals.items;
      problem = a.problem;
      plan = a.plan.items;
    } };

    ghost invariant = { λ a. IsView (record {
      code = a.code;
      session = a.session;
      hall_codes = a.hall_codes.items;
      openings = a.openings.items;
      members = a.members.items;
      papers = a.papers.items;
      clashes = a.clashes.items;
      appeals = a.appeals.items;
      problem = a.problem;
      plan = a.plan.items;
    }) };
}

impl SessionView {
    pub fn code(&self) -> SessionCode
        ensures { result ≡ self.now.code }
    {
        self.code
    }

    pub fn session(&self) -> Session
        ensures { result ≡ self.now.session }
    {
        self.session
    }

    /// Whether the office has the hall.
    pub fn has_hall(&self, hall: &HallCode) -> bool
        ensures { result ≡ views.has_hall self.now hall.now }
    {
        self.hall_codes.contains(hall)
    }

    /// How the hall is opened for the session, if it is.
    pub fn opening(&self, hall: &HallCode) -> Option<Opening>
        ensures { result ≡ views.opening_of self.now hall.now }
    {
        for opened in &self.openings {
            if opened.0 == *hall {
                return Some(opened.1);
            }
        }
        None
    }

    /// The members by number, each with name, sitting paper, finish, hall and desk.
    pub fn seats(&self, alloc: Global) -> Result<Vec<Seat>, Refusal>
        ensures ok { IfOk result (λ seats. seats.items ≡ views.seats_of self.now) }
        ensures memory { OnlyMemory result }
    {
        let desks = desks(alloc, &self.problem, &self.plan)?;
        let mut seats = Vec::with_capacity(alloc, self.members.len())?;
        for (index, member) in self.members.iter().enumerate() {
            let hall = self.hall_at(self.plan[index]);
            seats.push(member.seat_in(hall, desks[index])?)?;
        }
        Ok(seats)
    }

    /// Whether the paper is one of the session.
    pub fn has_paper(&self, paper: &PaperCode) -> bool
        ensures { result ≡ views.has_paper self.now paper.now }
    {
        self.papers.contains(paper)
    }

    /// The live papers that members do not sit, by number and code.
    pub fn clashes(&self, alloc: Global) -> Result<Vec<Clash>, Refusal>
        ensures ok { IfOk result (λ clashes. clashes.items ≡ self.now.clashes) }
        ensures memory { OnlyMemory result }
    {
        Ok(Vec::from_slice(alloc, &self.clashes)?)
    }

    /// The appeals for the session, by number and reference.
    pub fn appeals(&self) -> &[AppealRow]
        ensures { result.now ≡ self.now.appeals }
    {
        self.appeals.as_slice()
    }

    /// How many members have no desk, and the candidates whom some best plan leaves out, with all halls that fit any of
    /// them.
    pub fn shortage(&self, alloc: Global) -> Result<SessionShortage, Refusal>
        ensures ok { IfOk result (λ shortage. views.ShowsShortage self.now (views.report_of shortage)) }
        ensures memory { OnlyMemory result }
    {
        let found = shortage(alloc, &self.problem, &self.plan)?;
        Ok(SessionShortage {
            unseated: found.unseated,
            halls: self.halls_with_desks(alloc, &found.halls)?,
            candidates: self.numbers_of(alloc, &found.candidates)?,
        })
    }

    /// Every view has a shortage to show. Does nothing at run time.
    pub fn show_shortage(&self)
        ensures { (report : views.Report) × views.ShowsShortage self.now report }
    {
        // Reading a field shows the type's invariant.
        let _ = &self.problem;
    }

    /// The hall at the place, if there is one.
    fn hall_at(&self, place: Option<usize>) -> Option<HallCode>
        requires { IfSome place (λ j. j < length self.now.openings) }
        ensures { result ≡ option_map (views.hall_of self.now) place }
    {
        match place {
            Some(place) => Some(self.openings[place].0),
            None => None,
        }
    }

    /// The halls at these places, with their desks.
    fn halls_with_desks(
        &self,
        alloc: Global,
        places: &[usize],
    ) -> Result<Vec<(HallCode, u32)>, Refusal>
        requires { All (λ j. j < length self.now.openings) places.now }
        ensures ok { IfOk result (λ halls. halls.items ≡ map (views.hall_with_desks self.now) places.now) }
        ensures memory { OnlyMemory result }
    {
        let mut halls = Vec::with_capacity(alloc, places.len())?;
        for place in places {
            halls.push(self.hall_with_desks(*place))?;
        }
        Ok(halls)
    }

    /// The hall at the place, with its desks.
    fn hall_with_desks(&self, place: usize) -> (HallCode, u32)
        requires { place < length self.now.openings }
        ensures { result ≡ views.hall_with_desks self.now place }
    {
        (self.openings[place].0, self.problem.desk_count(place))
    }

    /// The numbers of the members at these places.
    fn numbers_of(&self, alloc: Global, places: &[usize]) -> Result<Vec<Number>, Refusal>
        requires { All (λ i. i < length self.now.members) places.now }
        ensures ok { IfOk result (λ numbers. numbers.items ≡ map (views.number_of self.now) places.now) }
        ensures memory { OnlyMemory result }
    {
        let mut numbers = Vec::with_capacity(alloc, places.len())?;
        for place in places {
            numbers.push(self.members[*place].number)?;
        }
        Ok(numbers)
    }
}

impl Member {
    /// The member in a hall, or in none, at a desk.
    fn seat_in(&self, hall: Option<HallCode>, desk: Option<u32>) -> Result<Seat, Refusal>
        ensures ok { IfOk result (λ seat. seat ≡ views.seat_in self.now hall desk) }
        ensures memory { OnlyMemory result }
    {
        Ok(Seat {
            number: self.number,
            name: self.name.copy()?,
            paper: self.paper,
            finish: self.finish,
            hall,
            desk,
        })
    }
}
