//! The facts: one ordered map for each table.
ghost use Rattle.std.specs.Prelude.{◌≡◌};
ghost use Rattle.exam_rules.specs.Relations.{relations_of, no_relations};
ghost use Rattle.exam_rules.specs.Orders.{AreInOrder};

use crate::rows::{Appeal, Arrangement, Candidate, Entry, Hall, Opening, Paper, Session};
use exam_types::{HallCode, Number, PaperCode, Reference, SessionCode};
use std::alloc::Global;
use std::collections::BTreeMap;

/// The facts of an office: for each table the rows by their keys.
#[derive(Clone, Drop)]
pub struct Facts {
    pub sessions: BTreeMap<SessionCode, Session>,
    pub papers: BTreeMap<PaperCode, Paper>,
    pub halls: BTreeMap<HallCode, Hall>,
    pub openings: BTreeMap<(SessionCode, HallCode), Opening>,
    pub candidates: BTreeMap<Number, Candidate>,
    pub entries: BTreeMap<(Number, PaperCode), Entry>,
    pub arrangements: BTreeMap<Number, Arrangement>,
    pub appeals: BTreeMap<(Number, Reference), Appeal>,
    /// The marks: the keys of appeals that were granted for later sessions too. A superseded one keeps its mark,
    /// without effect.
    pub standing: BTreeMap<(Number, Reference), ()>,
}

impl Facts {
    /// No facts. Takes no memory.
    pub fn new(alloc: Global) -> Self
        ensures { relations_of result ≡ no_relations }
    {
        Facts {
            sessions: BTreeMap::new(alloc),
            papers: BTreeMap::new(alloc),
            halls: BTreeMap::new(alloc),
            openings: BTreeMap::new(alloc),
            candidates: BTreeMap::new(alloc),
            entries: BTreeMap::new(alloc),
            arrangements: BTreeMap::new(alloc),
            appeals: BTreeMap::new(alloc),
            standing: BTreeMap::new(alloc),
        }
    }

    /// The keys of every table rise. Does nothing at run time; only proofs use it.
    pub fn show_order(&self)
        ensures { AreInOrder (relations_of self.now) }
    {
        // The contract of `len` says that a map's keys rise.
        let _ = self.sessions.len();
        let _ = self.papers.len();
        let _ = self.halls.len();
        let _ = self.openings.len();
        let _ = self.candidates.len();
        let _ = self.entries.len();
        let _ = self.arrangements.len();
        let _ = self.appeals.len();
        let _ = self.standing.len();
    }
}
