//! What is reported of a record, in any form.
ghost use Rattle.std.specs.Prelude.{◌≡◌};
ghost use Rattle.xa_record.specs.{Reports.outcome_of, Kept.report_kept};

use crate::grounds::Grounds;
use crate::outcome::Outcome;
use std::collections::BTreeSet;

/// What is reported of a record, in any form.
#[derive(Drop)]
pub enum Report {
    /// What is written for its faulty lines.
    Faulty(Vec<u8>),
    /// It has no event.
    Empty,
    /// The lines of an order that explains it.
    Legal(Vec<u8>),
    /// The number of the line whose event no order explains together with those before it, the texts of the answers
    /// that its call could have had, and what else is told.
    Illegal(u64, BTreeSet<Vec<u8>>, Grounds),
    /// The number of the line before which more different configurations than allowed have to be kept.
    Undecided(u64),
}

impl Report {
    /// Returns the end that it reports.
    pub fn outcome(&self) -> Outcome
        ensures { result ≡ outcome_of (report_kept self.now) }
    {
        match self {
            Report::Faulty(_) => Outcome::Faulty,
            Report::Empty => Outcome::Empty,
            Report::Legal(_) => Outcome::Legal,
            Report::Illegal(_, _, _) => Outcome::Illegal,
            Report::Undecided(_) => Outcome::Undecided,
        }
    }
}
