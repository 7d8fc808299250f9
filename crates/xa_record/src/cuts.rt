//! What is left out next of an ILLEGAL record.
//!
//! The events behind the ILLEGAL line are left out first. Then it is tried to leave out all the rest, and then
//! windows: runs of what is still there, later ones first, at first all of it, then a half, a quarter, and so on down
//! to single ones. The first windows are of calls that are refused, and the next of calls that read, since what such
//! calls are answered depends on much, and little depends on them. Shorter ones of these are tried only while there are
//! few. Then come windows of whole branches, since what a statement of a branch is answered depends on the others of
//! it. Windows of calls come last. The short ones get shorter one by one, and are tried again while that helps.
//!
//! The call that returns on the ILLEGAL line stays. If that line shows a value, one of the calls that write it stays
//! too, and for each branch that it shows one of those that prepare it: without them any value would be ILLEGAL there.

use crate::line_event::NumberedEvent;
use crate::part::{Belongs, Does, Standing};
use crate::parts::Parts;
use crate::stage::Stage;
use std::alloc::Global;
use xa_xid::NoMemory;

/// Windows of calls of up to so many parts are tried one part apart, and are tried again while that helps. Longer ones
/// overlap by half. Windows of other stages don't overlap. The number is a choice: each length up to it takes about
/// one try for each part that is left.
const SHORT: usize = 8;

/// If there are more windows than this, as `is_few` counts, of calls that are refused, or of calls that read, no
/// shorter ones are tried: so many of these calls are needed that it would take too long to find the others. The number
/// is a choice.
const MANY: usize = 16;

/// What is left out of an ILLEGAL record, and what is to be left out next.
#[derive(Drop)]
pub struct Cuts {
    /// The parts, and where lines belong.
    parts: Parts,
    /// For each line of the text, in order, whether it is kept if what is proposed is left out.
    keeps: Vec<bool>,
    /// What is tried now.
    stage: Stage,
    /// How many parts a window has of those by which windows are counted: see `leads`.
    size: usize,
    /// Where the next window ends: directly before this rank, counted from 0 among the parts that are there and by
    /// which windows are counted. 0 if no window of this size is left.
    to: usize,
    /// Whether a part was left out since the beginning, or since short windows of calls were last begun again.
    shrunk: bool,
}

impl Parts {
    /// Tells whether a part is there. False past the end.
    fn is_there(&self, index: usize) -> bool {
        index < self.parts.len() && self.parts[index].standing != Standing::Out
    }

    /// Tells whether windows of this stage are counted by this part. Where branches go as a whole, these are the parts
    /// that start one or belong to none; else the calls that are refused, those that read, or all parts.
    fn leads(&self, index: usize, stage: Stage) -> bool {
        match stage {
            Stage::Everything => self.starts(index),
            Stage::Refused => self.does(index, Does::Nothing),
            Stage::Reads => self.does(index, Does::Reads),
            Stage::Branches => self.starts(index),
            Stage::Calls => true,
        }
    }

    /// Tells whether a part does this. False past the end.
    fn does(&self, index: usize, does: Does) -> bool {
        index < self.parts.len() && self.parts[index].does == does
    }

    /// Tells whether the part `index` belongs to the branch that the part `start` starts. False past the end.
    fn belongs(&self, index: usize, start: usize) -> bool {
        index < self.parts.len() && self.parts[index].start == start
    }

    /// Tells whether a part starts a branch, or belongs to none. False past the end.
    fn starts(&self, index: usize) -> bool {
        self.belongs(index, index)
    }

    /// Tells whether the part that starts this part's branch is proposed. False past the end.
    fn is_led(&self, index: usize) -> bool {
        if index >= self.parts.len() {
            return false;
        }
        let start = self.parts[index].start;
        start < self.parts.len() && self.parts[start].standing == Standing::Proposed
    }

    /// Counts the parts that are there and by which windows of this stage are counted.
    fn count(&self, stage: Stage) -> usize {
        let mut count: usize = 0;
        for index in 0..self.parts.len() {
            if self.is_there(index) && self.leads(index, stage) {
                // It counts parts of a list, so it never saturates.
                count = count.saturating_add(1);
            }
        }
        count
    }

    /// Proposes the window of the ranks from `from` to before `to`. Ranks count, from 0, the parts that are there and
    /// by which windows of this stage are counted. If branches go as a whole, the other parts of the window's branches
    /// are proposed too. No other part is.
    fn propose_window(&mut self, stage: Stage, from: usize, to: usize) {
        let mut rank: usize = 0;
        for index in 0..self.parts.len() {
            if self.is_there(index) && self.leads(index, stage) {
                self.set(index, proposed_if(from <= rank && rank < to));
                // It counts parts of a list, so it never saturates.
                rank = rank.saturating_add(1);
            } else if self.is_there(index) {
                // The part that starts a branch comes before the others of it, so its standing is set already.
                let follows = stage.takes_branches() && self.is_led(index);
                self.set(index, proposed_if(follows));
            }
        }
    }

    /// Tells whether a part that is there and isn't proposed writes this, a number as in `Part::writes`.
    fn is_written(&self, written: usize) -> bool {
        for part in self.parts.as_slice() {
            if part.writes == written && part.standing == Standing::In {
                return true;
            }
        }
        false
    }

    /// Has a part that is there stay, so it isn't proposed any more. If this stage leaves branches out as a whole, the
    /// other parts of its branch that are there stay too. Does nothing past the end.
    fn spare(&mut self, index: usize, stage: Stage) {
        if index >= self.parts.len() {
            return;
        }
        let start = self.parts[index].start;
        self.set(index, Standing::In);
        for other in 0..self.parts.len() {
            if stage.takes_branches() && self.is_there(other) && self.belongs(other, start) {
                self.set(other, Standing::In);
            }
        }
    }

    /// For each thing that the ILLEGAL line shows, has one part stay that writes it: unless one stays already, the
    /// first that is there, if any is.
    fn spare_writers(&mut self, stage: Stage) {
        for index in 0..self.parts.len() {
            // `is_there` is false past the end, but promises nothing, and the next line needs the bound.
            if self.is_there(index) && index < self.parts.len() {
                let written = self.parts[index].writes;
                // 0 is a part that writes nothing of what the line shows.
                if written > 0 && !self.is_written(written) {
                    self.spare(index, stage);
                }
            }
        }
    }

    /// Tells whether any part is proposed.
    fn has_proposed(&self) -> bool {
        for part in self.parts.as_slice() {
            if part.standing == Standing::Proposed {
                return true;
            }
        }
        false
    }

    /// Leaves out the parts that are proposed.
    fn leave_out(&mut self) {
        for index in 0..self.parts.len() {
            // The bound always holds. It is tested for the list's access.
            if index < self.parts.len() && self.parts[index].standing == Standing::Proposed {
                self.set(index, Standing::Out);
            }
        }
    }

    /// Tells whether a line is kept if what is proposed is left out, by where it belongs, `line`: it is kept as one of
    /// a part that stays, or of the call that returns on the ILLEGAL line.
    fn keeps(&self, line: Belongs) -> bool {
        match line {
            Belongs::Nowhere => false,
            Belongs::Illegal => true,
            Belongs::Part(part) => {
                part < self.parts.len() && self.parts[part].standing == Standing::In
            }
        }
    }
}

/// The standing of a part that is there, by whether it is proposed.
fn proposed_if(proposed: bool) -> Standing {
    if proposed {
        Standing::Proposed
    } else {
        Standing::In
    }
}

impl Cuts {
    /// Returns the cuts of the record of this text, whose events are `numbered`. No order explains those up to and
    /// including `place`, an index in `numbered`. Nothing is proposed yet, so the lines that are kept are those of all
    /// events up to there. If the place is past the end, no line is kept.
    ///
    /// May return `NoMemory`.
    pub fn of(
        alloc: Global,
        text: &[u8],
        numbered: &[NumberedEvent],
        place: usize,
    ) -> Result<Cuts, NoMemory> {
        let parts = Parts::of(alloc, text, numbered, place)?;
        let mut keeps = Vec::new(alloc);
        for line in parts.lines.as_slice() {
            keeps.push(parts.keeps(*line))?;
        }
        let all = parts.count(Stage::Everything);
        // The first window has all parts by which windows are counted.
        Ok(Cuts {
            parts,
            keeps,
            stage: Stage::Everything,
            size: all,
            to: all,
            shrunk: false,
        })
    }

    /// Tells whether there are few windows of this length, which is more than 1: at most `MANY`, or up to half as many
    /// again, since the division rounds down.
    fn is_few(&self) -> bool {
        self.parts.count(self.stage) / MANY <= self.size
    }

    /// Tells whether shorter windows are tried before the next stage: not if everything was one window, or if windows
    /// have at most one part. Windows of calls that are refused, or that read, also have to be few, as `MANY` says.
    fn goes_shorter(&self) -> bool {
        match self.stage {
            Stage::Everything => false,
            Stage::Refused => self.size > 1 && self.is_few(),
            Stage::Reads => self.size > 1 && self.is_few(),
            Stage::Branches => self.size > 1,
            Stage::Calls => self.size > 1,
        }
    }

    /// Goes on with shorter windows, else with the next stage, whose first window has all parts by which its windows
    /// are counted. After the last stage short windows of calls are tried again, if a part was left out since the
    /// beginning, or since they were last begun again. False if nothing is left to try.
    fn next_size(&mut self) -> bool {
        if self.goes_shorter() {
            self.size = self.shorter();
        } else if let Some(next) = self.stage.next() {
            self.stage = next;
            // A window of all parts: it is cut to their number below.
            self.size = usize::MAX;
        } else if self.shrunk {
            self.shrunk = false;
            self.size = SHORT;
        } else {
            return false;
        }
        self.to = self.parts.count(self.stage);
        // There may be fewer parts. If there are none, the window is empty, and `propose` passes it over.
        if self.size > self.to {
            self.size = self.to;
        }
        true
    }

    /// The next length of windows: half of this one, rounded up; of short windows of calls one less. This length is
    /// more than 1, as `goes_shorter` tests, so the next one is at least 1.
    fn shorter(&self) -> usize {
        if self.stage == Stage::Calls && self.size <= SHORT {
            self.size.saturating_sub(1)
        } else {
            self.size - self.size / 2
        }
    }

    /// How far windows are apart: by their length, but windows of calls by half of it if they are longer than `SHORT`,
    /// and else by 1.
    fn step(&self) -> usize {
        if self.stage != Stage::Calls {
            self.size
        } else if self.size > SHORT {
            self.size / 2
        } else {
            1
        }
    }

    /// Proposes the next window, and tells whether there is one. It may have no parts.
    fn next(&mut self) -> bool {
        if self.to == 0 && !self.next_size() {
            return false;
        }
        // Later windows come first. One that begins at the first part is the last of its size, and has fewer parts than
        // that if fewer are left before `to`.
        let from = self.to.saturating_sub(self.size);
        self.parts.propose_window(self.stage, from, self.to);
        self.to = if from == 0 {
            0
        } else {
            self.to.saturating_sub(self.step())
        };
        true
    }

    /// Notes which lines are kept if what is proposed is left out.
    fn fill(&mut self) {
        for index in 0..self.parts.lines.len() {
            // There is an entry of both lists for each line, so this is always so.
            if index < self.parts.lines.len() && index < self.keeps.len() {
                let line = self.parts.lines[index];
                let keeps = self.parts.keeps(line);
                self.keeps[index] = keeps;
            }
        }
    }

    /// Proposes what is to be left out next, and tells whether there is anything. A window that has no parts, or of
    /// which all has to stay, is passed over.
    pub fn propose(&mut self) -> bool {
        // The bound is never reached: there are finitely many windows of each length, and short ones are tried again
        // only if a part was left out, so at most once in here.
        for _step in 0..u64::MAX {
            if !self.next() {
                return false;
            }
            self.parts.spare_writers(self.stage);
            if self.parts.has_proposed() {
                self.fill();
                return true;
            }
        }
        false
    }

    /// Returns for each line, in order, whether it is kept if what is proposed is left out.
    pub fn keeps(&self) -> &[bool] {
        self.keeps.as_slice()
    }

    /// Leaves out what is proposed, and notes that a part was left out, so that short windows of calls are tried
    /// again.
    pub fn accept(&mut self) {
        self.parts.leave_out();
        self.shrunk = true;
    }
}
