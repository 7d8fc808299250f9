//! The parts of a record.

use crate::branches::Branches;
use crate::line::{RecordLine, is_silent, read_record_line};
use crate::line_event::{LineEvent, NumberedEvent};
use crate::part::{Belongs, Does, Part, Standing};
use crate::shown::Shown;
use crate::sought::Sought;
use std::alloc::Global;
use xa_lines::split_line;
use xa_xid::{NoMemory, SessionNo};

/// The parts of a record, and where its lines belong.
#[derive(Drop)]
pub struct Parts {
    /// Where each line of the text belongs, in order.
    pub lines: Vec<Belongs>,
    /// The parts, in the order in which they happen.
    pub parts: Vec<Part>,
    /// At each session's number, the part of its last call. Index 0 belongs to no session.
    calls: [Option<usize>; 17],
}

impl Parts {
    /// The lines of a text, none of which belongs anywhere yet, and no parts.
    fn none(alloc: Global, text: &[u8]) -> Result<Parts, NoMemory> {
        let mut lines = Vec::new(alloc);
        let mut rest = text;
        // Each line takes at least one byte of the text, so there are no more lines than bytes.
        for _byte in text {
            if !rest.is_empty() {
                rest = split_line(rest).1;
                lines.push(Belongs::Nowhere)?;
            }
        }
        Ok(Parts {
            lines,
            parts: Vec::new(alloc),
            calls: [None; 17],
        })
    }

    /// Adds a part, which is taken to change something until its return shows more. `start` is the part that starts its
    /// branch, and `writes` is as in `Part`.
    fn add(&mut self, writes: usize, start: usize) -> Result<(), NoMemory> {
        self.parts.push(Part {
            writes,
            start,
            does: Does::Changes,
            standing: Standing::In,
        })?;
        Ok(())
    }

    /// Notes where a line belongs. Lines have numbers from 1. Does nothing for a line past the end.
    fn put(&mut self, line: u64, belongs: Belongs) {
        let index = line.saturating_sub(1) as usize;
        if index < self.lines.len() {
            self.lines[index] = belongs;
        }
    }

    /// Puts the line of a return into the part of the session's last call; nowhere if it hasn't called.
    fn put_return(&mut self, line: u64, session: SessionNo) {
        if let Some(part) = self.calls[session.get() as usize] {
            self.put(line, Belongs::Part(part));
        }
    }

    /// Takes note of the next event: adds a part for a call or a loss, and puts the line of a return to its call.
    /// `sought` is what the ILLEGAL line shows, and `branches` are those so far, which follow too.
    fn follow(
        &mut self,
        one: &NumberedEvent,
        sought: &Sought,
        branches: &mut Branches,
    ) -> Result<(), NoMemory> {
        let part = self.parts.len();
        match &one.line_event {
            LineEvent::Call(session, text) => {
                let start = branches.call(*session, text, part)?;
                self.add(sought.written_by(text), start)?;
                self.calls[session.get() as usize] = Some(part);
                self.put(one.number, Belongs::Part(part));
            }
            LineEvent::Return(session, shown) => {
                self.put_return(one.number, *session);
                let does = done_by(shown);
                // A call that is refused, or only reads, leaves its session's branch as it was before.
                if does != Does::Changes {
                    branches.undo(*session);
                    self.set_done(*session, does);
                }
            }
            // What the call did isn't known, so it is still taken to change something.
            LineEvent::Unknown(session) => self.put_return(one.number, *session),
            LineEvent::Lost(session) => {
                let start = branches.lose(*session, part);
                // A loss writes nothing that a line shows.
                self.add(0, start)?;
                self.put(one.number, Belongs::Part(part));
            }
        }
        Ok(())
    }

    /// Takes note of what the session's last call does.
    fn set_done(&mut self, session: SessionNo, does: Does) {
        if let Some(index) = self.calls[session.get() as usize] {
            if index < self.parts.len() {
                self.parts[index].does = does;
            }
        }
    }

    /// Changes whether a part is there. Does nothing past the end.
    pub fn set(&mut self, index: usize, standing: Standing) {
        if index < self.parts.len() {
            self.parts[index].standing = standing;
        }
    }

    /// Keeps the lines of a part in any case. The part itself is marked as left out, so that no window proposes it.
    fn keep(&mut self, part: usize) {
        for index in 0..self.lines.len() {
            // The bound always holds. It is tested for the list's access.
            if index < self.lines.len() && self.lines[index] == Belongs::Part(part) {
                self.lines[index] = Belongs::Illegal;
            }
        }
        self.set(part, Standing::Out);
    }

    /// Keeps the session's last call with its return in any case.
    fn keep_call(&mut self, session: SessionNo) {
        if let Some(part) = self.calls[session.get() as usize] {
            self.keep(part);
        }
    }

    /// Puts each line of `text`, the record's, that is in the place of a row to where the line of the row's return
    /// belongs, which is set already.
    fn put_rows(&mut self, text: &[u8]) {
        let mut rest = text;
        let mut due: u64 = 0;
        let mut belongs = Belongs::Nowhere;
        for index in 0..self.lines.len() {
            // There is an entry for each line of the text, so neither is ever so.
            if rest.is_empty() || index >= self.lines.len() {
                return;
            }
            let (line, lines) = split_line(rest);
            rest = lines;
            // `due` rows of the last return are still to come. Blank lines and comments may come between them.
            if due == 0 {
                due = rows_behind(line);
                belongs = self.lines[index];
            } else if !is_silent(line) {
                self.lines[index] = belongs;
                due = due.saturating_sub(1);
            }
        }
    }

    /// Returns the parts of the record of this text, whose events are `numbered`, up to and including `place`, an
    /// index in `numbered`. The lines of the call that returns there are kept in any case. Past the end there are no
    /// parts.
    ///
    /// May return `NoMemory`.
    pub fn of(
        alloc: Global,
        text: &[u8],
        numbered: &[NumberedEvent],
        place: usize,
    ) -> Result<Parts, NoMemory> {
        let mut parts = Parts::none(alloc, text)?;
        if place >= numbered.len() {
            return Ok(parts);
        }
        let sought = Sought::at(alloc, numbered, place)?;
        let mut branches = Branches::none(alloc);
        for one in &numbered[..place] {
            parts.follow(one, &sought, &mut branches)?;
        }
        let last = &numbered[place];
        parts.follow(last, &sought, &mut branches)?;
        parts.keep_call(last.line_event.session());
        // This comes last, so that rows of the ILLEGAL line are kept with it.
        parts.put_rows(text);
        Ok(parts)
    }
}

/// What a call does that returns this. Only calls that read show a value, that there is none, or rows; and only calls
/// that are refused show an error. `OK` tells no more than that the call was carried out.
fn done_by(shown: &Shown) -> Does {
    match shown {
        Shown::Ok => Does::Changes,
        Shown::None => Does::Reads,
        Shown::Value(_) => Does::Reads,
        Shown::Rows(_) => Does::Reads,
        Shown::Error(_) => Does::Nothing,
    }
}

/// How many rows have to follow a line that isn't one of them.
fn rows_behind(line: &[u8]) -> u64 {
    match read_record_line(line) {
        RecordLine::Rows(_, count) => count,
        RecordLine::Nothing => 0,
        RecordLine::Bad => 0,
        RecordLine::Happens(_) => 0,
        RecordLine::Value(_, _) => 0,
        RecordLine::Closed(_) => 0,
    }
}
