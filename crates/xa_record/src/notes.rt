//! What was read of a record so far.
ghost use Rattle.std.specs.{Prelude.{◌≡◌, ◌≤◌, OnOk, length, map, slice_get, option_copied}, Option.option_map};
ghost use Rattle.xa_record.specs.Reading.{no_notes, blamed, blamed_too, note_of, up_to_return as up_to_return_of};
ghost use Rattle.xa_record.specs.Reading.{beyond, cause_of, fault_called, note_strictly, note_closed, returned};
ghost use Rattle.xa_record.specs.Reading.{awaiting, with_row, noted_row, noted_said, noted_line, session_of, ended_by};
ghost use Rattle.xa_record.specs.{Rows.row_said, Kept.{told_kept, numbered_kept, awaited_kept, line_kept, notes_kept}};

use crate::line::{RecordLine, is_silent, read_record_line};
use crate::line_event::{LineEvent, NumberedEvent};
use crate::line_fault::LineFault;
use crate::pending::Pending;
use crate::presence::Presence;
use crate::rows::read_row;
use crate::shown::Shown;
use std::alloc::Global;
use xa_xid::{NoMemory, SessionNo, skip_blanks};

/// What was read of a record so far.
#[derive(Drop)]
pub struct Notes<'a> {
    /// The events, in order, each with the number of its line.
    pub numbered: Vec<NumberedEvent<'a>>,
    /// What is written for faulty lines.
    pub faults: Vec<u8>,
    /// At each session's number, what the lines say of it. Index 0 belongs to no session.
    pub presence: [Presence; 17],
    /// The return of which rows are still to come; None if no rows are.
    pub pending: Option<Pending<'a>>,
}

/// How many events there are up to and including the session's last return; 0 if it has none.
fn up_to_return(numbered: &[NumberedEvent], session: SessionNo) -> usize
    ensures place { result ≡ up_to_return_of session (map numbered_kept numbered.now) }
    ensures within { result ≤ length numbered.now }
{
    let mut place = numbered.len();
    while place > 0 {
        let last = place - 1;
        if numbered[last].line_event.returns_to(session) {
            return place;
        }
        place = last;
    }
    0
}

impl<'a> Notes<'a> {
    /// Begins before the first line.
    pub fn new(alloc: Global) -> Notes<'a>
        ensures { notes_kept result ≡ no_notes }
    {
        Notes {
            numbered: Vec::new(alloc),
            faults: Vec::new(alloc),
            presence: [Presence::Idle; 17],
            pending: None,
        }
    }

    /// Notes that the line of this number is faulty.
    ///
    /// May return `NoMemory`.
    #[tactic(auto, unfolding(crate::specs::Reading::blamed))]
    pub fn blame(&mut self, number: u64, fault: LineFault) -> Result<(), NoMemory>
        ensures { OnOk result (notes_kept self.new ≡ blamed (notes_kept self.old) number fault) }
    {
        fault.push(&mut self.faults, number)
    }

    /// Appends this text, which is written for faulty lines, to that of those before.
    fn blame_too(&mut self, faults: &[u8]) -> Result<(), NoMemory>
        ensures { OnOk result (notes_kept self.new ≡ blamed_too (notes_kept self.old) faults.now) }
    {
        self.faults.extend_from_slice(faults)
    }

    /// What the lines before say of the session. It isn't None, since each session's number is an index of the array.
    fn presence_of(&self, session: SessionNo) -> Option<&Presence>
        ensures { option_copied result ≡ slice_get self.now.presence session }
    {
        self.presence.get(session.get() as usize)
    }

    /// Notes this event of the line of this number. If what the lines before say of its session rules the event out,
    /// notes instead that the line is faulty.
    #[tactic(auto, unfolding(crate::specs::Reading::noted_if))]
    fn note(&mut self, number: u64, line_event: LineEvent<'a>) -> Result<(), NoMemory>
        ensures { OnOk result (notes_kept self.new ≡ note_of (notes_kept self.old) number
            (told_kept line_event.entry)) }
    {
        let session = line_event.session();
        match line_event.fault(self.presence_of(session)) {
            Some(fault) => self.blame(number, fault),
            None => {
                self.presence[session.get() as usize] = line_event.presence();
                self.numbered.push(NumberedEvent { number, line_event })?;
                Ok(())
            }
        }
    }

    /// Returns the fault of a call whose text isn't a statement, unless its line is faulty anyway. None for any other
    /// line.
    fn call_fault(&self, line_event: &LineEvent<'a>) -> Option<LineFault>
        ensures { result ≡ beyond
            (cause_of (slice_get self.now.presence (session_of (told_kept line_event.now))) (told_kept line_event.now))
            (fault_called (told_kept line_event.now)) }
    {
        match line_event.fault(self.presence_of(line_event.session())) {
            Some(_) => None,
            None => line_event.call_fault(),
        }
    }

    /// Notes this event of the line of this number, or that the line is faulty, as `note` does. If `strict`, and the
    /// text of a call that is noted isn't a statement, its line is noted as faulty too. The call stays noted, so that
    /// its return isn't faulty.
    fn note_strictly(
        &mut self,
        strict: bool,
        number: u64,
        line_event: LineEvent<'a>,
    ) -> Result<(), NoMemory>
        ensures { OnOk result (notes_kept self.new ≡ note_strictly strict (notes_kept self.old) number
            (told_kept line_event.entry)) }
    {
        if !strict {
            return self.note(number, line_event);
        }
        // This comes first, since `note` changes what is known of the session.
        let call_fault = self.call_fault(&line_event);
        self.note(number, line_event)?;
        match call_fault {
            None => Ok(()),
            Some(fault) => self.blame(number, fault),
        }
    }

    /// Notes that the session's connection was closed at some time since its last return, or that the line of
    /// this number is faulty.
    #[tactic(auto, unfolding(crate::specs::Reading::closed_if))]
    fn note_closed(&mut self, number: u64, session: SessionNo) -> Result<(), NoMemory>
        ensures { OnOk result (notes_kept self.new ≡ note_closed (notes_kept self.old) number session) }
    {
        let line_event = LineEvent::Lost(session);
        match line_event.fault(self.presence_of(session)) {
            Some(fault) => self.blame(number, fault),
            None => {
                self.presence[session.get() as usize] = Presence::Lost;
                // The loss is put right behind the session's last return, since it may have come at any time after
                // that: so before an open call. Without a return it is put at the beginning.
                let place = up_to_return(self.numbered.as_slice(), session);
                self.numbered
                    .insert(place, NumberedEvent { number, line_event })?;
                Ok(())
            }
        }
    }

    /// Notes that the call returns its rows, which have all come, or that the line of its return is faulty. The faulty
    /// lines among the rows are noted after that in both cases.
    fn finish(&mut self, pending: Pending<'a>) -> Result<(), NoMemory>
        ensures { OnOk result (notes_kept self.new ≡ returned (notes_kept self.old) (awaited_kept pending.entry)) }
    {
        let Pending {
            session,
            number,
            missing: _,
            rows,
            faults,
        } = pending;
        self.note(number, LineEvent::Return(session, Shown::Rows(rows)))?;
        self.blame_too(faults.as_slice())
    }

    /// Notes that the call returns, if all its rows have come; else that some are still to come.
    fn wait_for(&mut self, pending: Pending<'a>) -> Result<(), NoMemory>
        ensures { OnOk result (notes_kept self.new ≡ awaiting (notes_kept self.old) (awaited_kept pending.entry)) }
    {
        if pending.missing == 0 {
            self.finish(pending)
        } else {
            self.pending = Some(pending);
            Ok(())
        }
    }

    /// Takes a line that comes in the place of a row. If it isn't a row, it is faulty. In both cases one row fewer is
    /// still to come.
    #[tactic(auto, using(crate::proofs::RowTexts::rows_behind), unfolding(crate::specs::Reading::with_row))]
    fn take_row(
        &mut self,
        mut pending: Pending<'a>,
        number: u64,
        text: &'a [u8],
    ) -> Result<(), NoMemory>
        ensures { OnOk result (notes_kept self.new ≡ with_row (notes_kept self.old) (awaited_kept pending.entry) number
            (row_said text.now)) }
    {
        // At least one row was missing, else nothing would be pending.
        pending.missing = pending.missing.saturating_sub(1);
        match read_row(text) {
            None => LineFault::NotARow.push(&mut pending.faults, number)?,
            Some(_) => pending.rows.push(text)?,
        }
        self.wait_for(pending)
    }

    /// Takes a line that isn't in the place of a row, by what it says. If `strict`, a call whose text isn't a
    /// statement is faulty.
    #[tactic(auto, unfolding(crate::specs::Reading::noted_said))]
    fn take_said(
        &mut self,
        alloc: Global,
        strict: bool,
        number: u64,
        said: RecordLine<'a>,
    ) -> Result<(), NoMemory>
        ensures { OnOk result (notes_kept self.new ≡ noted_said strict (notes_kept self.old) number
            (line_kept said.entry)) }
    {
        match said {
            RecordLine::Nothing => Ok(()),
            RecordLine::Bad => self.blame(number, LineFault::NotALine),
            RecordLine::Happens(line_event) => self.note_strictly(strict, number, line_event),
            RecordLine::Value(session, value) => {
                let boxed = Box::new(alloc, value)?;
                let line_event = LineEvent::Return(session, Shown::Value(boxed));
                self.note_strictly(strict, number, line_event)
            }
            RecordLine::Closed(session) => self.note_closed(number, session),
            RecordLine::Rows(session, missing) => self.wait_for(Pending {
                session,
                number,
                missing,
                rows: Box::new(alloc, Vec::new(alloc))?,
                faults: Vec::new(alloc),
            }),
        }
    }

    /// Takes the line of this number: as a row if rows of a return are still to come, else by what it says. If
    /// `strict`, a call whose text isn't a statement is a faulty line.
    ///
    /// May return `NoMemory`.
    #[tactic(auto, unfolding(crate::specs::Reading::noted_line, crate::specs::Reading::noted_row))]
    pub fn take(
        &mut self,
        alloc: Global,
        strict: bool,
        number: u64,
        line: &'a [u8],
    ) -> Result<(), NoMemory>
        // Proved (records, line-noted): What was read after one more line of a record is what its definition
        //   says.
        ensures { OnOk result (notes_kept self.new ≡ noted_line strict (notes_kept self.old) number line.now) }
    {
        match self.pending.take() {
            None => self.take_said(alloc, strict, number, read_record_line(line)),
            Some(pending) => {
                // Blank lines and comments may come between rows.
                if is_silent(line) {
                    self.pending = Some(pending);
                    Ok(())
                } else {
                    self.take_row(pending, number, skip_blanks(line))
                }
            }
        }
    }

    /// Notes that the record ends. If rows are still to come, the line of their return is faulty, and the faulty lines
    /// among its rows follow; the return isn't noted.
    ///
    /// May return `NoMemory`.
    #[tactic(auto, unfolding(crate::specs::Reading::blamed))]
    pub fn end(&mut self) -> Result<(), NoMemory>
        ensures { OnOk result (notes_kept self.new ≡ ended_by (option_map awaited_kept self.old.pending)
            (notes_kept self.old)) }
    {
        match &self.pending {
            None => Ok(()),
            Some(pending) => {
                LineFault::RowsMissing.push(&mut self.faults, pending.number)?;
                self.faults.extend_from_slice(pending.faults.as_slice())
            }
        }
    }
}
