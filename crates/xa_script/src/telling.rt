//! Reports on the standard error how far judging a record is.
use std::alloc::Global;
use std::rt::Clock;
use std::time::Instant;
use xa_judge::{Progress, SoFar};
use xa_xid::NoMemory;

/// Reports on the standard error how far judging a record is, at most once a second, and not in the first
/// second after it is first called.
#[derive(Drop)]
pub struct Telling<'r, R> {
    /// The runtime whose standard error is written to.
    rt: &'r R,
    /// Whether nothing is reported.
    quiet: bool,
    /// When it was first called, or the last report was made; `None` before that, or if the clock couldn't be read
    /// then. It isn't called while the record still comes, which may take long.
    last: Option<Instant>,
}

/// Returns the number in digits, with commas between its thousands.
fn grouped(alloc: Global, number: u64) -> Result<String, NoMemory> {
    let digits = format!(in alloc; "{number}")?;
    let digits = digits.as_bytes();
    let mut text = String::new(alloc);
    for place in 0..digits.len() {
        // Thousands are counted from the last digit on.
        if place > 0 && (digits.len() - place) % 3 == 0 {
            text.push(',')?;
        }
        text.push(char::from(digits[place]))?;
    }
    Ok(text)
}

impl<'r, R: Clock + Eprint + Alloc<A = Global>> Telling<'r, R> {
    /// Returns a reporter whose first second begins when it is first called. If `quiet`, it reports nothing.
    ///
    /// Takes no memory. Doesn't wait.
    pub fn new(rt: &'r R, quiet: bool) -> Telling<'r, R> {
        Telling {
            rt,
            quiet,
            last: None,
        }
    }

    /// Returns whether a report is due: whether `last` is at least a second ago. If `last` is None, as at the first
    /// call, sets it to the time now, and returns false. Returns false also if the clock can't be read.
    fn is_due(&mut self) -> bool {
        match self.last {
            None => {
                self.last = Instant::now(self.rt).ok();
                false
            }
            Some(last) => last
                .elapsed(self.rt)
                .is_ok_and(|passed| passed.as_secs() >= 1),
        }
    }

    /// Writes a line that says how far the judging is.
    fn say(&self, so_far: SoFar) -> Result<(), NoMemory> {
        let alloc = self.rt.alloc();
        let done = grouped(alloc, so_far.done())?;
        let all = grouped(alloc, so_far.all())?;
        let configurations = grouped(alloc, so_far.configurations())?;
        let _ = eprintln!(self.rt;
            "judged {done} of {all} events, {configurations} configurations"
        );
        Ok(())
    }
}

impl<'r, R: Clock + Eprint + Alloc<A = Global>> Progress for Telling<'r, R> {
    fn judged(&mut self, so_far: SoFar) {
        // Less than a second after the last line a new one would say little.
        if !self.quiet && self.is_due() {
            // If there is no memory for the line, judging goes on without it.
            let _ = self.say(so_far);
            self.last = Instant::now(self.rt).ok();
        }
    }
}
