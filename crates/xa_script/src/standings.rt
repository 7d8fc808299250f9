//! The transactions of a conversation, as calls and their answers show them.
use crate::standing::Standing;
use std::alloc::Global;
use xa_manager::Call;
use xa_xid::NoMemory;

/// The transactions that were begun, 1, 2, .., and how far each has come.
#[derive(Drop)]
pub struct Standings {
    /// How far transaction n has come, at place n - 1.
    standings: Vec<Standing>,
}

/// Returns the vote that an answer reports; None if it reports none.
fn voted(answer: &[u8]) -> Option<Standing> {
    if answer == b"READY\n".as_slice() {
        Some(Standing::Ready)
    } else if answer == b"ONE PHASE\n".as_slice() {
        Some(Standing::OnePhase)
    } else if answer == b"NOTHING\n".as_slice() {
        Some(Standing::Nothing)
    } else if answer.starts_with(b"NO ") {
        Some(Standing::No)
    } else {
        None
    }
}

/// Returns how far a transaction has come after an answer to FINISH or ABANDON: `standing` if the answer says that it
/// has ended, also in a hazard; `Unfinished` if it says that it is unfinished; None if it says neither.
fn ended(answer: &[u8], standing: Standing) -> Option<Standing> {
    if answer.starts_with(b"UNFINISHED ") {
        return Some(Standing::Unfinished);
    }
    let has_ended = answer == b"COMMITTED\n".as_slice()
        || answer == b"ROLLED BACK\n".as_slice()
        || answer.starts_with(b"HAZARD ");
    if has_ended { Some(standing) } else { None }
}

/// Returns the transaction that a call is about, and what the call needs; None of a call that is never out of turn.
fn wanted_by(call: &Call) -> Option<(u64, &'static str)> {
    match call {
        Call::Work { number, .. } => Some((*number, "WORK needs one that still takes work")),
        Call::Prepare(number) => Some((*number, "PREPARE needs one that still takes work")),
        Call::Abandon(number) => Some((*number, "ABANDON needs one that still takes work")),
        Call::Decide(number) => Some((*number, "DECIDE needs one that has voted READY")),
        Call::Finish(number) => Some((
            *number,
            "FINISH needs one that has voted READY, ONE PHASE or NO",
        )),
        _ => None,
    }
}

impl Standings {
    /// Returns a conversation without transactions.
    ///
    /// Takes no memory. Doesn't wait.
    pub fn new(alloc: Global) -> Standings {
        Standings {
            standings: Vec::new(alloc),
        }
    }

    /// Returns how far the transaction of this number has come, if it was begun.
    fn of(&self, number: u64) -> Option<Standing> {
        if number == 0 || number > self.standings.len() as u64 {
            return None;
        }
        Some(self.standings[(number - 1) as usize])
    }

    /// Notes how far the transaction of this number has come. Nothing changes if `standing` is None, or if there is no
    /// such transaction.
    fn put(&mut self, number: u64, standing: Option<Standing>) {
        if let Some(standing) = standing
            && number != 0
            && number <= self.standings.len() as u64
        {
            self.standings[(number - 1) as usize] = standing;
        }
    }

    /// Takes note of a call and its answer: `BEGIN` adds a transaction, and `PREPARE`, `FINISH` and `ABANDON` set how
    /// far theirs has come, each only if the answer says so. Other calls change nothing.
    ///
    /// Errors: `NoMemory`, only when a transaction begins. Doesn't wait.
    pub fn note(&mut self, call: &Call, answer: &[u8]) -> Result<(), NoMemory> {
        match call {
            Call::Begin => {
                // Any other answer says that no number was given.
                if answer.starts_with(b"TRANSACTION ") {
                    self.standings.push(Standing::Working)?;
                }
            }
            Call::Prepare(number) => self.put(*number, voted(answer)),
            Call::Finish(number) => self.put(*number, ended(answer, Standing::Finished)),
            Call::Abandon(number) => self.put(*number, ended(answer, Standing::Abandoned)),
            _ => {}
        }
        Ok(())
    }

    /// Returns the transaction that a call out of turn is about, how far it has come, and what the call
    /// needs.
    ///
    /// Returns `None` if the answer isn't that the call is out of turn, if no such call ever is, or if the
    /// transaction wasn't begun. Takes no memory. Doesn't wait.
    pub fn out_of_turn(&self, call: &Call, answer: &[u8]) -> Option<(u64, Standing, &'static str)> {
        // This answer alone says that the call came out of turn.
        if !answer.starts_with(b"WRONG STAGE ") {
            return None;
        }
        let (number, wanted) = wanted_by(call)?;
        let standing = self.of(number)?;
        Some((number, standing, wanted))
    }
}
