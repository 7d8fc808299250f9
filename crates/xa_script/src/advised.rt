//! A server of calls that also explains each call that is out of turn.
ghost use Rattle.std.specs.Prelude.{◌≡◌};

use crate::standings::Standings;
use std::alloc::{AllocError, Global};
use xa_lines::{Answer, LineServer};
use xa_manager::read_call;
use xa_xid::NoMemory;

/// A server of calls. For each call that is out of turn it says on the standard error what that call needs.
#[derive(Drop)]
pub struct Advised<'r, S: LineServer + Drop, R> {
    /// The server that answers.
    inner: S,
    /// The runtime whose standard error is written to.
    rt: &'r R,
    /// The number of the last line, from 1; 0 before the first.
    number: u64,
    /// How far each transaction has come.
    standings: Standings,
    /// Whether memory was refused.
    refused: bool,
}

impl<'r, S: LineServer + Drop, R: Eprint + Alloc<A = Global>> Advised<'r, S, R> {
    /// Returns a server that answers as `inner` does, and explains each call that is out of turn.
    ///
    /// Takes no memory. Doesn't wait.
    pub fn new(rt: &'r R, inner: S) -> Advised<'r, S, R>
        ensures { result.inner ≡ inner }
    {
        Advised {
            inner,
            rt,
            number: 0,
            standings: Standings::new(rt.alloc()),
            refused: false,
        }
    }

    /// Returns `Ok` if all calls could be looked at.
    ///
    /// Errors: `NoMemory` if memory was refused for that. Doesn't wait.
    pub fn looked(&self) -> Result<(), NoMemory> {
        if self.refused {
            Err(AllocError)
        } else {
            Ok(())
        }
    }

    /// Counts a line.
    fn count(&mut self)
        ensures { self.new.inner ≡ self.old.inner }
    {
        // So many lines never come. The sum saturates only because it mustn't overflow.
        self.number = self.number.saturating_add(1);
    }

    /// If the call of a line was out of turn, as its answer says, and its transaction was begun, writes on the standard
    /// error how far that has come and what the call needs. Then notes how far transactions have come by this answer.
    /// Does nothing after memory was refused once.
    fn look(&mut self, line: &[u8], answer: &[u8])
        ensures { self.new.inner ≡ self.old.inner }
    {
        // A call may have been missed, so how far transactions have come isn't known any more.
        if self.refused {
            return;
        }
        let call = read_call(line);
        if let Some((transaction, standing, wanted)) = self.standings.out_of_turn(&call, answer) {
            let (line, words) = (self.number, standing.words());
            let _ = eprintln!(self.rt;
                "xa_script: line {line}: transaction {transaction} {words}; {wanted}"
            );
        }
        self.refused = self.standings.note(&call, answer).is_err();
    }
}

impl<'r, S: LineServer + Drop, R: Eprint + Alloc<A = Global>> LineServer for Advised<'r, S, R> {
    ghost begins = { λ server. S.begins server.inner };

    // Proved (scripts, verbose-answers): With `--verbose` the calls of a transaction manager are answered as
    //   without it.
    ghost answers = { λ old line text new. S.answers old.inner line text new.inner };

    fn answer(&mut self, alloc: Global, line: &[u8]) -> Answer {
        self.count();
        let answer = self.inner.answer(alloc, line);
        self.look(line, answer.as_slice());
        answer
    }

    fn answer_long(&mut self) -> Answer {
        // A line that is too long is no call. It is only counted, for the numbers of the lines after it.
        self.count();
        self.inner.answer_long()
    }
}
