//! A transaction manager that answers lines.
ghost use Rattle.std.specs.Prelude.{◌≡◌, ◌++◌, codes};
ghost use Rattle.xa_lines.specs.{Printed.syntax_text, Answer.bytes_of};
ghost use Rattle.xa_manager.specs.Served.{refused_text};

use crate::brief::short_answer;
use crate::{Call, Manager, read_call, write_response};
use arrayvec::ArrayVec;
use std::alloc::Global;
use std::sync::Wait;
use xa_coordinator::{Fused, Speak};
use xa_lines::{Answer, LineServer};

/// Room for each answer but the lists of `AT` and `SHOW`, in bytes. None has more than 160: that is a recovery's report
/// with three counts of 39 digits. The room is taken before a call is carried out: if it can't be had, the call isn't.
pub(crate) const ANSWER_ROOM: usize = 256;

/// The answer if memory is refused.
pub(crate) fn refusal() -> Answer
    ensures { bytes_of result ≡ refused_text }
{
    short_answer(b"ERROR 1037 (HY001): out of memory\n")
}

/// The answer to a line that is too long to be read as a call.
pub(crate) fn unread() -> Answer
    ensures { bytes_of result ≡ syntax_text 0 ++ codes "\n" }
{
    short_answer(b"ERROR 1064 (42000): syntax fault at byte 0\n")
}

/// A transaction manager that answers lines, each of which is a call.
#[derive(Drop)]
pub struct CallServer<'r, C: Speak, T: Speak, R: Wait> {
    /// The manager that carries calls out.
    manager: Manager<C, T>,
    /// The runtime by which it waits.
    rt: &'r R,
}

impl<'r, C: Speak, T: Speak, R: Wait> CallServer<'r, C, T, R> {
    /// Makes a server of lines of this manager.
    ///
    /// Takes no memory. Doesn't wait.
    pub fn new(rt: &'r R, manager: Manager<C, T>) -> CallServer<'r, C, T, R>
        ensures { result.manager ≡ manager }
    {
        CallServer { manager, rt }
    }
}

// Proved (manager, lines): Each line that is served is answered as its call is carried out or refused, or
//   with `ERROR 1037` if an allocation fails. A blank line and a comment never get `ERROR 1037`.
// Proved (manager, lines-no-memory): After `ERROR 1037` no session got a statement and nothing changed; or
//   the call was carried out and its result has more than fixed words: a value, a list, a refusal, a cause,
//   several stores, a report.
// Proved (manager, lines-no-memory-short): After `ERROR 1037` no transaction was begun, no number decided or
//   found closed, no session limited and no coordinator stopped. The vote wasn't Ready, One Phase or Nothing,
//   and the ending neither Committed nor Rolled back.
impl<'r, S: Speak, T: Speak, R: Wait> LineServer for CallServer<'r, Fused<S>, T, R> {
    ghost use Rattle.xa_manager.specs.{Managed.whole_of, Served.IsCallAnswer, Whole.ManagerBegins};

    ghost begins = { λ server. ManagerBegins S.view T.view (whole_of server.manager) };

    ghost answers = { λ old line text new. IsCallAnswer S.view T.view (whole_of old.manager) line text
        (whole_of new.manager) };

    fn answer(&mut self, alloc: Global, line: &[u8]) -> Answer {
        let call = read_call(line);
        // A blank line or a comment is answered by nothing, and needs no memory.
        if let Call::Silent = call {
            return Answer::Short(ArrayVec::new());
        }
        // The room comes first: without it the call isn't carried out.
        let Ok(room) = Vec::with_capacity(alloc, ANSWER_ROOM) else {
            return refusal();
        };
        let Ok(response) = self.manager.answer(self.rt, alloc, &call) else {
            return refusal();
        };
        match write_response(alloc, room, self.manager.decisions(), &response) {
            Ok(answer) => answer,
            // The call was carried out or refused by now, and only its answer is missing.
            Err(_) => refusal(),
        }
    }

    fn answer_long(&mut self) -> Answer {
        unread()
    }
}
