//! A transaction manager that answers lines, and whose coordinator's sessions hold the other clients'.

ghost use Rattle.std.specs.Prelude.{◌≡◌};

use crate::call_server::{ANSWER_ROOM, refusal, unread};
use crate::{Call, Manager, read_call, write_response};
use arrayvec::ArrayVec;
use std::alloc::Global;
use std::sync::Wait;
use xa_coordinator::{Beside, Fused, Speak};
use xa_lines::{Answer, LineServer};

/// A transaction manager that answers lines, each of which is a call, by `Manager::answer_beside`.
#[derive(Drop)]
pub struct BesideServer<'r, C: Speak, T: Speak, R: Wait> {
    /// The manager that carries calls out.
    manager: Manager<C, T>,
    /// The runtime by which it waits.
    rt: &'r R,
}

impl<'r, C: Speak, T: Speak, R: Wait> BesideServer<'r, C, T, R> {
    /// Makes a server of lines of this manager.
    ///
    /// Takes no memory. Doesn't wait.
    pub fn new(rt: &'r R, manager: Manager<C, T>) -> BesideServer<'r, C, T, R>
        ensures { result.manager ≡ manager }
    {
        BesideServer { manager, rt }
    }
}

// Proved (manager, lines-beside): A server of lines whose coordinator's sessions hold the other clients'
//   answers each line likewise: as its call is carried out or refused, or with `ERROR 1037`.
impl<'r, S: Beside, T: Speak, R: Wait> LineServer for BesideServer<'r, Fused<S>, T, R> {
    ghost use Rattle.xa_manager.specs.{Beside.{BeginsBeside, IsBesideAnswer}, Managed.whole_of};

    ghost begins = { λ server. BeginsBeside S.view S.other (whole_of server.manager) };

    ghost answers = { λ old line text new. IsBesideAnswer S.view S.other T.view (whole_of old.manager) line text
        (whole_of new.manager) };

    fn answer(&mut self, alloc: Global, line: &[u8]) -> Answer {
        let call = read_call(line);
        // A blank line or a comment is answered by nothing, and needs no memory.
        if let Call::Silent = call {
            return Answer::Short(ArrayVec::new());
        }
        // The room comes first: without it the call isn't carried out.
        let Ok(room) = Vec::with_capacity(alloc, ANSWER_ROOM) else {
            return refusal();
        };
        let Ok(response) = self.manager.answer_beside(self.rt, alloc, &call) else {
            return refusal();
        };
        match write_response(alloc, room, self.manager.decisions(), &response) {
            Ok(answer) => answer,
            // The call was carried out or refused by now, and only its answer is missing.
            Err(_) => refusal(),
        }
    }

    fn answer_long(&mut self) -> Answer {
        unread()
    }
}
