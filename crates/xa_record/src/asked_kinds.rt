//! The kinds of statements that sessions called for last.
ghost use Rattle.std.specs.Prelude.{◌≡◌};
ghost use Rattle.xa_record.specs.Allowances.{no_kinds, kinds_after, kind_asked};

use crate::statement_kind::StatementKind;
use xa_judge::Event;
use xa_xid::SessionNo;

/// At each session's number, the kind of what it called for last: None if it hasn't called, or if that has no kind.
/// Index 0 belongs to no session.
#[derive(Clone, Copy)]
pub struct AskedKinds {
    kinds: [Option<StatementKind>; 17],
}

impl AskedKinds {
    /// Begins before any session has called.
    pub fn none() -> AskedKinds
        ensures { result.kinds ≡ no_kinds }
    {
        AskedKinds { kinds: [None; 17] }
    }

    /// Takes note of the next event. After a call its session has the kind of the call's request, or None if that has
    /// no kind. Other events change nothing.
    pub fn follow(&mut self, event: &Event)
        ensures { self.new.kinds ≡ kinds_after event.now self.old.kinds }
    {
        match event {
            Event::Call(session, request) => self.kinds[session.get() as usize] = StatementKind::of(
                request.request(),
            ),
            Event::Return(_, _) => {}
            Event::Lost(_) => {}
            Event::Unknown(_) => {}
        }
    }

    /// Returns the kind of what the session called for last. None if it hasn't called, or if that has no kind.
    pub fn of(&self, session: SessionNo) -> Option<StatementKind>
        ensures { result ≡ kind_asked self.now.kinds session }
    {
        let number = session.get() as usize;
        self.kinds[number]
    }
}
