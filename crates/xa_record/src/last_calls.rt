//! The places of the last calls of sessions.
ghost use Rattle.std.specs.Prelude.{◌≡◌, Some, None, replicate, slice_get};
ghost use Rattle.xa_record.specs.Kept.{told_kept, with_place};

use crate::line_event::LineEvent;
use xa_xid::SessionNo;

/// At each session's number, the place of its last call among the events: None if it hasn't called. Index 0 belongs to
/// no session.
#[derive(Drop)]
pub struct LastCalls {
    places: [Option<usize>; 17],
}

impl LastCalls {
    /// Begins before any session has called.
    pub fn none() -> LastCalls
        ensures { result.places ≡ replicate 17 None }
    {
        LastCalls { places: [None; 17] }
    }

    /// Takes note of the next event, at this place: a call is its session's last from now on. Any other event changes
    /// nothing.
    pub fn follow(&mut self, place: usize, line_event: &LineEvent)
        ensures { self.new.places ≡ with_place place (told_kept line_event.now) self.old.places }
    {
        match line_event {
            LineEvent::Call(session, _) => self.places[session.get() as usize] = Some(place),
            LineEvent::Return(_, _) => {}
            LineEvent::Unknown(_) => {}
            LineEvent::Lost(_) => {}
        }
    }

    /// Returns the place of the session's last call, or None if it hasn't called.
    pub fn place_of(&self, session: SessionNo) -> Option<usize>
        ensures { slice_get self.now.places session ≡ Some result }
    {
        let number = session.get() as usize;
        self.places[number]
    }
}
