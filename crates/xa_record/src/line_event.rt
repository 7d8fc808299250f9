//! The events of a record, as its lines say them.
ghost use Rattle.std.specs.Prelude.{◌≡◌, Some, option_copied};
ghost use Rattle.xa_record.specs.Reading.{session_of, presence_after, cause_of, is_return_of, fault_called};
ghost use Rattle.xa_record.specs.Kept.{told_kept};

use crate::line_fault::LineFault;
use crate::presence::Presence;
use crate::shown::Shown;
use xa_statement::read_statement;
use xa_xid::SessionNo;

/// An event of a session, as a line says it.
#[derive(Drop)]
pub enum LineEvent<'a> {
    /// It calls for this text.
    Call(SessionNo, &'a [u8]),
    /// Its call returns this.
    Return(SessionNo, Shown<'a>),
    /// Its call returns, with an answer that isn't known.
    Unknown(SessionNo),
    /// Its client is gone, at this line or at any time since its last return.
    Lost(SessionNo),
}

/// An event, and the number of its line.
#[derive(Drop)]
pub struct NumberedEvent<'a> {
    pub number: u64,
    pub line_event: LineEvent<'a>,
}

impl LineEvent<'_> {
    /// Returns the session whose event it is.
    pub fn session(&self) -> SessionNo
        ensures { result ≡ session_of (told_kept self.now) }
    {
        match self {
            LineEvent::Call(session, _) => *session,
            LineEvent::Return(session, _) => *session,
            LineEvent::Unknown(session) => *session,
            LineEvent::Lost(session) => *session,
        }
    }

    /// Tells whether a call of the session returns, with an answer that is known or not.
    pub fn returns_to(&self, session: SessionNo) -> bool
        ensures { result ≡ is_return_of session (told_kept self.now) }
    {
        match self {
            LineEvent::Call(_, _) => false,
            LineEvent::Return(other, _) => other.get() == session.get(),
            LineEvent::Unknown(other) => other.get() == session.get(),
            LineEvent::Lost(_) => false,
        }
    }

    /// Returns what the lines say of the session after this.
    pub fn presence(&self) -> Presence
        ensures { result ≡ presence_after (told_kept self.now) }
    {
        match self {
            LineEvent::Call(_, _) => Presence::Open,
            LineEvent::Return(_, _) => Presence::Idle,
            LineEvent::Unknown(_) => Presence::Idle,
            LineEvent::Lost(_) => Presence::Lost,
        }
    }

    /// Returns why its line is faulty if the texts of calls are tested: it is a call of a text that isn't a
    /// statement. Else None.
    pub fn call_fault(&self) -> Option<LineFault>
        ensures { result ≡ fault_called (told_kept self.now) }
    {
        match self {
            LineEvent::Call(_, text) => match read_statement(text) {
                Ok(_) => None,
                Err(_) => Some(LineFault::NotAStatement),
            },
            LineEvent::Return(_, _) => None,
            LineEvent::Unknown(_) => None,
            LineEvent::Lost(_) => None,
        }
    }

    /// Why its line is faulty where the session has no open call; None if it isn't faulty there.
    fn fault_idle(&self) -> Option<LineFault>
        ensures { result ≡ cause_of (Some Presence.Idle) (told_kept self.now) }
    {
        match self {
            LineEvent::Call(_, _) => None,
            LineEvent::Return(session, _) => Some(LineFault::NoOpenCall(*session)),
            LineEvent::Unknown(session) => Some(LineFault::NoOpenCall(*session)),
            LineEvent::Lost(_) => None,
        }
    }

    /// Why its line is faulty where the session has an open call; None if it isn't faulty there.
    fn fault_open(&self) -> Option<LineFault>
        ensures { result ≡ cause_of (Some Presence.Open) (told_kept self.now) }
    {
        match self {
            LineEvent::Call(session, _) => Some(LineFault::OpenCall(*session)),
            LineEvent::Return(_, _) => None,
            LineEvent::Unknown(_) => None,
            // A client may be gone before its call returns.
            LineEvent::Lost(_) => None,
        }
    }

    /// Why its line is faulty where the session's client is gone, as every line of the session is.
    fn fault_lost(&self) -> Option<LineFault>
        ensures { result ≡ cause_of (Some Presence.Lost) (told_kept self.now) }
    {
        match self {
            LineEvent::Call(session, _) => Some(LineFault::Lost(*session)),
            LineEvent::Return(session, _) => Some(LineFault::Lost(*session)),
            LineEvent::Unknown(session) => Some(LineFault::Lost(*session)),
            LineEvent::Lost(session) => Some(LineFault::Lost(*session)),
        }
    }

    /// Returns why its line is faulty, by what the lines before say of the session; None if it isn't, or if they say
    /// nothing.
    pub fn fault(&self, before: Option<&Presence>) -> Option<LineFault>
        ensures { result ≡ cause_of (option_copied before.entry) (told_kept self.now) }
    {
        match before {
            None => None,
            Some(Presence::Idle) => self.fault_idle(),
            Some(Presence::Open) => self.fault_open(),
            Some(Presence::Lost) => self.fault_lost(),
        }
    }
}
