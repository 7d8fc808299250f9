//! What later events say about the calls that are open.

use crate::client_state::ClientState;
use crate::configuration::Configuration;
use crate::effect::Effect;
use crate::event::{Event, Seen};
use crate::hints::session_of;
use crate::kept_server::KeptServer;
use crate::request::Request;
use std::alloc::Global;
use xa_xid::{NoMemory, SessionNo};

/// One place for each session's number, from 1 to 16, and place 0, which no session has.
const SESSIONS: usize = 17;

/// How an effect fits what its call returns.
#[derive(Clone, Copy, Debug, PartialEq, Eq)]
pub enum Fit {
    /// It can't come about, or its answer isn't what the call returns.
    Not,
    /// It fits, and changes only how far its session is: now, and at any later time at which it fits.
    Quiet,
    /// It fits, and may change the server.
    Loud,
}

/// What is known, before an event, about what open calls return.
#[derive(Drop)]
pub struct Foresight<'a> {
    events: &'a [Event],
    /// At each session's number, what its last call returns, if that is known.
    returns: Vec<Option<&'a Seen>>,
}

/// What the session's open call returns; None if the session has no event at the place `from` or later, or its first
/// one there isn't a return.
fn answer_ahead<'a>(events: &'a [Event], from: usize, session: SessionNo) -> Option<&'a Seen> {
    for place in from..events.len() {
        // There is an event at each of these places.
        let event = events.get(place)?;
        // The first event of the session from here on is the one that ends its open call, whatever it is.
        if session_of(event) == session {
            return match event {
                Event::Return(_, seen) => Some(seen.seen()),
                _ => None,
            };
        }
    }
    None
}

/// Whether the request is known to change nothing; false for any statement if the server isn't kept as itself: making
/// it takes long.
fn is_quiet(server: &KeptServer, session: SessionNo, request: &Request) -> Result<bool, NoMemory> {
    match request {
        Request::Unread => Ok(true),
        Request::Statement(statement) => match server.own() {
            None => Ok(false),
            Some(own) => {
                // A statement that wouldn't be logged changes nothing.
                let (_reply, enters) = own.reply(session, statement)?;
                Ok(!enters)
            }
        },
    }
}

/// How the effect of the session's request fits now, if the call returns `seen`.
fn request_fit(
    server: &KeptServer,
    session: SessionNo,
    request: &Request,
    seen: &Seen,
) -> Result<Fit, NoMemory> {
    let answer = server.answer(session, request)?;
    if !seen.shows(&answer) {
        return Ok(Fit::Not);
    }
    if is_quiet(server, session, request)? {
        Ok(Fit::Quiet)
    } else {
        Ok(Fit::Loud)
    }
}

impl<'a> Foresight<'a> {
    /// Begins before all events.
    ///
    /// May return `NoMemory`.
    pub fn new(alloc: Global, events: &'a [Event]) -> Result<Foresight<'a>, NoMemory> {
        let mut returns = Vec::new(alloc);
        for _ in 0..SESSIONS {
            returns.push(None)?;
        }
        Ok(Foresight { events, returns })
    }

    /// Takes note of the event at this place: after a call, of what it returns. Other events change nothing, since
    /// `fit` asks only for calls that are open.
    pub fn follow(&mut self, place: usize) {
        if let Some(Event::Call(session, _)) = self.events.get(place)
            && let Some(entry) = self.returns.get_mut(session.get() as usize)
        {
            *entry = answer_ahead(self.events, place.saturating_add(1), *session);
        }
    }

    /// Returns how the effect fits in the configuration `one`. If it isn't known what the call returns, the effect fits
    /// if it can come about.
    ///
    /// May return `NoMemory`.
    pub fn fit(&self, one: &Configuration, effect: &Effect) -> Result<Fit, NoMemory> {
        if !one.can_take_effect(effect.session, effect.act) {
            return Ok(Fit::Not);
        }
        let Some(ClientState::Called(request)) = one.client(effect.session) else {
            // Nobody hears what a lost client's act is answered, so nothing can refute it. It may change the server.
            return Ok(Fit::Loud);
        };
        match self.returns.get(effect.session.get() as usize) {
            Some(Some(seen)) => request_fit(&one.server, effect.session, request.request(), seen),
            // It isn't known what the call returns, so any answer fits. Whether the server changes isn't looked up.
            _ => Ok(Fit::Loud),
        }
    }

    /// Returns how many calls are stuck in the configuration `one`: each could take effect now, but its answer wouldn't
    /// be what the call returns.
    ///
    /// May return `NoMemory`.
    pub fn stuck_count(&self, one: &Configuration) -> Result<usize, NoMemory> {
        let mut count: usize = 0;
        for number in 1..SESSIONS as u64 {
            if let Some(session) = SessionNo::of(number) {
                let effect = Effect::of(session);
                if one.can_take_effect(session, effect.act) && self.fit(one, &effect)? == Fit::Not {
                    count = count.saturating_add(1);
                }
            }
        }
        Ok(count)
    }
}
