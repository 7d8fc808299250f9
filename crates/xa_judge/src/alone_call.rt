//! Calls that don't overlap others.
ghost use Rattle.std.specs.Prelude.{◌≡◌, ◌∷◌, IfSome};

use crate::event::{Event, Seen};
use crate::request::Request;
use xa_xid::SessionNo;

/// A call whose return is the very next event.
#[derive(Drop)]
pub struct AloneCall<'a> {
    /// The session that calls.
    pub session: SessionNo,
    /// What is called for.
    pub request: &'a Request,
    /// What the call returns.
    pub seen: &'a Seen,
    /// The events after its return.
    pub later: &'a [Event],
}

/// Returns the call with which the events begin, if its return is the very next event; else None.
pub fn alone(events: &[Event]) -> Option<AloneCall<'_>>
    ensures { IfSome result
        (λ call. events.now ≡ Event.Call call.session call.request.now ∷ Event.Return call.session call.seen.now
        ∷ call.later.now) }
{
    match events {
        [Event::Call(session, request), rest @ ..] => match rest {
            [Event::Return(other, seen), later @ ..] => {
                if session.get() == other.get() {
                    Some(AloneCall {
                        session: *session,
                        request: request.request(),
                        seen: seen.seen(),
                        later,
                    })
                } else {
                    None
                }
            }
            _ => None,
        },
        _ => None,
    }
}
