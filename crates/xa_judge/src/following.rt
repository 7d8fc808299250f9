//! Checks whether moves lead through events.
ghost use Rattle.std.specs.Prelude.{◌≡◌, ◌∷◌, [], ℕ, List, true, Some, None, ◌↔◌, IfOk, IfSome};
ghost use Rattle.xa_judge.specs.{Explained.{Config, opening_config, LeadsThrough}, Found.config_of};
ghost use Rattle.xa_judge.specs.Following.{LeadsOn, Leads};

use crate::configuration::Configuration;
use crate::event::Event;
use crate::moves::{Act, Move};
use std::alloc::Global;
use xa_server::Server;
use xa_xid::{NoMemory, SessionNo};

/// How far some moves have led through events.
#[derive(Drop)]
pub struct Following {
    /// The configuration after the moves. Its path is empty: the moves are known.
    pub one: Configuration,
    /// How many events have been seen.
    pub seen: usize,
}

impl Following {
    /// Begins before all moves.
    ///
    /// May return `NoMemory`.
    pub fn opening(alloc: Global, base: &Server) -> Result<Following, NoMemory>
        ensures config { IfOk result (λ first. config_of first.one ≡ opening_config base.now) }
        ensures seen { IfOk result (λ first. first.seen ≡ 0) }
    {
        Ok(Following {
            one: Configuration::opening(alloc, base)?,
            seen: 0,
        })
    }

    /// Returns how far the moves have led once the next of `events` is seen; None if there is no more event, or if
    /// the next one can't be seen here.
    ///
    /// May return `NoMemory`.
    pub fn after_event(self, events: &[Event]) -> Result<Option<Following>, NoMemory>
        ensures { IfOk result
            (λ found. (later : List Move) (end : Config)
            → LeadsOn events.now (Some self) (Move.Event ∷ later) end ↔ LeadsOn events.now found later end) }
    {
        match events.get(self.seen) {
            None => Ok(None),
            Some(event) => match self.one.observed(event)? {
                None => Ok(None),
                Some(next) => Ok(Some(Following {
                    one: next.without_path(),
                    seen: self.seen + 1,
                })),
            },
        }
    }

    /// Returns how far the moves have led after the session's act takes effect; None if it can't.
    ///
    /// May return `NoMemory`.
    pub fn after_effect(self, session: SessionNo, act: Act) -> Result<Option<Following>, NoMemory>
        ensures { IfOk result
            (λ found. (events : List Event) (later : List Move) (end : Config)
            → LeadsOn events (Some self) (Move.Effect session act ∷ later) end ↔ LeadsOn events found later end) }
    {
        match self.one.once_effected(session, act)? {
            None => Ok(None),
            Some(next) => Ok(Some(Following {
                one: next.without_path(),
                seen: self.seen,
            })),
        }
    }

    /// How far the moves have led after one more, `by`; None if that can't come about.
    fn after(self, events: &[Event], by: Move) -> Result<Option<Following>, NoMemory>
        ensures { IfOk result
            (λ found. (later : List Move) (end : Config) → LeadsOn events.now (Some self) (by ∷ later) end
            ↔ LeadsOn events.now found later end) }
    {
        match by {
            Move::Event => self.after_event(events),
            Move::Effect(session, act) => self.after_effect(session, act),
        }
    }
}

/// Returns the configuration after the moves, with an empty path, if they lead through all of the events; else None.
///
/// May return `NoMemory`.
pub fn followed(
    alloc: Global,
    base: &Server,
    events: &[Event],
    moves: &[Move],
) -> Result<Option<Configuration>, NoMemory>
    ensures found { IfOk result
        (λ found. IfSome found (λ one. LeadsThrough (opening_config base.now) events.now moves.now (config_of one))) }
    ensures missing { IfOk result (λ found. found ≡ None → (end : Config)
        → LeadsThrough (opening_config base.now) events.now moves.now end → ⊥) }
{
    let mut here = Following::opening(alloc, base)?;
    for by in moves {
        here = match here.after(events, *by)? {
            None => return Ok(None),
            Some(next) => next,
        };
    }
    // The moves may end before all events are seen.
    if here.seen < events.len() {
        return Ok(None);
    }
    Ok(Some(here.one))
}

/// Tells whether the moves lead through all of the events, beginning with a server in the state of `base`.
///
/// Errors: `NoMemory` if an allocation failed.
/// Takes memory for one copy of the server's records. Doesn't wait.
/// Own rule: docs/HISTORIES.md#what-explains-a-record.
pub fn follows(
    alloc: Global,
    base: &Server,
    events: &[Event],
    moves: &[Move],
) -> Result<bool, NoMemory>
    // Proved (records, follows): `follows` answers yes exactly if the moves lead through all that was seen.
    ensures { IfOk result (λ yes. yes ≡ true ↔ Leads base.now events.now moves.now) }
{
    Ok(followed(alloc, base, events, moves)?.is_some())
}

/// Returns the server after the moves, if they lead through all of the events, beginning with a server in the
/// state of `base`; else None.
///
/// Errors: `NoMemory` if an allocation failed.
/// Takes memory for one copy of the server's records. Doesn't wait.
/// Own rule: docs/HISTORIES.md#what-explains-a-record.
pub fn server_after(
    alloc: Global,
    base: &Server,
    events: &[Event],
    moves: &[Move],
) -> Result<Option<Server>, NoMemory>
    // Proved (records, server-after): The server that is returned for moves is the one to which they lead
    //   through all that was seen; None is returned only if they don't lead through it.
    ensures found { IfOk result
        (λ found. IfSome found
        (λ server. (end : Config) × LeadsThrough (opening_config base.now) events.now moves.now end
        × (end.state ≡ server))) }
    // Proved (records, server-after)
    ensures missing { IfOk result (λ found. found ≡ None → (end : Config)
        → LeadsThrough (opening_config base.now) events.now moves.now end → ⊥) }
{
    match followed(alloc, base, events, moves)? {
        None => Ok(None),
        Some(one) => Ok(Some(one.server.into_server()?)),
    }
}
