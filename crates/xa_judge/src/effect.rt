//! Effects of sessions.

use crate::moves::Act;
use std::alloc::Global;
use xa_xid::{NoMemory, SessionNo};

/// An act of a session that takes effect.
#[derive(Clone, Copy, Debug, PartialEq, Eq)]
pub struct Effect {
    /// The session.
    pub session: SessionNo,
    /// Which of its acts takes effect.
    pub act: Act,
}

impl Effect {
    /// Returns the effect of what the session has called for.
    pub fn of(session: SessionNo) -> Effect {
        Effect {
            session,
            act: Act::Statement,
        }
    }
}

/// Returns every effect that there can be, of any session.
///
/// May return `NoMemory`.
pub fn all_effects(alloc: Global) -> Result<Vec<Effect>, NoMemory> {
    let mut all = Vec::new(alloc);
    // The numbers of sessions are those from 1 to 16.
    for number in 1..17 {
        if let Some(session) = SessionNo::of(number) {
            all.push(Effect::of(session))?;
            all.push(Effect {
                session,
                act: Act::Disconnect,
            })?;
        }
    }
    Ok(all)
}
