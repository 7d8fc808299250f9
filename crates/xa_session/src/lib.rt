//! Sessions over a history that threads share. A session has a pass of a log and a replica of the server,
//! which it keeps between statements. It looks, replays the new entries on its replica, finds the reply
//! there, and appends the statement to the history if it is logged. `attempt` does so once; `execute` until it has an
//! answer, or can't have one for want of room or memory.
//!
//! Read first: docs/PROOF.md#the-session-theorem; then specs/Answer.antt, specs/Outcome.antt,
//! src/trying.rt, specs/Replay.antt and src/session.rt.
#![tactic(auto)]

mod answer;
mod attempt;
mod execute;
mod fault;
pub mod laws;
mod pausing;
mod replica;
mod session;
mod trying;
mod whole;

pub use answer::Answer;
pub use fault::Fault;
pub use replica::Replica;
pub use session::Session;
pub use whole::replayed;
