//! A store whose history has no end. Its sessions share a ring (`RingLog`), in which the memory of old entries is used
//! again, so no session ever changes its log.
//!
//! Read docs/RATTLE.md#a-store-without-an-end first, then `specs/Answers.antt`, `src/trying.rt`, `src/session.rt`,
//! `src/store.rt`, `src/checkpoint.rt`, `src/helping.rt` and `src/tending.rt`. `src/speaking.rt` lets a coordinator use
//! a session.
#![tactic(auto)]

mod answering;
mod checkpoint;
mod fault;
mod following;
mod helping;
pub mod laws;
mod leaving;
mod member;
mod opening;
mod progress;
mod replica;
mod resting;
mod rests;
mod session;
mod slot;
mod speaking;
mod store;
mod taking;
mod tending;
#[cfg(test)]
mod tests;
#[cfg(test)]
mod transacting;
mod trying;

pub use fault::EndlessFault;
pub use following::Next;
pub use member::Member;
pub use replica::Replica;
pub use resting::RestingMember;
pub use session::EndlessSession;
pub use store::EndlessStore;
pub use taking::TakeFault;
