//! A store that threads share: a base, which is an empty server at first, and the log of the statements that sessions
//! add.
//!
//! Opening a store returns a pass for each of its sessions: the session's handle on the log. Connect a pass
//! to get an `xa_session::Session`, which may move to a thread of yours. `race` runs sessions on threads and
//! returns their answers with the one history that explains them.
//! Read docs/RATTLE.md#stores first, then `src/store.rt`, `src/renew.rt`, `src/racing.rt` and
//! `specs/Legal.antt`.
#![tactic(auto)]

mod answering;
mod closing;
mod first_fault;
mod gate;
mod growing;
mod history;
mod leaving;
mod meeting;
mod outcome;
mod race_fault;
mod racing;
mod renew;
mod run;
mod running;
mod shuffled;
mod spread;
mod store;
mod task;
mod together;

pub use first_fault::FirstFault;
pub use gate::{Gate, OpenGate};
pub use outcome::Outcome;
pub use race_fault::RaceFault;
pub use racing::race;
pub use run::Run;
pub use shuffled::ShuffledGate;
pub use spread::run_all;
pub use store::{Log, Pass, Store};
pub use task::Task;
pub use together::TogetherGate;
