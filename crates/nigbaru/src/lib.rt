//! Nigbaru for programs in Rattle: most of the public surface of its crates, under one name.
//!
//! The root has identifiers, statements, the server, stores with sessions and races, stores without an end,
//! and coordinators. `script` runs and races scripts, `conversation` answers clients line by line, `history`
//! has entries and logs, `records` the judge, `manager` a transaction manager. A clause of yours finds definitions in
//! `specs/`, as in `Rattle.nigbaru.specs.store.Passes.{log_of}`. Read docs/RATTLE.md first.
//!
//! `race_is_explained` is a law that ties the judge to the store, the contract of a function that does nothing:
//! whatever a race of fresh sessions answers, the judge's definition of an explained record accepts, once it is
//! written down as overlapping calls. Read `specs/Overlapping.antt` first: it says how a race becomes a record. Then
//! read docs/PROOF.md#from-one-call-to-linearizability.
#![tactic(auto)]

pub mod conversation;
mod explained;
pub mod history;
pub mod manager;
pub mod records;
pub mod script;
#[cfg(test)]
mod tests;

pub use explained::{race_is_explained, records_are_explained};
pub use xa_coordinator::{
    BeginFault, Beside, Cause, Closed, Closing, Coordinator, Decision, Decisions, Ending,
    FORMAT_ID, Fused, LastingStore, Paused, Prepared, RecoverFault, Report, Speak, Transaction,
    Vote, VoteKind, WorkFault, xid_of_branch,
};
pub use xa_endless::{EndlessFault, EndlessSession, EndlessStore, Next, TakeFault};
pub use xa_races::{LongOutcome, LongRun, hold_long_race, race_on};
pub use xa_server::{
    BranchEntry, BranchState, HeldRow, Hold, Phase, Reply, Server, XaError, XidList,
};
pub use xa_session::{Answer, Fault, Session};
pub use xa_statement::{SyntaxFault, read_statement, write_statement};
pub use xa_store::{
    Gate, Log, OpenGate, Outcome, Pass, RaceFault, Run, ShuffledGate, Store, TogetherGate, race,
};
pub use xa_xid::{
    Bytes, Key, LiteralFault, NoMemory, SessionNo, Statement, Xid, copy_of, read_xid, write_xid,
};
