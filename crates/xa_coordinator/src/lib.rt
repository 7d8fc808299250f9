//! Two-phase commit with presumed abort over 1 to 16 stores, and recovery after a coordinator stopped.
//!
//! You keep the transactions' numbers and the decisions; the coordinator gives statements to one session of
//! each store. A session is anything that keeps the promises of the trait `Speak`.
//! A `LastingStore` is an unbounded store for one thread: it keeps the state that its history leaves, and of the
//! history only its length. It holds two sessions: its own, of number 1, for a coordinator, and another client's, of
//! number 2. For sessions on threads of their own, use `xa_endless` or `xa_store`. Read docs/COORDINATOR.md first, then
//! `specs/Agreement.antt` and `specs/Outcomes.antt`, then `src/speak.rt`, `src/prepare.rt`, `src/finish.rt` and
//! `src/work.rt`; of unbounded stores docs/COORDINATOR.md#unbounded-stores, `specs/Watched.antt`, `src/serving.rt` and
//! `src/store.rt`.
#![tactic(auto)]

mod aside;
mod beside;
mod branch_name;
mod branches;
mod closing;
mod coordinator;
mod decisions;
mod ending;
mod execute;
mod fault;
mod finish;
mod fused;
mod listing;
mod participants;
mod paused;
mod prepare;
mod recover;
mod report;
mod serving;
mod settle;
mod speak;
mod speaking;
mod store;
mod transaction;
mod vote;
mod watch;
mod work;

pub use beside::Beside;
pub use branch_name::{FORMAT_ID, branch_xid as xid_of_branch};
pub use closing::Closing;
pub use coordinator::Coordinator;
pub use decisions::{Closed, Decision, Decisions};
pub use ending::Ending;
pub use fault::{BeginFault, Cause, DecisionsFault, RecoverFault, WorkFault};
pub use fused::Fused;
pub use paused::Paused;
pub use report::Report;
pub use speak::Speak;
pub use store::LastingStore;
pub use transaction::{Prepared, Transaction, VoteKind};
pub use vote::Vote;
pub use watch::Watch;
