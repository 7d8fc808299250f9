//! The sequential server: transaction branches over rows in memory, one statement after another. It is the
//! meaning of everything that is built on it. README.md says how a state is kept, with an example.
//!
//! Read first: specs/State.antt, specs/Locks.antt, specs/Replies.antt and specs/Step.antt, in this order;
//! then src/decide.rt and src/apply.rt, which are only about the state; then src/server.rt, which leads to
//! the two tables.
#![tactic(auto)]

mod apply;
mod association;
mod branch;
mod branch_table;
mod decide;
mod hold;
mod keys;
pub mod laws;
mod lock;
mod overview;
mod packed;
mod part;
mod reply;
mod row;
mod row_table;
mod run;
mod runs;
mod server;
mod several_sharers;
mod shared_text;
mod shared_xid;
mod sharers;
mod xa_error;

pub use branch::Phase;
pub use hold::{HeldRow, Hold};
pub use overview::BranchEntry;
pub use reply::{Reply, XidList};
pub use server::Server;
pub use shared_xid::SharedXid;
pub use xa_error::{BranchState, XaError};
