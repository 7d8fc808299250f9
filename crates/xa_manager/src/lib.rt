//! A transaction manager that reads its calls line by line: a coordinator over 1 to 16 stores, and another
//! client's session in each store. `xa_script coordinate` gives it the standard streams.
//!
//! Read docs/COORDINATOR.md#calls first: it has the lines and their answers. Then read `specs/Refusals.antt`,
//! `specs/Carried.antt` and `specs/Whole.antt`, then `src/answer.rt` (what each call does),
//! `src/call_server.rt` (the manager as a server of lines) and `src/run.rt` (opened stores, and a
//! conversation over them).
//!
//! `stops_script` shows every stop of the manager's coordinator: for each call of a session, what a recovery leaves if
//! the coordinator stopped before that call. It has new managers answer the calls of a script up to each stop, and then
//! `STOP` and `RECOVER`. Read docs/COORDINATOR.md#stops first, then `src/stops.rt`; for what is left of each
//! transaction, `src/stop_laws.rt`, `specs/Atomic.antt` and `proofs/Holding.antt`.
#![tactic(auto)]

mod answer;
mod beside;
mod beside_server;
mod brief;
mod call;
mod call_server;
mod lasting;
mod ledger;
mod listing;
mod manager;
mod print;
mod reading;
mod response;
mod run;
mod stage;
mod stop_ended;
pub mod stop_laws;
mod stops;
mod vote_answer;

pub use beside_server::BesideServer;
pub use call::Call;
pub use call_server::CallServer;
pub use lasting::{converse_lasting, lasting_manager};
pub use ledger::Ledger;
pub use listing::Listing;
pub use manager::Manager;
pub use print::write_response;
pub use reading::read_call;
pub use response::Response;
pub use run::{converse, manager_over, open_stores};
pub use stage::Stage;
pub use stop_ended::Ended;
pub use stops::stops_script;
pub use vote_answer::VoteAnswer;
