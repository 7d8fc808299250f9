//! The history that threads share. The trait `DecisionLog` is what a log promises to a session; `TurnLog`
//! is a log in which a pass takes the turn before it appends. README.md has an example, and how to add a log.
//!
//! Read first: docs/INTERNALS.md#what-a-log-promises, docs/INTERNALS.md#what-both-logs-share and
//! docs/INTERNALS.md#the-log-with-a-turn; then src/log.rt, specs/Calls.antt, specs/LogRule.antt,
//! specs/TurnRule.antt and src/turn_log/calls.rt.
#![tactic(auto)]

mod fault;
mod known;
pub mod laws;
mod log;
mod log_table;
mod log_words;
mod opening;
mod seating;
mod sizes;
mod turn_log;
mod view;

pub use fault::{AddFault, OpenFault};
pub use known::Known;
pub use log::DecisionLog;
pub use log_table::LogTable;
pub use log_words::{LogTransition, LogWords};
pub use opening::{SeatedPass, open_seats};
pub use seating::Seating;
pub use sizes::{MOST_ENTRIES, Sizes};
pub use turn_log::{TurnLog, TurnPass};
pub use view::{PassView, SeatView, Turn};
