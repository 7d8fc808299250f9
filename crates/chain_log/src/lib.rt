//! Histories that threads share, without a turn: a pass appends by one exchange, and no session that stops holds up
//! another.
//!
//! `ChainLog` is a `DecisionLog` with room for a stated number of entries. README.md has an example.
//!
//! Read first: docs/INTERNALS.md#what-a-log-promises and docs/INTERNALS.md#the-chain; then
//! specs/ChainRule.antt, specs/Chain.antt, src/calls.rt, src/steps.rt and src/columns.rt.
//! proofs/ChainStores.antt shows why stores and exchanges keep the rule.
//!
//! `RingLog` has no end: it uses the cells of old entries again, so that old entries may be lost. RING.md has an
//! example.
//!
//! Read first: docs/INTERNALS.md#the-ring; then specs/Places.antt, specs/RingRule.antt, src/ring_calls.rt,
//! src/ring_steps.rt, src/ring_cells.rt and src/ring_columns.rt. proofs/RingStores.antt shows why stores and exchanges
//! keep the rule, and proofs/Watching.antt what a reader learns by a name.
#![tactic(auto)]

mod calls;
mod cells;
mod chain;
mod columns;
pub mod laws;
mod layout;
mod open;
mod pass;
mod resting;
mod rests;
mod ring;
mod ring_calls;
mod ring_cells;
mod ring_columns;
mod ring_fault;
pub mod ring_laws;
mod ring_layout;
mod ring_open;
mod ring_pass;
mod ring_rule;
#[cfg(test)]
mod ring_spare_tests;
mod ring_steps;
#[cfg(test)]
mod ring_tests;
mod ring_transitions;
mod rule;
mod spare;
mod spares;
mod steps;
#[cfg(test)]
mod tests;
mod transitions;

pub use chain::ChainLog;
pub use pass::ChainPass;
pub use resting::{RestingPass, RestingSpare};
pub use ring::RingLog;
pub use ring_fault::RingFault;
pub use ring_layout::{MOST_ROWS, MOST_SPARES};
pub use ring_pass::RingPass;
pub use ring_rule::Turning;
pub use rule::Links;
pub use spare::RingSpare;
