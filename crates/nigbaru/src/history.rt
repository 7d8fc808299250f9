//! Entries of a history, and the logs that keep it.

pub use chain_log::{ChainLog, ChainPass, RingFault};
pub use decision_log::{AddFault, DecisionLog, OpenFault, TurnLog, TurnPass};
pub use xa_words::Entry;
