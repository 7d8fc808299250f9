//! Audits of histories: whether the global transactions over several stores stayed atomic.
//!
//! Each history is that of one store: a script that a server of its own carries out. An audit says how each
//! life of each branch ended, and for each global transaction whether it is ATOMIC, MIXED, IN DOUBT or OPEN.
//! Read docs/HISTORIES.md#audits, then `specs/Deeds.antt`, `specs/Lives.antt`, `specs/Globals.antt`,
//! `specs/Written.antt` and `specs/Audits.antt`. In the code begin with `src/audit.rt` and `src/run.rt`.
#![tactic(auto)]

mod audit;
mod audited;
mod branch;
mod branches;
mod deed;
mod ended;
mod ends;
mod faults;
mod form;
mod global;
mod globals;
mod json_text;
pub mod laws;
mod lines_text;
mod lives;
mod owned;
mod run;
mod said;
mod store;
mod verdict;

pub use audit::Audit;
pub use audited::{Audited, audit_text};
pub use branch::Branch;
pub use branches::Branches;
pub use ended::Ended;
pub use ends::{End, Ends};
pub use form::Form;
pub use run::{add_history, write_audit};
