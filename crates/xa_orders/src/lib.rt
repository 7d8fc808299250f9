//! Explores scripts: lines of several sessions are carried out in every order of the sessions.
//!
//! Each outcome is listed once, with the least order that gives it. The search goes level by level. A *turn* carries
//! out a session's next line. A *way* is an order of turns and what it has come to; ways that are known to have come
//! to the same are kept as one. Read docs/COMMANDS.md#explore, then `specs/Orders.antt`, `src/exploring.rt` and
//! `src/ways.rt`.
#![tactic(auto)]

mod answers;
mod different;
mod done;
mod ended;
mod explored_text;
mod exploring;
mod fingerprint_index;
mod keeper;
mod kept_server;
mod line;
mod marked_text;
mod marks;
mod outcome;
mod outcomes;
mod packing;
mod run;
mod script;
mod searching;
mod shared_statement;
mod shared_text;
mod stage;
mod texts;
mod wanted;
mod way;
mod ways;

pub use ended::Ended;
pub use exploring::explore;
pub use line::Line;
pub use outcome::Outcome;
pub use run::{Explored, explore_script, explore_text};
pub use script::{Script, read_script};
pub use stage::Stage;
