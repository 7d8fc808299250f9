//! Races: each session's statements are executed by a thread of its own, over one store.
//!
//! `race_script` races in one log with room for a stated number of entries; `race_script_in_rounds` over a store
//! without an end, so that the history has any length. Both write the history that explains the answers, and the
//! answers, or only the script's faulty lines. Read docs/COMMANDS.md#race, then `specs/Race.antt`,
//! `specs/Outcome.antt`, `src/racing.rt` and `src/holding.rt`.
//!
//! `hold_long_race` races lists of statements over a new store without an end, `race_on` those of sessions of a store
//! that is there. Both return the answers, and the history that explains them, `race_on` only from where the race
//! began. They put it together from notes of what each session added, since the store keeps only the last entries. Read
//! docs/RATTLE.md#races-without-an-end first, then `specs/Long.antt`, `src/saying.rt`, `src/meeting.rt` and
//! `src/long_racing.rt`.
//!
//! `runs_script` races a script many times, and counts how often each of its outcomes came. Each race has a store of
//! its own. The lines before and the later lines are carried out one after another; those side by side race, each
//! session on its own thread, as `race_on` does. What it counts is tested, not proved. Read
//! docs/COMMANDS.md#race-statistics, then `src/runs.rt` and `src/counted_parts.rt`. The law in `src/counted_laws.rt`
//! says that what a race of lines comes to, if one history explains it, is one of the outcomes that `xa_orders`
//! explores: read `specs/CountedRaced.antt`.
#![tactic(auto)]

mod added;
mod asked;
mod assembling;
pub mod counted_laws;
mod counted_lines;
mod counted_parts;
mod counting;
mod given;
mod holding;
mod laying;
mod long_entering;
mod long_outcome;
mod long_race;
mod long_racing;
mod long_run;
mod meeting;
mod parting;
mod race_fault;
mod race_lines;
mod race_text;
mod racer;
mod racing;
mod reshuffled;
mod running;
mod runs;
mod said;
mod saying;

pub use added::Added;
pub use long_outcome::LongOutcome;
pub use long_race::race_script_in_rounds;
pub use long_racing::{count_seen, hold_long_race, race_on};
pub use long_run::LongRun;
pub use racer::Raced;
pub use racing::race_script;
pub use reshuffled::ReshuffledGate;
pub use running::runs_script;
pub use said::Said;
