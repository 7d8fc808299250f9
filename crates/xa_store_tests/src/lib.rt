//! Tests of logs, of sessions over them, and of stores, that the built program can't show: a log with a turn, sessions
//! and races that a program in Rust calls, renewals, recoveries that another client gets ahead of, and allocations that
//! fail. Also by example what `xa_xid` reads and how entries are words. All that the program shows is in cases/.
//!
//! `src/playing.rt` plays a script by two sessions whose lines hold their expected answers: `2 GET 'k' = 1 VALUE 0x76`
//! is a line of session 2 that is answered at place 1. In an expected answer `|` stands for a line feed. `src/trying.rt`
//! plays one by two passes of a log. `src/scenes.rt` has such scripts, which every log has to show: each scene runs over
//! the log with a turn and over the chain. `chain_log` has tests of its own, for what it keeps private.
//!
//! Stores, sessions and what holds them are let go by name, as in `drop(first)`. A function that lets them go where its
//! block ends takes several times as long to prove.
//!
//! A test whose name ends in `_survives` passes whether or not one allocation in it fails; `scripts/sweep` makes each
//! fail in turn.
#![tactic(auto)]

#[cfg(test)]
mod adders;
mod cases;
#[cfg(test)]
mod coordinators;
#[cfg(test)]
mod entries;
#[cfg(test)]
mod gates;
#[cfg(test)]
mod histories;
#[cfg(test)]
mod literals;
#[cfg(test)]
mod logs;
#[cfg(test)]
mod player_lines;
#[cfg(test)]
mod playing;
#[cfg(test)]
mod preparers;
#[cfg(test)]
mod races;
#[cfg(test)]
mod renewal;
#[cfg(test)]
mod replies;
#[cfg(test)]
mod runs;
#[cfg(test)]
mod scenes;
#[cfg(test)]
mod sessions;
#[cfg(test)]
mod stores;
#[cfg(test)]
mod sweeps;
#[cfg(test)]
mod trying;

pub use cases::{is_answer, split_case};
