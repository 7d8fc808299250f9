//! The programs that docs/RATTLE.md shows, as functions: statements from bytes, stores and sessions,
//! histories, stores without an end, races, threads, transactions over two stores, and a recovery by
//! decisions that were written down. `main` prints the result of each, and the gate compares it with the
//! file `stdout`.
//!
//! It depends only on `nigbaru` and `anyhow`. Read docs/RATTLE.md first, then `src/meeting.rt`.
#![tactic(auto)]

mod agreement;
mod endless;
mod kept;
mod meeting;
mod passes;
mod printing;
mod recovery;
mod speech;
mod statement;
mod threads;
mod turns;

use anyhow::Result;
use printing::{
    show_ending, show_followed, show_history, show_list, show_race, show_recovery, show_reply,
    show_statements,
};
use std::alloc::Global;
use std::sync::Wait;
use std::thread::Threads;

/// The examples of sessions on one thread.
fn show_sessions<R: Print + Wait>(rt: &R, alloc: Global) -> Result<()> {
    show_reply(rt, "meet, and read", &meeting::read_elsewhere(rt, alloc)?)?;
    show_reply(
        rt,
        "write in turn, meet, and read",
        &turns::written_in_turn(rt, alloc)?,
    )?;
    show_history(rt, &meeting::written_down(rt, alloc)?)?;
    show_reply(
        rt,
        "a pass after an error",
        &passes::asked_again(rt, alloc)?,
    )?;
    show_reply(
        rt,
        "leave, and read without an end",
        &endless::read_without_an_end(rt, alloc)?,
    )
}

/// The examples of coordinators.
fn show_transactions<R: Print + Wait>(rt: &R, alloc: Global) -> Result<()> {
    show_ending(rt, &agreement::in_both(rt, alloc)?)?;
    show_recovery(rt, &recovery::recovered(rt, alloc)?)
}

/// The examples on several threads.
fn show_threads<R: Print + Threads + Wait + Sync>(rt: &R, alloc: Global) -> Result<()> {
    show_race(rt, &threads::raced(rt, alloc)?)?;
    show_list(rt, &threads::side_by_side(rt, alloc)?)?;
    show_followed(rt, endless::followed(rt, alloc)?)
}

fn main(rt: HostRuntime) -> Result<()> {
    let alloc = rt.alloc();
    show_statements(&rt, alloc)?;
    show_sessions(&rt, alloc)?;
    show_transactions(&rt, alloc)?;
    show_threads(&rt, alloc)
}
