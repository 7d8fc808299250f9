//! A store without an end: its sessions, on threads of their own, and its history, handed out.

use crate::agreement::put;
use anyhow::Result;
use nigbaru::{EndlessSession, EndlessStore, Next, Reply, read_statement};
use std::alloc::Global;
use std::sync::Wait;
use std::thread;
use std::thread::Threads;

/// What a session of a store without an end answers to the statement of a text.
fn tell<R: Wait>(rt: &R, session: &mut EndlessSession, text: &str) -> Result<Reply> {
    let statement = read_statement(text.as_bytes())?;
    let answer = session.execute(rt, &statement)?;
    Ok(answer.reply)
}

/// Each of two sessions writes a row. Then both leave.
fn write_and_leave<R: Wait>(
    rt: &R,
    mut first: EndlessSession,
    mut second: EndlessSession,
) -> Result<()> {
    tell(rt, &mut first, "PUT 'k','v'")?;
    tell(rt, &mut second, "PUT 'm','w'")?;
    first.leave();
    second.leave();
    Ok(())
}

/// What a session reads that is taken again, after it and another one have written and left.
pub fn read_without_an_end<R: Wait>(rt: &R, alloc: Global) -> Result<Reply> {
    let store = EndlessStore::open(alloc, 1_024, 2)?;
    let first = EndlessStore::take(&store, 1)?;
    let second = EndlessStore::take(&store, 2)?;
    write_and_leave(rt, first, second)?;
    let mut again = EndlessStore::take(&store, 1)?;
    tell(rt, &mut again, "GET 'm'")
}

/// Whether a session writes the row `k` so many times.
fn writes<R: Wait>(rt: &R, mut session: EndlessSession, count: u64) -> bool {
    let Ok(put) = put() else {
        return false;
    };
    for _ in 0..count {
        if session.execute(rt, &put).is_err() {
            return false;
        }
    }
    true
}

/// How many entries a session hands out up to the end of the history, and how many are lost.
fn handed_out(session: &mut EndlessSession) -> (u64, u64) {
    let (mut entries, mut lost) = (0u64, 0u64);
    for _ in 0..10_000 {
        match session.next_entry() {
            Next::Entry(_) => entries = entries.wrapping_add(1),
            Next::Lost(count) => lost = lost.wrapping_add(count),
            Next::End => return (entries, lost),
        }
    }
    (entries, lost)
}

/// Two threads write a row a thousand times each, in a store with 64 slots. What a third session then hands
/// out.
pub fn followed<R: Threads + Wait + Sync>(rt: &R, alloc: Global) -> Result<(u64, u64)> {
    let store = EndlessStore::open(alloc, 64, 3)?;
    let first = EndlessStore::take(&store, 1)?;
    let second = EndlessStore::take(&store, 2)?;
    let mut third = EndlessStore::take(&store, 3)?;
    thread::join(
        rt,
        move || writes(rt, first, 1_000),
        move || writes(rt, second, 1_000),
    );
    Ok(handed_out(&mut third))
}
