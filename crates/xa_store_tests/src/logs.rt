//! Scenes over each of the two logs.
ghost use Rattle.std.specs.Prelude.{◌≡◌, All, IfOk};

use crate::scenes::{SCENES, Scene};
use chain_log::{ChainLog, ChainPass};
use decision_log::{DecisionLog, OpenFault, TurnLog, TurnPass};
use std::alloc::Global;
use std::process::Abort;
use std::sync::Wait;
use std::thread::Threads;

/// A log with a turn for two sessions, opened again if there was no memory.
fn turn(alloc: Global, capacity: u64) -> Result<(TurnLog, Vec<TurnPass>), OpenFault>
    ensures { IfOk result (λ opened. All (λ pass. ⟦<TurnLog as DecisionLog>⟧.belongs_to pass
        ≡ ⟦<TurnLog as DecisionLog>⟧.identity opened.0) opened.1.items) }
{
    match TurnLog::open(alloc, capacity, 2) {
        Err(OpenFault::NoMemory) => { TurnLog::open(alloc, capacity, 2) }
        opened => opened,
    }
}

/// A chain for two sessions, opened again if there was no memory.
fn chain(alloc: Global, capacity: u64) -> Result<(ChainLog, Vec<ChainPass>), OpenFault>
    ensures { IfOk result (λ opened. All (λ pass. ⟦<ChainLog as DecisionLog>⟧.belongs_to pass
        ≡ ⟦<ChainLog as DecisionLog>⟧.identity opened.0) opened.1.items) }
{
    match ChainLog::open(alloc, capacity, 2) {
        Err(OpenFault::NoMemory) => { ChainLog::open(alloc, capacity, 2) }
        opened => opened,
    }
}

/// A log with a turn and so much room shows a scene.
pub(crate) fn over_a_turn<R: Abort + Threads + Wait + Sync>(
    rt: &R,
    alloc: Global,
    room: u64,
    scene: Scene,
) {
    let Ok((log, passes)) = turn(alloc, room) else {
        panic!(rt; "not opened")
    };
    scene.show(rt, alloc, &log, passes);
    drop(log);
}

/// A chain with so much room shows a scene.
pub(crate) fn over_a_chain<R: Abort + Threads + Wait + Sync>(
    rt: &R,
    alloc: Global,
    room: u64,
    scene: Scene,
) {
    let Ok((log, passes)) = chain(alloc, room) else {
        panic!(rt; "not opened")
    };
    scene.show(rt, alloc, &log, passes);
    drop(log);
}

#[test]
fn log_with_a_turn_shows_every_scene(rt: HostRuntime) {
    for (room, scene) in SCENES {
        over_a_turn(&rt, rt.alloc(), room, scene);
    }
}

#[test]
fn chain_shows_every_scene(rt: HostRuntime) {
    for (room, scene) in SCENES {
        over_a_chain(&rt, rt.alloc(), room, scene);
    }
}
