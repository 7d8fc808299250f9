//! How logs and stores are opened.

use chain_log::ChainLog;
use decision_log::{OpenFault, TurnLog};
use std::alloc::Global;
use xa_store::Store;

/// A capacity, a count of sessions, and why no log is opened for these.
const REFUSED: [(u64, u64, OpenFault); 4] = [
    (0, 17, OpenFault::CapacityOutOfRange),
    (1025, 1, OpenFault::CapacityOutOfRange),
    (4, 17, OpenFault::SessionsOutOfRange),
    (4, 0, OpenFault::SessionsOutOfRange),
];

/// The least capacity and count of sessions for which a log is opened, and the greatest.
const OPENED: [(u64, u64); 2] = [(1, 1), (1024, 16)];

/// How many passes a log with a turn is opened with.
fn turns(alloc: Global, capacity: u64, sessions: u64) -> Result<u64, OpenFault> {
    let (_, passes) = TurnLog::open(alloc, capacity, sessions)?;
    Ok(passes.len() as u64)
}

/// How many passes a chain is opened with.
fn links(alloc: Global, capacity: u64, sessions: u64) -> Result<u64, OpenFault> {
    let (_, passes) = ChainLog::open(alloc, capacity, sessions)?;
    Ok(passes.len() as u64)
}

/// How many passes a store is opened with.
fn seats(alloc: Global, capacity: u64, sessions: u64) -> Result<u64, OpenFault> {
    let (_, passes) = Store::open(alloc, capacity, sessions)?;
    Ok(passes.len() as u64)
}

#[test]
fn logs_and_stores_are_opened_for_their_sizes_alone(rt: HostRuntime) {
    for (capacity, sessions, fault) in REFUSED {
        assert!(rt; turns(rt.alloc(), capacity, sessions) == Err(fault));
        assert!(rt; links(rt.alloc(), capacity, sessions) == Err(fault));
        assert!(rt; seats(rt.alloc(), capacity, sessions) == Err(fault));
    }
    for (capacity, sessions) in OPENED {
        assert!(rt; turns(rt.alloc(), capacity, sessions) == Ok(sessions));
        assert!(rt; links(rt.alloc(), capacity, sessions) == Ok(sessions));
        assert!(rt; seats(rt.alloc(), capacity, sessions) == Ok(sessions));
    }
}
