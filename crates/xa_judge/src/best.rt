//! The best of many configurations: those with the fewest stuck calls. A call is stuck if its answer, given now,
//! wouldn't be what the call returns.

use crate::configuration::Configuration;
use crate::foresight::Foresight;
use std::alloc::Global;
use xa_xid::NoMemory;

/// More than any number of stuck calls: there are 16 sessions, and each has at most one.
const COUNTS: usize = 17;

/// How many calls are stuck in each of the configurations, in their order.
fn stuck_counts(
    alloc: Global,
    known: &[Configuration],
    foresight: &Foresight,
) -> Result<Vec<usize>, NoMemory> {
    let mut counts = Vec::new(alloc);
    for one in known {
        let count = foresight.stuck_count(one)?;
        counts.push(count)?;
    }
    Ok(counts)
}

/// The greatest count among the `width` least ones; `COUNTS` if there are fewer than `width`.
fn greatest_kept(counts: &[usize], width: usize) -> usize {
    let mut sum: usize = 0;
    for count in 0..COUNTS {
        for other in counts {
            if *other == count {
                sum = sum.saturating_add(1);
            }
        }
        // As many as may be kept have no greater count.
        if sum >= width {
            return count;
        }
    }
    COUNTS
}

/// Returns the `width` configurations in which the fewest calls are stuck, of equal ones the earlier ones; all, if
/// there are no more. If some are dropped, those of the kept ones that have the most stuck calls are put last, in their
/// order. Apart from that the order stays.
///
/// May return `NoMemory`.
pub fn best_of(
    alloc: Global,
    known: Vec<Configuration>,
    foresight: &Foresight,
    width: usize,
) -> Result<Vec<Configuration>, NoMemory> {
    if known.len() <= width {
        return Ok(known);
    }
    let counts = stuck_counts(alloc, known.as_slice(), foresight)?;
    let greatest = greatest_kept(counts.as_slice(), width);
    let mut best = Vec::new(alloc);
    let mut spare = Vec::new(alloc);
    let mut index: usize = 0;
    for one in known {
        // There is a count for each configuration, so the default isn't taken.
        let count = counts.get(index).copied().unwrap_or(COUNTS);
        index = index.saturating_add(1);
        if count < greatest {
            best.push(one)?;
        } else if count == greatest {
            spare.push(one)?;
        }
    }
    for one in spare {
        // Of those with the greatest count that is kept, only as many as there is room for.
        if best.len() < width {
            best.push(one)?;
        }
    }
    Ok(best)
}
