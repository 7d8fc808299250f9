//! Blocks of requests that servers can share.
ghost use Rattle.std.specs.Prelude.{◌≡◌, true, IfOk, IfSome};

use crate::done::Done;
use crate::done_block::DoneBlock;
use std::alloc::Global;
use xa_xid::NoMemory;

/// The greatest number of blocks that are kept. Configurations that went on side by side have few different
/// ones, and each new one is compared with all.
const MOST: usize = 64;

/// Blocks of requests that servers can share.
#[derive(Drop)]
pub struct DoneBlocks {
    kept: Vec<DoneBlock>,
    alloc: Global,
}

/// Whether two lists are known to be the same.
fn is_same_work(left: &[Done], right: &[Done]) -> bool
    ensures { result ≡ true → left.now ≡ right.now }
{
    match left {
        [] => right.is_empty(),
        [one, rest @ ..] => match right {
            [] => false,
            [other, others @ ..] => one.is_same(other) && is_same_work(rest, others),
        },
    }
}

/// One more owner of the kept block that is known to have these requests; None if there is none.
fn block_of(kept: &[DoneBlock], requests: &[Done]) -> Result<Option<DoneBlock>, NoMemory>
    ensures { IfOk result (λ found. IfSome found (λ block. block ≡ requests.now)) }
{
    for block in kept {
        if is_same_work(block.requests(), requests) {
            return Ok(Some(block.clone()?));
        }
    }
    Ok(None)
}

impl DoneBlocks {
    /// Returns an empty list.
    pub fn new(alloc: Global) -> DoneBlocks {
        DoneBlocks {
            kept: Vec::new(alloc),
            alloc,
        }
    }

    /// A new block with these requests, which is kept, so that it can be shared from now on.
    fn add(&mut self, requests: Vec<Done>) -> Result<DoneBlock, NoMemory>
        ensures { IfOk result (λ block. block ≡ requests.items) }
    {
        // There is no room, so all kept blocks are forgotten. Those that servers share live on in the servers.
        if self.kept.len() >= MOST {
            self.kept.clear();
        }
        let block = DoneBlock::of(self.alloc, requests)?;
        self.kept.push(block.clone()?)?;
        Ok(block)
    }

    /// Returns a block with these requests, one that is kept already if possible.
    ///
    /// May return `NoMemory`.
    pub fn with(&mut self, requests: Vec<Done>) -> Result<DoneBlock, NoMemory>
        ensures { IfOk result (λ block. block ≡ requests.items) }
    {
        match block_of(self.kept.as_slice(), requests.as_slice())? {
            Some(block) => Ok(block),
            None => self.add(requests),
        }
    }
}
