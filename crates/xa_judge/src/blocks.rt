//! Blocks of moves that paths can share.
ghost use Rattle.std.specs.Prelude.{◌≡◌, IfOk, IfSome};

use crate::block::Block;
use std::alloc::Global;
use xa_xid::NoMemory;

/// The greatest number of blocks that are kept. Configurations that went on side by side have few different
/// ones, and each new one is compared with all.
const MOST: usize = 64;

/// Blocks of moves that paths can share.
#[derive(Drop)]
pub struct Blocks {
    kept: Vec<Block>,
    alloc: Global,
}

/// One more owner of the kept block with these codes; None if there is none.
fn block_of(kept: &[Block], codes: &[u8]) -> Result<Option<Block>, NoMemory>
    ensures { IfOk result (λ found. IfSome found (λ block. block ≡ codes.now)) }
{
    for block in kept {
        if block.codes() == codes {
            return Ok(Some(block.clone()?));
        }
    }
    Ok(None)
}

impl Blocks {
    /// Returns an empty list.
    pub fn new(alloc: Global) -> Blocks {
        Blocks {
            kept: Vec::new(alloc),
            alloc,
        }
    }

    /// A new block with these codes, which is kept, so that it can be shared from now on.
    fn add(&mut self, codes: Vec<u8>) -> Result<Block, NoMemory>
        ensures { IfOk result (λ block. block ≡ codes.items) }
    {
        // There is no room, so all kept blocks are forgotten. Those that paths share live on in the paths.
        if self.kept.len() >= MOST {
            self.kept.clear();
        }
        let block = Block::of(self.alloc, codes)?;
        self.kept.push(block.clone()?)?;
        Ok(block)
    }

    /// Returns a block with these codes, one that is kept already if possible.
    ///
    /// May return `NoMemory`.
    pub fn with(&mut self, codes: Vec<u8>) -> Result<Block, NoMemory>
        ensures { IfOk result (λ block. block ≡ codes.items) }
    {
        match block_of(self.kept.as_slice(), codes.as_slice())? {
            Some(block) => Ok(block),
            None => self.add(codes),
        }
    }
}
