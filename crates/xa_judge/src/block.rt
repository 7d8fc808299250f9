//! Codes of moves (`code_of` in `path.rt`) that several paths share.
ghost use Rattle.std.specs.Prelude.{◌≡◌, IfOk};

use std::alloc::{AllocError, Global};
use std::marker::Model;
use std::sync::Arc;
use xa_xid::NoMemory;

/// Codes of moves that several paths own. A contract sees the codes.
#[derive(Drop)]
pub struct Block {
    shared: Arc<Vec<u8>>,
}

impl Model for Block {
    ghost use Rattle.std.specs.Prelude.{ℕ, List};

    ghost Value = { List ℕ };

    ghost view = { λ block. block.shared.value.items };
}

impl Clone for Block {
    ghost is_clone = { λ block copy. copy ≡ block };

    fn clone(&self) -> Result<Block, AllocError> {
        Ok(Block {
            shared: Arc::try_clone(&self.shared)?,
        })
    }
}

impl Block {
    /// Returns a block of these codes, with one owner.
    ///
    /// May return `NoMemory`.
    pub fn of(alloc: Global, codes: Vec<u8>) -> Result<Block, NoMemory>
        ensures { IfOk result (λ block. block ≡ codes.items) }
    {
        Ok(Block {
            shared: Arc::new(alloc, codes)?,
        })
    }

    /// Returns the codes.
    pub fn codes(&self) -> &[u8]
        ensures { result.now ≡ self.now }
    {
        self.shared.as_slice()
    }
}
