//! Requests that servers carried out, and share.
ghost use Rattle.std.specs.Prelude.{◌≡◌, IfOk};

use crate::done::Done;
use std::alloc::{AllocError, Global};
use std::marker::Model;
use std::sync::Arc;
use xa_xid::NoMemory;

/// Requests that were carried out, which several servers own. A contract sees the requests.
#[derive(Drop)]
pub struct DoneBlock {
    shared: Arc<Vec<Done>>,
}

impl Model for DoneBlock {
    ghost use Rattle.std.specs.Prelude.{List};
    ghost use Rattle.xa_judge.specs.declared.done.Done.{Done as DoneSeen};

    ghost Value = { List DoneSeen };

    ghost view = { λ block. block.shared.value.items };
}

impl Clone for DoneBlock {
    ghost is_clone = { λ block copy. copy ≡ block };

    fn clone(&self) -> Result<DoneBlock, AllocError> {
        Ok(DoneBlock {
            shared: Arc::try_clone(&self.shared)?,
        })
    }
}

impl DoneBlock {
    /// Returns a block of these requests, with one owner.
    ///
    /// May return `NoMemory`.
    pub fn of(alloc: Global, requests: Vec<Done>) -> Result<DoneBlock, NoMemory>
        ensures { IfOk result (λ block. block ≡ requests.items) }
    {
        Ok(DoneBlock {
            shared: Arc::new(alloc, requests)?,
        })
    }

    /// Returns the requests.
    pub fn requests(&self) -> &[Done]
        ensures { result.now ≡ self.now }
    {
        self.shared.as_slice()
    }
}
