//! What a call was seen to return, with several owners.
ghost use Rattle.std.specs.Prelude.{◌≡◌, IfOk};

use crate::event::Seen;
use std::alloc::Global;
use std::marker::Model;
use std::sync::Arc;
use xa_xid::NoMemory;

/// What a call was seen to return, which several events own. A contract sees what was seen.
#[derive(Debug, Drop)]
pub struct SharedSeen {
    shared: Arc<Seen>,
}

impl Model for SharedSeen {
    ghost use Rattle.xa_judge.specs.declared.event.Seen.{Seen as WhatSeen};

    ghost Value = { WhatSeen };

    ghost view = { λ seen. seen.shared.value };
}

impl SharedSeen {
    /// Returns what was seen, with one owner.
    ///
    /// May return `NoMemory`. Doesn't wait.
    pub fn of(alloc: Global, seen: Seen) -> Result<SharedSeen, NoMemory>
        ensures { IfOk result (λ shared. shared ≡ seen) }
    {
        Ok(SharedSeen {
            shared: Arc::new(alloc, seen)?,
        })
    }

    /// Returns one more owner of what was seen, which isn't copied.
    ///
    /// Errors: `NoMemory` if there are too many owners to be counted. Takes no memory. Doesn't wait.
    pub fn try_clone(&self) -> Result<SharedSeen, NoMemory>
        ensures { IfOk result (λ shared. shared ≡ self.now) }
    {
        Ok(SharedSeen {
            shared: Arc::try_clone(&self.shared)?,
        })
    }

    /// Returns what was seen.
    ///
    /// Takes no memory. Doesn't wait.
    pub fn seen(&self) -> &Seen
        ensures { result.now ≡ self.now }
    {
        &self.shared
    }
}
