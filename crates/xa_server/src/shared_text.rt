//! A text with several owners.
ghost use Rattle.std.specs.Prelude.{◌≡◌, IfOk};

use std::alloc::Global;
use std::marker::Model;
use std::sync::Arc;
use xa_xid::{Bytes, NoMemory, copy_of};

/// A text that several own together: the record of a row, and the same record in copies of the server.
///
/// It has a place of its own in memory, so that a record without a value needs no room for one. A contract
/// sees the text.
#[derive(Drop)]
pub struct SharedText {
    /// The value, in one place in memory for all its owners.
    shared: Arc<Bytes>,
}

impl Model for SharedText {
    ghost use Rattle.xa_xid.specs.Xid.{Text, coded_text};

    ghost Value = { Text };

    ghost coded = { coded_text };

    ghost view = { λ text. text.shared.value };
}

impl SharedText {
    /// Copies a text; the copy has one owner.
    pub fn of(alloc: Global, text: &Bytes) -> Result<SharedText, NoMemory>
        ensures { IfOk result (λ shared. shared ≡ text.now) }
    {
        Ok(SharedText {
            shared: Arc::new(alloc, copy_of(text))?,
        })
    }

    /// Adds an owner. Takes no memory, but returns `NoMemory` if there are too many owners to be counted.
    pub fn try_clone(&self) -> Result<SharedText, NoMemory>
        ensures { IfOk result (λ shared. shared ≡ self.now) }
    {
        Ok(SharedText {
            shared: Arc::try_clone(&self.shared)?,
        })
    }

    /// Returns the text.
    pub fn text(&self) -> &Bytes
        ensures { result.now ≡ self.now }
    {
        &self.shared
    }
}
