//! A text with several owners.
ghost use Rattle.std.specs.Prelude.{◌≡◌, true, IfOk};

use crate::marked_text::MarkedText;
use crate::marks::mark_of_text;
use std::alloc::Global;
use std::marker::Model;
use std::sync::Arc;
use xa_xid::NoMemory;

/// A text that several ways own. A contract sees the text.
#[derive(Drop)]
pub struct SharedText {
    shared: Arc<MarkedText>,
}

impl Model for SharedText {
    ghost use Rattle.std.specs.Prelude.{ℕ, List};

    ghost Value = { List ℕ };

    ghost view = { λ text. text.shared.value.text.items };
}

/// Whether two texts are known to be the same.
fn is_same_bytes(left: &[u8], right: &[u8]) -> bool
    ensures { result ≡ true → left.now ≡ right.now }
{
    left == right
}

impl SharedText {
    /// Returns a text with one owner.
    ///
    /// May return `NoMemory`.
    pub fn of(alloc: Global, text: Vec<u8>) -> Result<SharedText, NoMemory>
        ensures { IfOk result (λ shared. shared ≡ text.items) }
    {
        let mark = mark_of_text(text.as_slice());
        Ok(SharedText {
            shared: Arc::new(alloc, MarkedText { mark, text })?,
        })
    }

    /// Returns one more owner of the text, which isn't copied.
    ///
    /// May return `NoMemory`.
    pub fn try_clone(&self) -> Result<SharedText, NoMemory>
        ensures { IfOk result (λ shared. shared ≡ self.now) }
    {
        Ok(SharedText {
            shared: Arc::try_clone(&self.shared)?,
        })
    }

    /// Returns the text.
    pub fn text(&self) -> &[u8]
        ensures { result.now ≡ self.now }
    {
        self.shared.text.as_slice()
    }

    /// Returns a number made of the text.
    pub fn mark(&self) -> u64 {
        self.shared.mark
    }

    /// Tells whether the shared text is known to be the same as `text`.
    pub fn is(&self, text: &[u8]) -> bool
        ensures { result ≡ true → self.now ≡ text.now }
    {
        is_same_bytes(self.text(), text)
    }

    /// Tells whether both are known to be the same text.
    pub fn is_same(&self, other: &SharedText) -> bool
        ensures { result ≡ true → self.now ≡ other.now }
    {
        // The marks are compared first: of different texts they seldom are the same.
        self.mark() == other.mark() && is_same_bytes(self.text(), other.text())
    }
}
