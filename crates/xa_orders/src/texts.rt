//! Texts that ways share.
ghost use Rattle.std.specs.Prelude.{◌≡◌, true, IfOk, IfSome};

use crate::shared_text::SharedText;
use std::alloc::Global;
use xa_xid::NoMemory;

/// The greatest number of texts that are kept: to compare a new one with more would take longer than it saves.
const MOST: usize = 64;

/// The first `MOST` different texts that came, each kept once, so that ways share them.
#[derive(Drop)]
pub struct Texts {
    known: Vec<SharedText>,
}

/// One more owner of the list's first text that is known to be this one. None if there is none.
fn same_in(known: &[SharedText], text: &[u8]) -> Result<Option<SharedText>, NoMemory>
    ensures { IfOk result (λ found. IfSome found (λ same. same ≡ text.now)) }
{
    for one in known {
        if one.is(text) {
            return Ok(Some(text_of(one)?));
        }
    }
    Ok(None)
}

/// One more owner of a text.
fn text_of(text: &SharedText) -> Result<SharedText, NoMemory>
    ensures { IfOk result (λ shared. shared ≡ text.now) }
{
    text.try_clone()
}

impl Texts {
    /// Returns an empty list.
    pub fn new(alloc: Global) -> Texts {
        Texts {
            known: Vec::new(alloc),
        }
    }

    /// Returns the text, shared with an equal one that came before, if that is kept.
    ///
    /// May return `NoMemory`.
    pub fn shared(&mut self, alloc: Global, text: Vec<u8>) -> Result<SharedText, NoMemory>
        ensures { IfOk result (λ shared. shared ≡ text.items) }
    {
        match same_in(self.known.as_slice(), text.as_slice())? {
            Some(same) => Ok(same),
            None => {
                let text = SharedText::of(alloc, text)?;
                // If the list is full, the text isn't shared with equal ones that come later.
                if self.known.len() < MOST {
                    self.known.push(text.try_clone()?)?;
                }
                Ok(text)
            }
        }
    }
}
