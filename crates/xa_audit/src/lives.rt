//! The lives of a branch.
ghost use Rattle.std.specs.{Prelude.{◌≡◌, IfOk, OnOk}, Option.option_map};
ghost use Rattle.xa_audit.specs.Lives.{no_lives, dropped, written_life, prepared_life, over_by, noted, ends_in};

use crate::deed::Deed;
use crate::ends::{End, Ends};
use std::alloc::Global;
use xa_xid::NoMemory;

/// A life that goes on.
#[derive(Clone, Copy, Debug, PartialEq, Eq)]
pub struct Life {
    /// Whether a `PUT` or `DEL` was accepted in it.
    pub wrote: bool,
    /// Whether it was prepared.
    pub prepared: bool,
}

/// The lives of a branch in a history.
#[derive(Drop)]
pub struct Lives {
    /// How those that are over ended, in order.
    pub over: Ends,
    /// The one that goes on, if one does.
    pub going: Option<Life>,
}

/// Returns how the life that goes on ends if it is rolled back: ROLLED BACK if it wrote, and else EMPTY, also if none
/// goes on.
fn dropped_end(going: Option<Life>) -> End
    ensures { result ≡ dropped going }
{
    match going {
        // Without a life no writes are dropped.
        None => End::Empty,
        Some(life) => {
            if life.wrote {
                End::RolledBack
            } else {
                End::Empty
            }
        }
    }
}

/// Returns the life that goes on as it is after a write; None if none goes on.
fn written(going: Option<Life>) -> Option<Life>
    ensures { result ≡ option_map written_life going }
{
    match going {
        None => None,
        Some(life) => Some(Life {
            wrote: true,
            prepared: life.prepared,
        }),
    }
}

/// Returns the life that goes on as it is after it was prepared; None if none goes on.
fn readied(going: Option<Life>) -> Option<Life>
    ensures { result ≡ option_map prepared_life going }
{
    match going {
        None => None,
        Some(life) => Some(Life {
            wrote: life.wrote,
            prepared: true,
        }),
    }
}

impl Lives {
    /// Returns no lives.
    pub fn new(alloc: Global) -> Lives
        ensures { result ≡ no_lives }
    {
        Lives {
            over: Ends::new(alloc),
            going: None,
        }
    }

    /// Ends the life that goes on, in this way. The end is added also if none goes on.
    fn end(&mut self, end: End) -> Result<(), NoMemory>
        ensures { OnOk result (self.new ≡ over_by end self.old) }
    {
        self.over.push(end)?;
        self.going = None;
        Ok(())
    }

    /// Takes note of a deed: it starts a life, or changes or ends the one that goes on. If none goes on, a change does
    /// nothing, and an end is added as one more life. A life that goes on when another starts is forgotten.
    ///
    /// May return `NoMemory`.
    pub fn note(&mut self, deed: Deed) -> Result<(), NoMemory>
        ensures { OnOk result (self.new ≡ noted self.old deed) }
    {
        match deed {
            Deed::Starts => {
                self.going = Some(Life {
                    wrote: false,
                    prepared: false,
                });
                Ok(())
            }
            Deed::Writes => {
                self.going = written(self.going);
                Ok(())
            }
            Deed::Prepares => {
                self.going = readied(self.going);
                Ok(())
            }
            Deed::Commits => self.end(End::Committed),
            Deed::RollsBack => {
                let end = dropped_end(self.going);
                self.end(end)
            }
        }
    }

    /// Returns how each life ends, in order. One that goes on is IN DOUBT if it was prepared, and else OPEN.
    ///
    /// May return `NoMemory`.
    pub fn ends(&self, alloc: Global) -> Result<Ends, NoMemory>
        ensures { IfOk result (λ ends. ends ≡ ends_in self.now) }
    {
        let mut ends = self.over.copy(alloc)?;
        if let Some(life) = self.going {
            let end = if life.prepared {
                End::InDoubt
            } else {
                End::Open
            };
            ends.push(end)?;
        }
        Ok(ends)
    }
}
