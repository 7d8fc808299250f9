//! How lives of branches end.
ghost use Rattle.std.specs.Prelude.{◌≡◌, [], ◌∷◌, ◌++◌, IfOk, OnOk};

use std::alloc::Global;
use std::marker::Model;
use xa_xid::NoMemory;

/// How a life of a branch ends.
#[derive(Clone, Copy, Debug, Drop, PartialEq, Eq)]
pub enum End {
    /// By an accepted `XA COMMIT`.
    Committed,
    /// By an accepted `XA ROLLBACK` or `DISCONNECT`, after an accepted `PUT` or `DEL` in it.
    RolledBack,
    /// By an accepted `XA ROLLBACK` or `DISCONNECT`, without an accepted `PUT` or `DEL` in it.
    Empty,
    /// It is PREPARED at the end of the history.
    InDoubt,
    /// It is ACTIVE or IDLE there.
    Open,
}

/// How the lives of a branch end, in order. A contract sees it as that list.
#[derive(Drop)]
pub struct Ends {
    list: Vec<End>,
}

impl Model for Ends {
    ghost use Rattle.std.specs.Prelude.{List};
    ghost use Rattle.xa_audit.specs.declared.ends.End.{End as EndSeen};

    ghost Value = { List EndSeen };

    ghost view = { λ ends. ends.list.items };
}

impl Ends {
    /// Returns an empty list.
    pub fn new(alloc: Global) -> Ends
        ensures { result ≡ [] }
    {
        Ends {
            list: Vec::new(alloc),
        }
    }

    /// Adds the end of one more life.
    ///
    /// May return `NoMemory`.
    pub fn push(&mut self, end: End) -> Result<(), NoMemory>
        ensures { OnOk result (self.new ≡ self.old ++ end ∷ []) }
    {
        self.list.push(end)?;
        Ok(())
    }

    /// Returns a copy.
    ///
    /// May return `NoMemory`.
    pub fn copy(&self, alloc: Global) -> Result<Ends, NoMemory>
        ensures { IfOk result (λ copy. copy ≡ self.now) }
    {
        let mut list = Vec::new(alloc);
        list.extend_from_slice(self.list.as_slice())?;
        Ok(Ends { list })
    }

    /// Returns the ends.
    pub fn as_slice(&self) -> &[End]
        ensures { result.now ≡ self.now }
    {
        self.list.as_slice()
    }
}
