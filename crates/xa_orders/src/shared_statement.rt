//! A statement with several owners.
ghost use Rattle.std.specs.Prelude.{◌≡◌, IfOk};

use std::alloc::Global;
use std::marker::Model;
use std::sync::Arc;
use xa_xid::{NoMemory, Statement};

/// A statement that several ways own. A contract sees the statement.
#[derive(Drop)]
pub struct SharedStatement {
    shared: Arc<Statement>,
}

impl Model for SharedStatement {
    ghost use Rattle.xa_xid.specs.declared.statement.Statement.{Statement as StatementSeen};

    ghost Value = { StatementSeen };

    ghost view = { λ statement. statement.shared.value };
}

impl SharedStatement {
    /// Returns a statement with one owner.
    ///
    /// May return `NoMemory`.
    pub fn of(alloc: Global, statement: Statement) -> Result<SharedStatement, NoMemory>
        ensures { IfOk result (λ shared. shared ≡ statement) }
    {
        Ok(SharedStatement {
            shared: Arc::new(alloc, statement)?,
        })
    }

    /// Returns one more owner of the statement, which isn't copied.
    ///
    /// May return `NoMemory`.
    pub fn try_clone(&self) -> Result<SharedStatement, NoMemory>
        ensures { IfOk result (λ shared. shared ≡ self.now) }
    {
        Ok(SharedStatement {
            shared: Arc::try_clone(&self.shared)?,
        })
    }

    /// Returns the statement.
    pub fn statement(&self) -> &Statement
        ensures { result.now ≡ self.now }
    {
        &self.shared
    }
}
