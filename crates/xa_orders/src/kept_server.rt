//! Servers that are kept as themselves, or as statements that lead to them.
ghost use Rattle.std.specs.Prelude.{◌≡◌, true, IfOk, OnOk, IfSome};
ghost use Rattle.xa_orders.specs.Since.{state_since};

use crate::done::Done;
use std::alloc::Global;
use std::marker::Model;
use std::sync::Arc;
use xa_server::Server;
use xa_xid::NoMemory;

/// A server, kept as itself, or as another one that several share and the statements that lead from there. A contract
/// sees its state.
#[derive(Drop)]
pub struct KeptServer {
    /// The server itself, if `since` is empty; else one that several share.
    base: Arc<Server>,
    /// The statements that lead from `base` to the server, in order.
    since: Vec<Done>,
}

impl Model for KeptServer {
    ghost use Rattle.xa_server.specs.{State.State, Coding.coded_state};
    ghost use Rattle.xa_orders.specs.Since.{state_since};

    ghost Value = { State };

    ghost coded = { coded_state };

    ghost view = { λ kept. state_since kept.base.value kept.since.items };
}

/// Has a server carry out these statements, in order.
fn carry_out_all(server: &mut Server, since: &[Done]) -> Result<(), NoMemory>
    ensures { OnOk result (server.new ≡ state_since server.old since.now) }
{
    for done in since {
        // Only the state after them is wanted.
        let _reply = server.apply(done.session, done.statement.statement())?;
    }
    Ok(())
}

impl KeptServer {
    /// Keeps a server as itself.
    ///
    /// May return `NoMemory`.
    pub fn of(alloc: Global, server: Server) -> Result<KeptServer, NoMemory>
        ensures { IfOk result (λ kept. kept ≡ server) }
    {
        Ok(KeptServer {
            base: Arc::new(alloc, server)?,
            since: Vec::new(alloc),
        })
    }

    /// Keeps the server that carried these statements out, beginning as `base`.
    ///
    /// May return `NoMemory`.
    pub fn since(base: &Arc<Server>, since: Vec<Done>) -> Result<KeptServer, NoMemory>
        ensures { IfOk result (λ kept. kept ≡ state_since base.now.value since.items) }
    {
        Ok(KeptServer {
            base: Arc::try_clone(base)?,
            since,
        })
    }

    /// Returns the server if it is kept as itself. None if it is kept as statements.
    pub fn own(&self) -> Option<&Server>
        ensures { IfSome result (λ server. server.now ≡ self.now) }
    {
        if self.since.is_empty() {
            Some(&self.base)
        } else {
            None
        }
    }

    /// Makes the server: a copy of `base` that carries the statements out, if there are any.
    ///
    /// May return `NoMemory`.
    pub fn made(&self) -> Result<Server, NoMemory>
        ensures { IfOk result (λ server. server ≡ self.now) }
    {
        let mut server = self.base.copy()?;
        carry_out_all(&mut server, self.since.as_slice())?;
        Ok(server)
    }

    /// Tells whether the kept server is known to be the same as this server. It never answers yes for a different
    /// one.
    ///
    /// May return `NoMemory`.
    pub fn is_like(&self, server: &Server) -> Result<bool, NoMemory>
        ensures { IfOk result (λ same. same ≡ true → self.now ≡ server.now) }
    {
        match self.own() {
            Some(own) => Ok(own.is_same(server)),
            None => Ok(self.made()?.is_same(server)),
        }
    }
}
