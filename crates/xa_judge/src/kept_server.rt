//! Servers that are kept as the requests that they carried out.
ghost use Rattle.std.specs.Prelude.{◌≡◌, true, IfOk, OnOk, IfSome};
ghost use Rattle.xa_server.specs.Overview.{keys_about as keys_about_statement};
ghost use Rattle.xa_judge.specs.{Explained.{answer_to, next_state}, Kept.{state_since, state_past}};

use crate::answer::Answer;
use crate::done::Done;
use crate::done_block::DoneBlock;
use crate::done_blocks::DoneBlocks;
use crate::request::Request;
use crate::shared_request::SharedRequest;
use std::alloc::Global;
use std::marker::Model;
use std::mem;
use std::sync::Arc;
use xa_server::Server;
use xa_xid::{Key, NoMemory, SessionNo, Statement};

/// From this number of requests on, a server gets records of its own if there is room: to carry the requests out
/// again each time that the server is needed takes long.
const MUCH: usize = 128;

/// A server, kept as another one that several share and the requests that it carried out since. The older
/// ones are in blocks, which several share too. A contract sees the server's state.
#[derive(Drop)]
pub struct KeptServer {
    /// The other server, before the requests.
    base: Arc<Server>,
    /// The older requests.
    before: Vec<DoneBlock>,
    /// The requests after them.
    since: Vec<Done>,
    alloc: Global,
}

impl Model for KeptServer {
    ghost use Rattle.xa_server.specs.{State.State, Coding.coded_state};
    ghost use Rattle.xa_judge.specs.Kept.{state_since, state_past};

    ghost Value = { State };

    ghost coded = { coded_state };

    ghost view = { λ kept. state_since (state_past kept.base.value kept.before.items) kept.since.items };
}

/// Has a server carry out these requests, in order.
fn carry_out_all(server: &mut Server, since: &[Done]) -> Result<(), NoMemory>
    ensures { OnOk result (server.new ≡ state_since server.old since.now) }
{
    for done in since {
        // Only the state after them is wanted.
        let _answer = done.request.request().carry_out(server, done.session)?;
    }
    Ok(())
}

/// Has a server carry out the requests of these blocks, in order.
fn carry_out_blocks(server: &mut Server, before: &[DoneBlock]) -> Result<(), NoMemory>
    ensures { OnOk result (server.new ≡ state_past server.old before.now) }
{
    for block in before {
        carry_out_all(server, block.requests())?;
    }
    Ok(())
}

impl KeptServer {
    /// Keeps a server as itself.
    ///
    /// May return `NoMemory`.
    pub fn of(alloc: Global, server: Server) -> Result<KeptServer, NoMemory>
        ensures { IfOk result (λ kept. kept ≡ server) }
    {
        Ok(KeptServer {
            base: Arc::new(alloc, server)?,
            before: Vec::new(alloc),
            since: Vec::new(alloc),
            alloc,
        })
    }

    /// Tells whether `MUCH` requests or more have to be carried out to make the server again, which takes long.
    pub fn did_much(&self) -> bool {
        let mut count = self.since.len();
        for block in self.before.iter() {
            count = count.saturating_add(block.requests().len());
        }
        count >= MUCH
    }

    /// Returns the allocator of its memory.
    pub fn alloc(&self) -> Global {
        self.alloc
    }

    /// A copy that is kept as this one is: the shared server isn't copied.
    fn copy(&self) -> Result<KeptServer, NoMemory>
        ensures { IfOk result (λ copy. copy ≡ self.now) }
    {
        Ok(KeptServer {
            base: Arc::try_clone(&self.base)?,
            before: self.before.clone()?,
            since: self.since.clone()?,
            alloc: self.alloc,
        })
    }

    /// Makes the requests since the last block, if there are some, a block: the one in `shared` that has the same
    /// requests, or else a new one, which `shared` keeps.
    ///
    /// May return `NoMemory`.
    pub fn fold(&mut self, shared: &mut DoneBlocks) -> Result<(), NoMemory>
        ensures { OnOk result (self.new ≡ self.old) }
    {
        if self.since.is_empty() {
            return Ok(());
        }
        let requests = mem::replace(&mut self.since, Vec::new(self.alloc));
        let block = shared.with(requests)?;
        self.before.push(block)?;
        Ok(())
    }

    /// Returns the server if it is kept as itself: without requests that are still to be carried out. Else None.
    pub fn own(&self) -> Option<&Server>
        ensures { IfSome result (λ server. server.now ≡ self.now) }
    {
        if self.before.is_empty() && self.since.is_empty() {
            Some(&self.base)
        } else {
            None
        }
    }

    /// Makes the server: a copy of the shared one that carries the requests out.
    ///
    /// May return `NoMemory`.
    pub fn made(&self) -> Result<Server, NoMemory>
        // Proved (records, kept-server): However a configuration keeps its server, it is seen as the state
        //   that it is in, and made again in that state. Keeping it in another way changes nothing.
        ensures { IfOk result (λ server. server ≡ self.now) }
    {
        let mut server = self.base.copy()?;
        carry_out_blocks(&mut server, self.before.as_slice())?;
        carry_out_all(&mut server, self.since.as_slice())?;
        Ok(server)
    }

    /// Makes the server: `base` itself carries the requests out, or a copy of it if other kept servers share it.
    ///
    /// May return `NoMemory`.
    pub fn into_server(self) -> Result<Server, NoMemory>
        ensures { IfOk result (λ server. server ≡ self) }
    {
        let KeptServer {
            base,
            before,
            since,
            alloc: _,
        } = self;
        let mut server = match Arc::try_unwrap(base) {
            Ok(server) => server,
            Err(shared) => shared.copy()?,
        };
        carry_out_blocks(&mut server, before.as_slice())?;
        carry_out_all(&mut server, since.as_slice())?;
        Ok(server)
    }

    /// Returns a copy that is kept as itself.
    ///
    /// May return `NoMemory`.
    pub fn apart(&self) -> Result<KeptServer, NoMemory>
        ensures { IfOk result (λ copy. copy ≡ self.now) }
    {
        KeptServer::of(self.alloc, self.made()?)
    }

    /// Returns the same server, kept as itself.
    ///
    /// May return `NoMemory`.
    pub fn whole(self) -> Result<KeptServer, NoMemory>
        ensures { IfOk result (λ whole. whole ≡ self) }
    {
        if self.own().is_some() {
            return Ok(self);
        }
        self.apart()
    }

    /// Returns what the session's request would be answered.
    ///
    /// May return `NoMemory`.
    pub fn answer(&self, session: SessionNo, request: &Request) -> Result<Answer, NoMemory>
        ensures { IfOk result (λ answer. answer ≡ answer_to self.now session request.now) }
    {
        match self.own() {
            Some(server) => request.answer(server, session),
            None => request.answer(&self.made()?, session),
        }
    }

    /// Returns the keys of the rows that the session's statement is about.
    ///
    /// May return `NoMemory`.
    pub fn keys_about(
        &self,
        session: SessionNo,
        statement: &Statement,
    ) -> Result<Vec<Key>, NoMemory>
        ensures { IfOk result (λ keys. keys.items ≡ keys_about_statement self.now session statement.now) }
    {
        match self.own() {
            Some(server) => server.keys_about(self.alloc, session, statement),
            None => self.made()?.keys_about(self.alloc, session, statement),
        }
    }

    /// Returns the server after the session's request, kept as this one is, with one request more.
    ///
    /// May return `NoMemory`.
    pub fn after(&self, session: SessionNo, request: &SharedRequest) -> Result<KeptServer, NoMemory>
        // Proved (records, kept-server)
        ensures { IfOk result (λ new. new ≡ next_state self.now session request.now) }
    {
        let mut new = self.copy()?;
        new.since.push(Done {
            session,
            request: request.try_clone()?,
        })?;
        Ok(new)
    }

    /// The server after the session's request, kept as this one is, with one request more; and the answer.
    fn answered(
        &self,
        session: SessionNo,
        request: &SharedRequest,
    ) -> Result<(KeptServer, Answer), NoMemory>
        ensures server { IfOk result (λ pair. pair.0 ≡ next_state self.now session request.now) }
        ensures answer { IfOk result (λ pair. pair.1 ≡ answer_to self.now session request.now) }
    {
        let answer = self.answer(session, request.request())?;
        Ok((self.after(session, request)?, answer))
    }

    /// Returns the server after the session's request, and the answer. The server stays kept as itself if it was so
    /// and no other one shares it; else it is kept with one request more.
    ///
    /// May return `NoMemory`.
    pub fn carried_out(
        self,
        session: SessionNo,
        request: &SharedRequest,
    ) -> Result<(KeptServer, Answer), NoMemory>
        ensures server { IfOk result (λ pair. pair.0 ≡ next_state self session request.now) }
        ensures answer { IfOk result (λ pair. pair.1 ≡ answer_to self session request.now) }
    {
        // It isn't kept as itself: the request is kept behind the others.
        if !self.before.is_empty() || !self.since.is_empty() {
            return self.answered(session, request);
        }
        let KeptServer {
            base,
            before,
            since,
            alloc,
        } = self;
        match Arc::try_unwrap(base) {
            Ok(mut server) => {
                let answer = request.request().carry_out(&mut server, session)?;
                Ok((KeptServer::of(alloc, server)?, answer))
            }
            // Others share the server, so it mustn't change.
            Err(base) => KeptServer {
                base,
                before,
                since,
                alloc,
            }
            .answered(session, request),
        }
    }

    /// Whether the kept server is known to be in the same state as `server`.
    fn is_like(&self, server: &Server) -> Result<bool, NoMemory>
        ensures { IfOk result (λ same. same ≡ true → self.now ≡ server.now) }
    {
        match self.own() {
            Some(own) => Ok(own.is_same(server)),
            None => Ok(self.made()?.is_same(server)),
        }
    }

    /// Tells whether both are known to be in the same state.
    ///
    /// May return `NoMemory`.
    pub fn is_same(&self, other: &KeptServer) -> Result<bool, NoMemory>
        ensures { IfOk result (λ same. same ≡ true → self.now ≡ other.now) }
    {
        match other.own() {
            Some(server) => self.is_like(server),
            None => self.is_like(&other.made()?),
        }
    }
}
