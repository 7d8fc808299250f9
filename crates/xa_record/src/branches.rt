//! Which calls of a record belong to the same branch.
//!
//! A call is known by the index of its part, and a branch by the part of the call that starts it. Nothing is carried
//! out here: what calls do is guessed from their texts and from what they return. If a branch is wrong, a smaller
//! record takes longer to find, or is less small.

use std::alloc::Global;
use std::collections::BTreeMap;
use xa_statement::read_statement;
use xa_xid::{NoMemory, SessionNo, Statement, Xid};

/// The branches of a record, as far as it was read.
#[derive(Drop)]
pub struct Branches {
    /// At each session's number, the open branch that it has. Index 0 belongs to no session.
    own: [Option<usize>; 17],
    /// At each session's number, the open branch that it had before its last call.
    before: [Option<usize>; 17],
    /// The branch that was prepared last under each identifier. It stays here after it is committed or rolled back.
    prepared: BTreeMap<Xid, usize>,
}

impl Branches {
    /// Begins without a branch.
    pub fn none(alloc: Global) -> Branches {
        Branches {
            own: [None; 17],
            before: [None; 17],
            prepared: BTreeMap::new(alloc),
        }
    }

    /// The prepared branch that a commit or a rollback ends, by its identifier. None for any other statement, or if no
    /// such branch was prepared.
    fn ended_by(&self, statement: &Statement) -> Option<usize> {
        match statement {
            Statement::Commit { xid, .. } => self.prepared.get(xid).copied(),
            Statement::Rollback(xid) => self.prepared.get(xid).copied(),
            _ => None,
        }
    }

    /// Takes note of what a statement does with its session's branch if it isn't refused. Its return shows later
    /// whether it was, and `undo` is called if so. `start` is the branch to which the call belongs.
    fn change(
        &mut self,
        session: SessionNo,
        statement: &Statement,
        start: usize,
    ) -> Result<(), NoMemory> {
        let number = session.get() as usize;
        match statement {
            Statement::Start(_) => self.own[number] = Some(start),
            // Without a branch of its session an `XA PREPARE` is refused, so it prepares nothing.
            Statement::Prepare(xid) => {
                if self.own[number].is_some() {
                    self.prepared.insert(xid.copy(), start)?;
                }
                self.own[number] = None;
            }
            // After each of these three the session has no branch, unless the statement is refused.
            Statement::Commit { .. } => self.own[number] = None,
            Statement::Rollback(_) => self.own[number] = None,
            Statement::Disconnect => self.own[number] = None,
            // All others leave the session's branch open, if it has one.
            _ => {}
        }
        Ok(())
    }

    /// Takes note of a call, whose part is `part`, and returns the branch to which it belongs: the one that its session
    /// has open, else the prepared one that its statement ends, whichever session prepared it, else `part` itself.
    ///
    /// May return `NoMemory`.
    pub fn call(
        &mut self,
        session: SessionNo,
        text: &[u8],
        part: usize,
    ) -> Result<usize, NoMemory> {
        let number = session.get() as usize;
        let own = self.own[number];
        // `undo` goes back to this.
        self.before[number] = own;
        match read_statement(text) {
            Ok(statement) => {
                let start = own.or(self.ended_by(&statement)).unwrap_or(part);
                self.change(session, &statement, start)?;
                Ok(start)
            }
            // A text that isn't a statement is refused, so it changes nothing.
            Err(_) => Ok(own.unwrap_or(part)),
        }
    }

    /// Takes note that the session's last call changed nothing: the session has the branch again that it had before. A
    /// branch that the call was taken to prepare stays noted as prepared.
    pub fn undo(&mut self, session: SessionNo) {
        let number = session.get() as usize;
        self.own[number] = self.before[number];
    }

    /// Takes note that a client is gone, and returns the branch that its session has open, else `part`, the part of the
    /// loss itself.
    pub fn lose(&mut self, session: SessionNo, part: usize) -> usize {
        let number = session.get() as usize;
        let own = self.own[number];
        self.own[number] = None;
        own.unwrap_or(part)
    }
}
