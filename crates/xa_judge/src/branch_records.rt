//! An estimate of how many records of branches a server has.

use crate::event::{Event, Seen};
use crate::request::Request;
use crate::shared_request::SharedRequest;
use std::alloc::Global;
use std::collections::BTreeMap;
use xa_xid::{NoMemory, SessionNo, Statement, Xid};

/// One place for each session's number, from 1 to 16, and place 0, which no session has.
const SESSIONS: usize = 17;

/// How many records of branches a server has, estimated from the events: one for each branch, and one for
/// each statement within it, which may be about a row.
///
/// Open calls may add records and lost sessions may remove some; neither is counted. A poor estimate costs time and
/// memory, and makes no verdict wrong.
#[derive(Drop)]
pub struct BranchRecords {
    /// How many records each branch has.
    counts: BTreeMap<Xid, usize>,
    /// How many records there are.
    sum: usize,
    /// At each session's number, its branch until that is prepared.
    owned: Vec<Option<Xid>>,
    /// At each session's number, its open call.
    called: Vec<Option<SharedRequest>>,
}

impl BranchRecords {
    /// Returns the estimate for a server without branches.
    pub fn new(alloc: Global) -> BranchRecords {
        BranchRecords {
            counts: BTreeMap::new(alloc),
            sum: 0,
            owned: Vec::new(alloc),
            called: Vec::new(alloc),
        }
    }

    /// Returns how many records there are.
    pub fn sum(&self) -> usize {
        self.sum
    }

    /// Tells whether by the estimate no branch exists, and no call is open. A call that a lost client left open counts
    /// as open.
    pub fn is_still(&self) -> bool {
        self.sum == 0 && self.called.iter().all(|called| called.is_none())
    }

    /// Takes note of an event. A call that returns counts as carried out, unless it lists branches or is refused; so
    /// does one with an unknown answer. The loss of a client changes nothing: its call stays open.
    ///
    /// May return `NoMemory`.
    pub fn see(&mut self, event: &Event) -> Result<(), NoMemory> {
        match event {
            Event::Call(session, request) => self.call(*session, Some(request.try_clone()?)),
            Event::Return(session, seen) => match seen.seen() {
                Seen::Ok | Seen::Value(_) => self.carried_out(*session),
                // A list of branches and a refusal change no record.
                Seen::Rows(_) | Seen::Error(_) => self.call(*session, None),
            },
            Event::Unknown(session) => self.carried_out(*session),
            Event::Lost(_) => Ok(()),
        }
    }

    /// Notes that the session has this open call; none, if `request` is None.
    fn call(&mut self, session: SessionNo, request: Option<SharedRequest>) -> Result<(), NoMemory> {
        // The places are made at the first call, so that `new` needs no memory.
        for _ in self.called.len()..SESSIONS {
            self.called.push(None)?;
            self.owned.push(None)?;
        }
        if let Some(place) = self.called.get_mut(session.get() as usize) {
            *place = request;
        }
        Ok(())
    }

    /// Notes that the session has this branch; none, if `branch` is None.
    fn own(&mut self, session: SessionNo, branch: Option<Xid>) {
        if let Some(place) = self.owned.get_mut(session.get() as usize) {
            *place = branch;
        }
    }

    /// Adds a record of a branch.
    fn add(&mut self, xid: &Xid) -> Result<(), NoMemory> {
        // A branch that isn't in `counts` has no record yet.
        let count = self.counts.get(xid).copied().unwrap_or(0);
        self.counts.insert(xid.copy(), count.saturating_add(1))?;
        self.sum = self.sum.saturating_add(1);
        Ok(())
    }

    /// Removes all records of a branch.
    fn remove(&mut self, xid: &Xid) {
        if let Some(count) = self.counts.remove(xid) {
            self.sum = self.sum.saturating_sub(count);
        }
    }

    /// The session's branch, if it has one.
    fn owned_by(&self, session: SessionNo) -> Option<Xid> {
        match self.owned.get(session.get() as usize) {
            Some(Some(xid)) => Some(xid.copy()),
            _ => None,
        }
    }

    /// Removes the records of this branch, if there is one, and leaves the session without a branch.
    fn end(&mut self, session: SessionNo, branch: Option<Xid>) {
        if let Some(xid) = branch {
            self.remove(&xid);
        }
        self.own(session, None);
    }

    /// Notes that the session's statement was carried out, or may have been.
    fn act(&mut self, session: SessionNo, statement: &Statement) -> Result<(), NoMemory> {
        match statement {
            Statement::Start(xid) => {
                self.add(xid)?;
                self.own(session, Some(xid.copy()));
            }
            // The branch and its records stay, without an owner.
            Statement::Prepare(_) => self.own(session, None),
            Statement::Commit { xid, one_phase: _ } => self.end(session, Some(xid.copy())),
            Statement::Rollback(xid) => self.end(session, Some(xid.copy())),
            // The session's branch is rolled back. One that it prepared isn't its own any more.
            Statement::Disconnect => {
                let branch = self.owned_by(session);
                self.end(session, branch);
            }
            // Within a branch each other statement counts as one about a row, which may be one record more.
            _ => {
                if let Some(xid) = self.owned_by(session) {
                    self.add(&xid)?;
                }
            }
        }
        Ok(())
    }

    /// Notes that what the session has called for was carried out, or may have been. The call isn't open any more.
    fn carried_out(&mut self, session: SessionNo) -> Result<(), NoMemory> {
        let called = match self.called.get_mut(session.get() as usize) {
            None => None,
            Some(place) => place.take(),
        };
        let Some(request) = called else {
            return Ok(());
        };
        match request.request() {
            Request::Statement(statement) => self.act(session, statement),
            Request::Unread => Ok(()),
        }
    }
}
