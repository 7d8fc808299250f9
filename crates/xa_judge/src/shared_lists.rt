//! Lists of identifiers that configurations share.
ghost use Rattle.std.specs.Prelude.{◌≡◌, IfOk};

use crate::answer::Answer;
use crate::fingerprints::{mark_of_xid, mark_of_xids};
use crate::same::is_same_xid;
use crate::shared_answer::SharedAnswer;
use std::alloc::Global;
use std::collections::BTreeMap;
use xa_server::{Reply, SharedXid};
use xa_xid::{NoMemory, Xid};

/// Replies of `XA RECOVER` that several configurations own, and identifiers that these lists own. Of each
/// fingerprint the newest is kept.
#[derive(Drop)]
pub struct SharedLists {
    /// The newest list of each fingerprint.
    newest: BTreeMap<u64, SharedAnswer>,
    /// The newest identifier of each fingerprint.
    xids: BTreeMap<u64, SharedXid>,
    alloc: Global,
}

impl SharedLists {
    /// Returns an empty collection.
    pub fn new(alloc: Global) -> SharedLists {
        SharedLists {
            newest: BTreeMap::new(alloc),
            xids: BTreeMap::new(alloc),
            alloc,
        }
    }

    /// Forgets all lists and identifiers. Who owns one keeps it.
    pub fn clear(&mut self) {
        self.newest.clear();
        self.xids.clear();
    }

    /// The identifier, to be shared: the one that is kept for its fingerprint, if it is the same; else a new one, which
    /// is kept from now on in place of that.
    fn with_xid(&mut self, xid: &Xid) -> Result<SharedXid, NoMemory>
        ensures { IfOk result (λ shared. shared ≡ xid.now) }
    {
        let fingerprint = mark_of_xid(xid);
        if let Some(one) = self.xids.get(&fingerprint)
            && is_same_xid(one.xid(), xid)
        {
            return one.try_clone();
        }
        let shared = SharedXid::of(self.alloc, xid)?;
        self.xids.insert(fingerprint, shared.try_clone()?)?;
        Ok(shared)
    }

    /// The identifiers, to be shared, in their order: each as `with_xid` gives it.
    fn with_xids(&mut self, xids: &[Xid]) -> Result<Vec<SharedXid>, NoMemory>
        ensures { IfOk result (λ names. names.items ≡ xids.now) }
    {
        let mut names = Vec::with_capacity(self.alloc, xids.len())?;
        for xid in xids {
            names.push(self.with_xid(xid)?)?;
        }
        Ok(names)
    }

    /// The list of these identifiers, to be shared: the one that is kept for its fingerprint, if it is the same; else a
    /// new one, which is kept from now on in place of that.
    fn with_list(&mut self, xids: &[Xid]) -> Result<SharedAnswer, NoMemory>
        ensures { IfOk result (λ shared. shared ≡ Answer.Reply (Reply.Recovered xids.now)) }
    {
        let fingerprint = mark_of_xids(xids);
        if let Some(one) = self.newest.get(&fingerprint)
            && one.is_list(xids)
        {
            return one.try_clone();
        }
        let names = self.with_xids(xids)?;
        let shared = SharedAnswer::of_list(self.alloc, names)?;
        self.newest.insert(fingerprint, shared.try_clone()?)?;
        Ok(shared)
    }

    /// Returns the answer, to be shared. For a list it is the one that is kept, if that is the same.
    ///
    /// May return `NoMemory`.
    pub fn with(&mut self, answer: Answer) -> Result<SharedAnswer, NoMemory>
        ensures { IfOk result (λ shared. shared ≡ answer) }
    {
        match answer {
            Answer::Reply(Reply::Recovered(xids)) => self.with_list(xids.as_slice()),
            other => SharedAnswer::of(self.alloc, other),
        }
    }
}
