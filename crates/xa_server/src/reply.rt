//! The replies to statements.
ghost use Rattle.std.specs.Prelude.{◌≡◌, ◌≢◌, true, [], IfOk, OnErr};

use crate::XaError;
use std::marker::Model;
use xa_xid::{Bytes, NoMemory, Xid, copy_of};

/// The reply to a statement.
#[derive(Debug, Drop)]
pub enum Reply {
    /// The statement was carried out.
    Ok,
    /// The value of a row, or `None` if it has none.
    Value(Option<Bytes>),
    /// The identifiers of the prepared branches, ascending.
    Recovered(XidList),
    /// The statement was refused, and nothing changed.
    Refused(XaError),
}

impl Reply {
    ghost use Rattle.xa_server.specs.Step.{is_refused as is_refused_reply, is_list as is_list_reply};

    /// Copies the reply.
    ///
    /// May return `NoMemory`, only for a list of identifiers. Doesn't wait.
    pub fn copy(&self) -> Result<Reply, NoMemory>
        ensures same { IfOk result (λ copy. copy ≡ self.now) }
        // Proved (server, memory-for-lists)
        ensures memory { OnErr result (is_list_reply self.now ≡ true) }
    {
        Ok(match self {
            Reply::Ok => Reply::Ok,
            Reply::Value(None) => Reply::Value(None),
            Reply::Value(Some(value)) => Reply::Value(Some(copy_of(value))),
            Reply::Recovered(xids) => Reply::Recovered(xids.copy()?),
            Reply::Refused(error) => Reply::Refused(*error),
        })
    }

    /// Returns whether the statement was refused.
    ///
    /// Takes no memory. Doesn't wait.
    pub fn is_refused(&self) -> bool
        ensures { result ≡ is_refused_reply self.now }
    {
        match self {
            Reply::Refused(_) => true,
            Reply::Ok => false,
            Reply::Value(_) => false,
            Reply::Recovered(_) => false,
        }
    }
}

/// A list of identifiers. A contract sees it as that list.
#[derive(Debug, Drop)]
pub struct XidList {
    xids: Vec<Xid>,
}

impl Model for XidList {
    ghost use Rattle.std.specs.{Prelude.List, Coded.coded_list};
    ghost use Rattle.xa_xid.specs.{declared.xid.Xid.Xid, Xid.coded_xid};

    ghost Value = { List Xid };

    ghost coded = { coded_list coded_xid };

    ghost view = { λ list. list.xids.items };
}

impl XidList {
    /// Makes a list of these identifiers.
    ///
    /// Takes no memory. Doesn't wait.
    pub fn of(xids: Vec<Xid>) -> XidList
        // Proved (server, lists-are-whole): A list of identifiers returns all identifiers that it was made
        //   of, in order.
        ensures { result ≡ xids.items }
    {
        XidList { xids }
    }

    /// Copies the list.
    ///
    /// May return `NoMemory`, only for a list that isn't empty. Doesn't wait.
    pub fn copy(&self) -> Result<XidList, NoMemory>
        ensures same { IfOk result (λ copy. copy ≡ self.now) }
        // Proved (server, memory-for-lists)
        ensures memory { OnErr result (self.now ≢ []) }
    {
        // An empty list is copied without memory.
        if self.xids.is_empty() {
            return Ok(XidList {
                xids: Vec::new(*self.xids.allocator()),
            });
        }
        Ok(XidList {
            xids: self.xids.clone()?,
        })
    }

    /// Returns the identifiers, in order.
    ///
    /// Takes no memory. Doesn't wait.
    pub fn as_slice(&self) -> &[Xid]
        // Proved (server, lists-are-whole)
        ensures { result.now ≡ self.now }
    {
        self.xids.as_slice()
    }
}
