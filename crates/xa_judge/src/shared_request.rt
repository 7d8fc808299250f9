//! A request with several owners.
ghost use Rattle.std.specs.Prelude.{◌≡◌, true, IfOk};

use crate::request::Request;
use std::alloc::Global;
use std::marker::Model;
use std::sync::Arc;
use xa_xid::NoMemory;

/// A request that several events and configurations own. A contract sees the request.
#[derive(Debug, Drop)]
pub struct SharedRequest {
    shared: Arc<Request>,
}

impl Model for SharedRequest {
    ghost use Rattle.xa_judge.specs.declared.request.Request.{Request as RequestSeen};

    ghost Value = { RequestSeen };

    ghost view = { λ request. request.shared.value };
}

impl SharedRequest {
    /// Returns a request with one owner.
    ///
    /// May return `NoMemory`. Doesn't wait.
    pub fn of(alloc: Global, request: Request) -> Result<SharedRequest, NoMemory>
        ensures { IfOk result (λ shared. shared ≡ request) }
    {
        Ok(SharedRequest {
            shared: Arc::new(alloc, request)?,
        })
    }

    /// Returns one more owner of the request, which isn't copied.
    ///
    /// Errors: `NoMemory` if there are too many owners to be counted. Takes no memory. Doesn't wait.
    pub fn try_clone(&self) -> Result<SharedRequest, NoMemory>
        ensures { IfOk result (λ shared. shared ≡ self.now) }
    {
        Ok(SharedRequest {
            shared: Arc::try_clone(&self.shared)?,
        })
    }

    /// Returns the request.
    ///
    /// Takes no memory. Doesn't wait.
    pub fn request(&self) -> &Request
        ensures { result.now ≡ self.now }
    {
        &self.shared
    }

    /// Tells whether both are known to be the same.
    ///
    /// Takes no memory. Doesn't wait.
    pub fn is_same(&self, other: &SharedRequest) -> bool
        ensures { result ≡ true → self.now ≡ other.now }
    {
        self.request().is_same(other.request())
    }
}
