//! What a server carried out.
ghost use Rattle.std.specs.Prelude.{◌≡◌, true};

use crate::shared_request::SharedRequest;
use std::alloc::AllocError;
use xa_xid::SessionNo;

/// A request that a server carried out.
#[derive(Drop)]
pub struct Done {
    /// The session whose request it is.
    pub session: SessionNo,
    /// The request.
    pub request: SharedRequest,
}

impl Clone for Done {
    ghost is_clone = { λ done copy. copy ≡ done };

    fn clone(&self) -> Result<Done, AllocError> {
        Ok(Done {
            session: self.session,
            request: self.request.try_clone()?,
        })
    }
}

impl Done {
    /// Tells whether both are known to be the same.
    pub fn is_same(&self, other: &Done) -> bool
        ensures { result ≡ true → self.now ≡ other.now }
    {
        self.session == other.session && self.request.is_same(&other.request)
    }
}
