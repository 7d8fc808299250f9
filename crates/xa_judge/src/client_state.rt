//! How far a session is.
ghost use Rattle.std.specs.Prelude.{◌≡◌, true};

use crate::shared_answer::SharedAnswer;
use crate::shared_request::SharedRequest;
use std::alloc::AllocError;

/// How far a session is.
#[derive(Debug, Drop)]
pub enum ClientState {
    /// It has no open call.
    Idle,
    /// It has called, and the request hasn't taken effect yet.
    Called(SharedRequest),
    /// Its request has taken effect, with this answer, and the call hasn't returned yet.
    Answered(SharedAnswer),
    /// Its client is gone. The request, if there is one, may still take effect, and its `DISCONNECT` after that or in
    /// place of it.
    Gone(Option<SharedRequest>),
    /// Its client is gone, and its `DISCONNECT` has taken effect.
    Left,
}

impl Clone for ClientState {
    ghost is_clone = { λ client copy. copy ≡ client };

    fn clone(&self) -> Result<ClientState, AllocError> {
        match self {
            ClientState::Idle => Ok(ClientState::Idle),
            ClientState::Called(request) => Ok(ClientState::Called(request.try_clone()?)),
            ClientState::Answered(answer) => Ok(ClientState::Answered(answer.try_clone()?)),
            ClientState::Gone(None) => Ok(ClientState::Gone(None)),
            ClientState::Gone(Some(request)) => Ok(ClientState::Gone(Some(request.try_clone()?))),
            ClientState::Left => Ok(ClientState::Left),
        }
    }
}

/// Whether two requests are known to be the same, or both are missing.
fn is_same_request(left: &Option<SharedRequest>, right: &Option<SharedRequest>) -> bool
    ensures { result ≡ true → left.now ≡ right.now }
{
    match left {
        None => right.is_none(),
        Some(request) => match right {
            None => false,
            Some(other) => request.is_same(other),
        },
    }
}

impl ClientState {
    /// Tells whether both are known to be the same.
    pub fn is_same(&self, other: &ClientState) -> bool
        ensures { result ≡ true → self.now ≡ other.now }
    {
        match self {
            ClientState::Idle => matches!(other, ClientState::Idle),
            ClientState::Called(request) => match other {
                ClientState::Called(another) => request.is_same(another),
                _ => false,
            },
            ClientState::Answered(answer) => match other {
                ClientState::Answered(another) => answer.is_same(another),
                _ => false,
            },
            ClientState::Gone(request) => match other {
                ClientState::Gone(another) => is_same_request(request, another),
                _ => false,
            },
            ClientState::Left => matches!(other, ClientState::Left),
        }
    }
}
