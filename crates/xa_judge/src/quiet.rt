//! Requests that change nothing, and open calls for such a request that can take effect at once.
ghost use Rattle.std.specs.Prelude.{◌≡◌, true, List, Some, slice_get, IfOk};
ghost use Rattle.xa_server.specs.{declared.association.Association.TheVariants.Free, State.association_of};
ghost use Rattle.xa_judge.specs.Foreseen.{Hint, hint_of, refuses, is_still, AreAlike, CanSettle, IsQuiet, IsQuietFor};
ghost use Rattle.xa_judge.specs.{Explained.Config, Found.config_of};

use crate::answer::Answer;
use crate::client_state::ClientState;
use crate::configuration::Configuration;
use crate::event::Seen;
use crate::kept_server::KeptServer;
use crate::moves::Act;
use crate::request::Request;
use crate::shared_lists::SharedLists;
use crate::shared_request::SharedRequest;
use xa_server::{BranchState, Reply, XaError};
use xa_xid::{Bytes, NoMemory, SessionNo, Statement, Xid};

/// Whether the answer to XA END says that the session has no branch.
fn says_none(answer: &Answer) -> bool
    ensures { result ≡ true → answer.now ≡ Answer.Reply (Reply.Refused (XaError.Rmfail BranchState.NonExisting)) }
{
    match answer {
        Answer::Reply(Reply::Refused(XaError::Rmfail(BranchState::NonExisting))) => true,
        _ => false,
    }
}

/// Whether the session is known to have no branch open.
fn is_outside(server: &KeptServer, session: SessionNo) -> Result<bool, NoMemory>
    ensures { IfOk result (λ outside. outside ≡ true → association_of server.now session ≡ Free) }
{
    // XA END is refused as `says_none` says exactly if the session has no branch open. So any identifier does, also an
    // empty one.
    let nobody = Xid {
        format_id: 1,
        gtrid: Bytes::new(),
        bqual: Bytes::new(),
    };
    let request = Request::Statement(Statement::End(nobody));
    let answer = server.answer(session, &request)?;
    Ok(says_none(&answer))
}

/// Whether the request lists branches, or is a `GET` or `DISCONNECT` of a session known to have no branch open. Then
/// it changes nothing, now and at any time before the session does something else.
fn is_quiet(server: &KeptServer, session: SessionNo, request: &Request) -> Result<bool, NoMemory>
    ensures { IfOk result (λ quiet. quiet ≡ true → IsQuiet server.now session request.now) }
{
    match request {
        Request::Statement(Statement::Recover { .. }) => Ok(true),
        Request::Statement(Statement::Get(_)) => is_outside(server, session),
        Request::Statement(Statement::Disconnect) => is_outside(server, session),
        _ => Ok(false),
    }
}

/// Whether the request is known to change nothing whenever the call's return, `seen`, shows its answer: the return
/// shows a refusal, or `is_quiet` holds.
fn is_quiet_for(
    server: &KeptServer,
    session: SessionNo,
    request: &Request,
    seen: &Seen,
) -> Result<bool, NoMemory>
    ensures { IfOk result (λ quiet. quiet ≡ true → IsQuietFor server.now session request.now seen.now) }
{
    match seen {
        Seen::Ok => is_quiet(server, session, request),
        Seen::Value(_) => is_quiet(server, session, request),
        Seen::Rows(_) => is_quiet(server, session, request),
        Seen::Error(_) => Ok(true),
    }
}

/// Whether the request, which the session has called for, is known to change nothing (`is_quiet_for`), and would now be
/// answered what the call returns, `seen`.
fn can_settle_request(
    one: &Configuration,
    session: SessionNo,
    request: &SharedRequest,
    seen: &Seen,
) -> Result<bool, NoMemory>
    requires { slice_get one.now.clients.items session ≡ Some (ClientState.Called request.now) }
    ensures { IfOk result (λ can. can ≡ true → CanSettle (config_of one.now) session seen.now) }
{
    let answer = one.server.answer(session, request.request())?;
    if !seen.shows(&answer) {
        return Ok(false);
    }
    let quiet = is_quiet_for(&one.server, session, request.request(), seen)?;
    Ok(quiet)
}

/// Whether the session's call, which returns `seen`, is open and can take effect at once: it is known to change
/// nothing, and would now be answered what it returns.
fn can_settle(one: &Configuration, session: SessionNo, seen: &Seen) -> Result<bool, NoMemory>
    ensures { IfOk result (λ can. can ≡ true → CanSettle (config_of one.now) session seen.now) }
{
    match one.client(session) {
        None => Ok(false),
        Some(ClientState::Idle) => Ok(false),
        Some(ClientState::Called(request)) => can_settle_request(one, session, request, seen),
        Some(ClientState::Answered(_)) => Ok(false),
        Some(ClientState::Gone(_)) => Ok(false),
        Some(ClientState::Left) => Ok(false),
    }
}

/// Returns the configuration after the session's call, which returns `seen`, has taken effect, if it can at once: it
/// is known to change nothing, and would now be answered what it returns. Else the same configuration. `lists` has the
/// replies of `XA RECOVER` that configurations share.
///
/// May return `NoMemory`.
pub fn settled_one(
    one: Configuration,
    session: SessionNo,
    seen: &Seen,
    lists: &mut SharedLists,
) -> Result<Configuration, NoMemory>
    ensures { IfOk result (λ new. (hints : List Hint) (run : Config)
        → hint_of hints session ≡ Some seen.now
        → AreAlike hints run (config_of one)
        → AreAlike hints run (config_of new)) }
{
    if !can_settle(&one, session, seen)? {
        return Ok(one);
    }
    match one.effected(session, Act::Statement, lists)? {
        // Never None: `can_settle` saw that the session's call is open.
        None => Ok(one),
        Some(next) => Ok(next),
    }
}

/// Whether the answer says that nothing was done: it is a refusal, or error 1064 for a text that isn't a statement.
fn is_refusal(answer: &Answer) -> bool
    ensures { result ≡ refuses answer.now }
{
    match answer {
        Answer::Reply(Reply::Ok) => false,
        Answer::Reply(Reply::Value(_)) => false,
        Answer::Reply(Reply::Recovered(_)) => false,
        Answer::Reply(Reply::Refused(_)) => true,
        Answer::Unread => true,
    }
}

/// Whether the request, if it took effect now, would be answered that nothing was done (`is_refusal`).
fn is_refused_now(
    server: &KeptServer,
    session: SessionNo,
    request: &Request,
) -> Result<bool, NoMemory>
    ensures { IfOk result (λ refused. refused ≡ true → is_still server.now session request.now ≡ true) }
{
    let answer = server.answer(session, request)?;
    Ok(is_refusal(&answer))
}

/// Whether the request lists branches, or is a `GET` or `DISCONNECT` of a session known to have no branch open.
/// `is_quiet` has the same body: its clause says which requests these are, and this one that they change nothing now.
fn is_read_outside(
    server: &KeptServer,
    session: SessionNo,
    request: &Request,
) -> Result<bool, NoMemory>
    ensures { IfOk result (λ reads. reads ≡ true → is_still server.now session request.now ≡ true) }
{
    match request {
        Request::Statement(Statement::Recover { .. }) => Ok(true),
        Request::Statement(Statement::Get(_)) => is_outside(server, session),
        Request::Statement(Statement::Disconnect) => is_outside(server, session),
        _ => Ok(false),
    }
}

/// Returns whether the request is known to change nothing, if it takes effect now: it lists branches, reads or leaves
/// outside of a branch (`is_read_outside`), or is refused.
///
/// May return `NoMemory`.
pub fn is_still_now(
    server: &KeptServer,
    session: SessionNo,
    request: &Request,
) -> Result<bool, NoMemory>
    ensures { IfOk result (λ still. still ≡ true → is_still server.now session request.now ≡ true) }
{
    if is_read_outside(server, session, request)? {
        return Ok(true);
    }
    is_refused_now(server, session, request)
}
