//! Tells whether what two sessions have open has nothing to do with each other.
//!
//! In these functions `one` and `two` are statements of two sessions; `session` is the one of `two`.
ghost use Rattle.std.specs.{Prelude.{◌≡◌, ◌⊎◌, ◌&&◌, not, true, false, Some, None, List, ℕ, IfOk}, List.list_any};
ghost use Rattle.std.specs.{Ordering.eq_by_cmp, Option.option_copied};
ghost use Rattle.xa_xid.specs.{Xid.{same_xid, bytes_cmp}, declared.statement.Statement.Statement as StatementSeen};
ghost use Rattle.xa_server.specs.{State.association_of, Locks.lock_at, Replies.reply_to, Step.is_refused};
ghost use Rattle.xa_judge.specs.Apart.{named_by, key_of, Avoids, IsBeside, EndsIn, IsUnlisted, is_get as is_get_seen};
ghost use Rattle.xa_judge.specs.Apart.{barring, Spares, AreApart, open_statement as open_statement_in, is_gone};
ghost use Rattle.xa_judge.specs.{Apart.IsApartAt, Found.config_of};

use crate::client_state::ClientState;
use crate::configuration::Configuration;
use crate::request::Request;
use crate::same::is_same_xid;
use std::alloc::Global;
use xa_server::Server;
use xa_xid::{Key, NoMemory, SessionNo, Statement, Xid};

/// Whether the identifiers differ.
fn is_another(xid: &Xid, other: &Xid) -> bool
    ensures { result ≡ true → same_xid xid.now other.now ≡ false }
{
    !is_same_xid(xid, other)
}

/// Whether the statement doesn't name the branch.
fn avoids(statement: &Statement, xid: &Xid) -> bool
    ensures { result ≡ true → Avoids statement.now xid.now }
{
    match statement {
        Statement::Start(other) => is_another(xid, other),
        Statement::End(other) => is_another(xid, other),
        Statement::Prepare(other) => is_another(xid, other),
        Statement::Commit { xid: other, .. } => is_another(xid, other),
        Statement::Rollback(other) => is_another(xid, other),
        Statement::Recover { .. } => true,
        Statement::Unsupported => true,
        Statement::Get(_) => true,
        Statement::Put(_, _) => true,
        Statement::Del(_) => true,
        Statement::Disconnect => true,
    }
}

/// The branch that the statement names.
fn named_in(statement: &Statement) -> Option<&Xid>
    ensures { option_copied result ≡ named_by statement.now }
{
    match statement {
        Statement::Start(xid) => Some(xid),
        Statement::End(xid) => Some(xid),
        Statement::Prepare(xid) => Some(xid),
        Statement::Commit { xid, .. } => Some(xid),
        Statement::Rollback(xid) => Some(xid),
        Statement::Recover { .. } => None,
        Statement::Unsupported => None,
        Statement::Get(_) => None,
        Statement::Put(_, _) => None,
        Statement::Del(_) => None,
        Statement::Disconnect => None,
    }
}

/// The key of the row that the statement names.
fn key_in(statement: &Statement) -> Option<&Key>
    ensures { option_copied result ≡ key_of statement.now }
{
    match statement {
        Statement::Get(key) => Some(key),
        Statement::Put(key, _) => Some(key),
        Statement::Del(key) => Some(key),
        Statement::Start(_) => None,
        Statement::End(_) => None,
        Statement::Prepare(_) => None,
        Statement::Commit { .. } => None,
        Statement::Rollback(_) => None,
        Statement::Recover { .. } => None,
        Statement::Unsupported => None,
        Statement::Disconnect => None,
    }
}

/// Whether the statement is `GET`.
fn is_get(statement: &Statement) -> bool
    ensures { result ≡ is_get_seen statement.now }
{
    matches!(statement, Statement::Get(_))
}

/// Whether the statement is known to leave the list of PREPARED branches as it is.
fn is_unlisted(statement: &Statement) -> bool
    ensures { result ≡ true → IsUnlisted statement.now }
{
    match statement {
        Statement::Prepare(_) => false,
        // In one phase an IDLE branch is committed, which the list doesn't have.
        Statement::Commit { one_phase, .. } => *one_phase,
        // The branch may be PREPARED.
        Statement::Rollback(_) => false,
        Statement::Start(_) => true,
        Statement::End(_) => true,
        Statement::Recover { .. } => true,
        Statement::Unsupported => true,
        Statement::Get(_) => true,
        Statement::Put(_, _) => true,
        Statement::Del(_) => true,
        // It rolls back only the session's own branch, which isn't PREPARED.
        Statement::Disconnect => true,
    }
}

/// Whether the statement doesn't list branches.
fn lists_none(statement: &Statement) -> bool
    ensures { result ≡ true → (convert : _) → statement.now ≡ Statement.Recover convert → ⊥ }
{
    match statement {
        Statement::Recover { .. } => false,
        Statement::Start(_) => true,
        Statement::End(_) => true,
        Statement::Prepare(_) => true,
        Statement::Commit { .. } => true,
        Statement::Rollback(_) => true,
        Statement::Unsupported => true,
        Statement::Get(_) => true,
        Statement::Put(_, _) => true,
        Statement::Del(_) => true,
        Statement::Disconnect => true,
    }
}

/// Whether the session's statement would be refused.
fn is_refused_now(
    server: &Server,
    session: SessionNo,
    statement: &Statement,
) -> Result<bool, NoMemory>
    ensures { IfOk result (λ yes. yes ≡ is_refused (reply_to server.now session statement.now)) }
{
    let (reply, _) = server.reply(session, statement)?;
    Ok(reply.is_refused())
}

/// Whether the session hasn't the branch open.
fn is_beside(server: &Server, session: SessionNo, xid: &Xid) -> Result<bool, NoMemory>
    ensures { IfOk result (λ yes. yes ≡ true → IsBeside (association_of server.now session) xid.now) }
{
    // `XA END` is accepted exactly of the session's ACTIVE branch, and `XA PREPARE` of its IDLE one.
    let end = Statement::End(xid.copy());
    if !is_refused_now(server, session, &end)? {
        return Ok(false);
    }
    let prepare = Statement::Prepare(xid.copy());
    let yes = is_refused_now(server, session, &prepare)?;
    Ok(yes)
}

/// Whether `two` doesn't name the branch that `one` names, and its session hasn't that branch open.
fn spares_branch(
    server: &Server,
    one: &Statement,
    session: SessionNo,
    two: &Statement,
) -> Result<bool, NoMemory>
    ensures avoids { IfOk result (λ yes. yes ≡ true → (xid : _) → named_by one.now ≡ Some xid → Avoids two.now xid) }
    ensures beside { IfOk result (λ yes. yes ≡ true → (xid : _) → named_by one.now ≡ Some xid
        → IsBeside (association_of server.now session) xid) }
{
    match named_in(one) {
        None => Ok(true),
        Some(xid) => {
            if !avoids(two, xid) {
                return Ok(false);
            }
            let yes = is_beside(server, session, xid)?;
            Ok(yes)
        }
    }
}

/// Whether the row is one of these.
fn is_among(key: &Key, rows: &[Key]) -> bool
    ensures { result ≡ list_any (eq_by_cmp bytes_cmp key.now) rows.now }
{
    match rows {
        [] => false,
        [row, rest @ ..] => key.cmp(row).is_eq() || is_among(key, rest),
    }
}

/// Whether the row is one of these, unless both statements are `GET`.
fn meets(one: &Statement, two: &Statement, key: &Key, rows: &[Key]) -> bool
    ensures { result ≡ (not (is_get_seen one.now && is_get_seen two.now)
        && list_any (eq_by_cmp bytes_cmp key.now) rows.now) }
{
    !(is_get(one) && is_get(two)) && is_among(key, rows)
}

/// Whether `two` isn't about the row with this key; or `one`, too, only reads it.
fn spares_key(
    alloc: Global,
    server: &Server,
    one: &Statement,
    key: &Key,
    session: SessionNo,
    two: &Statement,
) -> Result<bool, NoMemory>
    ensures row { IfOk result (λ yes. yes ≡ true → (other : List ℕ) → key_of two.now ≡ Some other
        → (eq_by_cmp bytes_cmp key.now other ≡ false)
        ⊎ ((is_get_seen one.now ≡ true) × (is_get_seen two.now ≡ true))) }
    ensures unheld { IfOk result (λ yes. yes ≡ true → (xid : _)
        → EndsIn (association_of server.now session) two.now xid
        → barring one.now (lock_at server.now xid key.now) ≡ None) }
{
    let rows = server.keys_about(alloc, session, two)?;
    Ok(!meets(one, two, key, rows.as_slice()))
}

/// Whether `two` isn't about the row that `one` names; or both only read it.
fn spares_row(
    alloc: Global,
    server: &Server,
    one: &Statement,
    session: SessionNo,
    two: &Statement,
) -> Result<bool, NoMemory>
    ensures row { IfOk result (λ yes. yes ≡ true → (key other : List ℕ) → key_of one.now ≡ Some key
        → key_of two.now ≡ Some other
        → (eq_by_cmp bytes_cmp key other ≡ false)
        ⊎ ((is_get_seen one.now ≡ true) × (is_get_seen two.now ≡ true))) }
    ensures unheld { IfOk result (λ yes. yes ≡ true → (key : List ℕ) (xid : _) → key_of one.now ≡ Some key
        → EndsIn (association_of server.now session) two.now xid
        → barring one.now (lock_at server.now xid key) ≡ None) }
{
    match key_in(one) {
        None => Ok(true),
        Some(key) => {
            let yes = spares_key(alloc, server, one, key, session, two)?;
            Ok(yes)
        }
    }
}

/// Whether `two` leaves the list of PREPARED branches as it is, if `one` lists them.
fn keeps_list(one: &Statement, two: &Statement) -> bool
    ensures { result ≡ true → (convert : _) → one.now ≡ Statement.Recover convert → IsUnlisted two.now }
{
    lists_none(one) || is_unlisted(two)
}

/// Whether `two` has nothing to do with what `one` names.
fn spares(
    alloc: Global,
    server: &Server,
    one: &Statement,
    session: SessionNo,
    two: &Statement,
) -> Result<bool, NoMemory>
    ensures { IfOk result (λ yes. yes ≡ true → Spares server.now one.now session two.now) }
{
    if !keeps_list(one, two) {
        return Ok(false);
    }
    if !spares_branch(server, one, session, two)? {
        return Ok(false);
    }
    let yes = spares_row(alloc, server, one, session, two)?;
    Ok(yes)
}

/// Whether the statements of the sessions have nothing to do with each other.
fn are_apart(
    alloc: Global,
    server: &Server,
    first: SessionNo,
    one: &Statement,
    second: SessionNo,
    two: &Statement,
) -> Result<bool, NoMemory>
    ensures { IfOk result (λ yes. yes ≡ true → AreApart server.now first one.now second two.now) }
{
    if !spares(alloc, server, one, second, two)? {
        return Ok(false);
    }
    let yes = spares(alloc, server, two, first, one)?;
    Ok(yes)
}

/// Whether the statements of the sessions have nothing to do with each other. True too if the second one is missing.
fn is_apart_from(
    alloc: Global,
    server: &Server,
    first: SessionNo,
    one: &Statement,
    second: SessionNo,
    two: Option<&Statement>,
) -> Result<bool, NoMemory>
    ensures { IfOk result (λ yes. yes ≡ true → (y : StatementSeen) → option_copied two.entry ≡ Some y
        → AreApart server.now first one.now second y) }
{
    match two {
        None => Ok(true),
        Some(two) => {
            let yes = are_apart(alloc, server, first, one, second, two)?;
            Ok(yes)
        }
    }
}

/// Whether the statements of the sessions have nothing to do with each other. True too if one of them is missing.
fn are_both_apart(
    alloc: Global,
    server: &Server,
    first: SessionNo,
    one: Option<&Statement>,
    second: SessionNo,
    two: Option<&Statement>,
) -> Result<bool, NoMemory>
    ensures { IfOk result (λ yes. yes ≡ true → (x y : StatementSeen) → option_copied one.entry ≡ Some x
        → option_copied two.entry ≡ Some y → AreApart server.now first x second y) }
{
    match one {
        None => Ok(true),
        Some(one) => {
            let yes = is_apart_from(alloc, server, first, one, second, two)?;
            Ok(yes)
        }
    }
}

/// The statement that the client has called for, if that has taken no effect yet.
fn open_statement(client: Option<&ClientState>) -> Option<&Statement>
    ensures { option_copied result ≡ open_statement_in (option_copied client.entry) }
{
    let request = match client {
        None => return None,
        Some(ClientState::Idle) => return None,
        Some(ClientState::Called(request)) => request,
        Some(ClientState::Answered(_)) => return None,
        Some(ClientState::Gone(None)) => return None,
        Some(ClientState::Gone(Some(request))) => request,
        Some(ClientState::Left) => return None,
    };
    match request.request() {
        Request::Statement(statement) => Some(statement),
        Request::Unread => None,
    }
}

/// The statement, which is `DISCONNECT`, if the client is gone and its `DISCONNECT` has taken no effect yet.
fn leaving_of<'a>(client: Option<&ClientState>, leaving: &'a Statement) -> Option<&'a Statement>
    ensures { is_gone (option_copied client.entry) ≡ true → option_copied result ≡ Some leaving.now }
{
    match client {
        None => None,
        Some(ClientState::Idle) => None,
        Some(ClientState::Called(_)) => None,
        Some(ClientState::Answered(_)) => None,
        Some(ClientState::Gone(_)) => Some(leaving),
        Some(ClientState::Left) => None,
    }
}

/// Tells whether what `other` has open in the configuration `one`, whose server this is, is known to have nothing to do
/// with what `session` has open.
///
/// May return `NoMemory`.
pub fn is_apart(
    server: &Server,
    one: &Configuration,
    other: SessionNo,
    session: SessionNo,
) -> Result<bool, NoMemory>
    requires same { server.now ≡ one.now.server }
    ensures { IfOk result (λ yes. yes ≡ true → IsApartAt (config_of one.now) other session) }
{
    let alloc = one.server.alloc();
    let leaving = Statement::Disconnect;
    let first = one.client(other);
    let second = one.client(session);
    let theirs = open_statement(first);
    let own = open_statement(second);
    if !are_both_apart(alloc, server, other, theirs, session, own)? {
        return Ok(false);
    }
    // Two sessions' `DISCONNECT`s have nothing to do with each other.
    let their_leaving = leaving_of(first, &leaving);
    if !are_both_apart(alloc, server, other, their_leaving, session, own)? {
        return Ok(false);
    }
    let own_leaving = leaving_of(second, &leaving);
    let yes = are_both_apart(alloc, server, other, theirs, session, own_leaving)?;
    Ok(yes)
}
