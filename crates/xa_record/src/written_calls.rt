//! Statements of calls are read back as they are written in an order. These functions do nothing. Their contracts
//! state that.
ghost use Rattle.std.specs.{Prelude.◌≢◌, List.All};
ghost use Rattle.xa_record.specs.Replaying.{IsFit, IsWrittenBack, IsWrittenCall};

use xa_judge::{Event, Request};
use xa_statement::laws::canonical_text_is_spelled;
use xa_xid::Statement;
use xa_xid::laws::is_writable;

/// The identifier in the statement, if one is, can be written: its gtrid and bqual have at most 64 bytes each, and its
/// formatID is below 2^64, as in every identifier.
fn is_fit(statement: &Statement)
    ensures { IsFit statement.now }
{
    match statement {
        Statement::Start(xid) => is_writable(xid),
        Statement::End(xid) => is_writable(xid),
        Statement::Prepare(xid) => is_writable(xid),
        Statement::Commit { xid, one_phase: _ } => is_writable(xid),
        Statement::Rollback(xid) => is_writable(xid),
        Statement::Recover { convert: _ } => {}
        Statement::Unsupported => {}
        Statement::Get(_) => {}
        Statement::Put(_, _) => {}
        Statement::Del(_) => {}
        Statement::Disconnect => {}
    }
}

/// The canonical form of the statement is read as that statement, and has no line feed.
#[tactic(auto, using(crate::proofs::Feeds::statement_feed))]
fn is_written_back(statement: &Statement)
    requires { statement.now ≢ Statement.Unsupported }
    ensures { IsWrittenBack statement.now }
{
    is_fit(statement);
    canonical_text_is_spelled(statement);
}

/// If the event calls for a statement that is supported, the canonical form of that is read as that statement, and has
/// no line feed.
fn is_written_call(event: &Event)
    ensures { IsWrittenCall event.now }
{
    match event {
        Event::Call(_, request) => match request.request() {
            Request::Statement(Statement::Unsupported) => {}
            Request::Statement(statement) => is_written_back(statement),
            Request::Unread => {}
        },
        Event::Return(_, _) => {}
        Event::Lost(_) => {}
        Event::Unknown(_) => {}
    }
}

/// States of each event: if it calls for a statement that is supported, the canonical form of that is read as that
/// statement, and has no line feed.
pub fn are_written_calls(events: &[Event])
    ensures { All IsWrittenCall events.now }
{
    for event in events {
        is_written_call(event);
    }
}
