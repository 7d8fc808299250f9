//! Statements of branches, which leave the committed values of rows as they are.
ghost use Rattle.std.specs.Prelude.{◌≡◌, true, false, IfOk, OnOk};
ghost use Rattle.xa_server.specs.{State.association_of, declared.association.Association.Association};
ghost use Rattle.xa_server.specs.declared.reply.Reply.{Reply};
ghost use Rattle.xa_record.specs.States.{leaves_rows as leaves_rows_by};

use xa_server::{BranchState, Reply, Server, XaError};
use xa_xid::{Bytes, NoMemory, SessionNo, Statement, Xid};

/// Whether this reply to an `XA END` says that its session has nothing open.
fn tells_free(reply: &Reply) -> bool
    ensures { reply.now ≡ Reply.Refused (XaError.Rmfail BranchState.NonExisting) → result ≡ true }
{
    match reply {
        Reply::Refused(XaError::Rmfail(BranchState::NonExisting)) => true,
        _ => false,
    }
}

/// True only if the session has a branch open. The reply to an `XA END` tells that, whatever its identifier: the reply
/// is asked for, and the statement isn't carried out.
#[tactic(auto, using(crate::proofs::RowsLeft::free_told))]
fn has_open(server: &Server, session: SessionNo) -> Result<bool, NoMemory>
    ensures { IfOk result (λ has. association_of server.now session ≡ Association.Free → has ≡ false) }
{
    let xid = Xid {
        format_id: 0,
        gtrid: Bytes::new(),
        bqual: Bytes::new(),
    };
    let statement = Statement::End(xid);
    let (reply, _enters) = server.reply(session, &statement)?;
    let free = tells_free(&reply);
    Ok(!free)
}

/// True only if the session's statement leaves the committed values of rows as they are: it is no commit, and if it
/// writes a row, the session has a branch open. Outside of a branch it would commit the row at once.
fn leaves_rows(server: &Server, session: SessionNo, statement: &Statement) -> Result<bool, NoMemory>
    ensures { IfOk result
        (λ leaves. leaves ≡ true → leaves_rows_by (association_of server.now session) statement.now ≡ true) }
{
    match statement {
        Statement::Commit { .. } => Ok(false),
        Statement::Put(_, _) => has_open(server, session),
        Statement::Del(_) => has_open(server, session),
        _ => Ok(true),
    }
}

/// Has the server carry out the session's statement, if that is known to leave the committed values of rows as they
/// are. Else does nothing.
///
/// May return `NoMemory`.
#[tactic(auto, using(crate::proofs::RowsLeft::rows_left))]
pub fn carry_out(
    server: &mut Server,
    session: SessionNo,
    statement: &Statement,
) -> Result<(), NoMemory>
    ensures { OnOk result (server.new.rows ≡ server.old.rows) }
{
    let leaves = leaves_rows(server, session, statement)?;
    if !leaves {
        return Ok(());
    }
    // A refused statement changes nothing, so its reply doesn't matter here.
    let _reply = server.apply(session, statement)?;
    Ok(())
}
