//! Answering a session's statement when no other session uses the store.
ghost use Rattle.std.specs.Prelude.{◌≡◌, Err, IfOk, OnErr, map, length};
ghost use Rattle.xa_session.specs.declared.fault.Fault.TheVariants.{NoMemory as WantsMemory};
ghost use Rattle.xa_coordinator.specs.Watched.{Serves};

use crate::Watch;
use std::snapshot::Snapshot;
use xa_server::Server;
use xa_session::{Answer, Fault};
use xa_words::Entry;
use xa_xid::{SessionNo, Statement};

/// Answers a session's statement from the state that the history leaves. If it is logged, carries it out and
/// adds it to the history. Room for the entry is taken first, so that nothing fails once the server has changed.
/// After an answer `watch` says that the session has seen the whole history, and has looked once more. The answer's
/// place is how many entries the history had before the statement.
///
/// `server`: the state that `history` leaves. `watch`: what the session has seen. `session`: its number.
/// Errors: `NoMemory`, also after 2^64 - 1 looks of the session. Nothing has changed then.
pub(crate) fn serve(
    server: &mut Server,
    history: &mut Vec<Snapshot<Entry>>,
    watch: &mut Watch,
    session: SessionNo,
    statement: &Statement,
) -> Result<Answer, Fault>
    ensures ok { IfOk result
        (λ answer. Serves session statement.now answer server.old
        (map (λ one. one.value) history.old.items) watch.old server.new
        (map (λ one. one.value) history.new.items) watch.new) }
    ensures server { OnErr result (server.new ≡ server.old) }
    ensures history { OnErr result (map (λ one. one.value) history.new.items
        ≡ map (λ one. one.value) history.old.items) }
    ensures watch { OnErr result (watch.new ≡ watch.old) }
    ensures cause { OnErr result (result ≡ Err WantsMemory) }
{
    // The count of looks would overflow.
    if watch.looks == u64::MAX {
        return Err(Fault::NoMemory);
    }
    history.reserve(1)?;
    let place = history.len() as u64;
    let (reply, enters) = server.reply(session, statement)?;
    // The statement is logged. The server carries it out first: that can fail, and then nothing has changed. To add the
    // entry can't fail.
    if enters {
        server.accept(session, statement)?;
        let entry = Entry::entering(session, statement.copy());
        history.push_reserved(Snapshot::of(&entry));
    }
    watch.seen = history.len() as u64;
    watch.looks += 1;
    Ok(Answer { place, reply })
}
