//! The server that a history leaves.
ghost use Rattle.std.specs.Prelude.{◌≡◌, IfOk};
ghost use Rattle.xa_session.specs.Replay.{state_after};

use crate::replica::Replica;
use decision_log::DecisionLog;
use xa_server::Server;
use xa_xid::NoMemory;

/// Makes the server that `base` becomes by all entries of the history that the pass has seen. `base` is
/// unchanged. No session has to be open.
///
/// Error: `NoMemory`; what the pass has seen is unchanged. Doesn't wait.
/// Own rule: docs/RATTLE.md#sessions.
pub fn replayed<L: DecisionLog>(
    log: &L,
    base: &Server,
    pass: &mut L::Pass,
) -> Result<Server, NoMemory>
    requires { L.belongs_to pass.old ≡ L.identity log.now }
    ensures belongs { L.belongs_to pass.new ≡ L.belongs_to pass.old }
    ensures same { L.known pass.new ≡ L.known pass.old }
    ensures state { IfOk result (λ server. server ≡ state_after base.now (L.known pass.old).seen) }
{
    // A replica begins as a copy of `base`, so `base` is unchanged.
    let mut replica = Replica::of(base)?;
    for at in 0..log.length(pass) {
        let entry = log.entry(pass, at);
        replica.replay(&entry)?;
    }
    let Replica { server, .. } = replica;
    Ok(server)
}
