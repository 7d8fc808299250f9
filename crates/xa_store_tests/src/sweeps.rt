//! Tests that pass whether or not one growth is refused somewhere in them: a server, and sessions over a log
//! with a turn and over a chain.

use crate::cases::split_case;
use crate::logs::{over_a_chain, over_a_turn};
use crate::player_lines::given_in;
use crate::replies::is_reply;
use crate::scenes::Scene;
use std::alloc::Global;
use std::process::Abort;
use xa_lines::split_line;
use xa_server::{Reply, Server};
use xa_xid::{SessionNo, Statement};

/// Nothing is logged in a full log, and what isn't logged is answered.
const FILLS: Scene = Scene::Plays(
    b"1 XA START 'a' = 0 OK
1 PUT 'k','v' = 1 OK
1 XA END 'a' = 2 OK
1 XA PREPARE 'a' = 3 OK
2 XA COMMIT 'a' = FULL
2 GET 'k' = 4 NONE
2 XA RECOVER = 4 ROWS 1|1 1 0 a
",
    b"1 XA START 'a'
1 PUT 'k','v'
1 XA END 'a'
1 XA PREPARE 'a'
",
);

/// Sessions read what others wrote, with no meeting between them.
const SEES: Scene = Scene::Plays(
    b"1 PUT 'k','v' = 0 OK
2 GET 'k' = 1 VALUE 0x76
1 PUT 'k','w' = 1 OK
2 DEL 'k' = 2 OK
1 GET 'k' = 3 NONE
",
    b"1 PUT 'k','v'
1 PUT 'k','w'
2 DEL 'k'
",
);

/// A session's next statement is answered after its own adds, though its replica may lack the last of them.
const LAGS: Scene = Scene::Plays(
    b"1 PUT 'k','v' = 0 OK
1 GET 'k' = 1 VALUE 0x76
1 XA START 'a' = 1 OK
1 XA START 'b' = 2 ERROR 1399 (XAE07): XAER_RMFAIL state ACTIVE
1 PUT 'm','w' = 2 OK
1 GET 'm' = 3 VALUE 0x77
1 XA END 'a' = 3 OK
1 GET 'm' = 4 ERROR 1399 (XAE07): XAER_RMFAIL state IDLE
1 XA PREPARE 'a' = 4 OK
1 XA RECOVER = 5 ROWS 1|1 1 0 a
1 XA COMMIT 'a' = 5 OK
1 GET 'm' = 6 VALUE 0x77
",
    b"1 PUT 'k','v'
1 XA START 'a'
1 PUT 'm','w'
1 XA END 'a'
1 XA PREPARE 'a'
1 XA COMMIT 'a'
",
);

#[test]
fn full_log_over_a_turn_survives(rt: HostRuntime) {
    over_a_turn(&rt, rt.alloc(), 4, FILLS);
}

#[test]
fn write_over_a_turn_survives(rt: HostRuntime) {
    over_a_turn(&rt, rt.alloc(), 8, SEES);
}

#[test]
fn lagging_session_over_a_turn_survives(rt: HostRuntime) {
    over_a_turn(&rt, rt.alloc(), 6, LAGS);
}

#[test]
fn full_log_over_a_chain_survives(rt: HostRuntime) {
    over_a_chain(&rt, rt.alloc(), 4, FILLS);
}

#[test]
fn write_over_a_chain_survives(rt: HostRuntime) {
    over_a_chain(&rt, rt.alloc(), 8, SEES);
}

#[test]
fn lagging_session_over_a_chain_survives(rt: HostRuntime) {
    over_a_chain(&rt, rt.alloc(), 6, LAGS);
}

/// Whether a failed allocation may keep a statement from being carried out: it keeps a branch, a row or a lock, or
/// makes a list.
fn may_want_memory(statement: &Statement) -> bool {
    matches!(
        statement,
        Statement::Start(_)
            | Statement::Put(_, _)
            | Statement::Del(_)
            | Statement::Get(_)
            | Statement::Recover { .. }
    )
}

/// What the server says that it would reply. It is asked again if there was no memory, which only `XA RECOVER` wants.
fn told(rt: &impl Abort, server: &Server, session: SessionNo, statement: &Statement) -> Reply {
    if let Ok((reply, _)) = server.reply(session, statement) {
        return reply;
    }
    assert!(rt; matches!(statement, Statement::Recover { .. }));
    let Ok((reply, _)) = server.reply(session, statement) else {
        panic!(rt; "refused twice")
    };
    reply
}

/// Has the server carry a statement out. If there was no memory, it would still reply what is wanted, and is
/// asked again.
fn applied(
    rt: &impl Abort,
    alloc: Global,
    server: &mut Server,
    session: SessionNo,
    statement: &Statement,
    wanted: &[u8],
) -> Reply {
    if let Ok(reply) = server.apply(session, statement) {
        return reply;
    }
    assert!(rt; may_want_memory(statement));
    let reply = told(rt, server, session, statement);
    assert!(rt; is_reply(alloc, None, statement, &reply, wanted));
    let Ok(reply) = server.apply(session, statement) else {
        panic!(rt; "refused twice")
    };
    reply
}

/// Whether a server says beforehand that it would reply what comes after `= ` in a line, and then replies it.
fn is_replied(rt: &impl Abort, alloc: Global, server: &mut Server, line: &[u8]) -> bool {
    let (given, wanted) = split_case(line);
    let Some((session, statement)) = given_in(given) else {
        return false;
    };
    let told = told(rt, server, session, &statement);
    let applied = applied(rt, alloc, server, session, &statement, wanted);
    is_reply(alloc, None, &statement, &told, wanted)
        && is_reply(alloc, None, &statement, &applied, wanted)
}

/// Gives the statements of a script in turn, each of which has its reply after `= `.
fn replies(rt: &impl Abort, alloc: Global, server: &mut Server, script: &[u8]) {
    let mut rest = script;
    while !rest.is_empty() {
        let (line, lines) = split_line(rest);
        assert!(rt; is_replied(rt, alloc, server, line), "{line:?}");
        rest = lines;
    }
}

/// Statements of three sessions.
const LINES: &[u8] = b"1 PUT 'k','old' = OK
1 XA START 'a' = OK
1 PUT 'k','new' = OK
1 XA END 'a' = OK
1 XA PREPARE 'a' = OK
2 PUT 'k','x' = ERROR 3572 (HY000): row locked by another branch
2 GET 'k' = VALUE 0x6f6c64
2 XA RECOVER = ROWS 1|1 1 0 a
3 XA COMMIT 'a' = OK
2 GET 'k' = VALUE 0x6e6577
2 GET 'none' = NONE
2 XA START 'b' = OK
2 GET 'm' = NONE
2 DEL 'k' = OK
1 DEL 'k' = ERROR 3572 (HY000): row locked by another branch
1 XA START 'b' = ERROR 1440 (XAE08): XAER_DUPID xid already exists
2 DISCONNECT = OK
1 PUT 'm','v' = OK
1 XA START 'a' = OK
1 DEL 'm' = OK
1 XA END 'a' = OK
1 XA COMMIT 'a' ONE PHASE = OK
1 XA RECOVER = ROWS 0
";

/// What the statements leave, asked of the server afterwards.
const LEFT: &[u8] = b"4 GET 'k' = VALUE 0x6e6577
4 GET 'm' = NONE
4 PUT 'm','y' = OK
4 XA START 'a' = OK
";

/// A copy of the server, made again if there was no memory.
fn copied(rt: &impl Abort, server: &Server) -> Server {
    if let Ok(copy) = server.copy() {
        return copy;
    }
    let Ok(copy) = server.copy() else {
        panic!(rt; "refused twice")
    };
    copy
}

/// A server is copied, and the copy, which is the same until then, and then the server are asked what is left.
#[test]
fn server_survives(rt: HostRuntime) {
    let alloc = rt.alloc();
    let mut server = Server::new(alloc);
    replies(&rt, alloc, &mut server, LINES);
    let mut copy = copied(&rt, &server);
    let was_same = server.is_same(&copy);
    replies(&rt, alloc, &mut copy, LEFT);
    let is_same = server.is_same(&copy);
    drop(copy);
    assert!(rt; was_same && !is_same);
    replies(&rt, alloc, &mut server, LEFT);
    drop(server);
}
