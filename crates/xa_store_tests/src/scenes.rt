//! What two passes of a log show, and two sessions over it.
ghost use Rattle.std.specs.Prelude.{◌≡◌, All};

use crate::adders::add_all;
use crate::preparers::prepare_both;
use crate::sessions::{keeps_its_replica, play_all, stays_open};
use crate::trying::try_all;
use decision_log::DecisionLog;
use std::alloc::Global;
use std::process::Abort;
use std::sync::Wait;
use std::thread::Threads;

/// What a log's first two passes show, or sessions over them.
#[derive(Clone, Copy)]
pub(crate) enum Scene {
    /// A script of passes.
    Tries(&'static [u8]),
    /// Two threads add.
    Adds,
    /// A script of sessions, and the history that it leaves.
    Plays(&'static [u8], &'static [u8]),
    /// A replica is kept between statements.
    Keeps,
    /// A session that owns a branch can't disconnect in a full log.
    StaysOpen,
    /// Two threads prepare a branch each.
    Prepares,
}

/// An add that was overtaken succeeds when it is tried again, and then the log is full.
const IN_TURN: &[u8] = b"1 LOOK = 0
1 XA START 'a' = OK 1
2 XA START 'b' = OVERTAKEN 1
2 XA START 'b' = OK 2
1 LOOK = 2
1@1 2 XA START 'b'
1 XA END 'a' = FULL 2
";

/// A pass sees by looks and by meetings what the other one added.
const MEETS: &[u8] = b"1 XA START 'a' = OK 1
2 LOOK = 1
1 XA END 'a' = OK 2
1 MEET = 2
2 LENGTH = 2
1 LENGTH = 2
2@0 1 XA START 'a'
2@1 1 XA END 'a'
2 DEL 'k' = OK 3
1 MEET = 3
1 LENGTH = 2
2 LENGTH = 3
1 LOOK = 3
";

/// What is added after a look that another add has outdated is refused once.
const OUTDATED: &[u8] = b"1 PUT 'k','v' = OK 1
2 LOOK = 1
1 PUT 'k','w' = OK 2
2 DEL 'k' = OVERTAKEN 2
2 DEL 'k' = OK 3
2 LOOK = 3
";

/// A branch reads a row twice, and only the first read is logged. Then it writes the row that it shares.
const SHARED: Scene = Scene::Plays(
    b"1 XA START 'a' = 0 OK
1 GET 'k' = 1 NONE
1 GET 'k' = 2 NONE
1 PUT 'k','v' = 2 OK
1 GET 'k' = 3 VALUE 0x76
",
    b"1 XA START 'a'
1 GET 'k'
1 PUT 'k','v'
",
);

/// A prepared branch keeps the row that it shares.
const PREPARED: Scene = Scene::Plays(
    b"1 XA START 'a' = 0 OK
1 GET 'k' = 1 NONE
1 XA END 'a' = 2 OK
1 XA PREPARE 'a' = 3 OK
2 XA START 'b' = 4 OK
2 GET 'k' = 5 NONE
2 PUT 'k','x' = 6 ERROR 3572 (HY000): row locked by another branch
",
    b"1 XA START 'a'
1 GET 'k'
1 XA END 'a'
1 XA PREPARE 'a'
2 XA START 'b'
2 GET 'k'
",
);

/// Each scene, with how many entries the log has room for.
pub(crate) const SCENES: [(u64, Scene); 9] = [
    (2, Scene::Tries(IN_TURN)),
    (3, Scene::Tries(MEETS)),
    (8, Scene::Tries(OUTDATED)),
    (16, Scene::Adds),
    (8, SHARED),
    (8, PREPARED),
    (8, Scene::Keeps),
    (2, Scene::StaysOpen),
    (8, Scene::Prepares),
];

/// Takes the last pass out of a list of passes of a log. Only the contract names the log.
fn last_pass<L: DecisionLog>(rt: &impl Abort, log: &L, passes: &mut Vec<L::Pass>) -> L::Pass
    requires { All (λ pass. L.belongs_to pass ≡ L.identity log.now) passes.old.items }
    ensures own { L.belongs_to result ≡ L.identity log.now }
    ensures others { All (λ pass. L.belongs_to pass ≡ L.identity log.now) passes.new.items }
{
    let _log = log;
    let Some(pass) = passes.pop() else {
        panic!(rt; "no pass is left")
    };
    pass
}

impl Scene {
    /// Shows the scene by the last two passes of a list.
    pub(crate) fn show<L: DecisionLog + Sync, R: Abort + Threads + Wait + Sync>(
        self,
        rt: &R,
        alloc: Global,
        log: &L,
        mut passes: Vec<L::Pass>,
    )
    where
        L::Pass: Send + Drop,
        requires { All (λ pass. L.belongs_to pass ≡ L.identity log.now) passes.items }
    {
        let second = last_pass(rt, log, &mut passes);
        let first = last_pass(rt, log, &mut passes);
        self.show_by_passes(rt, alloc, log, first, second);
    }

    /// Shows the scene by two passes.
    fn show_by_passes<L: DecisionLog + Sync, R: Abort + Threads + Wait + Sync>(
        self,
        rt: &R,
        alloc: Global,
        log: &L,
        first: L::Pass,
        second: L::Pass,
    )
    where
        L::Pass: Send + Drop,
        requires first { L.belongs_to first ≡ L.identity log.now }
        requires second { L.belongs_to second ≡ L.identity log.now }
    {
        match self {
            Scene::Tries(script) => try_all(rt, alloc, log, first, second, script),
            Scene::Adds => add_all(rt, log, first, second),
            Scene::Plays(script, history) => {
                play_all(rt, alloc, log, first, second, script, history)
            }
            Scene::Keeps => keeps_its_replica(rt, alloc, log, first, second),
            Scene::StaysOpen => stays_open(rt, alloc, log, first, second),
            Scene::Prepares => prepare_both(rt, alloc, log, first, second),
        }
    }
}
