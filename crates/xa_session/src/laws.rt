//! Laws of runs in time: contracts over definitions only.
ghost use Rattle.std.specs.Prelude.{◌≡◌, ◌<◌, ℕ, List, [], ◌∷◌, None, length, true, false};
ghost use Rattle.xa_xid.specs.declared.statement.Statement.{Statement};
ghost use Rattle.xa_server.specs.{State.State, declared.reply.Reply.Reply, Replies.reply_to, Step.{after, enters}};
ghost use Rattle.decision_log.specs.Machine.{IsState, Look, Add};
ghost use Rattle.xa_session.specs.{Replay.state_after, Answer.entry_of, Met.answer_now};
ghost use Rattle.xa_session.specs.{Timed.{Moment, Call, Return, Log, Stage, Passes}, Loose.LooselyPasses};
ghost use Rattle.xa_session.specs.Linear.{Call as Calls, Return as Returns, Fail as Fails, Sight, IsLinearized, sights};

/// States that every run of the log machine whose calls end as the session theorem says is linearizable.
///
/// Any number of sessions call; calls may be open at the end. Takes no memory. Doesn't wait.
/// Own rule: docs/PROOF.md#from-one-call-to-linearizability.
pub fn calls_are_linearizable()
    // Proved (sessions, linearizable): A run of the log machine is linearizable if its sessions append only their
    //   calls' own entries, once each, and its calls end as the session theorem says. Each call takes effect at one
    //   instant between its call and its return.
    ensures { (base : State) (moments : List Moment) (old new : Stage)
        → IsState old.machine
        → ((session : ℕ) → old.calls session ≡ None)
        → Passes base moments old new
        → IsLinearized (state_after base old.machine.history) (sights moments) }
{}

/// States that a session without a call can be answered at any stage.
///
/// So the premises of `calls_are_linearizable` can be met: a statement that isn't logged is answered after a look, and
/// one that is after a look and an append, if there is room. Takes no memory. Doesn't wait.
/// Own rule: docs/PROOF.md#from-one-call-to-linearizability.
pub fn calls_can_be_answered()
    // Proved (sessions, linearizable)
    ensures outside { (base : State) (stage : Stage) (session : ℕ) (statement : Statement)
        → IsState stage.machine
        → stage.calls session ≡ None
        → enters (state_after base stage.machine.history) session statement ≡ false
        → (new : Stage) × Passes base
        (Call session statement ∷ Log (Look session)
        ∷ Return session (answer_now base stage.machine.history session statement) ∷ []) stage new }
    // Proved (sessions, linearizable)
    ensures entered { (base : State) (stage : Stage) (session : ℕ) (statement : Statement)
        → IsState stage.machine
        → stage.calls session ≡ None
        → enters (state_after base stage.machine.history) session statement ≡ true
        → length stage.machine.history < stage.machine.capacity
        → (new : Stage) × Passes base
        (Call session statement ∷ Log (Look session) ∷ Log (Add session (entry_of session statement))
        ∷ Return session (answer_now base stage.machine.history session statement) ∷ []) stage new }
{}

/// States that if all calls are over at the end of a run, each has appended at most its own entry, once.
///
/// Of the appends it is only taken that their sessions have calls then. Takes no memory. Doesn't wait.
/// Own rule: docs/PROOF.md#from-one-call-to-linearizability.
pub fn finished_calls_append_their_own()
    // Proved (sessions, linearizable)
    ensures { (base : State) (moments : List Moment) (old new : Stage)
        → ((session : ℕ) → old.calls session ≡ None)
        → ((session : ℕ) → new.calls session ≡ None)
        → LooselyPasses base moments old new
        → Passes base moments old new }
{}

/// States what linearizable means of a call beside which there is no other.
///
/// It has the server's reply in the state before it, and what follows is linearizable from the state after it: it takes
/// effect once, not before it is called, and not after it has returned. A call that ends in a fault takes no effect.
/// Takes no memory. Doesn't wait.
/// Own rule: docs/PROOF.md#from-one-call-to-linearizability.
pub fn lone_calls_are_sequential()
    // Proved (sessions, lone-calls): In what is linearizable, a call beside which there is no other has the server's
    //   reply, and takes effect once, between its call and its return; one that ends in a fault takes none.
    ensures returned { (base : State) (session : ℕ) (statement : Statement) (reply : Reply) (rest : List Sight)
        → IsLinearized base (Calls session statement ∷ Returns session reply ∷ rest)
        → (reply ≡ reply_to base session statement) × IsLinearized (after base session statement) rest }
    // Proved (sessions, lone-calls)
    ensures failed { (base : State) (session : ℕ) (statement : Statement) (rest : List Sight)
        → IsLinearized base (Calls session statement ∷ Fails session ∷ rest)
        → IsLinearized base rest }
{}
