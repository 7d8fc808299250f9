//! Gates that a run asks before each of its statements.
ghost use Rattle.std.specs.Prelude.{Bool, ℕ, IsTrue};

use xa_xid::SessionNo;

/// Decides before each statement of a race whether its run goes on or stops there.
///
/// All runs of a race ask the same gate, each from its own thread.
pub trait Gate {
    // the answers that the gate can give to a session at a line; a gate without this field can give both
    ghost may_answer: { Self → ℕ → ℕ → Bool → Type 0 } = { λ _ _ _ _. Unit {0} };

    /// Is given the number of runs that have a statement, before the first run starts. The default does
    /// nothing.
    fn announce(&self, _speakers: u64) {}

    /// Whether `session` may give its statement at `line`, counted from 0. `false` stops the run there.
    ///
    /// The result may differ from call to call. Only this is promised: it is one of those that `may_answer`
    /// allows.
    fn enter(&self, session: SessionNo, line: u64) -> bool
        // Proved (stores, gates-let-in): The built-in gates let every session in, so no race with them ends
        //   in `GateShut`.
        ensures { may_answer self.now session line result };
}

/// The gate that is always open: it stops no run and delays none.
#[derive(Clone, Copy, Debug, PartialEq, Eq)]
pub struct OpenGate;

// Proved (stores, gates-let-in)
impl Gate for OpenGate {
    ghost may_answer = { λ _ _ _ opened. IsTrue opened };

    fn enter(&self, _session: SessionNo, _line: u64) -> bool {
        true
    }
}
