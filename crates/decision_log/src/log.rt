//! The promises of a log to a session, however the log is kept.
ghost use Rattle.std.specs.Prelude.{◌≡◌, ◌<◌, ◌≤◌, Bool, length, slice_get, Some};
ghost use Rattle.decision_log.specs.{History.entries_of, Known.{LogIdentity, AllOf}, Opens.{IsCapacity, IsCount}};
ghost use Rattle.decision_log.specs.{Calls.{Looked, Adds, MeetsFirst, MeetsSecond}, declared.known.Known.Known};

use crate::{AddFault, Known};
use xa_words::Entry;
use xa_xid::SessionNo;

/// A history of entries that several sessions share, each by a pass of its own.
///
/// A contract sees what a pass has seen of the history (`seen`, a prefix of it), the history's entries of
/// the pass's own number (`mine`), and how often the pass has looked and tried (`looks`, `tries`, `since`).
/// Each call with a pass requires that the pass came from this log's `open`, `belongs_to pass ≡ identity log`,
/// and keeps that.
///
/// No call takes memory, and none waits.
/// Own rule: docs/INTERNALS.md#what-a-log-promises.
pub trait DecisionLog {
    /// A session's handle on the log.
    type Pass;

    /// Whether `try_add` can return `Busy`, because another pass has the turn.
    const TURNS: bool;

    ghost TURNS: { Bool };

    // which log it is
    ghost identity: { Self → LogIdentity };

    // of which log a pass is
    ghost belongs_to: { Self.Pass → LogIdentity };

    // what a pass knows
    ghost known: { Self.Pass → Known };

    /// Returns how many entries the log can have, in `[1, 1024]`.
    ///
    /// Takes no memory. Doesn't wait.
    fn capacity(&self) -> u64
        ensures value { result ≡ (identity self.now).capacity }
        ensures range { IsCapacity result };

    /// Returns how many sessions the log has, in `[1, 16]`.
    ///
    /// Takes no memory. Doesn't wait.
    fn sessions(&self) -> u64
        ensures value { result ≡ (identity self.now).sessions }
        ensures range { IsCount result };

    /// Returns the pass's session number.
    ///
    /// Takes no memory. Doesn't wait.
    fn number(&self, pass: &Self::Pass) -> SessionNo
        requires { belongs_to pass.now ≡ identity self.now }
        // Proved (log, entry-by-place)
        ensures { result ≡ (known pass.now).number };

    /// Returns how many entries the pass has seen.
    ///
    /// Takes no memory. Doesn't wait.
    fn length(&self, pass: &Self::Pass) -> u64
        requires { belongs_to pass.now ≡ identity self.now }
        // Proved (log, entry-by-place)
        ensures { result ≡ length (known pass.now).seen };

    /// Sees the whole history, as it is at one step of the call, and returns its length.
    ///
    /// Takes no memory. Doesn't wait.
    fn look(&self, pass: &mut Self::Pass) -> u64
        requires { belongs_to pass.old ≡ identity self.now }
        ensures belongs { belongs_to pass.new ≡ belongs_to pass.old }
        // Proved (log, look): What a pass has seen after a look begins with what it had seen before, and
        //   the look is counted.
        ensures looked { Looked (known pass.old) (known pass.new) }
        // Proved (log, look)
        ensures length { result ≡ length (known pass.new).seen };

    /// Returns the entry at place `at`, in `[0, length)`.
    ///
    /// Takes no memory. Doesn't wait.
    fn entry(&self, pass: &mut Self::Pass, at: u64) -> Entry
        requires belongs { belongs_to pass.old ≡ identity self.now }
        requires seen { at < length (known pass.old).seen }
        ensures belongs { belongs_to pass.new ≡ belongs_to pass.old }
        // Proved (log, entry-by-place): You find an entry that a pass has seen by its place; this changes
        //   nothing that the pass has seen or counted. A pass also returns its number, and how many entries
        //   it has seen.
        ensures same { known pass.new ≡ known pass.old }
        // Proved (log, entry-by-place)
        ensures entry { slice_get (known pass.old).seen at ≡ Some result };

    /// Appends an entry of the pass's own session to the history, if the pass has seen all of it.
    ///
    /// Errors, in this order: `Full` if the pass has seen as many entries as the log can have. `Busy`, only
    /// in a log with `TURNS`, if another pass has the turn. `Overtaken` if the history had more entries
    /// than the pass had seen; the pass has then seen more. After an error the history has nothing of this
    /// call. Takes no memory. Doesn't wait.
    fn try_add(&self, pass: &mut Self::Pass, entry: &Entry) -> Result<(), AddFault>
        requires belongs { belongs_to pass.old ≡ identity self.now }
        requires own { entry.now.session ≡ (known pass.old).number }
        ensures belongs { belongs_to pass.new ≡ belongs_to pass.old }
        // Proved (log, append): An append succeeds only if the entry comes right after all that the pass
        //   had seen, once. `Overtaken` is returned only if the pass has seen more now, `Full` only if it
        //   has seen as much as the log can have, and `Busy` only in a log with turns, without a look.
        //   After each of these `mine` is unchanged.
        ensures added { Adds TURNS (identity self.now).capacity entry.now result (known pass.old) (known pass.new) };

    /// Lets two passes meet: the second has then seen all that the first has.
    ///
    /// Takes no memory. Doesn't wait.
    fn meet(&self, first: &mut Self::Pass, second: &mut Self::Pass)
        requires first { belongs_to first.old ≡ identity self.now }
        requires second { belongs_to second.old ≡ identity self.now }
        ensures belongs { (belongs_to first.new ≡ belongs_to first.old)
            × (belongs_to second.new ≡ belongs_to second.old) }
        // Proved (log, meet): After two passes meet, the second has seen all that the first has.
        ensures first { MeetsFirst (known first.old) (known first.new) }
        // Proved (log, meet)
        ensures second { MeetsSecond (known first.old) (known second.old) (known second.new) };

    // the entries of a pass's own number in what it has seen are its own
    // Proved (log, own-entries): In what a pass has seen, the entries of the pass's number are its own.
    ghost own_part: { (pass : Self.Pass) → entries_of (known pass).number (known pass).seen ≡ (known pass).mine };

    // all that it has seen is of the log's sessions
    // Proved (log, passes-in-range): A pass's number is one of its log's sessions, and all that it has seen
    //   is of these sessions. It has seen no more entries than the log can have.
    ghost among: { (pass : Self.Pass) → AllOf (belongs_to pass).sessions (known pass).seen };

    // its number is one of the log's sessions
    // Proved (log, passes-in-range)
    ghost numbered: { (pass : Self.Pass) → (1 ≤ (known pass).number)
        × ((known pass).number ≤ (belongs_to pass).sessions) };

    // it hasn't seen more than the log can have
    // Proved (log, passes-in-range)
    ghost within: { (pass : Self.Pass) → length (known pass).seen ≤ (belongs_to pass).capacity };
}
