//! The call that hands the history out to C.
ghost use Rattle.std.specs.Prelude.{◌≡◌, Option, Some, None};
ghost use Rattle.nigbaru_c.specs.{Following.{status_of_next, Shows, Follows}, Holds.{session_in, session_of}};
ghost use Rattle.xa_endless.specs.declared.following.Next.{Next as NextOf, TheVariants.Entry as IsEntry};

use crate::spelling::spell;
use crate::telling::copy_front;
use crate::{Chair, Handed, Handle, Hold, status};
use std::alloc::Global;
use xa_endless::Next;
use xa_words::Entry;

impl Handed {
    /// What C gets without an entry: how many entries are lost, and 0 as the session's number and the text's length.
    fn none(lost: u64) -> Handed
        ensures { (result.number ≡ 0) × (result.length ≡ 0) × (result.lost ≡ lost) }
    {
        Handed {
            number: 0,
            length: 0,
            lost,
            text: [0; 304],
        }
    }

    /// What C gets with an entry.
    #[tactic(auto, using(crate::proofs::Texts::some_text))]
    fn of_entry(entry: &Entry) -> Handed
        ensures { Shows (Some (IsEntry entry.now)) result }
    {
        let spelled = spell(entry.statement());
        // No canonical text has more than 304 bytes, so all of it is copied.
        let mut text = [0; 304];
        copy_front(&mut text, spelled.as_slice());
        Handed {
            number: entry.session().get(),
            length: spelled.len() as u64,
            lost: 0,
            text,
        }
    }

    /// What C gets: the next entry, how many are lost, or neither, at the end or if no session is held.
    fn of(next: &Option<Next>) -> Handed
        ensures { Shows next.now result }
    {
        match next {
            Some(Next::Entry(entry)) => Handed::of_entry(entry),
            Some(Next::Lost(count)) => Handed::none(*count),
            Some(Next::End) | None => Handed::none(0),
        }
    }
}

/// The status of what comes next; `next` is None if no session is held.
fn number_of(next: &Option<Next>) -> u32
    ensures { result ≡ status_of_next next.now }
{
    match next {
        Some(Next::Entry(_)) => status::OK,
        Some(Next::Lost(_)) => status::BEHIND,
        Some(Next::End) => status::NONE,
        None => status::NO_HANDLE,
    }
}

impl Chair {
    /// What comes next in the history, or `None` if no session is held.
    fn next(&mut self) -> Option<Next>
        ensures follows { Follows result (session_in self.old.hold) (session_in self.new.hold) }
        ensures same { session_in self.old.hold ≡ None → self.new.hold ≡ self.old.hold }
    {
        match &mut self.hold {
            Some(Hold::Session(session)) => Some(session.next_entry()),
            _ => None,
        }
    }
}

/// What comes next in the history, or `None` if the handle holds no session.
fn next(alloc: Global, session: &mut Handle) -> Option<Next>
    ensures follows { Follows result (session_of session.old.held) (session_of session.new.held) }
    ensures same { session_of session.old.held ≡ None → session.new.held ≡ session.old.held }
{
    match session.empty(alloc) {
        // The handle gets its box back, whatever comes next.
        Some(mut chair) => {
            let next = chair.next();
            session.fill(chair);
            next
        }
        None => None,
    }
}

/// Hands out the next entry of the history. See `nigbaru_follow` of `include/nigbaru.h`.
///
/// `session`: a handle with a session. `entry`: gets the entry, or how many entries are lost. Returns `OK` with an
/// entry, `NONE` at the end of the history, `BEHIND` if entries are lost, or `NO_HANDLE` if no session is held.
/// Takes no memory. Doesn't wait.
/// Own rule: docs/EMBEDDING.md#the-history.
#[unsafe(no_mangle)]
pub extern "C" fn nigbaru_raw_follow(alloc: Global, session: &mut Handle, entry: &mut Handed) -> u32
    // Proved (c, follow): C gets each entry of the history once and in order, with its session's number and its
    //   statement's canonical text, or is told how many are counted as lost. Entries are counted as lost only if the
    //   history has, from the first of them on, at least as many as the ring has slots. `NONE` is returned only at the
    //   end of what the session has seen, after a look. A handle without a session stays as it is.
    ensures next { (next : Option NextOf) × (result ≡ status_of_next next) × Shows next entry.new
        × Follows next (session_of session.old.held) (session_of session.new.held) }
    // Proved (c, follow)
    ensures same { session_of session.old.held ≡ None → session.new.held ≡ session.old.held }
{
    let next = next(alloc, session);
    *entry = Handed::of(&next);
    number_of(&next)
}
