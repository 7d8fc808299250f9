//! Sessions of one log meet one of them, which has then seen all that any of them has.
ghost use Rattle.std.specs.{Prelude.{◌≡◌, ◌<◌, IfOk, vec_capacity}, List.{All, AllZip}};
ghost use Rattle.decision_log.specs.{History.{Begins, entries_of}, Calls.MeetsFirst};
ghost use Rattle.xa_store.specs.Gathered.{IsTakenIn, AddsNothing};

use decision_log::DecisionLog;
use std::alloc::Global;
use xa_session::Session;
use xa_words::Entry;
use xa_xid::NoMemory;

/// Each of the others meets the last, which has then seen what each of them has. If the last had seen all of that
/// before, it sees no more, and what it has seen has of each of the others exactly that session's own entries.
pub(crate) fn meet_each<L: DecisionLog>(others: &mut Vec<Session<'_, L>>, last: &mut Session<'_, L>)
    requires { All (λ session. L.belongs_to session.pass ≡ L.belongs_to last.old.pass) others.old.items }
    ensures others { AllZip
        (λ old new. (new.base.now ≡ old.base.now) × (L.belongs_to new.pass ≡ L.belongs_to old.pass)
        × MeetsFirst (L.known old.pass) (L.known new.pass))
        others.old.items others.new.items }
    ensures room { vec_capacity others.new ≡ vec_capacity others.old }
    ensures base { last.new.base.now ≡ last.old.base.now }
    ensures belongs { L.belongs_to last.new.pass ≡ L.belongs_to last.old.pass }
    ensures last { AddsNothing (L.known last.old.pass) (L.known last.new.pass) }
    ensures seen { All (λ session. Begins (L.known session.pass).seen (L.known last.new.pass).seen) others.new.items }
    ensures whole { All (λ session. Begins (L.known session.pass).seen (L.known last.old.pass).seen) others.old.items
        → ((L.known last.new.pass).seen ≡ (L.known last.old.pass).seen)
        × All (λ session. entries_of (L.known session.pass).number (L.known last.new.pass).seen
        ≡ (L.known session.pass).mine) others.new.items }
{
    for index in 0..others.len() {
        others[index].meet(last);
    }
}

/// The last looks, and the others meet it. Then it has seen what each of them has, and what it has seen has of each
/// session exactly that session's own entries.
///
/// They meet it twice. After the first round the last has seen the most. So the second round adds nothing to what it
/// has seen, and what is known of the others' entries is known of one and the same history.
pub(crate) fn meet_all<L: DecisionLog>(others: &mut Vec<Session<'_, L>>, last: &mut Session<'_, L>)
    requires { All (λ session. L.belongs_to session.pass ≡ L.belongs_to last.old.pass) others.old.items }
    ensures others { AllZip
        (λ old new. (new.base.now ≡ old.base.now) × (L.belongs_to new.pass ≡ L.belongs_to old.pass)
        × MeetsFirst (L.known old.pass) (L.known new.pass))
        others.old.items others.new.items }
    ensures room { vec_capacity others.new ≡ vec_capacity others.old }
    ensures base { last.new.base.now ≡ last.old.base.now }
    ensures belongs { L.belongs_to last.new.pass ≡ L.belongs_to last.old.pass }
    ensures last { AddsNothing (L.known last.old.pass) (L.known last.new.pass) }
    ensures looked { (L.known last.old.pass).looks < (L.known last.new.pass).looks }
    ensures taken_in { All (λ session. IsTakenIn (L.known last.new.pass).seen (L.known session.pass)) others.new.items }
    ensures own { IsTakenIn (L.known last.new.pass).seen (L.known last.new.pass) }
{
    last.look();
    meet_each(others, last);
    meet_each(others, last);
}

/// All that a session has seen, in order. The session is unchanged, also without memory.
pub(crate) fn copy_seen<L: DecisionLog>(
    alloc: Global,
    session: &mut Session<'_, L>,
) -> Result<Vec<Entry>, NoMemory>
    ensures base { session.new.base.now ≡ session.old.base.now }
    ensures belongs { L.belongs_to session.new.pass ≡ L.belongs_to session.old.pass }
    ensures same { L.known session.new.pass ≡ L.known session.old.pass }
    ensures copied { IfOk result (λ list. list.items ≡ (L.known session.old.pass).seen) }
{
    let count = session.seen();
    let mut list = Vec::new(alloc);
    for at in 0..count {
        list.push(session.entry(at))?;
    }
    Ok(list)
}
