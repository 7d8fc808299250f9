//! Sessions of a store without an end meet, so that each has seen all that any of them has.
ghost use Rattle.std.specs.{Prelude.{◌≡◌, map, vec_capacity}, List.{All, AllZip}};
ghost use Rattle.decision_log.specs.{History.{Begins, entries_of}, Calls.MeetsFirst};
ghost use Rattle.chain_log.specs.RingPass.{log_of};
ghost use Rattle.xa_store.specs.Gathered.{IsTakenIn, AddsNothing, last_known};
ghost use Rattle.xa_races.specs.Long.{known_in, AreOfOne, Keeps, HoldsAll};

use xa_endless::EndlessSession;

/// Each of the others meets the last, which has then seen what each of them has. If the last had seen all of that
/// before, it sees no more, and what it has seen has of each of the others exactly that session's own entries.
fn meet_each(others: &mut Vec<EndlessSession>, last: &mut EndlessSession)
    requires { All (λ session. log_of session.member.pass ≡ log_of last.old.member.pass) others.old.items }
    ensures others { AllZip (λ old new. (new.store.value ≡ old.store.value)
        × MeetsFirst (known_in old) (known_in new)) others.old.items others.new.items }
    ensures belong { All (λ session. log_of session.member.pass ≡ log_of last.new.member.pass) others.new.items }
    ensures room { vec_capacity others.new ≡ vec_capacity others.old }
    ensures store { last.new.store.value ≡ last.old.store.value }
    ensures last { AddsNothing (known_in last.old) (known_in last.new) }
    ensures seen { All (λ session. Begins (known_in session).seen (known_in last.new).seen) others.new.items }
    ensures whole { All (λ session. Begins (known_in session).seen (known_in last.old).seen) others.old.items
        → ((known_in last.new).seen ≡ (known_in last.old).seen)
        × All (λ session. entries_of (known_in session).number (known_in last.new).seen
        ≡ (known_in session).mine) others.new.items }
{
    for index in 0..others.len() {
        others[index].meet(last);
    }
}

/// The last has each of the others see what it has seen.
fn tell_each(others: &mut Vec<EndlessSession>, last: &mut EndlessSession)
    requires { All (λ session. log_of session.member.pass ≡ log_of last.old.member.pass) others.old.items }
    ensures others { AllZip Keeps others.old.items others.new.items }
    ensures room { vec_capacity others.new ≡ vec_capacity others.old }
    ensures store { last.new.store.value ≡ last.old.store.value }
    ensures last { MeetsFirst (known_in last.old) (known_in last.new) }
    ensures told { All (λ session. Begins (known_in last.new).seen (known_in session).seen) others.new.items }
{
    for index in 0..others.len() {
        last.meet(&mut others[index]);
    }
}

/// Has all sessions meet. What the last of them has seen then is the history that all of them have.
///
/// The others meet the last one twice. After the first time the last has seen the most. So the second time adds nothing
/// to what it has seen, and what is known of the others' entries is known of one and the same history. Then the last
/// tells the others what it has seen.
pub(crate) fn gather(sessions: &mut Vec<EndlessSession>)
    requires { AreOfOne sessions.old.items }
    ensures keeps { AllZip Keeps sessions.old.items sessions.new.items }
    ensures taken { All (λ session. IsTakenIn (last_known (map known_in sessions.new.items)).seen
        (known_in session)) sessions.old.items }
    ensures holds { All (λ session. HoldsAll (last_known (map known_in sessions.new.items)).seen
        (known_in session)) sessions.new.items }
{
    // Without a session there is none that the others could meet.
    if sessions.is_empty() {
        return;
    }
    let mut last = sessions.take_last();
    meet_each(sessions, &mut last);
    meet_each(sessions, &mut last);
    tell_each(sessions, &mut last);
    // The last was taken out of this list, so there is room for it at its old place.
    sessions.push_reserved(last);
}
