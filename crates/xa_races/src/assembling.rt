//! Puts the entries together that sessions have added.
ghost use Rattle.std.specs.{Prelude.{◌≡◌, ◌≤◌, ◌-◌, ℕ, List, Some, None, length, map, IfOk}, List.All};
ghost use Rattle.decision_log.specs.Known.{AllOf};
ghost use Rattle.xa_words.specs.Entry.{Entry as EntryValue};
ghost use Rattle.xa_races.specs.Assembled.{HasOnly, IsWithin};

use crate::added::Added;
use std::alloc::{AllocError, Global};
use xa_words::Entry;
use xa_xid::NoMemory;

/// A list of `count` places without an entry.
fn empty_places(alloc: Global, count: u64) -> Result<Vec<Option<Entry>>, NoMemory>
    ensures count { IfOk result (λ places. length places.items ≡ count) }
    ensures empty { IfOk result (λ places. All (λ place. place ≡ None) places.items) }
{
    let mut places = Vec::new(alloc);
    for _ in 0..count {
        places.push(None)?;
    }
    Ok(places)
}

/// Puts the entries of a session into `places`, whose first one is the history's place `from`.
fn place_each(places: &mut Vec<Option<Entry>>, from: u64, added: Vec<Added>)
    ensures count { length places.new.items ≡ length places.old.items }
    ensures only { (list : List EntryValue) (limit : ℕ)
        → HasOnly list limit places.old.items
        → All (IsWithin list limit from) added.items
        → HasOnly list limit places.new.items }
{
    for one in added {
        let Added { place, entry } = one;
        // Every entry of the race has one of these places. That isn't known here; one with another would be left out.
        if place >= from && place - from < places.len() as u64 {
            places[(place - from) as usize] = Some(entry);
        }
    }
}

/// Puts the entries of all sessions, a list for each, into `places`, whose first one is the history's place `from`.
fn place_all(places: &mut Vec<Option<Entry>>, from: u64, lists: Vec<Vec<Added>>)
    ensures count { length places.new.items ≡ length places.old.items }
    ensures only { (list : List EntryValue) (limit : ℕ)
        → HasOnly list limit places.old.items
        → All (λ added. All (IsWithin list limit from) added.items) lists.items
        → HasOnly list limit places.new.items }
{
    for added in lists {
        place_each(places, from, added);
    }
}

/// The entries of all places. Each place must have one; `NoMemory` is also returned if one has none.
fn entries_at(alloc: Global, places: Vec<Option<Entry>>) -> Result<Vec<Entry>, NoMemory>
    ensures { IfOk result (λ entries. map Some entries.items ≡ places.items) }
{
    let mut entries = Vec::new(alloc);
    for place in places {
        // Each entry of a history was added by a session, so each place has one. That isn't known here: a ring's
        // spares are passes too, and nothing says that they add none.
        let Some(entry) = place else {
            return Err(AllocError);
        };
        entries.push(entry)?;
    }
    Ok(entries)
}

/// The entries of a history of `count` entries from the place `from` on. `lists` has what each session has added
/// there.
///
/// May return `NoMemory`; it would also be returned if a place had no entry.
pub(crate) fn assembled(
    alloc: Global,
    from: u64,
    count: u64,
    lists: Vec<Vec<Added>>,
) -> Result<Vec<Entry>, NoMemory>
    ensures { (list : List EntryValue) (limit : ℕ)
        → length list ≡ count - from
        → All (λ added. All (IsWithin list limit from) added.items) lists.items
        → IfOk result (λ entries. (entries.items ≡ list) × AllOf limit entries.items) }
{
    // A history doesn't get shorter, so `count` isn't below `from`. That isn't known here; it would give no entries.
    let mut places = empty_places(alloc, count.saturating_sub(from))?;
    place_all(&mut places, from, lists);
    entries_at(alloc, places)
}
