//! The rows that calls name.
ghost use Rattle.std.specs.Prelude.{◌≡◌, OnOk, IfOk};
ghost use Rattle.xa_record.specs.Reports.{with_row_of, with_row_called, keys_named};

use std::alloc::Global;
use std::collections::BTreeSet;
use xa_judge::{Event, Request};
use xa_xid::{Key, NoMemory, Statement};

/// Adds a row's key, unless it is there.
fn put_in(keys: &mut BTreeSet<Key>, key: &Key) -> Result<(), NoMemory>
    ensures { OnOk result (keys.new.keys ≡ with_row_of (Statement.Get key.now) keys.old.keys) }
{
    keys.insert(key.copy())?;
    Ok(())
}

/// Adds the row that the statement names, if it names one.
fn put_in_row_of(keys: &mut BTreeSet<Key>, statement: &Statement) -> Result<(), NoMemory>
    ensures { OnOk result (keys.new.keys ≡ with_row_of statement.now keys.old.keys) }
{
    match statement {
        Statement::Get(key) => put_in(keys, key),
        Statement::Put(key, _) => put_in(keys, key),
        Statement::Del(key) => put_in(keys, key),
        Statement::Start(_)
        | Statement::End(_)
        | Statement::Prepare(_)
        | Statement::Commit { .. }
        | Statement::Rollback(_)
        | Statement::Recover { .. }
        | Statement::Unsupported
        | Statement::Disconnect => Ok(()),
    }
}

/// Adds the row that a call's statement names. Adds nothing if the event isn't a call, or names no row.
fn put_in_row_called(keys: &mut BTreeSet<Key>, event: &Event) -> Result<(), NoMemory>
    ensures { OnOk result (keys.new.keys ≡ with_row_called event.now keys.old.keys) }
{
    match event {
        Event::Call(_, request) => match request.request() {
            Request::Statement(statement) => put_in_row_of(keys, statement),
            Request::Unread => Ok(()),
        },
        Event::Return(_, _) => Ok(()),
        Event::Lost(_) => Ok(()),
        Event::Unknown(_) => Ok(()),
    }
}

/// The keys as a list.
fn list_of(alloc: Global, keys: &BTreeSet<Key>) -> Result<Vec<Key>, NoMemory>
    ensures { IfOk result (λ list. list.items ≡ keys.now.keys) }
{
    let mut list = Vec::new(alloc);
    for key in keys.iter() {
        list.push(key.copy())?;
    }
    Ok(list)
}

/// Returns the rows that calls name, each once, ascending by their bytes.
///
/// May return `NoMemory`.
pub fn rows_named(alloc: Global, events: &[Event]) -> Result<Vec<Key>, NoMemory>
    ensures { IfOk result (λ keys. keys.items ≡ keys_named events.now) }
{
    let mut keys = BTreeSet::new(alloc);
    for event in events {
        put_in_row_called(&mut keys, event)?;
    }
    list_of(alloc, &keys)
}
