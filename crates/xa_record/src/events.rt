//! The events that the lines of a record say.
ghost use Rattle.std.specs.{Prelude.{◌≡◌, ◌++◌, [], None, map, IfOk, OnOk}, List.Sorted.{IsPermutation, IsSorted}};
ghost use Rattle.xa_xid.specs.Xid.{xid_cmp};
ghost use Rattle.xa_record.specs.Events.{request_called, others_shown, IsSeen, IsEvent, AreEvents, AreCalls};
ghost use Rattle.xa_record.specs.{Rows.row_said, Kept.{row_before, rows_kept, shown_kept, told_kept, numbered_kept}};

use crate::allowance::{Allowance, others_for};
use crate::asked_kinds::AskedKinds;
use crate::line_event::{LineEvent, NumberedEvent};
use crate::rows::read_row;
use crate::shown::Shown;
use crate::statement_kind::StatementKind;
use std::alloc::Global;
use xa_judge::{ErrorNumbers, Event, Request, Seen, SharedRequest, SharedSeen};
use xa_statement::read_statement;
use xa_xid::{NoMemory, Xid, copy_of};

/// Returns the request of a session that calls for this text: its statement, or `Unread` if it isn't one.
pub fn request_of(text: &[u8]) -> Request
    ensures { result ≡ request_called text.now }
{
    match read_statement(text) {
        Ok(statement) => Request::Statement(statement),
        Err(_) => Request::Unread,
    }
}

/// Appends the identifier that a text is as a row of a return. Appends nothing if it isn't such a row.
fn push_row(rows: &mut Vec<Xid>, text: &[u8]) -> Result<(), NoMemory>
    ensures { OnOk result (rows.new.items ≡ rows.old.items ++ row_before (row_said text.now) []) }
{
    match read_row(text) {
        None => Ok(()),
        Some(row) => {
            rows.push(row)?;
            Ok(())
        }
    }
}

/// Returns the identifiers of these texts. A text that isn't a row adds none.
///
/// May return `NoMemory`.
pub fn rows_in(alloc: Global, texts: &[&[u8]]) -> Result<Vec<Xid>, NoMemory>
    ensures { IfOk result (λ rows. rows.items ≡ rows_kept texts.now) }
{
    let mut rows = Vec::new(alloc);
    for text in texts {
        push_row(&mut rows, text)?;
    }
    Ok(rows)
}

/// The identifiers of these texts in ascending order.
fn ascending(alloc: Global, texts: &[&[u8]]) -> Result<Vec<Xid>, NoMemory>
    ensures same { IfOk result (λ sorted. IsPermutation (rows_kept texts.now) sorted.items) }
    ensures sorted { IfOk result (λ sorted. IsSorted xid_cmp sorted.items) }
{
    let mut sorted = rows_in(alloc, texts)?;
    sorted.sort_unstable();
    Ok(sorted)
}

/// What a return shows, as the answer to a statement of this kind. Rows are in ascending order. A refusal also has the
/// rules' numbers for which its own may stand by the allowances.
fn seen_of(
    alloc: Global,
    allowances: &[Allowance],
    kind: Option<StatementKind>,
    shown: &Shown,
) -> Result<Seen, NoMemory>
    ensures { let said = shown_kept shown.now in IfOk result (IsSeen (others_shown allowances.now kind said) said) }
{
    match shown {
        Shown::Ok => Ok(Seen::Ok),
        Shown::None => Ok(Seen::Value(None)),
        Shown::Value(value) => Ok(Seen::Value(Some(copy_of(value)))),
        Shown::Rows(rows) => Ok(Seen::Rows(ascending(alloc, rows.as_slice())?)),
        Shown::Error(number) => {
            let others = others_for(alloc, allowances, kind, *number)?;
            Ok(Seen::Error(ErrorNumbers {
                seen: *number,
                others,
            }))
        }
    }
}

/// What a return shows, as an event has it: what `seen_of` says. All returns that show `OK` share `ok`, and all that
/// show `NONE` share `none`, so that a long record takes less memory.
fn shared_seen_of(
    alloc: Global,
    allowances: &[Allowance],
    kind: Option<StatementKind>,
    shown: &Shown,
    ok: &SharedSeen,
    none: &SharedSeen,
) -> Result<SharedSeen, NoMemory>
    requires ok { ok.now ≡ Seen.Ok }
    requires none { none.now ≡ Seen.Value None }
    ensures { let said = shown_kept shown.now in IfOk result (IsSeen (others_shown allowances.now kind said) said) }
{
    match shown {
        Shown::Ok => Ok(ok.try_clone()?),
        Shown::None => Ok(none.try_clone()?),
        // Each of the others has its own.
        _ => SharedSeen::of(alloc, seen_of(alloc, allowances, kind, shown)?),
    }
}

/// The event of a line. `asked` has the kind of what each session called for last, by which allowances are chosen.
/// Returns that show `OK` share `ok`, and those that show `NONE` share `none`.
fn event_of(
    alloc: Global,
    allowances: &[Allowance],
    asked: &AskedKinds,
    line_event: &LineEvent,
    ok: &SharedSeen,
    none: &SharedSeen,
) -> Result<Event, NoMemory>
    requires ok { ok.now ≡ Seen.Ok }
    requires none { none.now ≡ Seen.Value None }
    ensures { IfOk result (IsEvent allowances.now asked.now.kinds (told_kept line_event.now)) }
{
    match line_event {
        LineEvent::Call(session, text) => {
            let request = SharedRequest::of(alloc, request_of(text))?;
            Ok(Event::Call(*session, request))
        }
        LineEvent::Return(session, shown) => {
            let seen = shared_seen_of(alloc, allowances, asked.of(*session), shown, ok, none)?;
            Ok(Event::Return(*session, seen))
        }
        LineEvent::Unknown(session) => Ok(Event::Unknown(*session)),
        LineEvent::Lost(session) => Ok(Event::Lost(*session)),
    }
}

/// Returns the events of the lines, in order.
///
/// A refusal that was seen stands for its own number, and for those that the allowances let it stand for.
/// May return `NoMemory`.
pub fn events_of(
    alloc: Global,
    allowances: &[Allowance],
    numbered: &[NumberedEvent],
) -> Result<Vec<Event>, NoMemory>
    // Proved (records, events): The events that are judged are those that the lines say. A refusal that was
    //   seen stands for its own number, and for those that the allowances let it stand for, as the answer to
    //   a statement of the kind that its session called for.
    ensures are { IfOk result (λ events. AreEvents allowances.now (map numbered_kept numbered.now) events.items) }
    // Proved (records, events)
    ensures calls { IfOk result (λ events. AreCalls (map numbered_kept numbered.now) events.items) }
{
    let mut events = Vec::new(alloc);
    let mut asked = AskedKinds::none();
    let ok = SharedSeen::of(alloc, Seen::Ok)?;
    let none = SharedSeen::of(alloc, Seen::Value(None))?;
    for one in numbered {
        let event = event_of(alloc, allowances, &asked, &one.line_event, &ok, &none)?;
        asked.follow(&event);
        events.push(event)?;
    }
    Ok(events)
}
