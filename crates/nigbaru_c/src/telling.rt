//! Writing an outcome into the structures of C.
ghost use Rattle.std.specs.Prelude.{◌≡◌, ◌≤◌, length, take};
ghost use Rattle.nigbaru_c.specs.Telling.{Tells, TellsPlace, TellsReply, IsLaid, LaidOut, Lists, ListsReply};

use crate::{Outcome, Told, XidPart};
use arrayvec::ArrayVec;
use xa_server::Reply;
use xa_session::Answer;
use xa_xid::{Bytes, Xid};

/// Writes `source` to the front of `target`, as many bytes as there is room for.
pub(crate) fn copy_front(target: &mut [u8], source: &[u8])
    ensures room { length target.new ≡ length target.old }
    ensures whole { length source.now ≤ length target.old → take (length source.now) target.new ≡ source.now }
    ensures cut { length target.old ≤ length source.now → target.new ≡ take (length target.old) source.now }
{
    let count = source.len().min(target.len());
    target[..count].copy_from_slice(&source[..count]);
}

impl Told {
    /// The fields with a place, and with nothing of a reply.
    fn at(place: u64) -> Told
        ensures { TellsPlace place result }
    {
        Told {
            place,
            length: 0,
            count: 0,
            error: 0,
            value: [0; 64],
        }
    }

    /// The fields of an answer that is the value of a row.
    fn of_value(place: u64, bytes: &Bytes) -> Told
        ensures { (result.place ≡ place) × (result.length ≡ length bytes.now.items)
            × (take result.length result.value ≡ bytes.now.items)
            × (result.count ≡ 0) × (result.error ≡ 0) × (result.length ≤ 64) }
    {
        let mut value = [0; 64];
        // No value has more than 64 bytes, so all of it is copied.
        copy_front(&mut value, bytes.as_slice());
        Told {
            place,
            length: bytes.len() as u64,
            count: 0,
            error: 0,
            value,
        }
    }

    /// The fields of an answer: its place, and the value, the number of identifiers or the refusal's number, if the
    /// reply has one of these.
    fn of_answer(answer: &Answer) -> Told
        ensures { (result.place ≡ answer.now.place) × TellsReply answer.now.reply result }
    {
        match &answer.reply {
            Reply::Ok | Reply::Value(None) => Told::at(answer.place),
            Reply::Value(Some(value)) => Told::of_value(answer.place, value),
            Reply::Recovered(xids) => Told {
                count: xids.as_slice().len() as u64,
                ..Told::at(answer.place)
            },
            Reply::Refused(error) => Told {
                error: error.number() as u32,
                ..Told::at(answer.place)
            },
        }
    }

    /// The fields of an outcome: those of its answer; for a text that is no statement, the byte where it goes wrong as
    /// the place, and else 0; for any other outcome, all 0.
    pub(crate) fn of(outcome: &Outcome) -> Told
        ensures { Tells outcome.now result }
    {
        match outcome {
            Outcome::Answered(answer) => Told::of_answer(answer),
            Outcome::Misspelled(fault) => Told::at(fault.at),
            Outcome::Vacant | Outcome::OutOfRange | Outcome::Unanswered(_) => Told::at(0),
        }
    }
}

impl XidPart {
    /// An identifier, as X/Open lays it out. A formatID above 2^63-1 is written as that of no identifier, -1.
    fn of(xid: &Xid) -> XidPart
        ensures { IsLaid xid.now result }
    {
        // A gtrid and a bqual have at most 64 bytes each, so nothing here can be refused.
        let mut bytes = ArrayVec::<u8, 128>::new();
        bytes.try_extend_from_slice(xid.gtrid.as_slice()).unwrap();
        bytes.try_extend_from_slice(xid.bqual.as_slice()).unwrap();
        let mut data = [0; 128];
        copy_front(&mut data, bytes.as_slice());
        XidPart {
            format_id: if xid.format_id < 1 << 63 {
                xid.format_id as i64
            } else {
                -1
            },
            gtrid_length: xid.gtrid.len() as i64,
            bqual_length: xid.bqual.len() as i64,
            data,
        }
    }
}

/// Lays identifiers out, as many as there is room for.
fn lay_out(parts: &mut [XidPart], xids: &[Xid])
    ensures { LaidOut xids.now parts.old parts.new }
{
    for index in 0..parts.len().min(xids.len()) {
        parts[index] = XidPart::of(&xids[index]);
    }
}

/// Writes the identifiers of a list, as many as there is room for. For any other reply nothing is written.
fn list_reply(reply: &Reply, parts: &mut [XidPart])
    ensures { ListsReply reply.now parts.old parts.new }
{
    match reply {
        Reply::Recovered(xids) => lay_out(parts, xids.as_slice()),
        Reply::Ok | Reply::Value(_) | Reply::Refused(_) => {}
    }
}

/// Writes the identifiers of a list, as many as there is room for. After any other outcome nothing is written.
pub(crate) fn list(outcome: &Outcome, parts: &mut [XidPart])
    ensures { Lists outcome.now parts.old parts.new }
{
    match outcome {
        Outcome::Answered(answer) => list_reply(&answer.reply, parts),
        Outcome::Vacant | Outcome::OutOfRange | Outcome::Misspelled(_) | Outcome::Unanswered(_) =>
            {}
    }
}
