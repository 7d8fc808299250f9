//! Rows packed: their keys and values one after another.
ghost use Rattle.std.specs.Prelude.{◌≡◌, ◌≤◌, ◌+◌, ℕ, true, List, [], ◌∷◌, ◌++◌, IfOk, OnOk, take, drop, length};
ghost use Rattle.std.specs.{Prelude.{IfSome, MatchOption, ◌==◌}, Option.{option_map, option_map_or}};
ghost use Rattle.xa_server.specs.Packed.{part_of, text_of, row_of, value_length, Fits, seen, FitsText};

use std::alloc::{AllocError, Global};
use std::marker::Model;
use xa_xid::{Bytes, NoMemory};

/// The length of the longest key, and of the longest value.
const LONGEST: usize = 64;

/// Where a row is among the bytes of all: its key, and its value right behind that.
#[derive(Clone, Copy)]
pub struct Place {
    /// Where the key begins.
    start: usize,
    /// How long the key is.
    key: u8,
    /// How long the value is, at most 64. `None` if the row was deleted.
    value: Option<u8>,
}

/// Rows in an order, packed: for each a key and a value, or that it was deleted. A contract sees the list of them.
///
/// A row takes 16 bytes beside its key and its value.
#[derive(Drop)]
pub struct Packed {
    /// The keys and values.
    bytes: Vec<u8>,
    /// Where each row is among them.
    places: Vec<Place>,
}

impl Model for Packed {
    ghost use Rattle.std.specs.{Prelude.List, List.All, Coded.coded_list};
    ghost use Rattle.xa_server.specs.Packed.{PackedRow, coded_row, rows_of, Fits};

    ghost Value = { List PackedRow };

    ghost coded = { coded_list coded_row };

    ghost view = { λ rows. rows_of rows.bytes.items rows.places.items };

    ghost invariant = { λ rows. All (Fits rows.bytes.items) rows.places.items };
}

/// Packed rows that are left to be looked at. A contract sees the list of them.
#[derive(Drop)]
pub struct Rows<'a> {
    /// The keys and values of these rows and of others.
    bytes: &'a [u8],
    /// Where each row is among them.
    places: &'a [Place],
}

impl<'a> Model for Rows<'a> {
    ghost use Rattle.std.specs.{Prelude.List, List.All, Coded.coded_list};
    ghost use Rattle.xa_server.specs.Packed.{PackedRow, coded_row, rows_of, Fits};

    ghost Value = { List PackedRow };

    ghost coded = { coded_list coded_row };

    ghost view = { λ rows. rows_of rows.bytes.now rows.places.now };

    ghost invariant = { λ rows. All (Fits rows.bytes.now) rows.places.now };
}

/// A row among packed ones: its key, and its value, if it wasn't deleted.
#[derive(Clone, Copy)]
pub struct Row<'a> {
    /// The key.
    pub key: &'a [u8],
    /// The value. `None` if the row was deleted.
    pub value: Option<&'a [u8]>,
}

impl<'a> Row<'a> {
    /// Returns true only if both are the same.
    pub fn is_same(self, other: Row<'_>) -> bool
        ensures { result ≡ true → seen self.entry ≡ seen other.entry }
    {
        if self.key != other.key {
            return false;
        }
        match self.value {
            None => other.value.is_none(),
            Some(value) => match other.value {
                None => false,
                Some(another) => value == another,
            },
        }
    }
}

/// Returns so many bytes from a place on.
fn part(bytes: &[u8], start: usize, count: usize) -> &[u8]
    requires { start + count ≤ length bytes.now }
    ensures bytes { result.now ≡ part_of bytes.now start count }
    ensures count { length result.now ≡ count }
{
    bytes.split_at(start).1.split_at(count).0
}

/// Returns the row of a place.
fn row_at(bytes: &[u8], place: Place) -> Row<'_>
    requires { Fits bytes.now place }
    ensures row { seen result ≡ row_of bytes.now place }
    ensures fits { FitsText result }
{
    Row {
        key: part(bytes, place.start, place.key as usize),
        value: match place.value {
            None => None,
            Some(count) => Some(part(bytes, place.start + place.key as usize, count as usize)),
        },
    }
}

/// Copies a value, if there is one.
pub fn copy_of_value(value: Option<&[u8]>) -> Option<Bytes>
    requires { IfSome value (λ bytes. length bytes.now ≤ 64) }
    ensures { result ≡ option_map (λ bytes. text_of bytes.now) value.entry }
{
    match value {
        None => None,
        Some(bytes) => {
            let mut text = Bytes::new();
            text.try_extend_from_slice(bytes).unwrap();
            Some(text)
        }
    }
}

/// Returns a text's length, which is at most 64.
fn narrow(len: usize) -> Result<u8, NoMemory>
    ensures { IfOk result (λ narrow. (narrow ≡ len) × (narrow ≤ 64)) }
{
    // No key and no value is longer.
    if len > LONGEST {
        return Err(AllocError);
    }
    Ok(len as u8)
}

/// Returns the place of a row that is put at `start`.
fn place_of(start: usize, row: Row<'_>) -> Result<Place, NoMemory>
    ensures place { IfOk result (λ place. place ≡ record {
      start = start;
      key = length row.entry.key.now;
      value = option_map (λ bytes. length bytes.now) row.entry.value;
    }) }
    ensures fits { IfOk result (λ place. value_length place ≤ 64) }
{
    let key = narrow(row.key.len())?;
    let value = match row.value {
        None => None,
        Some(value) => Some(narrow(value.len())?),
    };
    Ok(Place { start, key, value })
}

/// Returns a value's bytes, none if there is no value.
fn bytes_of(value: Option<&[u8]>) -> &[u8]
    ensures { result.now ≡ option_map_or (λ bytes. bytes.now) value.entry [] }
{
    match value {
        None => &[],
        Some(bytes) => bytes,
    }
}

impl<'a> Rows<'a> {
    /// Returns whether there is none.
    pub fn is_empty(&self) -> bool
        ensures { result ≡ (length self.now == 0) }
    {
        self.places.is_empty()
    }

    /// Returns how many there are.
    pub fn len(&self) -> usize
        ensures { result ≡ length self.now }
    {
        self.places.len()
    }

    /// Returns the first of them.
    pub fn first(&self) -> Option<Row<'a>>
        ensures { MatchOption result (length self.now ≡ 0) (λ row. take 1 self.now ≡ seen row ∷ []) }
    {
        match self.places.split_first() {
            None => None,
            Some((place, _)) => Some(row_at(self.bytes, *place)),
        }
    }

    /// Returns the first of them and the others.
    pub fn split_first(self) -> Option<(Row<'a>, Rows<'a>)>
        ensures { MatchOption result (length self.entry ≡ 0)
            (λ split. (self.entry ≡ seen split.0 ∷ split.1) × FitsText split.0) }
    {
        let (place, others) = self.places.split_first()?;
        let rest = Rows {
            bytes: self.bytes,
            places: others,
        };
        Some((row_at(self.bytes, *place), rest))
    }

    /// Returns the first `count` of them, and the others.
    pub fn split_at(self, count: usize) -> (Rows<'a>, Rows<'a>)
        requires { count ≤ length self }
        ensures front { result.0 ≡ take count self.entry }
        ensures back { result.1 ≡ drop count self.entry }
    {
        let (front, back) = self.places.split_at(count);
        (
            Rows {
                bytes: self.bytes,
                places: front,
            },
            Rows {
                bytes: self.bytes,
                places: back,
            },
        )
    }
}

impl Packed {
    /// Makes a list without rows.
    pub fn new(alloc: Global) -> Packed
        ensures { result ≡ [] }
    {
        Packed {
            bytes: Vec::new(alloc),
            places: Vec::new(alloc),
        }
    }

    /// Returns the rows.
    pub fn rows(&self) -> Rows<'_>
        ensures { result ≡ self.now }
    {
        Rows {
            bytes: self.bytes.as_slice(),
            places: self.places.as_slice(),
        }
    }

    /// Adds a row behind the others.
    pub fn push(&mut self, row: Row<'_>) -> Result<(), NoMemory>
        ensures { OnOk result (self.new ≡ self.old ++ seen row.entry ∷ []) }
    {
        let place = place_of(self.bytes.len(), row)?;
        self.bytes.extend_from_slice(row.key)?;
        self.bytes.extend_from_slice(bytes_of(row.value))?;
        self.places.push(place)?;
        Ok(())
    }
}
