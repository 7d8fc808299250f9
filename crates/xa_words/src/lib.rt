//! Log entries, each written as 21 numbers of 64 bits in exactly one way; no other numbers are an entry.
//!
//! Read first: docs/INTERNALS.md#words-of-an-entry, then specs/Words.antt (the table of kinds, one line for
//! each, which both directions use), then src/layout.rt. Nothing here takes memory or waits.
#![tactic(auto)]

mod decoding;
mod encoding;
mod entry;
pub mod laws;
mod layout;
mod limits;
mod reading;

pub use decoding::decode;
pub use encoding::encode;
pub use entry::Entry;
pub use layout::{WORDS, is_behind_text};
pub use reading::read_back;
