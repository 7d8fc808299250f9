//! Says whether any order of statements explains what clients of a server saw, with a verdict that is proved
//! either way.
//!
//! `judge` takes what was seen as a list of events, and returns a verdict: the moves of an order that
//! explains them, the event that no order explains, or the event before which it found more configurations than its
//! limit. Read docs/HISTORIES.md#what-explains-a-record, then `specs/Explained.antt` and `src/judging.rt`. README.md
//! explains the search.
#![tactic(auto)]

mod acting;
mod advance;
mod alone_call;
mod answer;
mod apart;
mod beam;
mod best;
mod block;
mod blocks;
mod branch_records;
mod by_keys;
mod client_state;
mod closing;
mod configuration;
mod done;
mod done_block;
mod done_blocks;
mod effect;
mod effort;
mod error_numbers;
mod event;
mod fingerprint_index;
mod fingerprints;
mod following;
mod foreseeing;
mod foreseen;
mod foreseen_event;
mod foresight;
mod free_rows;
mod frontier;
mod halving;
mod hints;
mod judging;
mod judging_part;
mod kept_answer;
mod kept_server;
mod known;
pub mod laws;
mod loading;
mod moves;
mod near;
mod open_call;
mod parts;
mod path;
mod persistent;
mod progress;
mod quiet;
mod refuting;
mod request;
mod room;
mod same;
mod search_size;
mod searching;
mod seeing;
mod shared_answer;
mod shared_lists;
mod shared_request;
mod shared_seen;
mod so_far;
mod swept;
mod trunk;
mod turn;
mod verdict;
mod way;
mod ways;

pub use answer::Answer;
pub use error_numbers::ErrorNumbers;
pub use event::{Event, Seen};
pub use following::{follows, server_after};
pub use judging::{judge, judge_telling};
pub use moves::{Act, Move};
pub use progress::{Progress, Silent};
pub use request::Request;
pub use shared_answer::SharedAnswer;
pub use shared_request::SharedRequest;
pub use shared_seen::SharedSeen;
pub use so_far::SoFar;
pub use verdict::Verdict;
