//! Lines of statements. `run_script` reads a script to its end, and writes the answer to each of its lines.
//! `serve` answers a client line by line, and flushes each answer before it receives more; `serve_statements`
//! does so with the sequential server, and `show_statements` also prints the store after each answer.
//!
//! Read first `specs/Transcript.antt`, which defines what a run writes, and `src/run.rt`. For conversations
//! read `src/client.rt` and `specs/Served.antt`, for the listing of a store `specs/Listing.antt`.
//!
//! `objects_text` and `write_objects` make an object of JSON of each line that a job writes. A *form* says how a line
//! is taken apart: it is a text with one part on each of its lines, and the first form that fits a line names its
//! keys. Read docs/COMMANDS.md#output-as-json, then `specs/Objects.antt`, `src/json_forms.rt` and
//! `src/json_objects.rt`.
//!
//! `uncommented` leaves a script's comments blank, so that each other line keeps its number. Read
//! docs/COMMANDS.md#race, then `specs/Uncommented.antt` and `src/comments.rt`.
#![tactic(auto)]

mod answer;
mod begun_line;
mod client;
mod comments;
mod conversation;
mod cut_reader;
mod cut_writer;
mod json_characters;
mod json_fitting;
mod json_forms;
mod json_mark;
mod json_numbers;
mod json_objects;
mod json_parts;
mod json_words;
mod json_writing;
pub mod laws;
mod line_answer;
mod line_server;
mod lines;
mod listing;
mod pieces;
mod print;
mod recorded;
mod run;
mod script_fault;
mod served_answer;
mod short_answer;
mod short_reply;
mod shown;
mod stage;
mod statements;
mod streams;
mod transport;

pub use answer::Answer;
pub use client::Client;
pub use comments::uncommented;
pub use conversation::serve;
pub use cut_reader::CutReader;
pub use cut_writer::CutWriter;
pub use json_objects::objects_text;
pub use json_writing::{in_memory, write_objects};
pub use line_answer::{answer_line, answer_statement, converts};
pub use line_server::LineServer;
pub use lines::{ScriptLine, is_comment, number_in, read_line, split_line, split_word};
pub use listing::with_listing;
pub use pieces::{PieceReader, PieceWriter};
pub use print::{push_number, push_reply, push_syntax_fault};
pub use recorded::Recorded;
pub use run::run_script;
pub use script_fault::ScriptFault;
pub use shown::{Shown, show_statements};
pub use stage::Stage;
pub use statements::serve_statements;
pub use streams::{read_all, read_within, script_limits, write_whole};
pub use transport::Transport;

/// The greatest length of a line of a conversation, in bytes, without its line feed. Own rule:
/// docs/COMMANDS.md#serve.
pub const LINE_BYTES: usize = 65_536;
