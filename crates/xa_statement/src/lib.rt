//! The reader and the writer of statements: `read_statement` returns the statement that a text spells, or
//! the place where the text stops being one; `write_statement` writes a statement's canonical text. The
//! grammar is in docs/STATEMENTS.md#grammar.
//!
//! Read first: specs/Grammar.antt and specs/FaultPlace.antt, then src/reader.rt and src/state.rt (the
//! machine of states). Most texts are read in one go by src/usual.rt and src/first.rt; read these last,
//! with specs/Ways.antt.
#![tactic(auto)]

mod first;
pub mod laws;
mod reader;
mod state;
mod syntax_fault;
mod token;
mod usual;
mod writer;

pub use reader::read_statement;
pub use syntax_fault::SyntaxFault;
pub use writer::write_statement;
