//! Records of what clients of a server saw, as texts: read, judged by `xa_judge`, and the verdict written.
//!
//! `judge_text` judges the text of a record. `judge_record` reads it from a reader, and writes the verdict to a writer.
//! Both begin with a given store. `read_allowances` reads known differences between a server and the rules. `wanted_in`
//! and `row_wanted_in` tell what has to come in a faulty line. Read docs/HISTORIES.md#records, then
//! `specs/Judged.antt`, `specs/Reading.antt` and `src/judging.rt`. `specs/Records.antt` has the rules of reading
//! without its order.
//!
//! `read_state` reads the state that a record begins with: a listing as `show` prints it, with every row that has a
//! value and no other. Each line becomes statements, which a server that holds nothing carries out: rows first, then
//! prepared branches, then the branches of sessions. What that server then lists is compared with the text, byte for
//! byte. So no line has to be trusted to be read right. Read docs/HISTORIES.md#records-in-pieces, then
//! `specs/States.antt` and `src/state_reading.rt`.
#![tactic(auto)]

mod allow_fault;
mod allowance;
mod allowances;
mod asked;
mod asked_kinds;
mod branches;
mod chosen_lines;
mod cuts;
mod events;
mod exchange;
mod exchanging;
mod explaining;
mod form;
mod grounds;
mod json_text;
mod judging;
mod last_calls;
pub mod laws;
mod line;
mod line_event;
mod line_fault;
mod line_wanted;
mod lines_again;
mod named_rows;
mod notes;
mod open_branch;
mod order;
mod outcome;
mod part;
mod parts;
mod pending;
mod plain_text;
mod presence;
mod reading;
mod reason;
mod report;
mod report_of;
mod row_wanted;
mod rows;
mod run;
mod shown;
mod shrinking;
mod sought;
mod stage;
mod state_branches;
mod state_carrying;
mod state_comparing;
mod state_fault;
mod state_line;
mod state_reading;
mod state_rows;
mod statement_kind;
mod written_calls;

pub use allow_fault::AllowFault;
pub use allowance::Allowance;
pub use allowances::read_allowances;
pub use asked::Asked;
pub use form::Form;
pub use judging::{Judged, judge_text};
pub use line_wanted::{LineGap, LineWanted, wanted_in};
pub use outcome::Outcome;
pub use row_wanted::row_wanted_in;
pub use run::judge_record;
pub use state_fault::StateFault;
pub use state_reading::read_state;
pub use statement_kind::StatementKind;
