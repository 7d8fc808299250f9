//! Scripts, and the text that a run or a race of one writes.

pub use xa_lines::{
    CutReader, CutWriter, PieceReader, PieceWriter, ScriptFault, answer_line, answer_statement,
    run_script, script_limits,
};
pub use xa_races::{race_script, race_script_in_rounds};
