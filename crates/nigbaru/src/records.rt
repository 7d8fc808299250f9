//! The judge: whether some order of the statements explains what clients of a server saw.

pub use xa_judge::{
    Act, Answer, ErrorNumbers, Event, Move, Progress, Request, Seen, SharedAnswer, SharedRequest,
    SharedSeen, Silent, SoFar, Verdict, judge, judge_telling,
};
pub use xa_record::{
    AllowFault, Allowance, Asked, Form, Judged, LineGap, LineWanted, Outcome, StateFault,
    StatementKind, judge_record, judge_text, read_allowances, read_state, row_wanted_in, wanted_in,
};
