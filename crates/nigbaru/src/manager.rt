//! A transaction manager over stores of its own, which reads its calls line by line.

pub use xa_manager::{
    BesideServer, Call, CallServer, Ledger, Listing, Manager, Response, Stage, VoteAnswer,
    converse, converse_lasting, lasting_manager, manager_over, open_stores, read_call,
    write_response,
};
