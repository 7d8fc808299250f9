//! Conversations: each line is answered before more is read.

pub use xa_lines::{
    Answer, Client, LINE_BYTES, LineServer, Recorded, Shown, Stage, Transport, serve,
    serve_statements, show_statements,
};
