//! What is prepared in each store.

use xa_server::Reply;
use xa_session::Fault;

/// The answers of the other clients' sessions, from store 0 on, to `XA RECOVER CONVERT XID`.
#[derive(Drop)]
pub struct Listing {
    /// The answers, one of each store.
    pub(crate) answers: Vec<Result<Reply, Fault>>,
}
