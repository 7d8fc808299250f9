//! Configurations that are kept where later returns are known.

use crate::configuration::Configuration;
use crate::fingerprint_index::FingerprintIndex;
use crate::moves::Move;
use crate::open_call::OpenCall;

/// What is kept of all configurations to which events lead, before the next event.
#[derive(Drop)]
pub struct Frontier {
    /// The configurations.
    pub known: Vec<Configuration>,
    /// The moves that all of them begin with, from the opening on. Each one's path goes on from there.
    pub trunk: Vec<Move>,
    /// What is known of the open call of each session, at the session's number.
    pub places: Vec<OpenCall>,
    /// The index in which configurations are looked up. It has seen the events so far.
    pub index: FingerprintIndex,
}
