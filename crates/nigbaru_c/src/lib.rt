//! A store that is called from C: handles that C keeps, and the calls of `include/nigbaru.h`.
//!
//! A handle is null, or points to a box (`Chair`) with a store or a session of `xa_endless` (`Hold`). A session owns
//! its store together with the store's other sessions, and with the store's handle until that is closed.
//! Read `include/nigbaru.h` first, then `specs/Outcome.antt`, `src/attempting.rt`, `src/branches.rt` and
//! `src/handle.rt`.
#![tactic(auto)]

mod answering;
mod asked;
mod attempting;
mod branches;
mod chair;
mod ending;
mod following;
mod handed;
mod handle;
mod hold;
mod naming;
mod opening;
mod outcome;
mod parts;
mod rows;
mod spelling;
mod status;
mod taking;
mod telling;
mod told;
mod xid_part;

pub use asked::Asked;
pub use attempting::nigbaru_raw_attempt;
pub use branches::{
    nigbaru_raw_commit, nigbaru_raw_end, nigbaru_raw_prepare, nigbaru_raw_recover,
    nigbaru_raw_rollback, nigbaru_raw_start,
};
pub use chair::Chair;
pub use ending::{nigbaru_raw_close, nigbaru_raw_leave};
pub use following::nigbaru_raw_follow;
pub use handed::Handed;
pub use handle::Handle;
pub use hold::Hold;
pub use opening::nigbaru_raw_open;
pub use outcome::Outcome;
pub use rows::{nigbaru_raw_del, nigbaru_raw_disconnect, nigbaru_raw_get, nigbaru_raw_put};
pub use taking::nigbaru_raw_take;
pub use told::Told;
pub use xid_part::XidPart;
