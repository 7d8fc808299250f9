//! How a coordinator names the branches of its global transactions.
ghost use Rattle.std.specs.{Prelude.{◌≡◌, ◌≤◌, ◌≢◌, ◌+◌, ℕ, IfSome, IfNone, length, drop}, Int.{w64, from_be_bytes}};
ghost use Rattle.arrayvec.specs.ArrayVec.{array_vec_len};
ghost use Rattle.xa_coordinator.specs.Branch.{branch_xid as xid_of_branch, IsBranchOf};

use xa_xid::{Bytes, Xid, copy_of};

/// The formatID of every branch that a coordinator starts: the letters XA as two bytes, 0x5841. It tells them from
/// branches of others, which have 1 if a statement names no formatID.
pub const FORMAT_ID: u64 = 22593;

/// Returns the identifier of the branch that a transaction has in a store.
///
/// `name`: the coordinator's name, at most 56 bytes. `number`: the transaction's number. `store`: the store's
/// number, from 0. The formatID is 22593; the gtrid is the name and then the number in eight bytes, highest
/// first; the bqual is the store's number as one byte.
/// Takes no memory. Doesn't wait.
/// Own rule: docs/COORDINATOR.md#branch-names.
#[tactic(auto, unfolding(crate::specs::Branch::branch_xid))]
pub fn branch_xid(name: &Bytes, number: u64, store: u8) -> Xid
    requires { array_vec_len name.now ≤ 56 }
    // Proved (coordinator, branch-name): The branch of a transaction in a store is named by the coordinator,
    //   the transaction's number and the store.
    ensures { result ≡ xid_of_branch name.now.items number store }
{
    let mut gtrid = copy_of(name);
    // A name has at most 56 bytes, so eight more fit.
    gtrid.try_extend_from_slice(&number.to_be_bytes()).unwrap();
    let mut bqual = Bytes::new();
    bqual.push(store);
    Xid {
        format_id: FORMAT_ID,
        gtrid,
        bqual,
    }
}

/// The number that the bytes behind the first `place` bytes of `bytes` spell, highest first. None unless exactly eight
/// bytes are behind them: as many as a number has in a gtrid.
fn number_behind(place: usize, bytes: &[u8]) -> Option<u64>
    ensures some { IfSome result (λ number. number ≡ from_be_bytes w64 (drop place bytes.now)) }
    ensures none { IfNone result (length bytes.now ≢ place + 8) }
{
    // Too short even for the first `place` bytes, the name.
    if bytes.len() < place {
        return None;
    }
    let (_, tail) = bytes.split_at(place);
    if tail.len() != 8 {
        return None;
    }
    Some(u64::from_be_bytes([
        tail[0], tail[1], tail[2], tail[3], tail[4], tail[5], tail[6], tail[7],
    ]))
}

/// The transaction's number, if a coordinator of this name gives this identifier to a branch in this store. Else None.
pub(crate) fn number_of_branch(name: &Bytes, store: u8, xid: &Xid) -> Option<u64>
    requires { array_vec_len name.now ≤ 56 }
    ensures some { IfSome result (λ number. IsBranchOf name.now.items number store xid.now) }
    ensures none { IfNone result ((number : ℕ) → IsBranchOf name.now.items number store xid.now → ⊥) }
{
    let Some(number) = number_behind(name.len(), xid.gtrid.as_slice()) else {
        return None;
    };
    // Only the gtrid's length was looked at. Its first bytes may be another name, and the bqual or the formatID may be
    // others, too.
    if *xid == branch_xid(name, number, store) {
        Some(number)
    } else {
        None
    }
}
