//! A coordinator without its sessions.
ghost use Rattle.std.specs.Prelude.{◌≡◌, ◌≤◌, vec_len};
ghost use Rattle.arrayvec.specs.ArrayVec.{array_vec_len};
ghost use Rattle.xa_coordinator.specs.OpenBranches.{OpenThere};

use crate::branches::OpenBranch;
use crate::{Coordinator, Speak};
use xa_xid::Bytes;

/// A coordinator without its sessions: its name, and which branch it has open in each of them.
#[derive(Drop)]
pub struct Paused {
    /// The coordinator's name, 1 to 56 bytes.
    pub(crate) name: Bytes,
    /// The branch that it has open in each store, by the store's number.
    pub(crate) branches: [Option<OpenBranch>; 16],
    // With a number of 8 bytes behind it the name is a gtrid, which has at most 64.
    ghost named: { (1 ≤ array_vec_len name) × (array_vec_len name ≤ 56) },
}

impl<S: Speak> Coordinator<S> {
    /// Splits the coordinator into its sessions, in the order of their stores, and the rest, which `resume`
    /// takes.
    ///
    /// The stores get no statement. Takes no memory. Doesn't wait.
    /// Own rule: docs/COORDINATOR.md#renewal-between-calls.
    pub fn pause(self) -> (Vec<S>, Paused)
        // Proved (coordinator, pause): A coordinator that is split from its sessions keeps its name and its
        //   record of open branches. It goes on over any sessions that have these branches open.
        ensures stores { result.0 ≡ self.stores }
        // Proved (coordinator, pause)
        ensures name { result.1.name ≡ self.name }
        // Proved (coordinator, pause)
        ensures branches { result.1.branches ≡ self.branches }
        // Proved (coordinator, pause)
        ensures open_there { OpenThere S.view result.1.name.items result.0.items result.1.branches }
    {
        let Coordinator {
            name,
            stores,
            branches,
        } = self;
        (stores, Paused { name, branches })
    }
}

impl Paused {
    /// Makes the coordinator again, over the given sessions.
    ///
    /// `stores`: a session of each of its stores, in the same order, 1 to 16. Each must have open what the
    /// coordinator has open in its store. The stores get no statement.
    /// Takes no memory. Doesn't wait.
    /// Own rule: docs/COORDINATOR.md#renewal-between-calls.
    pub fn resume<S: Speak>(self, stores: Vec<S>) -> Coordinator<S>
        requires sized { (1 ≤ vec_len stores) × (vec_len stores ≤ 16) }
        requires open_there { OpenThere S.view self.name.items stores.items self.branches }
        // Proved (coordinator, pause)
        ensures name { result.name ≡ self.name }
        // Proved (coordinator, pause)
        ensures stores { result.stores ≡ stores }
        // Proved (coordinator, pause)
        ensures branches { result.branches ≡ self.branches }
    {
        let Paused { name, branches } = self;
        Coordinator {
            name,
            stores,
            branches,
        }
    }
}
