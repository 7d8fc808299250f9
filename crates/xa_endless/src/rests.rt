//! How sessions and checkpoints go to rest, and wake.
ghost use Rattle.std.specs.Prelude.{IfSome};
ghost use Rattle.xa_endless.specs.Resting.{IsAtRest, IsLeft};

use crate::Member;
use crate::checkpoint::Checkpoint;
use crate::resting::{RestingCheckpoint, RestingMember};

impl Member {
    /// Lets a session rest while nobody has it, as threads may share it then.
    pub(crate) fn rest(self) -> RestingMember
        ensures { IsAtRest self result }
    {
        let Member {
            pass,
            replica,
            told,
            based,
        } = self;
        RestingMember {
            pass: pass.rest(),
            replica,
            told,
            based,
        }
    }
}

impl RestingMember {
    /// Wakes a session for the caller that takes it. None if its pass isn't there, which can't be: `rest` left it.
    pub(crate) fn wake(self) -> Option<Member>
        ensures { IfSome result (λ member. IsAtRest member self) }
    {
        let RestingMember {
            pass,
            replica,
            told,
            based,
        } = self;
        let pass = pass.wake()?;
        Some(Member {
            pass,
            replica,
            told,
            based,
        })
    }
}

impl Checkpoint {
    /// Lets a checkpoint rest while no session has it, as threads may share it then.
    pub(crate) fn rest(self) -> RestingCheckpoint
        ensures { IsLeft self result }
    {
        let Checkpoint { spare, replica } = self;
        RestingCheckpoint {
            spare: spare.rest(),
            replica,
        }
    }
}

impl RestingCheckpoint {
    /// Wakes a checkpoint for the session that took it. None if its spare isn't there, which can't be: `rest` left it.
    pub(crate) fn wake(self) -> Option<Checkpoint>
        ensures { IfSome result (λ checkpoint. IsLeft checkpoint self) }
    {
        let RestingCheckpoint { spare, replica } = self;
        let spare = spare.wake()?;
        Some(Checkpoint { spare, replica })
    }
}
