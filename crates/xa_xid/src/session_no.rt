//! The number of a session.
ghost use Rattle.std.specs.Prelude.{◌≡◌, ◌≤◌, IsSome, IfSome, ◌↔◌};

use std::marker::Model;

/// The number of a session, in `[1, 16]`. A contract sees it as that number.
#[derive(Clone, Copy, Debug, PartialEq, Eq, PartialOrd, Ord)]
pub struct SessionNo {
    /// The number itself.
    number: u8,
}

impl Model for SessionNo {
    ghost use Rattle.std.specs.Prelude.{ℕ, ◌≤◌};

    ghost Value = { ℕ };

    ghost view = { λ s. s.number };

    ghost invariant = { λ s. (1 ≤ s.number) × (s.number ≤ 16) };

    ghost inverse = { λ n. record { number = n } };
}

impl SessionNo {
    /// The greatest session number.
    pub const MAX: u64 = 16;

    /// Returns the session of this number, or `None` if the number isn't in `[1, 16]`.
    ///
    /// Takes no memory. Doesn't wait.
    pub fn of(number: u64) -> Option<SessionNo>
        // Proved (statements, session-numbers): A session's number is from 1 to 16, and each such number
        //   has a session.
        ensures in_range { IsSome result ↔ ((1 ≤ number) × (number ≤ 16)) }
        // Proved (statements, session-numbers)
        ensures number { IfSome result (λ session. session ≡ number) }
    {
        if 1 <= number && number <= Self::MAX {
            Some(SessionNo {
                number: number as u8,
            })
        } else {
            None
        }
    }

    /// Returns the number, in `[1, 16]`.
    ///
    /// Takes no memory. Doesn't wait.
    pub fn get(&self) -> u64
        // Proved (statements, session-numbers)
        ensures value { result ≡ self.now }
        // Proved (statements, session-numbers)
        ensures in_range { (1 ≤ result) × (result ≤ 16) }
    {
        self.number as u64
    }
}
