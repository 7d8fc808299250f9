//! The reasons for which a statement is refused.
ghost use Rattle.std.specs.Prelude.{◌≡◌, Some};

use std::error::Error;
use std::fmt;

/// The state of a session or a branch, as a refusal names it.
///
/// Source: MySQL 8.0 Reference Manual, 'XA Transaction States'.
#[derive(Clone, Copy, Debug, PartialEq, Eq)]
pub enum BranchState {
    /// No branch.
    NonExisting,
    /// A branch that takes work.
    Active,
    /// A branch whose work has ended.
    Idle,
    /// A branch that was prepared.
    Prepared,
}

impl fmt::Display for BranchState {
    ghost use Rattle.xa_server.specs.Errors.{state_text};

    // Proved (server, refusal-texts): The printed text of a refusal, and the name of the state in it, are
    //   those of the table of printed replies.
    ghost output = { λ state. Some (state_text state) };

    fn fmt<W: fmt::Write>(&self, f: &mut fmt::Formatter<W>) -> fmt::Result {
        f.write_str(match self {
            BranchState::NonExisting => "NON-EXISTING",
            BranchState::Active => "ACTIVE",
            BranchState::Idle => "IDLE",
            BranchState::Prepared => "PREPARED",
        })
    }
}

/// The reason for which a statement is refused. A refused statement changes nothing.
///
/// Its text is printed after the number and the SQLSTATE.
/// Source: MySQL 8.0 Reference Manual, 'Server Error Message Reference', for numbers, SQLSTATEs and names;
/// X/Open C193, the return codes of `xa_start()` and the other calls.
/// Own rule: docs/COMMANDS.md#printed-replies for the texts.
/// When each is returned: docs/STATEMENTS.md#replies.
#[derive(Clone, Copy, Debug, PartialEq, Eq)]
pub enum XaError {
    /// 1397 XAER_NOTA: no branch that the statement could mean has this identifier.
    Nota,
    /// 1398 XAER_INVAL: the statement is recognised but not supported.
    Inval,
    /// 1399 XAER_RMFAIL: the statement isn't allowed in this state.
    Rmfail(BranchState),
    /// 1440 XAER_DUPID: a branch has this identifier already.
    Dupid,
    /// 3572: another branch holds the row exclusively; at `PUT` and `DEL` also if another branch shares it.
    /// No session waits.
    RowLocked,
}

impl fmt::Display for XaError {
    ghost use Rattle.xa_server.specs.Errors.{message_of};

    // Proved (server, refusal-texts)
    ghost output = { λ error. Some (message_of error) };

    fn fmt<W: fmt::Write>(&self, f: &mut fmt::Formatter<W>) -> fmt::Result {
        match self {
            XaError::Nota => f.write_str("XAER_NOTA unknown xid"),
            XaError::Inval => f.write_str("XAER_INVAL clause not supported"),
            XaError::Rmfail(state) => write!(f, "XAER_RMFAIL state {state}"),
            XaError::Dupid => f.write_str("XAER_DUPID xid already exists"),
            XaError::RowLocked => f.write_str("row locked by another branch"),
        }
    }
}

impl Error for XaError {}

impl XaError {
    ghost use Rattle.xa_server.specs.Errors.{number_of, sqlstate_of, xa_code_of};

    /// Returns the server's error number.
    ///
    /// Takes no memory. Doesn't wait.
    /// Source: MySQL 8.0 Reference Manual, 'Server Error Message Reference'.
    pub fn number(&self) -> u16
        // Proved (server, refusal-codes): The number, the SQLSTATE and the XA code of a refusal are those
        //   of the table of errors.
        ensures { result ≡ number_of self.now }
    {
        match self {
            XaError::Nota => 1397,
            XaError::Inval => 1398,
            XaError::Rmfail(_) => 1399,
            XaError::Dupid => 1440,
            XaError::RowLocked => 3572,
        }
    }

    /// Returns the five characters of the SQLSTATE.
    ///
    /// Takes no memory. Doesn't wait.
    /// Source: MySQL 8.0 Reference Manual, 'Server Error Message Reference'.
    pub fn sqlstate(&self) -> &'static str
        // Proved (server, refusal-codes)
        ensures { result.now ≡ sqlstate_of self.now }
    {
        match self {
            XaError::Nota => "XAE04",
            XaError::Inval => "XAE05",
            XaError::Rmfail(_) => "XAE07",
            XaError::Dupid => "XAE08",
            XaError::RowLocked => "HY000",
        }
    }

    /// Returns the XA return code, or `None` if the refusal has none.
    ///
    /// Takes no memory. Doesn't wait.
    /// Source: X/Open C193, the return codes.
    pub fn xa_code(&self) -> Option<i8>
        // Proved (server, refusal-codes)
        ensures { result ≡ xa_code_of self.now }
    {
        match self {
            XaError::Nota => Some(-4),
            XaError::Inval => Some(-5),
            XaError::Rmfail(_) => Some(-7),
            XaError::Dupid => Some(-8),
            XaError::RowLocked => None,
        }
    }
}
