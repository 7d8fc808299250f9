//! Parts of a record that are left out as a whole, or not at all.

/// Whether a part is there.
#[derive(Clone, Copy, Debug, PartialEq, Eq)]
pub enum Standing {
    /// It was left out; or it is the call that returns on the ILLEGAL line, which is kept in any case.
    Out,
    /// It is there.
    In,
    /// It is there, and is to be left out next.
    Proposed,
}

/// What a call does, as its return shows.
#[derive(Clone, Copy, Debug, PartialEq, Eq)]
pub enum Does {
    /// It may write or change a branch.
    Changes,
    /// It reads.
    Reads,
    /// Nothing, since it is refused.
    Nothing,
}

/// A call with its return, or the loss of a client.
#[derive(Clone, Copy, Debug, PartialEq, Eq)]
pub struct Part {
    /// The number of the thing that it writes, among those that the ILLEGAL line shows, as `Sought::written_by` counts
    /// them from 1; 0 if it writes none of them.
    pub writes: usize,
    /// The number, from 0, of the part that starts its branch; its own number if it starts one, or belongs to none.
    pub start: usize,
    /// What it does.
    pub does: Does,
    /// Whether it is there.
    pub standing: Standing,
}

/// Where a line belongs.
#[derive(Clone, Copy, Debug, PartialEq, Eq)]
pub enum Belongs {
    /// To no part: it is blank or a comment, or its event comes behind that of the ILLEGAL line.
    Nowhere,
    /// To the part of this number, from 0.
    Part(usize),
    /// To the call that returns on the ILLEGAL line.
    Illegal,
}
