//! A way to a verdict.

/// A way to a verdict. Each gives one, or none.
#[derive(Clone, Copy, Debug)]
pub enum Way {
    /// At most eight configurations: most records need no more, and one that does is known soon.
    Narrow,
    /// At most 255 configurations.
    Wide,
    /// Free statements row by row.
    Rows,
    /// A search for one order that takes less time than what comes after it.
    ShortSearch,
    /// A search for one order that tries as much as any.
    WholeSearch,
    /// Configurations that later returns allow.
    LaterReturns,
    /// What comes after calls that don't overlap, by later returns, or by at most 255 configurations.
    BehindWide,
    /// What comes after calls that don't overlap, by later returns, or by as many configurations as are allowed.
    BehindAll,
}
