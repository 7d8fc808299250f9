//! A known difference between a server and the rules.
ghost use Rattle.std.specs.Prelude.{◌≡◌, [], ◌∷◌, ◌++◌, IfOk, OnOk};
ghost use Rattle.xa_record.specs.Allowances.{lets_stand as lets_stand_so, allowed_for, others_for as others_of};

use crate::statement_kind::StatementKind;
use std::alloc::Global;
use xa_xid::NoMemory;

/// A known difference: if the rules refuse a statement of this kind with one number, the server may give
/// another.
///
/// Own rule: docs/HISTORIES.md#allowances.
#[derive(Clone, Copy, Debug, PartialEq, Eq)]
pub struct Allowance {
    /// The number with which the rules refuse the statement, in `[0, 65535]`.
    pub rules: u16,
    /// The kind of statement.
    pub kind: StatementKind,
    /// The number that the server may give instead, in `[0, 65535]`.
    pub server: u16,
}

impl Allowance {
    /// Whether `number`, which the server gave, may stand for the rules' number, as the answer to a statement of
    /// this kind.
    fn lets_stand(&self, kind: StatementKind, number: u16) -> bool
        ensures { result ≡ lets_stand_so self.now kind number }
    {
        // Two kinds are the same if their words are.
        self.server == number && self.kind.words() == kind.words()
    }

    /// Appends the rules' number, if `number`, which the server gave as the answer to a statement of this kind, may
    /// stand for it. Else appends nothing.
    fn push_allowed(
        &self,
        others: &mut Vec<u16>,
        kind: StatementKind,
        number: u16,
    ) -> Result<(), NoMemory>
        ensures { OnOk result (others.new.items ≡ others.old.items ++ allowed_for (self.now ∷ []) kind number) }
    {
        if self.lets_stand(kind, number) {
            others.push(self.rules)?;
        }
        Ok(())
    }
}

/// The rules' numbers for which `number`, which the server gave, may stand, as the answer to a statement of this kind.
fn others_allowed(
    alloc: Global,
    allowances: &[Allowance],
    kind: StatementKind,
    number: u16,
) -> Result<Vec<u16>, NoMemory>
    ensures { IfOk result (λ others. others.items ≡ allowed_for allowances.now kind number) }
{
    let mut others = Vec::new(alloc);
    for one in allowances {
        one.push_allowed(&mut others, kind, number)?;
    }
    Ok(others)
}

/// Returns the rules' numbers for which `number`, which the server gave as the answer to a request of this kind, may
/// stand by the allowances. There are none if `kind` is None: a text that isn't a statement has no kind, nor has one
/// with a clause that isn't supported.
///
/// May return `NoMemory`.
pub fn others_for(
    alloc: Global,
    allowances: &[Allowance],
    kind: Option<StatementKind>,
    number: u16,
) -> Result<Vec<u16>, NoMemory>
    ensures { IfOk result (λ others. others.items ≡ others_of allowances.now kind number) }
{
    match kind {
        None => Ok(Vec::new(alloc)),
        Some(kind) => others_allowed(alloc, allowances, kind, number),
    }
}
