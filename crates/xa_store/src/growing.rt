//! Lists that grow by one element, if there is memory.
ghost use Rattle.std.specs.Prelude.{◌≡◌, ◌++◌, ◌∷◌, [], Ok, IfOk};

use xa_xid::NoMemory;

/// Appends one element to a list. `NoMemory` if either is that error, or if the list can't grow.
pub(crate) fn and_last<T: Drop>(
    others: Result<Vec<T>, NoMemory>,
    last: Result<T, NoMemory>,
) -> Result<Vec<T>, NoMemory>
    ensures { IfOk result (λ all. (before : _) × (one : _) × (others ≡ Ok before) × (last ≡ Ok one)
        × (all.items ≡ before.items ++ one ∷ [])) }
{
    let mut all = others?;
    all.push(last?)?;
    Ok(all)
}

/// Appends `first` to the first of two lists, and `second` to the second. `NoMemory` if `others` is that error,
/// or if a list can't grow.
pub(crate) fn and_both<A: Drop, B: Drop>(
    others: Result<(Vec<A>, Vec<B>), NoMemory>,
    first: A,
    second: B,
) -> Result<(Vec<A>, Vec<B>), NoMemory>
    ensures { IfOk result
        (λ both. (before : _) × (others ≡ Ok before) × (both.0.items ≡ before.0.items ++ first ∷ [])
        × (both.1.items ≡ before.1.items ++ second ∷ [])) }
{
    let (mut firsts, mut seconds) = others?;
    firsts.push(first)?;
    seconds.push(second)?;
    Ok((firsts, seconds))
}
