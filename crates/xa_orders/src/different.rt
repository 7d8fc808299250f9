//! How many ways of a list differ.
ghost use Rattle.std.specs.Prelude.{◌≡◌, ◌≤◌, true, length, IfOk};
ghost use Rattle.xa_orders.specs.{Found.{config_of, HasDifferent, IsSpread}, Marks.mark};

use crate::marks::with_values;
use crate::way::Way;
use std::alloc::Global;
use std::collections::BTreeSet;
use xa_xid::{Key, NoMemory};

/// The number by which a way is told apart: made of its answers and of the committed values of these rows.
#[tactic(auto, unfolding(crate::specs::Marks::mark))]
fn mark_of(way: &Way, keys: &[Key]) -> Result<u64, NoMemory>
    ensures { IfOk result (λ number. number ≡ mark keys.now (config_of way.now)) }
{
    let answers = way.answers.add_to(0);
    match way.server.own() {
        Some(server) => Ok(with_values(answers, server, keys)),
        // It is kept as statements, so it has to be made for its values.
        None => Ok(with_values(answers, &way.server.made()?, keys)),
    }
}

/// How many ways of the list are known to differ, each from each other: as many as there are different numbers
/// (`mark_of`) made of their answers and of the committed values of these rows.
fn count_different(alloc: Global, known: &[Way], keys: &[Key]) -> Result<usize, NoMemory>
    ensures different { IfOk result (λ count. HasDifferent count known.now) }
    ensures within { IfOk result (λ count. count ≤ length known.now) }
{
    let mut marks = BTreeSet::new(alloc);
    let mut count = 0;
    for way in known {
        let number = mark_of(way, keys)?;
        if marks.insert(number)? {
            count += 1;
        }
    }
    Ok(count)
}

/// Tells whether more than `limit` ways of the list are known to differ, each from each other. `keys` are those of
/// the rows that lines write.
///
/// `most`: a list of at most so many ways isn't looked through, since no more than `limit` of its ways are known to
/// differ. The caller begins with `limit`; `most` grows each time that a longer list turns out to have at most `limit`
/// different ways. Until the caller begins anew, it only adds ways to the list.
/// May return `NoMemory`.
pub fn is_wide(
    alloc: Global,
    known: &[Way],
    keys: &[Key],
    limit: usize,
    most: &mut usize,
) -> Result<bool, NoMemory>
    ensures { IfOk result (λ wide. wide ≡ true → IsSpread limit known.now) }
{
    // In a list of at most this length no more than `limit` ways can be known to differ, so they aren't counted.
    if known.len() <= *most {
        return Ok(false);
    }
    let different = count_different(alloc, known, keys)?;
    if limit < different {
        return Ok(true);
    }
    // Each way that is added makes at most one more number, so up to this length there are at most `limit` numbers. If
    // the sum were cut, no list could be longer than it.
    *most = known.len().saturating_add(limit - different);
    Ok(false)
}
