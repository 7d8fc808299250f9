//! Whether statements ask for identifiers in hexadecimal digits.
ghost use Rattle.std.specs.Prelude.{◌≡◌, IfOk, map};
ghost use Rattle.xa_lines.specs.Printed.{converts as converts_of};

use std::alloc::Global;
use xa_lines::converts;
use xa_xid::{NoMemory, Statement};

/// For each of these statements, in order, whether it asks for identifiers in hexadecimal digits: `XA RECOVER CONVERT
/// XID` alone does.
fn asked_by(alloc: Global, statements: &[Statement]) -> Result<Vec<bool>, NoMemory>
    ensures { IfOk result (λ asked. asked.items ≡ map converts_of statements.now) }
{
    let mut asked = Vec::new(alloc);
    for statement in statements {
        asked.push(converts(statement))?;
    }
    Ok(asked)
}

/// Tells of each statement of each list, in order, whether it asks for identifiers in hexadecimal digits.
///
/// May return `NoMemory`. Doesn't wait.
pub fn asked_of(alloc: Global, lists: &[Vec<Statement>]) -> Result<Vec<Vec<bool>>, NoMemory>
    ensures { IfOk result (λ asked. map (λ list. list.items) asked.items
        ≡ map (λ list. map converts_of list.items) lists.now) }
{
    let mut asked = Vec::new(alloc);
    for list in lists {
        let one = asked_by(alloc, list.as_slice())?;
        asked.push(one)?;
    }
    Ok(asked)
}
