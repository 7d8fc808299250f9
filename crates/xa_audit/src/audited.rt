//! How an audit ends, and what is written for it.
ghost use Rattle.std.specs.BTreeMap as tree;
ghost use Rattle.std.specs.Prelude.{◌≡◌, ℕ, List, IfOk};
ghost use Rattle.xa_audit.specs.{Audits.{ended_of as end_of, IsAuditOf, IsAudited}, Globals.global_cmp};
ghost use Rattle.xa_audit.specs.Written.{text_in as text_of_globals};

use crate::audit::Audit;
use crate::branches::Branches;
use crate::ended::Ended;
use crate::form::Form;
use crate::global::GlobalName;
use crate::globals::globals_of;
use crate::json_text::json_text;
use crate::lines_text::{count, last_text, lines_text};
use crate::verdict::Verdict;
use std::alloc::Global;
use std::collections::BTreeMap;
use xa_xid::NoMemory;

/// How an audit ends, and what is written for it.
#[derive(Drop)]
pub struct Audited {
    /// How it ends.
    pub ended: Ended,
    /// What is written.
    pub text: Vec<u8>,
}

/// How an audit of these global transactions ends: `AllAtomic` if each of them is ATOMIC, also if there is none; else
/// `SomeNotAtomic`.
#[tactic(auto, unfolding(crate::specs::Audits::ended_of))]
fn ended_of(globals: &BTreeMap<GlobalName, Branches>) -> Ended
    ensures ended { result ≡ end_of globals.now.entries }
    ensures ordered { tree.IsOrdered global_cmp globals.now }
{
    if count(Verdict::Atomic, globals) == globals.len() as u64 {
        Ended::AllAtomic
    } else {
        Ended::SomeNotAtomic
    }
}

/// The text of global transactions in a form.
fn text_in(
    alloc: Global,
    form: Form,
    globals: &BTreeMap<GlobalName, Branches>,
) -> Result<Vec<u8>, NoMemory>
    ensures { IfOk result (λ text. text.items ≡ text_of_globals form globals.now.entries) }
{
    match form {
        Form::Lines => lines_text(alloc, globals),
        Form::LastLine => last_text(alloc, globals),
        Form::Json => json_text(alloc, globals),
    }
}

/// Returns how an audit ends, and what is written for it.
///
/// If some line isn't read, the text has the faults of such lines and nothing else, whatever the form.
/// Errors: `NoMemory` if an allocation failed.
/// May return `NoMemory`. Doesn't wait.
/// Own rule: docs/HISTORIES.md#audits.
pub fn audit_text(alloc: Global, audit: Audit, form: Form) -> Result<Audited, NoMemory>
    // Proved (audit, text): If a line of some history isn't read, exactly such lines are written, each with
    //   its store, its number and the place of its fault. Otherwise the text has exactly the global
    //   transactions of the histories, ascending, each with its branches, the ends of their lives in order,
    //   and its verdict, in the form that is asked for. The end that is returned belongs to this text.
    ensures { IfOk result (λ audited. (histories : List (List ℕ)) → IsAuditOf histories audit
        → IsAudited histories form audited.ended audited.text.items) }
{
    if !audit.faults.is_empty() {
        return Ok(Audited {
            ended: Ended::Unread,
            text: audit.faults,
        });
    }
    let globals = globals_of(alloc, audit.branches.as_slice())?;
    Ok(Audited {
        ended: ended_of(&globals),
        text: text_in(alloc, form, &globals)?,
    })
}
