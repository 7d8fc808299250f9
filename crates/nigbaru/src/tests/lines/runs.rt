//! Runs over streams that fault, give little at a time, or give much.
use std::alloc::Global;
use std::test::Fail;
use xa_lines::{CutReader, CutWriter, ScriptFault, run_script};

/// A script of 126 bytes.
const SCRIPT: &[u8] = b"1 XA START 'abc','def'\n1 XA END 'abc','def'\n1 XA PREPARE 'abc','def'\n\
1 XA COMMIT 'abc','def'\n1 XA COMMIT 'abc','def'\n";

/// What answers it: the case committed_once.
const ANSWERS: &[u8] = b"1 OK\n1 OK\n1 OK\n1 OK\n1 ERROR 1397 (XAE04): XAER_NOTA unknown xid\n";

#[test]
fn read_fault_leaves_nothing(rt: HostRuntime) {
    for reads in 0..21 {
        let mut input = CutReader::once(SCRIPT, 6, reads);
        let mut output = Vec::new(rt.alloc());
        let result = run_script(rt.alloc(), &mut input, &mut output);
        assert_eq!(rt; result, Err(ScriptFault::Read));
        assert!(rt; output.is_empty() && input.reads_after_a_fault() == 0);
    }
}

#[test]
fn write_fault_leaves_a_prefix(rt: HostRuntime) {
    for room in 0..ANSWERS.len() {
        let mut input = SCRIPT;
        let mut output = CutWriter::once(rt.alloc(), 3, room);
        let result = run_script(rt.alloc(), &mut input, &mut output);
        assert_eq!(rt; result, Err(ScriptFault::Write));
        let is_prefix = Some(output.as_slice()) == ANSWERS.get(..room);
        assert!(rt; is_prefix && output.writes_after_a_fault() == 0);
    }
}

#[test]
fn pieces_of_a_script_make_no_difference(rt: HostRuntime) -> Result<(), Fail> {
    for piece in 1..40 {
        let mut input = CutReader::new(SCRIPT, piece, 1000);
        let mut output = CutWriter::new(rt.alloc(), piece, 1000);
        run_script(rt.alloc(), &mut input, &mut output)?;
        assert_eq!(rt; output.as_slice(), ANSWERS);
    }
    Ok(())
}

/// So many spaces.
fn spaces(alloc: Global, count: u64) -> Option<Vec<u8>> {
    let mut spaces = Vec::new(alloc);
    for _ in 0..count {
        spaces.push(b' ').ok()?;
    }
    Some(spaces)
}

/// How many reads of 2,097,152 are left after a run that takes a byte at a time, if it writes nothing.
fn reads_left(alloc: Global, script: &[u8]) -> Option<u64> {
    let mut input = CutReader::new(script, 1, 2_097_152);
    let mut output = Vec::new(alloc);
    run_script(alloc, &mut input, &mut output).ok()?;
    if output.is_empty() {
        Some(input.reads_left())
    } else {
        None
    }
}

/// Whether a script is too long, and nothing is written for it.
fn is_too_long(alloc: Global, mut script: &[u8]) -> bool {
    let mut output = Vec::new(alloc);
    let result = run_script(alloc, &mut script, &mut output);
    result == Err(ScriptFault::TooLong) && output.is_empty()
}

#[test]
fn script_takes_at_most_2097152_reads(rt: HostRuntime) {
    let alloc = rt.alloc();
    let left = match spaces(alloc, 1_048_576) {
        Some(script) => reads_left(alloc, script.as_slice()),
        None => None,
    };
    assert_eq!(rt; left, Some(2_097_152 - 1_048_577));
    let is_refused = match spaces(alloc, 1_048_577) {
        Some(script) => is_too_long(alloc, script.as_slice()),
        None => false,
    };
    assert!(rt; is_refused);
}
