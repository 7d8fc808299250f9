//! Conversations in pieces, and over clients that fault.
ghost use Rattle.std.specs.Prelude.{◌<◌};

use std::alloc::Global;
use xa_lines::{Recorded, ScriptFault, serve_statements, show_statements};

/// A conversation, whose last line lacks its line feed.
const TALK: &[u8] = b"1 XA START 'a'\n1 GET 'k'\n\n \t\r\n# so\n2 XA RECOVER\r\nwhat\n2 GET 'k'";

/// What answers it.
const ANSWERS: &[u8] = b"1 OK\n1 NONE\n- ERROR 1064 (42000): syntax fault at byte 0\n2 ROWS 0\n\
- ERROR 1064 (42000): syntax fault at byte 0\n2 NONE\n";

/// What is shown for it.
const SHOWN: &[u8] = b"1 OK
  BRANCH 0x61,X'',1 ACTIVE SESSION 1
1 NONE
  BRANCH 0x61,X'',1 ACTIVE SESSION 1
    SHARES 0x6b
  ROW 0x6b NONE
  # so
2 ROWS 0
  BRANCH 0x61,X'',1 ACTIVE SESSION 1
    SHARES 0x6b
- ERROR 1064 (42000): syntax fault at byte 0
  BRANCH 0x61,X'',1 ACTIVE SESSION 1
    SHARES 0x6b
2 NONE
  BRANCH 0x61,X'',1 ACTIVE SESSION 1
    SHARES 0x6b
  ROW 0x6b NONE
";

/// Whether the conversation is answered in pieces of so many bytes.
fn is_answered(alloc: Global, piece: usize) -> bool
    requires { 0 < piece }
{
    let mut client = Recorded::new(alloc, TALK, piece, 1000, 1000);
    serve_statements(alloc, &mut client).is_ok()
        && client.told() == ANSWERS
        && client.given() == ANSWERS
}

/// Whether it is shown in pieces of so many bytes.
fn is_shown(alloc: Global, piece: usize) -> bool
    requires { 0 < piece }
{
    let mut client = Recorded::new(alloc, TALK, piece, 1000, 1000);
    show_statements(alloc, &mut client).is_ok() && client.told() == SHOWN
}

#[test]
fn each_line_is_answered_in_any_pieces(rt: HostRuntime) {
    for piece in 1..40 {
        assert!(rt; is_answered(rt.alloc(), piece), "in pieces of {piece}");
        assert!(rt; is_shown(rt.alloc(), piece), "in pieces of {piece}");
    }
}

#[test]
fn read_fault_ends_it_with_whole_lines_answered(rt: HostRuntime) {
    let talk = b"1 GET 'k'\n1 GET 'k'\n1 GET 'k'\n";
    let mut client = Recorded::new(rt.alloc(), talk, 13, 2, 1000);
    let result = serve_statements(rt.alloc(), &mut client);
    assert_eq!(rt; result, Err(ScriptFault::Read));
    assert_eq!(rt; client.told(), b"1 NONE\n1 NONE\n".as_slice());
}

#[test]
fn write_fault_leaves_a_prefix(rt: HostRuntime) {
    for room in 0..ANSWERS.len() {
        let mut client = Recorded::new(rt.alloc(), TALK, 9, 1000, room);
        let result = serve_statements(rt.alloc(), &mut client);
        let is_cut = result == Err(ScriptFault::Write) && client.given() == &ANSWERS[..room];
        assert!(rt; is_cut, "with room for {room}");
    }
}
