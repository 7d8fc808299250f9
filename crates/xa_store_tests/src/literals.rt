//! Literals and identifiers, each with what is read of it. Statements are in cases/.

use std::alloc::Global;
use xa_lines::push_number;
use xa_xid::{read_literal, read_xid, with_part, with_xid};

/// A literal, and the place after it with its bytes, or the number of its fault.
const LITERALS: &str = r#"'a' => 3 0x61
X'' => 3 X''
0x414 => 5 0x0414
'\N\n' => 6 0x4e0a
"it''s" => 7 0x6974272773
'it''s' => 7 0x69742773
'a' 'b' => 3 0x61
'' => 2 X''
'''' => 4 0x27
x'4A4b'c => 7 0x4a4b
0x4A, => 4 0x4a
'\0\b\r\t\Z\\\%\_\'\"' => 22 0x00080d091a5c5c255c5f2722
0x0 => 3 0x00
X'4' => fault 3
X'4g' => fault 1
0x => fault 1
0x4g => fault 1
0X41 => fault 1
X'41 => fault 2
X' => fault 2
X'4 => fault 2
x'4" => fault 1
' => fault 2
"a' => fault 2
'a'' => fault 2
'a\' => fault 2
 => fault 1
 'a' => fault 1
X => fault 1
12 => fault 1
, => fault 1
0x41_ => fault 1
0x00000000000000000000000000000000000000000000000000000000000000000000000000000000000000000000000000000000000000000000000000000000 => 130 0x00000000000000000000000000000000000000000000000000000000000000000000000000000000000000000000000000000000000000000000000000000000
0x000000000000000000000000000000000000000000000000000000000000000000000000000000000000000000000000000000000000000000000000000000000 => fault 4
X'000000000000000000000000000000000000000000000000000000000000000000000000000000000000000000000000000000000000000000000000000000000 => fault 2
X'000000000000000000000000000000000000000000000000000000000000000000000000000000000000000000000000000000000000000000000000000000000' => fault 3
X'0000000000000000000000000000000000000000000000000000000000000000000000000000000000000000000000000000000000000000000000000000000000' => fault 4
'aaaaaaaaaaaaaaaaaaaaaaaaaaaaaaaaaaaaaaaaaaaaaaaaaaaaaaaaaaaaaaaaa => fault 2
'aaaaaaaaaaaaaaaaaaaaaaaaaaaaaaaaaaaaaaaaaaaaaaaaaaaaaaaaaaaaaaaaa' => fault 4
"#;

/// An identifier, and the place after it with its canonical text, or the number of the fault and the place of
/// its token.
const XIDS: &str = r#"'a' , 0x4 => 9 0x61,0x04,1
'a'  => 3 0x61,X'',1
'a',"",0x10 ; => 11 0x61,X'',16
'abc','def',7 => 13 0x616263,0x646566,7
'',X'FE01',00 => 13 X'',0xfe01,0
'a','',18446744073709551615 => 27 0x61,X'',18446744073709551615
'a', 'b' 7 => 8 0x61,0x62,1
'a', => fault 1 at 4
'a',  => fault 1 at 5
'a','',18446744073709551616 => fault 5 at 7
'a','',x1 => fault 1 at 7
  X'1' => fault 3 at 2
'','',0x00000000000000000000000000000000000000000000000000000000000000000000000000000000000000000000000000000000000000000000000000000000 => 136 X'',X'',0
'','',0x000000000000000000000000000000000000000000000000000000000000000000000000000000000000000000000000000000000000000000000000000000000 => 137 X'',X'',0
 => fault 1 at 0
"#;

/// A number between two texts.
fn numbered(alloc: Global, before: &[u8], number: u64, after: &[u8]) -> Option<Vec<u8>> {
    let mut text = Vec::from_slice(alloc, before).ok()?;
    push_number(&mut text, number).ok()?;
    text.extend_from_slice(after).ok()?;
    Some(text)
}

/// Two numbers, each after a text.
fn numbered_twice(
    alloc: Global,
    before: &[u8],
    first: u64,
    between: &[u8],
    second: u64,
) -> Option<Vec<u8>> {
    let mut text = numbered(alloc, before, first, between)?;
    push_number(&mut text, second).ok()?;
    Some(text)
}

/// What is read of a literal.
fn literal_told(alloc: Global, text: &[u8]) -> Option<Vec<u8>> {
    match read_literal(text, 0) {
        Ok((bytes, next)) => {
            with_part(numbered(alloc, b"", next as u64, b" ")?, bytes.as_slice()).ok()
        }
        Err(fault) => numbered(alloc, b"fault ", fault.number(), b""),
    }
}

/// What is read of an identifier.
fn xid_told(alloc: Global, text: &[u8]) -> Option<Vec<u8>> {
    match read_xid(text, 0) {
        Ok((xid, next)) => with_xid(numbered(alloc, b"", next as u64, b" ")?, &xid).ok(),
        Err((fault, place)) => {
            numbered_twice(alloc, b"fault ", fault.number(), b" at ", place as u64)
        }
    }
}

/// Whether what is read of a text is what is wanted.
fn is_told(told: Option<Vec<u8>>, wanted: &str) -> bool {
    match told {
        Some(told) => told.as_slice() == wanted.as_bytes(),
        None => false,
    }
}

#[test]
fn literals_are_read_to_their_end(rt: HostRuntime) {
    for line in LITERALS.lines() {
        let (text, wanted) = line.split_once(" => ").unwrap_or((line, ""));
        let told = literal_told(rt.alloc(), text.as_bytes());
        assert!(rt; is_told(told, wanted), "{line}");
    }
}

#[test]
fn xids_are_read_to_their_last_token(rt: HostRuntime) {
    for line in XIDS.lines() {
        let (text, wanted) = line.split_once(" => ").unwrap_or((line, ""));
        let told = xid_told(rt.alloc(), text.as_bytes());
        assert!(rt; is_told(told, wanted), "{line}");
    }
}
