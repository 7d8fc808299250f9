//! Lines that hold their expected answers.

/// Returns what a line gives, which is the text before its first `=`, and the expected answer, which is the text after
/// `= `. If no space follows the `=`, the answer begins with it. It is empty if the line has no `=`.
///
/// Takes no memory. Doesn't wait.
pub fn split_case(line: &[u8]) -> (&[u8], &[u8]) {
    let at = line
        .iter()
        .position(|byte| *byte == b'=')
        .unwrap_or(line.len());
    let (given, wanted) = line.split_at(at);
    match wanted {
        [b'=', b' ', wanted @ ..] => (given, wanted),
        _ => (given, wanted),
    }
}

/// Returns whether a text is this answer, in which `|` may stand for a line feed.
///
/// Takes no memory. Doesn't wait.
pub fn is_answer(text: &[u8], wanted: &[u8]) -> bool {
    text.len() == wanted.len()
        && text.iter().zip(wanted).all(|(found, byte)| *found == *byte
            || (*found == b'\n' && *byte == b'|'))
}
