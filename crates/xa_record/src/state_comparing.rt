//! The first line in which two texts differ.

use xa_lines::split_line;

/// The first line of the text, and the text after it; both are empty if there is none.
fn next_line(text: &[u8]) -> (&[u8], &[u8]) {
    if text.is_empty() {
        (text, text)
    } else {
        split_line(text)
    }
}

/// Returns the number, counted from 1, of the first line in which the texts differ. They aren't the same.
///
/// Takes no memory. Doesn't wait.
pub fn first_difference(left: &[u8], right: &[u8]) -> u64 {
    let mut number: u64 = 1;
    let mut left_rest = left;
    let mut right_rest = right;
    while !left_rest.is_empty() {
        let (left_line, left_lines) = split_line(left_rest);
        let (right_line, right_lines) = next_line(right_rest);
        // Past the end of the second text `right_line` is empty, as a line of the first text may be.
        if left_line != right_line || right_rest.is_empty() {
            return number;
        }
        // A text has fewer than 2^64 lines, so it never saturates.
        number = number.saturating_add(1);
        left_rest = left_lines;
        right_rest = right_lines;
    }
    // All lines of the first text are those of the second. If no line follows in the second, the texts differ only in
    // the line feed of the last line compared. So one was compared, its number is `number - 1`, and that is at least 1.
    if right_rest.is_empty() {
        number.saturating_sub(1)
    } else {
        number
    }
}
