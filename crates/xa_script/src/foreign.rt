//! Forms of a text whose lines are likely not read as its writer meant them.
ghost use Rattle.std.specs.Prelude.{◌≡◌, false};
ghost use Rattle.xa_script.specs.Foreign.{begins_with_mark, begins_as_utf16, has_byte, begins_line, goes_on};
ghost use Rattle.xa_script.specs.Foreign.{foreign_of};

/// The form of a text whose lines are likely not read as its writer meant them.
#[derive(Clone, Copy, Debug, PartialEq, Eq)]
pub enum Foreign {
    /// It begins with the byte order mark of UTF-8.
    Marked,
    /// It is UTF-16, as far as its first four bytes show.
    Utf16,
    /// It has carriage returns and no line feed.
    Returns,
    /// Some of its lines seem to end in carriage returns alone.
    Mixed,
}

/// Returns whether a text begins with the byte order mark of UTF-8.
fn is_marked(text: &[u8]) -> bool
    ensures { result ≡ begins_with_mark text.now }
{
    match text {
        [one, two, three, ..] => *one == 0xef && *two == 0xbb && *three == 0xbf,
        _ => false,
    }
}

/// Returns whether a text has at least four bytes, and they begin with a byte order mark of UTF-16 or are two units of
/// UTF-16 below 256, as those of ASCII are.
fn is_utf16(text: &[u8]) -> bool
    ensures { result ≡ begins_as_utf16 text.now }
{
    match text {
        [one, two, three, four, ..] => {
            let marked = (*one == 0xff && *two == 0xfe) || (*one == 0xfe && *two == 0xff);
            // Either the greater halves of the units come first, or the smaller ones.
            let plain = (*one == 0 && *three == 0) || (*two == 0 && *four == 0);
            marked || plain
        }
        _ => false,
    }
}

/// Returns whether a byte is in a text.
fn contains(text: &[u8], byte: u8) -> bool
    ensures { result ≡ has_byte byte text.now }
{
    text.contains(&byte)
}

/// Returns whether a byte begins a line of a record: a digit, or the sign of a comment.
fn is_first(byte: u8) -> bool
    ensures { result ≡ begins_line byte }
{
    byte == b'#' || (b'0' <= byte && byte <= b'9')
}

/// Returns whether a carriage return in a text is directly before a byte that begins a line of a record.
fn goes_on_behind(text: &[u8]) -> bool
    ensures { result ≡ goes_on false text.now }
{
    let mut returned = false;
    for byte in text {
        if returned && is_first(*byte) {
            return true;
        }
        returned = *byte == b'\r';
    }
    false
}

/// Returns in which of these forms a text is, if it is in one: the first that fits, as tested below.
///
/// Takes no memory. Doesn't wait.
/// Own rule: docs/HISTORIES.md#records.
pub fn foreign_in(text: &[u8]) -> Option<Foreign>
    // Proved (scripts, foreign-records): A text is found to be in another form than a record's in exactly these cases.
    //   It begins with a byte order mark or as UTF-16 does, it has carriage returns and no line feed, or it has a digit
    //   or `#` directly after a carriage return.
    ensures { result ≡ foreign_of text.now }
{
    // How a text begins says more than its carriage returns, which may be parts of other units in UTF-16.
    if is_utf16(text) {
        Some(Foreign::Utf16)
    } else if is_marked(text) {
        Some(Foreign::Marked)
    } else if contains(text, b'\r') && !contains(text, b'\n') {
        Some(Foreign::Returns)
    } else if goes_on_behind(text) {
        Some(Foreign::Mixed)
    } else {
        None
    }
}

impl Foreign {
    /// Returns what the standard error says of such a record.
    ///
    /// Takes no memory. Doesn't wait.
    pub fn advice(self) -> &'static str {
        match self {
            Foreign::Marked => {
                "the record begins with a byte order mark; write it without, for example by: tail -c +4"
            }
            Foreign::Utf16 => {
                "the record is in UTF-16; write it in UTF-8, for example by: iconv -f UTF-16 -t UTF-8"
            }
            Foreign::Returns => {
                "the record has carriage returns and no line feed, so it is one line; end its lines in line feeds, \
for example by: tr '\\r' '\\n'"
            }
            Foreign::Mixed => {
                "the record has a digit or # directly behind a carriage return, which doesn't end a line; if a line is \
to begin there, end lines in line feeds, for example by: tr '\\r' '\\n'"
            }
        }
    }
}
