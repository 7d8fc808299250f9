//! The forms of the lines that jobs write.
ghost use Rattle.std.specs.Prelude.{◌≡◌};
ghost use Rattle.xa_lines.specs.Objects.{form_for};

use crate::json_fitting::fits;

/// The forms. A line's form is the first one that fits it. Each line of a form is a part, which `Mark` explains.
/// Where two forms fit a line, the narrower one comes first: `STOP` with numbers before `STOP` with any rest, the rows
/// of a reply before answers, which have fewer numbers, a statement before a reply, and a reply with a place before one
/// without.
const FORMS: [&[u8]; 18] = [
    b"!verdict",
    b"OUTCOMES\n#outcomes",
    b"OUTCOME\n#outcome",
    b"OUTCOME\n#outcome\nCAME\n#came",
    b"ORDER\n=order",
    b"SEEN\n#seen",
    b"SEEN\n#seen\nOF\n#of\nOUTCOMES",
    b"HISTORY\n#history",
    b"STOPS\n#stops",
    b"STOP\n#stop\n#calls",
    b"STOP\n=stop",
    b"RECOVERED\ncommitted\n#committed\nrolled\nback\n#rolled_back\nmissing\n#missing",
    b"ROW\n#store\n$key\n=value",
    b"LINE\n#line\n=fault",
    b"#format\n#gtrid_length\n#bqual_length\n=data",
    b"#place\n#session\n~statement",
    b"#session\n#place\n=reply",
    b"#session\n=reply",
];

/// Returns the form of a line: the first that fits it, or else `=text`, which makes the whole line one string.
///
/// Takes no memory. Doesn't wait.
pub fn form_of(line: &[u8]) -> &'static [u8]
    ensures { result.now ≡ form_for line.now }
{
    for form in FORMS {
        if fits(form, line) {
            return form;
        }
    }
    b"=text"
}
