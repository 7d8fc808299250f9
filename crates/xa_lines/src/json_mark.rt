//! What a part of a form stands for.
ghost use Rattle.std.specs.Prelude.{◌≡◌, ◌∷◌};
ghost use Rattle.xa_lines.specs.Objects.{mark_of as mark_in};

/// What a part of a form stands for: its first byte says that, and the key is behind that byte.
#[derive(Clone, Copy, Debug, PartialEq, Eq)]
pub enum Mark {
    /// The word itself. It gets no key.
    Word,
    /// `#`: a number.
    Number,
    /// `$`: any word.
    Any,
    /// `=`: the rest of the line.
    Rest,
    /// `~`: the rest of the line, which begins as a statement does.
    Statement,
    /// `!`: the rest of the line, which is UNDECIDED.
    Undecided,
}

/// Returns what a part stands for.
///
/// Takes no memory. Doesn't wait.
pub fn mark_of(part: &[u8]) -> Mark
    ensures { result ≡ mark_in part.now }
{
    match part {
        [b'#', ..] => Mark::Number,
        [b'$', ..] => Mark::Any,
        [b'=', ..] => Mark::Rest,
        [b'~', ..] => Mark::Statement,
        [b'!', ..] => Mark::Undecided,
        // Any other part, even an empty one, is a word of the form.
        _ => Mark::Word,
    }
}
