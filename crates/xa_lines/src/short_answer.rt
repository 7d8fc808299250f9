//! Answers that take no memory.
ghost use Rattle.std.specs.Prelude.{◌≡◌, ◌≤◌, ◌+◌, ◌++◌, ℕ, length, codes, vec_len, vec_capacity, IfOk, MatchResult};
ghost use Rattle.xa_lines.specs.{Answer.{bytes_of, HasRoom}, Printed.{answer_text, syntax_text}};
ghost use Rattle.xa_lines.specs.{Statements.refused_text, Shown.unshown_text};

use crate::Answer;
use arrayvec::ArrayVec;
use itoa::Buffer;
use xa_xid::{NoMemory, SessionNo};

/// Returns an answer of at most 160 bytes: `who`, the session's number or what stands for it, and `what` it says.
fn short_answer(who: &[u8], what: &[u8]) -> Answer
    requires { length who.now + length what.now ≤ 160 }
    ensures bytes { bytes_of result ≡ who.now ++ what.now }
    ensures room { (spare : ℕ) → length who.now + length what.now + spare ≤ 160 → HasRoom spare result }
{
    let mut text = ArrayVec::new();
    // Both fit, as the first clause requires.
    let _ = text.try_extend_from_slice(who);
    let _ = text.try_extend_from_slice(what);
    Answer::Short(text)
}

/// The answer to a bad line: `-` in place of a session's number, and a fault at byte 0.
pub(crate) fn bad_line() -> Answer
    ensures bytes { bytes_of result ≡ answer_text (codes "-") (syntax_text 0) }
    ensures room { HasRoom 16 result }
{
    short_answer(b"-", b" ERROR 1064 (42000): syntax fault at byte 0\n")
}

/// The answer to a statement for which memory was refused.
pub(crate) fn refusal(session: SessionNo) -> Answer
    ensures bytes { bytes_of result ≡ refused_text session }
    ensures room { HasRoom 16 result }
{
    let mut buffer = Buffer::new();
    let who = buffer.format(session.get());
    short_answer(who.as_bytes(), b" ERROR 1037 (HY001): out of memory\n")
}

/// Returns the answer to a session's statement, or the one that says that memory was refused for it.
pub(crate) fn answer_or_refusal(session: SessionNo, answer: Result<Vec<u8>, NoMemory>) -> Answer
    ensures bytes { MatchResult answer (λ text. bytes_of result ≡ text.items)
        (λ _. bytes_of result ≡ refused_text session) }
    ensures room { IfOk answer (λ text. vec_len text + 16 ≤ vec_capacity text) → HasRoom 16 result }
{
    match answer {
        Ok(text) => Answer::Text(text),
        Err(_) => refusal(session),
    }
}

/// Returns the answer, followed by the line that says that memory was refused for what comes next.
pub(crate) fn with_unshown(answer: Answer) -> Answer
    requires { HasRoom 16 answer }
    ensures { bytes_of result ≡ bytes_of answer ++ unshown_text }
{
    match answer {
        Answer::Text(mut text) => {
            // These are the 16 bytes for which there is room, so neither case can fail.
            let _ = text.extend_from_slice(b"  OUT OF MEMORY\n");
            Answer::Text(text)
        }
        Answer::Short(mut text) => {
            let _ = text.try_extend_from_slice(b"  OUT OF MEMORY\n");
            Answer::Short(text)
        }
    }
}

/// Returns the line that says that memory was refused for what belongs in its place.
pub(crate) fn unshown() -> Answer
    ensures { bytes_of result ≡ unshown_text }
{
    short_answer(b"", b"  OUT OF MEMORY\n")
}
