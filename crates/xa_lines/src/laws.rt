//! A law of everything that is served, as the contract of a function that does nothing.
ghost use Rattle.std.specs.Prelude.{◌≡◌, ℕ, [], List, All};
ghost use Rattle.xa_server.specs.State.{no_state};
ghost use Rattle.xa_lines.specs.{Script.lines_of, Transcript.transcript, Statements.{IsShort, served_text}};

/// States that what is served for a script is its transcript, byte by byte, if memory is refused for no statement and
/// no line has more than 65,536 bytes. Does nothing when it is called.
///
/// Takes no memory. Doesn't wait. Own rule: docs/COMMANDS.md#serve.
pub fn what_is_served_is_the_transcript()
    // Proved (scripts, served-is-the-transcript): If no statement is answered out of memory, and no line is
    //   too long, what is served is the transcript of a run, byte by byte.
    ensures { (received : List ℕ) → All IsShort (lines_of received)
        → served_text [] no_state (lines_of received) ≡ transcript received }
{}
