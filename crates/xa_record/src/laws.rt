//! What holds of all records: laws, stated as contracts of functions that do nothing.
ghost use Rattle.std.specs.Prelude.{◌≡◌, ℕ, Bool, List, []};
ghost use Rattle.xa_server.specs.State.{State};
ghost use Rattle.xa_judge.specs.declared.{event.Event.Event, moves.Move.Move, request.Request.Request};
ghost use Rattle.xa_judge.specs.Explained.{Config, opening_config, LeadsThrough, next_state};
ghost use Rattle.xa_lines.specs.{Script.{line_of, lines_of}, Transcript.{answer_of, state_after_line}};
ghost use Rattle.xa_record.specs.declared.allowance.Allowance.{Allowance};
ghost use Rattle.xa_record.specs.{Events.AreEvents, VerdictText.{order_text, no_calls}};
ghost use Rattle.xa_record.specs.Replaying.{order_lines, joined, GivesRequest, AnswersSo, AreEffects, AreWellCalled};
ghost use Rattle.xa_record.specs.{Reading.{NumberedEvent, notes_by, notes_of}, Records.Tells};

/// States that a record without a faulty line is read as its lines tell by the rules. If texts of calls aren't tested,
/// lines that tell events by the rules have no fault and are read as these. Does nothing when it is called.
///
/// Takes no memory. Doesn't wait. Own rule: docs/HISTORIES.md#records.
pub fn lines_tell_what_is_read()
    // Proved (records, lines-tell): What is read of a record without a faulty line is what its lines tell by
    //   rules, one for each kind of line. If these rules let lines tell something, and texts of calls aren't
    //   tested, none is faulty, and that is what is read.
    ensures told { (strict : Bool) (text : List ℕ) → (notes_by strict text).faults ≡ []
        → Tells (lines_of text) (notes_by strict text).told }
    // Proved (records, lines-tell)
    ensures only { (text : List ℕ) (list : List NumberedEvent) → Tells (lines_of text) list
        → ((notes_of text).faults ≡ []) × (list ≡ (notes_of text).told) }
{}

/// States that the order that is written for a legal record is a script that gives the answers of that order.
/// Does nothing when it is called.
///
/// Each line of the order gives the session the request that takes effect there. So `run` answers each line
/// as the effect was answered, and goes through the same states.
/// Takes no memory. Doesn't wait. Own rule: docs/HISTORIES.md#verdicts.
pub fn order_is_replayed()
    // Proved (records, order-replayed)
    ensures written { (calls : List (List ℕ)) (numbered : List NumberedEvent) (moves : List Move)
        → order_text calls numbered moves ≡ joined (order_lines calls numbered moves) }
    // Proved (records, order-replayed)
    ensures effects { (base : State) (allowances : List Allowance) (numbered : List NumberedEvent) (events : List Event)
        (moves : List Move) (new : Config)
        → AreWellCalled numbered
        → AreEvents allowances numbered events
        → LeadsThrough (opening_config base) events moves new
        → AreEffects (opening_config base) events moves (order_lines no_calls numbered moves) }
    // Proved (records, order-replayed)
    ensures answers { (state : State) (line : List ℕ) (session : ℕ) (request : Request)
        → GivesRequest line session request
        → AnswersSo state session request (answer_of state (line_of line)) }
    // Proved (records, order-replayed)
    ensures states { (state : State) (line : List ℕ) (session : ℕ) (request : Request)
        → GivesRequest line session request
        → state_after_line state (line_of line) ≡ next_state state session request }
{}
