//! What holds of all records: a law, stated as the contract of a function that does nothing.
ghost use Rattle.std.specs.Prelude.{ℕ, List, take};
ghost use Rattle.xa_server.specs.State.{State};
ghost use Rattle.xa_judge.specs.{declared.event.Event.Event, Explained.Explained};

/// States that an explained record is explained up to each of its events. Does nothing when it is called.
///
/// Takes no memory. Doesn't wait. Own rule: docs/HISTORIES.md#what-explains-a-record.
pub fn what_comes_before_is_explained()
    // Proved (records, before-is-explained): If an order explains what was seen, an order explains what was
    //   seen before any place of it.
    ensures { (base : State) (events : List Event) (count : ℕ) → Explained base events
        → Explained base (take count events) }
{}
