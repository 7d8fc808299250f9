//! What a race of lines comes to, if one history explains it, is an outcome of an order: a law, stated as the contract
//! of a function that does nothing.
ghost use Rattle.std.specs.Prelude.{◌≡◌, ℕ, List};
ghost use Rattle.xa_orders.specs.{declared.outcome.Outcome.Outcome, Orders.{Parts, Gives, IsExplored, Any}};
ghost use Rattle.xa_races.specs.CountedRaced.{HasCome};

/// States that what all lines of a script are answered in a race, if one history explains what the lines side by side
/// are answered, is also given by an order of these lines, and so is one of the explored outcomes. Does nothing when it
/// is called.
///
/// That one history explains the answers of each race is what `race_on` promises. Takes no memory. Doesn't wait. Own rule: docs/COMMANDS.md#race-statistics.
pub fn race_gives_an_outcome()
    // Proved (races, runs-order): What all lines of a script are answered in a race is given by an order of its lines
    //   side by side, if one history explains what these are answered.
    ensures given { (parts : Parts) (text : List ℕ) → HasCome parts text → (order : List ℕ) × Gives parts order text }
    // Proved (races, runs-listed): What all lines of a script are answered in a race is in the list of all outcomes
    //   that `explore` finds, if one history explains what the lines side by side are answered.
    ensures listed { (parts : Parts) (outcomes : List Outcome) (text : List ℕ)
        → IsExplored parts outcomes
        → HasCome parts text
        → Any (λ one. one.text.items ≡ text) outcomes }
{}
