//! Laws of steps: which steps commute, where each leads, and that each changes one thread only. A law is a function
//! without a result, whose contract states the law. A proof uses the law by calling the function; no code does.
ghost use Rattle.std.specs.Prelude.{◌≡◌, ◌≢◌, ℕ, List, false, Ok};
ghost use Rattle.lw_litmus.specs.declared.stmt.Stmt.{Stmt};
ghost use Rattle.lw_interleaving.specs.Runs.{State, source_step};
ghost use Rattle.lw_interleaving.specs.Steps.{FollowsFlow, thread_position, next_statement, StepsCommute};
ghost use Rattle.lw_litmus.specs.Conflicts.{operations_conflict};
ghost use Rattle.lw_litmus.specs.Sources.{source_language};

/// States that adjacent steps of two threads commute if their statements do not conflict: the state
/// after both is the same.
pub fn independent_steps_commute()
    ensures { (program : List (List Stmt)) (t u : ℕ) (s : State) → t ≢ u
        → operations_conflict source_language (next_statement program s t) (next_statement program s u) ≡ false → StepsCommute program t u s }
{}

/// States that a step takes its thread to a successor of its position in the control flow.
pub fn a_step_follows_the_flow()
    ensures { (program : List (List Stmt)) (t : ℕ) (s next : State)
        → source_step program t s ≡ Ok next → FollowsFlow program t s next }
{}

/// States that a step does not change another thread's position.
pub fn a_step_changes_one_thread()
    ensures { (program : List (List Stmt)) (t u : ℕ) (s next : State) → t ≢ u
        → source_step program t s ≡ Ok next → thread_position next u ≡ thread_position s u }
{}
