//! Laws of the orders of the items of path assignments. A law is a function without a result, whose contract states
//! the law. A proof uses the law by calling the function.
ghost use Rattle.std.specs.Prelude.{◌↔◌, ℕ, List};
ghost use Rattle.lw_base.specs.Outcomes.{FinalState};
ghost use Rattle.lw_memory.specs.Flat.{flat_memory};
ghost use Rattle.lw_orders.specs.Order.{IsLinearExtension, AreTraceEquivalent};
ghost use Rattle.lw_interleaving.specs.Runs.{SourceOutcome};
ghost use Rattle.lw_litmus.specs.Sources.{source_language};
ghost use Rattle.lw_litmus.specs.WellFormedTests.{IsWellFormedProgram};
ghost use Rattle.lw_litmus.specs.WellScopedTests.{IsWellScopedSource, IsWellScopedProgram};
ghost use Rattle.lw_litmus.specs.Tests.{SourceTest, X86Test};
ghost use Rattle.lw_tso.specs.Runs.{IsMachineOutcome};
ghost use Rattle.lw_litmus.specs.Programs.{x86_language};
ghost use Rattle.lw_paths.specs.PathAssignments.{IsPathAssignment};
ghost use Rattle.lw_paths.specs.Items.{items_of, constraints_of};
ghost use Rattle.lw_finals.specs.inner.Listed.{AreComplete, AreFlat};
ghost use Rattle.lw_finals.specs.SourceRuns.{SourceFollowsPathsToEnd, IsSourceAssignmentOutcome};
ghost use Rattle.lw_finals.specs.X86Runs as machine;

use lw_orders::orders_are_complete;
use lw_tso_caches::{outcomes_over_caches_are_flat, replays_over_caches_are_flat};

/// States what the lists of both languages depend on: every order is trace-equivalent to one that is enumerated, and
/// over caches the machine has the outcomes that it has over flat memory.
pub(crate) fn lists_are_complete()
    ensures complete { AreComplete }
    ensures caches { (program : X86Test) → IsWellFormedProgram program → AreFlat program }
{
    orders_are_complete();
    outcomes_over_caches_are_flat();
    replays_over_caches_are_flat();
}

/// States of two trace-equivalent linear extensions of a path assignment's items: if one follows the paths to a final
/// state, the other does too, and has the same outcome.
pub fn trace_equivalent_source_orders_have_one_outcome()
    ensures { (s : SourceTest) (paths : List (List ℕ)) (xs ys : List ℕ) (o : FinalState)
        → IsLinearExtension (constraints_of source_language s.threads (items_of source_language s.threads paths)) xs
        → IsLinearExtension (constraints_of source_language s.threads (items_of source_language s.threads paths)) ys
        → AreTraceEquivalent (constraints_of source_language s.threads (items_of source_language s.threads paths)).conflicts xs ys
        → SourceFollowsPathsToEnd s (items_of source_language s.threads paths) xs o
        → SourceFollowsPathsToEnd s (items_of source_language s.threads paths) ys o }
{}

/// States that the outcomes of a source test are those of its path assignments: of the linear extensions of their
/// items that follow the paths to a final state.
pub fn source_outcomes_are_those_of_path_assignments()
    ensures { (s : SourceTest) (o : FinalState) → IsWellScopedSource s
        → SourceOutcome s o ↔ ((paths : List (List ℕ)) × IsPathAssignment source_language s.threads paths × IsSourceAssignmentOutcome s paths o) }
{}

/// States of two trace-equivalent linear extensions of the items of an x86 test's path assignment, over flat memory:
/// if one follows the paths to a final state, the other does too, and has the same outcome.
pub fn trace_equivalent_x86_orders_have_one_outcome()
    ensures { (test : X86Test) (paths : List (List ℕ)) (xs ys : List ℕ) (o : FinalState)
        → IsWellScopedProgram test → IsPathAssignment x86_language test.threads paths
        → IsLinearExtension (constraints_of x86_language test.threads (items_of x86_language test.threads paths)) xs
        → IsLinearExtension (constraints_of x86_language test.threads (items_of x86_language test.threads paths)) ys
        → AreTraceEquivalent (constraints_of x86_language test.threads (items_of x86_language test.threads paths)).conflicts xs ys
        → machine.X86FollowsPathsToEnd flat_memory test test.head.init_words (items_of x86_language test.threads paths) xs o
        → machine.X86FollowsPathsToEnd flat_memory test test.head.init_words (items_of x86_language test.threads paths) ys o }
{}

/// States that the outcomes of an x86 test over flat memory are those of its path assignments: of the linear
/// extensions of their items that follow the paths to a final state.
pub fn x86_outcomes_are_those_of_path_assignments()
    ensures { (test : X86Test) (o : FinalState) → IsWellScopedProgram test
        → IsMachineOutcome flat_memory test test.head.init_words o
        ↔ ((paths : List (List ℕ)) × IsPathAssignment x86_language test.threads paths × machine.IsX86AssignmentOutcome flat_memory test test.head.init_words paths o) }
{}
