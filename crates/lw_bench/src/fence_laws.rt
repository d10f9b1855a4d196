//! Theorems about fences, for tests as values: which outcomes they remove, and where none is needed. A law is a
//! function without a result, whose contract states the law.
ghost use Rattle.std.specs.Prelude.{◌≡◌, ◌↔◌, ℕ, Bool, false, List};
ghost use Rattle.lw_base.specs.Outcomes.{FinalState};
ghost use Rattle.lw_bench.specs.Classics.{store_buffering_in_x86};
ghost use Rattle.lw_fence.specs.Compiling.{IsCompiled};
ghost use Rattle.lw_fence.specs.Unfenced.{AreSubset, IsCompiledWith, IsCompiledWithoutFences, NeedsNoFence};
ghost use Rattle.lw_interleaving.specs.Runs.{SourceOutcome};
ghost use Rattle.lw_litmus.specs.Tests.{SourceTest, X86Test};
ghost use Rattle.lw_litmus.specs.WellScopedTests.{IsWellScopedSource, IsWellScopedProgram};
ghost use Rattle.lw_memory.specs.Flat.{flat_memory};
ghost use Rattle.lw_mesi.specs.declared.protocol.Protocol.{Protocol};
ghost use Rattle.lw_report.specs.Truth.{is_true};
ghost use Rattle.lw_tso.specs.Fencing.{HasInsertedFences};
ghost use Rattle.lw_tso.specs.Runs.{IsMachineOutcome};
ghost use Rattle.lw_tso_caches.specs.OverCaches.{FitsCaches, OutcomeOverCaches};

use crate::laws::compiled_programs_have_their_sources_outcomes;
use lw_tso::{fences_only_remove_outcomes, tests_without_fences_are_well_formed};
use lw_tso_caches::outcomes_over_caches_are_flat;

/// States that fences only remove outcomes over caches too, of each protocol: every outcome of a test with MFENCEs
/// inserted, at any places, is an outcome of the test.
pub fn fences_only_remove_outcomes_over_caches()
    ensures { (protocol : Protocol) (test fenced : X86Test) (o : FinalState) → IsWellScopedProgram fenced → FitsCaches fenced
        → HasInsertedFences test fenced → OutcomeOverCaches protocol fenced o → OutcomeOverCaches protocol test o }
{
    outcomes_over_caches_are_flat();
    fences_only_remove_outcomes();
    tests_without_fences_are_well_formed();
}

/// States that fences do remove outcomes: with an MFENCE inserted in each thread of store buffering, no outcome has
/// both loads 0.
pub fn store_buffering_is_forbidden_with_fences()
    ensures { (fenced : X86Test) × HasInsertedFences store_buffering_in_x86 fenced
        × ((o : FinalState) → IsMachineOutcome flat_memory fenced fenced.head.init_words o → is_true fenced.head.proposition o ≡ false) }
{}

/// States that a compiled program with more fences is the one with fewer fences with MFENCEs inserted, and that it
/// has only outcomes of the one with fewer. So with any fences it has only outcomes that it has without fences. In
/// `fences` and `others`, each thread has flags for its statements: a load with a flag that is set has a fence before
/// it. In `starts` and `begins`, each thread has a list: the indices at which its statements start among its
/// instructions, and at the end the number of these.
pub fn more_fences_have_no_more_outcomes()
    ensures are_inserted { (fences others : List (List Bool)) (source : SourceTest) (program other : X86Test)
        (starts begins : List (List ℕ)) → AreSubset fences others → IsCompiledWith fences source program starts
        → IsCompiledWith others source other begins → HasInsertedFences program other }
    ensures flat_memory { (fences others : List (List Bool)) (source : SourceTest) (program other : X86Test)
        (starts begins : List (List ℕ)) (o : FinalState) → AreSubset fences others → IsCompiledWith fences source program starts
        → IsCompiledWith others source other begins
        → IsMachineOutcome flat_memory other other.head.init_words o → IsMachineOutcome flat_memory program program.head.init_words o }
    ensures caches { (fences others : List (List Bool)) (source : SourceTest) (program other : X86Test)
        (starts begins : List (List ℕ)) (protocol : Protocol) (o : FinalState) → IsWellScopedSource source → FitsCaches other
        → AreSubset fences others
        → IsCompiledWith fences source program starts → IsCompiledWith others source other begins
        → OutcomeOverCaches protocol other o → OutcomeOverCaches protocol program o }
    ensures without { (fences : List (List Bool)) (source : SourceTest) (program other : X86Test)
        (starts begins : List (List ℕ)) (protocol : Protocol) (o : FinalState) → IsWellScopedSource source
        → FitsCaches other → IsCompiledWithoutFences source program starts → IsCompiledWith fences source other begins
        → OutcomeOverCaches protocol other o → OutcomeOverCaches protocol program o }
{
    fences_only_remove_outcomes();
    fences_only_remove_outcomes_over_caches();
}

/// States, of a source in which no statement needs a fence by the compiler's rule (no load follows a store without a
/// locked instruction between), that the compiled program is the one without fences, and has exactly the source's
/// outcomes. In `starts`, each thread has a list: the indices at which its statements start among its instructions, and
/// at the end the number of these.
pub fn no_fence_is_needed_if_no_store_waits()
    ensures same_program { (source : SourceTest) (program : X86Test) (starts : List (List ℕ)) → NeedsNoFence source
        → IsCompiled source program starts ↔ IsCompiledWithoutFences source program starts }
    ensures flat_memory { (source : SourceTest) (program : X86Test) (starts : List (List ℕ)) (o : FinalState)
        → IsWellScopedSource source → NeedsNoFence source → IsCompiledWithoutFences source program starts
        → IsMachineOutcome flat_memory program program.head.init_words o ↔ SourceOutcome source o }
    ensures caches { (source : SourceTest) (program : X86Test) (starts : List (List ℕ)) (protocol : Protocol) (o : FinalState)
        → IsWellScopedSource source → NeedsNoFence source → IsCompiledWithoutFences source program starts → FitsCaches program
        → OutcomeOverCaches protocol program o ↔ SourceOutcome source o }
{
    compiled_programs_have_their_sources_outcomes();
}
