//! The theorem on the axiomatic model of x86-TSO, and its consequences for the workbench. A law is a function without
//! a result, whose contract states the law. A proof uses the law by calling the function.
ghost use Rattle.std.specs.Prelude.{◌↔◌, ℕ, List};
ghost use Rattle.lw_axiomatic.specs.Axioms.{IsAllowed};
ghost use Rattle.lw_axiomatic.specs.Interleavings.{InterleavingOutcome};
ghost use Rattle.lw_axiomatic.specs.Sequential.{IsScOutcome};
ghost use Rattle.lw_base.specs.Outcomes.{FinalState};
ghost use Rattle.lw_base.specs.Types.{Bytes};
ghost use Rattle.lw_bench.specs.LitmusTests.{Of_source, Of_x86};
ghost use Rattle.lw_bench.specs.Lists.{IsWithinListLimits, IsStatesReport};
ghost use Rattle.lw_bench.specs.Outputs.{IsOutputOf};
ghost use Rattle.lw_bench.specs.TestTexts.{HasTest};
ghost use Rattle.lw_fence.specs.Compiling.{IsCompiled};
ghost use Rattle.lw_interleaving.specs.Runs.{SourceOutcome};
ghost use Rattle.lw_litmus.specs.Programs.{x86_language};
ghost use Rattle.lw_litmus.specs.Sources.{source_language};
ghost use Rattle.lw_litmus.specs.Tests.{SourceTest, X86Test};
ghost use Rattle.lw_litmus.specs.WellScopedTests.{IsWellScopedSource, IsWellScopedProgram};
ghost use Rattle.lw_memory.specs.Flat.{flat_memory};
ghost use Rattle.lw_mesi.specs.declared.protocol.Protocol.{Protocol};
ghost use Rattle.lw_report.specs.Reports.{IsReport};
ghost use Rattle.lw_report.specs.declared.judgement.Claim.TheVariants.{Exact};
ghost use Rattle.lw_tso.specs.Runs.{IsMachineOutcome};
ghost use Rattle.lw_tso_caches.specs.OverCaches.{FitsCaches, OutcomeOverCaches};

use lw_bench::{a_text_has_one_test, tests_of_texts_are_well_formed};
use lw_finals::x86_outcomes_are_those_of_path_assignments;
use lw_tso_caches::outcomes_over_caches_are_flat;

/// States the theorem: the outcomes of an x86 test on the machine, with store buffers over flat memory, are exactly
/// those that the axioms allow, for any number of threads, locations and instructions. The same holds of a test that fits
/// the caches over those of each protocol, empty at the start, with evictions at any time.
pub fn machine_outcomes_are_those_allowed()
    ensures flat_memory { (test : X86Test) (o : FinalState) → IsWellScopedProgram test
        → IsMachineOutcome flat_memory test test.head.init_words o ↔ IsAllowed test o }
    ensures caches { (protocol : Protocol) (test : X86Test) (o : FinalState) → IsWellScopedProgram test → FitsCaches test
        → OutcomeOverCaches protocol test o ↔ IsAllowed test o }
{
    x86_outcomes_are_those_of_path_assignments();
    outcomes_over_caches_are_flat();
}

/// States that the outcomes of a source test, by interleaving on one memory, are exactly those that the axioms of
/// x86-TSO allow its compiled program. In `starts`, each thread has a list: the indices at which its statements start
/// among its instructions, and at the end the number of these.
pub fn source_outcomes_are_those_allowed_to_compiled_programs()
    ensures { (test : SourceTest) (program : X86Test) (starts : List (List ℕ)) (o : FinalState) → IsWellScopedSource test
        → IsCompiled test program starts → SourceOutcome test o ↔ IsAllowed program o }
{
    machine_outcomes_are_those_allowed();
}

/// States that the outcomes of a test by interleaving on one memory are exactly those of its sequentially consistent
/// executions, in which program order, reads-from, coherence order and from-reads together are acyclic. This holds of
/// source tests, and of x86 tests whose instructions take effect at once on one memory.
pub fn interleaving_outcomes_are_sequential()
    ensures source { (test : SourceTest) (o : FinalState) → IsWellScopedSource test
        → SourceOutcome test o ↔ IsScOutcome source_language test o }
    ensures x86 { (test : X86Test) (o : FinalState) → IsWellScopedProgram test
        → InterleavingOutcome x86_language test o ↔ IsScOutcome x86_language test o }
{}

/// States that `lw states` prints, of the text of a test within the limits of lists, exactly the report of the
/// outcomes that the axioms allow: those of an x86 test itself, and those of a source test's compiled program, which
/// are the outcomes of the source test's sequentially consistent executions. In `starts`, each thread has a list: the
/// indices at which its statements start among its instructions, and at the end the number of these.
pub fn states_prints_what_the_axioms_allow()
    ensures x86 { (text made : Bytes) (test : X86Test) → HasTest text (Of_x86 test)
        → IsOutputOf IsStatesReport text made ↔ (IsWithinListLimits (Of_x86 test) × IsReport test.head (IsAllowed test) Exact made) }
    ensures compiled { (text made : Bytes) (test : SourceTest) (program : X86Test) (starts : List (List ℕ))
        → HasTest text (Of_source test) → IsCompiled test program starts
        → IsOutputOf IsStatesReport text made ↔ (IsWithinListLimits (Of_source test) × IsReport test.head (IsAllowed program) Exact made) }
    ensures sequential { (text made : Bytes) (test : SourceTest) → HasTest text (Of_source test)
        → IsOutputOf IsStatesReport text made
        ↔ (IsWithinListLimits (Of_source test) × IsReport test.head (IsScOutcome source_language test) Exact made) }
{
    machine_outcomes_are_those_allowed();
    source_outcomes_are_those_allowed_to_compiled_programs();
    interleaving_outcomes_are_sequential();
    a_text_has_one_test();
    tests_of_texts_are_well_formed();
}
