//! Theorems about tests as values: of three classic tests, and of all tests. A law is a function without a result,
//! whose contract states the law. `answer` calls `every_test_has_its_program`, and so do the runs, of what they have read.
ghost use Rattle.std.specs.Prelude.{◌≡◌, ◌↔◌, ℕ, List, Bool, true, false, Option};
ghost use Rattle.std.specs.Option.{IfSome};
ghost use Rattle.lw_base.specs.Outcomes.{FinalState};
ghost use Rattle.lw_base.specs.Types.{Bytes};
ghost use Rattle.lw_bench.specs.Classics.{store_buffering, store_buffering_in_x86, message_passing_in_x86};
ghost use Rattle.lw_base.specs.declared.head.Arch.TheVariants.{X86};
ghost use Rattle.lw_bench.specs.Compilations.{IsCompilation};
ghost use Rattle.lw_bench.specs.Examples.{store_buffering_text, store_buffering_report};
ghost use Rattle.lw_bench.specs.LitmusTests.{LitmusTest, Of_source, Of_x86};
ghost use Rattle.lw_bench.specs.Lists.{IsStatesReport, IsReachedOnMachine, IsReachedOverCaches};
ghost use Rattle.lw_bench.specs.Outcomes.{OutcomeOf, IsProgramRunFor, IsProgramOf};
ghost use Rattle.lw_bench.specs.Outputs.{IsOutputOf};
ghost use Rattle.lw_bench.specs.TestTexts.{HasTest};
ghost use Rattle.lw_bench.specs.WellFormedTests.{IsWellFormedTest};
ghost use Rattle.lw_fence.specs.Compiling.{IsCompiled};
ghost use Rattle.lw_fence.specs.Unfenced.{IsCompiledWith, IsCompiledWithoutFences};
ghost use Rattle.lw_tso_caches.specs.OverCaches.{FitsCaches, OutcomeOverCaches};
ghost use Rattle.lw_interleaving.specs.Runs.{SourceOutcome};
ghost use Rattle.lw_litmus.specs.Tests.{SourceTest, X86Test};
ghost use Rattle.lw_litmus.specs.WellScopedTests.{IsWellScopedSource, IsWellScopedProgram};
ghost use Rattle.lw_memory.specs.Flat.{flat_memory};
ghost use Rattle.lw_memory.specs.Memory.{memory_of};
ghost use Rattle.lw_memory.specs.SystemLaws.{invariant_of};
ghost use Rattle.lw_mesi.specs.declared.protocol.Protocol.{Protocol};
ghost use Rattle.lw_report.specs.Truth.{is_true};
ghost use Rattle.lw_tso.specs.Runs.{IsMachineOutcome};
ghost use Rattle.lw_tso.specs.Starts.{IsInitialMemory};

use crate::litmus_test::a_text_has_one_test;
use lw_memory::MemorySystem;
use lw_tso::outcomes_are_flat;
use lw_tso_caches::outcomes_over_caches_are_flat;
use lw_x86::a_canonical_text_reads_back;

/// States of store buffering that no interleaving has the outcome that both loads are 0.
pub fn store_buffering_is_forbidden_by_interleaving()
    ensures { (o : FinalState) → SourceOutcome store_buffering o → is_true store_buffering.head.proposition o ≡ false }
{}

/// States of store buffering on x86, over caches of either protocol, that in some outcome both loads are 0.
pub fn store_buffering_is_allowed_on_x86()
    ensures { (protocol : Protocol) → (o : FinalState) × OutcomeOverCaches protocol store_buffering_in_x86 o
        × (is_true store_buffering_in_x86.head.proposition o ≡ true) }
{
    outcomes_over_caches_are_flat();
}

/// States of message passing on x86, over caches of either protocol, that no outcome has the flag without the
/// message.
pub fn message_passing_is_forbidden_on_x86()
    ensures { (protocol : Protocol) (o : FinalState) → OutcomeOverCaches protocol message_passing_in_x86 o
        → is_true message_passing_in_x86.head.proposition o ≡ false }
{
    outcomes_over_caches_are_flat();
}

/// States that every test of a text is well-formed. So it is well-scoped (`well_formed_tests_are_well_scoped`) and has
/// at most four threads, which is what the laws below require of a test.
pub fn tests_of_texts_are_well_formed()
    ensures { (text : Bytes) (test : LitmusTest) → HasTest text test → IsWellFormedTest test }
{}

/// States that every test has an outcome: a source test by interleaving on one memory, an x86 test over flat memory and
/// over caches of either protocol. The reason is that jumps lead forward, and that a full store buffer can always
/// drain.
pub fn every_test_has_an_outcome()
    ensures source { (test : SourceTest) → IsWellScopedSource test → (o : FinalState) × SourceOutcome test o }
    ensures flat_memory { (test : X86Test) → IsWellScopedProgram test → (o : FinalState) × IsMachineOutcome flat_memory test test.head.init_words o }
    ensures caches { (protocol : Protocol) (test : X86Test) → IsWellScopedProgram test → FitsCaches test
        → (o : FinalState) × OutcomeOverCaches protocol test o }
{
    outcomes_over_caches_are_flat();
}

/// States that a text has at most one report.
pub fn a_text_has_one_report()
    ensures { (text a b : Bytes) → IsOutputOf IsStatesReport text a → IsOutputOf IsStatesReport text b → a ≡ b }
{
    a_text_has_one_test();
}

/// States that a source test has exactly one compiled program, with one table of where its statements start. In `starts`
/// and `begins`, each thread has a list: the indices at which its statements start among its instructions, and at the end
/// the number of these.
pub fn a_source_has_one_compiled_program()
    ensures some { (source : SourceTest) → IsWellScopedSource source
        → (program : X86Test) × (starts : List (List ℕ)) × IsCompiled source program starts }
    ensures unique { (source : SourceTest) (program other : X86Test) (starts begins : List (List ℕ))
        → IsCompiled source program starts → IsCompiled source other begins → (program ≡ other) × (starts ≡ begins) }
{}

/// States that the compiled program has exactly its source's outcomes, over every lawful memory, from any of its
/// states with the source's initial words. In `starts`, each thread has a list: the indices at which its statements start
/// among its instructions, and at the end the number of these.
pub fn compiled_programs_have_their_sources_outcomes_over_every_memory<M: MemorySystem>()
    ensures { (source : SourceTest) (program : X86Test) (starts : List (List ℕ)) (m : M) (o : FinalState)
        → IsWellScopedSource source → IsCompiled source program starts
        → IsInitialMemory (memory_of M.content M.state M.serves) (invariant_of M.cpus M.sound) program m
        → IsMachineOutcome (memory_of M.content M.state M.serves) program m o ↔ SourceOutcome source o }
{
    outcomes_are_flat::<M>();
}

/// States that the compiled program of a source test has exactly its source's outcomes over flat memory, and over
/// caches of either protocol, empty at the start, with evictions at any time. In `starts`, each thread has a list: the
/// indices at which its statements start among its instructions, and at the end the number of these.
pub fn compiled_programs_have_their_sources_outcomes()
    ensures flat_memory { (source : SourceTest) (program : X86Test) (starts : List (List ℕ)) (o : FinalState)
        → IsWellScopedSource source → IsCompiled source program starts
        → IsMachineOutcome flat_memory program program.head.init_words o ↔ SourceOutcome source o }
    ensures caches { (source : SourceTest) (program : X86Test) (starts : List (List ℕ)) (protocol : Protocol) (o : FinalState)
        → IsWellScopedSource source → IsCompiled source program starts → FitsCaches program
        → OutcomeOverCaches protocol program o ↔ SourceOutcome source o }
{
    outcomes_over_caches_are_flat();
}

/// States that every interleaving outcome is an outcome of the compiled program without its fences, and with fences
/// before any other of its loads: interleaving has none of the outcomes that fences remove. In `starts`, each thread
/// has a list: the indices at which its statements start among its instructions, and at the end the number of these. In
/// `fences`, each thread has flags for its statements: a load with a flag that is set has a fence before it.
pub fn interleaving_outcomes_need_no_fences()
    ensures without { (source : SourceTest) (program : X86Test) (starts : List (List ℕ)) (protocol : Protocol) (o : FinalState)
        → IsWellScopedSource source → IsCompiledWithoutFences source program starts → FitsCaches program
        → SourceOutcome source o → OutcomeOverCaches protocol program o }
    ensures anywhere { (fences : List (List Bool)) (source : SourceTest) (program : X86Test) (starts : List (List ℕ))
        (protocol : Protocol) (o : FinalState) → IsWellScopedSource source → IsCompiledWith fences source program starts
        → FitsCaches program → SourceOutcome source o → OutcomeOverCaches protocol program o }
{
    outcomes_over_caches_are_flat();
}

/// States, of every test of a text, that it has its x86 program, which reaches on the machine exactly the test's
/// outcomes, over one memory and over caches of each protocol. The program is the compiled program of a source test,
/// and an x86 test itself.
pub fn every_test_has_its_program()
    ensures machine { (text : Bytes) → IsReachedOnMachine text }
    ensures caches { (text : Bytes) → IsReachedOverCaches text }
    ensures each { (text : Bytes) (test : LitmusTest) (program : X86Test) → HasTest text test → IsProgramRunFor test program
        → IsProgramOf test program }
{
    outcomes_over_caches_are_flat();
}

/// States `every_test_has_its_program` of the bytes of a reader, if they are known. A run over devices uses it for
/// its input.
pub(crate) fn what_is_known_is_reached_on_the_machine()
    ensures machine { (known : Option Bytes) → IfSome known IsReachedOnMachine }
    ensures caches { (known : Option Bytes) → IfSome known IsReachedOverCaches }
{
    every_test_has_its_program();
}

/// States that outcomes are the same over any two protocols, for every text that is a test, of its x86 program.
pub fn outcomes_of_texts_do_not_depend_on_the_protocol()
    ensures { (protocol other : Protocol) (text : Bytes) (test : LitmusTest) (program : X86Test) (o : FinalState)
        → HasTest text test → IsProgramRunFor test program
        → OutcomeOverCaches protocol program o ↔ OutcomeOverCaches other program o }
{
    outcomes_over_caches_are_flat();
}

/// States the report of an example, byte by byte: the text of examples/SB-x86.litmus is a test, and what `lw states`
/// prints of it is the report of exactly its outcomes. The proof uses only the definitions, no reader, no list and no
/// printer.
pub fn the_text_of_store_buffering_has_this_report()
    ensures { IsOutputOf IsStatesReport store_buffering_text store_buffering_report }
{}

/// States that the text that `lw compile` writes is a test itself, and that its outcomes are those of its source,
/// under the source's head in x86. So its states differ from the source's only in the names of registers.
pub fn compiled_texts_have_their_sources_outcomes()
    ensures { (text made : Bytes) (source : SourceTest) → HasTest text (Of_source source) → IsOutputOf IsCompilation text made
        → (program : X86Test) × HasTest made (Of_x86 program)
        × (program.head ≡ record source.head { arch = X86 })
        × ((o : FinalState) → OutcomeOf (Of_x86 program) o ↔ OutcomeOf (Of_source source) o) }
{
    a_text_has_one_test();
    a_canonical_text_reads_back();
}
