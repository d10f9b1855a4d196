//! Consequences of the axioms for programmers. A law is a function without a result, whose contract states the law.
ghost use Rattle.std.specs.Prelude.{◌≡◌, ◌↔◌, ◌⊎◌, ℕ, true};
ghost use Rattle.lw_axiomatic.specs.Axioms.{Acyclic, SatisfiesAxioms, IsAllowed};
ghost use Rattle.lw_axiomatic.specs.Candidates.{IsCandidate};
ghost use Rattle.lw_axiomatic.specs.CoherenceLaws.{CoWW, CoWR, CoRW, CoRR};
ghost use Rattle.lw_axiomatic.specs.DataRaces.{HasDataRace};
ghost use Rattle.lw_axiomatic.specs.Executions.{MemoryEvent, Execution, Po, Reads, Rf, operation_is};
ghost use Rattle.lw_axiomatic.specs.Fenced.{IsFenced, IsFencedWhereShared, IsFencedWhereOverwritten};
ghost use Rattle.lw_axiomatic.specs.Fenced.{IsAtomic, IsFencedInAllThreads, IsFencedWhereOthersWrite};
ghost use Rattle.lw_axiomatic.specs.Interleavings.{InterleavingOutcome};
ghost use Rattle.lw_axiomatic.specs.Locks.{Acquires, Releases, IsUsedAsLock, IsOrderedBefore, IsOverBefore};
ghost use Rattle.lw_axiomatic.specs.Races.{HasTriangularRace};
ghost use Rattle.lw_axiomatic.specs.Sequential.{IsSequentiallyConsistent, IsScOutcome};
ghost use Rattle.lw_axiomatic.specs.SpareFences.{AreSpare};
ghost use Rattle.lw_base.specs.Outcomes.{FinalState};
ghost use Rattle.lw_litmus.specs.Operations.{is_locked};
ghost use Rattle.lw_litmus.specs.Programs.{x86_language};
ghost use Rattle.lw_litmus.specs.Tests.{X86Test};
ghost use Rattle.lw_litmus.specs.WellScopedTests.{IsWellScopedProgram};
ghost use Rattle.lw_memory.specs.Flat.{flat_memory};
ghost use Rattle.lw_mesi.specs.declared.protocol.Protocol.{Protocol};
ghost use Rattle.lw_tso.specs.Fencing.{HasInsertedFences};
ghost use Rattle.lw_tso.specs.Runs.{IsMachineOutcome};
ghost use Rattle.lw_tso_caches.specs.OverCaches.{FitsCaches, OutcomeOverCaches};

use crate::laws::{interleaving_outcomes_are_sequential, machine_outcomes_are_those_allowed};
use crate::times::executions_have_times;
use lw_tso::{fences_only_remove_outcomes, tests_without_fences_are_well_formed};

/// States, of two accesses of a thread to one location in program order: two writes are in this order in coherence
/// order; a read reads from the write before it, or from one later in coherence order; what a read reads from comes
/// before a later write; and the second of two reads reads from nothing older.
pub fn accesses_of_one_location_are_coherent()
    ensures co_ww { (test : X86Test) (x : Execution) (o : FinalState) → IsCandidate x86_language test x o → SatisfiesAxioms test x
        → CoWW test x }
    ensures co_wr { (test : X86Test) (x : Execution) (o : FinalState) → IsCandidate x86_language test x o → SatisfiesAxioms test x
        → CoWR test x }
    ensures co_rw { (test : X86Test) (x : Execution) (o : FinalState) → IsCandidate x86_language test x o → SatisfiesAxioms test x
        → CoRW test x }
    ensures co_rr { (test : X86Test) (x : Execution) (o : FinalState) → IsCandidate x86_language test x o → SatisfiesAxioms test x
        → CoRR test x }
{}

/// States that a locked instruction is atomic: no write comes in coherence order between what it reads, a write or
/// the initial word, and what it writes. So no two locked instructions read the same write, and no two read the
/// initial word of one location: of all threads that exchange with a free lock, at most one takes it.
pub fn locked_instructions_are_atomic()
    ensures between { (test : X86Test) (x : Execution) → SatisfiesAxioms test x → IsAtomic test x }
    ensures apart { (test : X86Test) (x : Execution) (o : FinalState) → IsCandidate x86_language test x o → SatisfiesAxioms test x
        → (r s : MemoryEvent) (l : ℕ) → operation_is x86_language test is_locked r ≡ true → operation_is x86_language test is_locked s ≡ true
        → Reads x86_language test x r l → Reads x86_language test x s l → x.rf r ≡ x.rf s → r ≡ s }
{}

/// States that critical sections of a lock that locked instructions take do not overlap, for any number of threads. Of
/// two instructions that find the lock free, the store that releases one of them comes before the other in global
/// happens-before. So each event before the release in its thread comes before each event after the other instruction.
pub fn critical_sections_do_not_overlap()
    ensures exclusive { (test : X86Test) (x : Execution) (o : FinalState) → IsCandidate x86_language test x o → SatisfiesAxioms test x
        → (l : ℕ) → IsUsedAsLock test x l → (r s : MemoryEvent) → Acquires test x l r → Acquires test x l s
        → (r ≡ s) ⊎ (IsOverBefore test x l r s ⊎ IsOverBefore test x l s r) }
    ensures ordered { (test : X86Test) (x : Execution) (l : ℕ) (r s u a b : MemoryEvent) → Acquires test x l s
        → Releases test x l r u → IsOrderedBefore test x u s → Po x a u → Po x s b → IsOrderedBefore test x a b }
{}

/// States that no word comes out of thin air: program order and reads-from are acyclic together.
pub fn no_word_comes_out_of_thin_air()
    ensures { (test : X86Test) (x : Execution) (o : FinalState) → IsCandidate x86_language test x o → SatisfiesAxioms test x
        → Acyclic (λ a b. Po x a b ⊎ Rf x86_language test x a b) }
{
    executions_have_times();
}

/// States that every sequentially consistent execution satisfies the axioms: x86-TSO has every outcome of
/// interleaving.
pub fn sequential_outcomes_are_allowed()
    ensures executions { (test : X86Test) (x : Execution) → IsSequentiallyConsistent x86_language test x → SatisfiesAxioms test x }
    ensures outcomes { (test : X86Test) (o : FinalState) → IsScOutcome x86_language test o → IsAllowed test o }
{}

/// States that an execution that satisfies the axioms is sequentially consistent if a fence or a locked instruction
/// is between each store and each later load of its thread that reads a word that another thread's write overwrites.
/// So an outcome is one of interleaving if this holds of every execution with it.
pub fn executions_fenced_where_overwritten_are_sequential()
    ensures executions { (test : X86Test) (x : Execution) → SatisfiesAxioms test x → IsFencedWhereOverwritten test x
        → IsSequentiallyConsistent x86_language test x }
    ensures outcomes { (test : X86Test) (o : FinalState)
        → ((x : Execution) → IsCandidate x86_language test x o → SatisfiesAxioms test x → IsFencedWhereOverwritten test x)
        → IsAllowed test o → IsScOutcome x86_language test o }
{}

/// States that an execution is sequentially consistent if a fence or a locked instruction is between each store and
/// each later load of its thread.
pub fn well_fenced_executions_are_sequential()
    ensures { (test : X86Test) (x : Execution) → SatisfiesAxioms test x → IsFenced test x
        → IsSequentiallyConsistent x86_language test x }
{
    executions_fenced_where_overwritten_are_sequential();
}

/// States that an execution is sequentially consistent if a fence or a locked instruction is between each store and
/// each later load of its thread, except loads of locations that no other thread writes in the execution. It needs
/// all these fences at once. Which fences can be removed from a test says `spare_fences_change_no_outcome`.
pub fn executions_fenced_where_shared_are_sequential()
    ensures { (test : X86Test) (x : Execution) → SatisfiesAxioms test x → IsFencedWhereShared test x
        → IsSequentiallyConsistent x86_language test x }
{
    executions_fenced_where_overwritten_are_sequential();
}

/// States that a test has exactly the outcomes of its sequentially consistent executions, and on the machine exactly
/// those of interleaving, if on each path a fence or a locked instruction is between each store and each later load.
pub fn fenced_tests_have_sequential_outcomes()
    ensures axioms { (test : X86Test) (o : FinalState) → IsFencedInAllThreads test
        → IsAllowed test o ↔ IsScOutcome x86_language test o }
    ensures flat_memory { (test : X86Test) (o : FinalState) → IsWellScopedProgram test → IsFencedInAllThreads test
        → IsMachineOutcome flat_memory test test.head.init_words o ↔ InterleavingOutcome x86_language test o }
{
    sequential_outcomes_are_allowed();
    executions_fenced_where_overwritten_are_sequential();
    machine_outcomes_are_those_allowed();
    interleaving_outcomes_are_sequential();
}

/// States that a test has on the machine exactly the outcomes of interleaving, if on each path a fence or a locked
/// instruction is between each store and each later load, except loads of locations that no instruction of another
/// thread writes. It needs all these fences at once, as `executions_fenced_where_shared_are_sequential` does.
pub fn tests_fenced_where_others_write_have_interleaving_outcomes()
    ensures axioms { (test : X86Test) (o : FinalState) → IsFencedWhereOthersWrite test
        → IsAllowed test o ↔ IsScOutcome x86_language test o }
    ensures flat_memory { (test : X86Test) (o : FinalState) → IsWellScopedProgram test → IsFencedWhereOthersWrite test
        → IsMachineOutcome flat_memory test test.head.init_words o ↔ InterleavingOutcome x86_language test o }
{
    sequential_outcomes_are_allowed();
    executions_fenced_where_overwritten_are_sequential();
    machine_outcomes_are_those_allowed();
    interleaving_outcomes_are_sequential();
}

/// States that spare MFENCEs can be removed, one or several, without any change of the outcomes. They are spare if
/// for each store and each later load that one of them separates on a path, either another fence or a locked
/// instruction, which remains, separates them too, or no instruction of another thread writes what the load reads.
/// The laws above ask for a fence between each store and each later load, with the exceptions that each names; this one
/// asks only about the pairs that a removed fence separates.
pub fn spare_fences_change_no_outcome()
    ensures axioms { (test fenced : X86Test) (o : FinalState) (inserted : HasInsertedFences test fenced) → IsWellScopedProgram fenced
        → AreSpare test fenced inserted → IsAllowed test o ↔ IsAllowed fenced o }
    ensures flat_memory { (test fenced : X86Test) (o : FinalState) (inserted : HasInsertedFences test fenced) → IsWellScopedProgram fenced
        → AreSpare test fenced inserted
        → IsMachineOutcome flat_memory test test.head.init_words o ↔ IsMachineOutcome flat_memory fenced fenced.head.init_words o }
    ensures caches { (protocol : Protocol) (test fenced : X86Test) (o : FinalState) (inserted : HasInsertedFences test fenced)
        → IsWellScopedProgram fenced → FitsCaches fenced → AreSpare test fenced inserted
        → OutcomeOverCaches protocol test o ↔ OutcomeOverCaches protocol fenced o }
{
    fences_only_remove_outcomes();
    tests_without_fences_are_well_formed();
    machine_outcomes_are_those_allowed();
}

/// States that a test without a triangular race in any of its runs by interleaving has exactly the outcomes of
/// interleaving: these are the outcomes that the axioms allow, and the machine's, over flat memory and over caches of
/// each protocol. So without triangular races programmers may think of one memory.
pub fn tests_without_triangular_races_have_interleaving_outcomes()
    ensures axioms { (test : X86Test) (o : FinalState) → IsWellScopedProgram test → (HasTriangularRace test → ⊥)
        → IsAllowed test o ↔ InterleavingOutcome x86_language test o }
    ensures flat_memory { (test : X86Test) (o : FinalState) → IsWellScopedProgram test → (HasTriangularRace test → ⊥)
        → IsMachineOutcome flat_memory test test.head.init_words o ↔ InterleavingOutcome x86_language test o }
    ensures caches { (protocol : Protocol) (test : X86Test) (o : FinalState) → IsWellScopedProgram test → FitsCaches test
        → (HasTriangularRace test → ⊥) → OutcomeOverCaches protocol test o ↔ InterleavingOutcome x86_language test o }
{
    machine_outcomes_are_those_allowed();
    interleaving_outcomes_are_sequential();
    sequential_outcomes_are_allowed();
}

/// States that a test without a data race in any of its runs by interleaving has exactly the outcomes of
/// interleaving: these are the outcomes that the axioms allow, and the machine's, over flat memory and over caches of
/// each protocol. C++ and Java promise the same of their own notions of a data race (DRF-SC). The law of triangular
/// races is stronger: of data races it counts only those in which a load follows a store of its thread to another
/// location, with neither a fence nor a locked instruction between.
pub fn tests_without_data_races_have_interleaving_outcomes()
    ensures axioms { (test : X86Test) (o : FinalState) → IsWellScopedProgram test → (HasDataRace test → ⊥)
        → IsAllowed test o ↔ InterleavingOutcome x86_language test o }
    ensures flat_memory { (test : X86Test) (o : FinalState) → IsWellScopedProgram test → (HasDataRace test → ⊥)
        → IsMachineOutcome flat_memory test test.head.init_words o ↔ InterleavingOutcome x86_language test o }
    ensures caches { (protocol : Protocol) (test : X86Test) (o : FinalState) → IsWellScopedProgram test → FitsCaches test
        → (HasDataRace test → ⊥) → OutcomeOverCaches protocol test o ↔ InterleavingOutcome x86_language test o }
{
    tests_without_triangular_races_have_interleaving_outcomes();
}

/// States that a test has a triangular race if some outcome of x86-TSO is not one of interleaving.
pub fn relaxed_outcomes_have_triangular_races()
    ensures { (test : X86Test) (o : FinalState) → IsWellScopedProgram test → IsAllowed test o
        → InterleavingOutcome x86_language test o ⊎ HasTriangularRace test }
{
    interleaving_outcomes_are_sequential();
}
