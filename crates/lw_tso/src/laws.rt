//! Laws of runs and of their events, over every lawful memory system. A law is a function without a result, whose
//! contract states the law. A proof uses the law by calling the function.
ghost use Rattle.std.specs.Prelude.{◌≡◌, ◌↔◌, ℕ, Bool, List, [], ◌∷◌, length};
ghost use Rattle.std.specs.List.{AllByRecursion};
ghost use Rattle.lw_base.specs.Names.{IsTestName};
ghost use Rattle.lw_base.specs.Outcomes.{FinalState, HasOutcomeShape};
ghost use Rattle.lw_base.specs.declared.event.Event.{Event};
ghost use Rattle.lw_memory.specs.Flat.{flat_memory};
ghost use Rattle.lw_memory.specs.SystemLaws.{invariant_of};
ghost use Rattle.lw_memory.specs.Memory.{memory_of};
ghost use Rattle.lw_litmus.specs.declared.instr.Instr.{Instr};
ghost use Rattle.lw_litmus.specs.WellFormedTests.{IsWellFormedProgram};
ghost use Rattle.lw_litmus.specs.WellScopedTests.{IsWellScopedProgram};
ghost use Rattle.lw_litmus.specs.Tests.{X86Test};
ghost use Rattle.lw_tso.specs.Endings.{CanTerminate};
ghost use Rattle.lw_tso.specs.EventRanges.{IsEventInRange};
ghost use Rattle.lw_tso.specs.Evictions.{without_evictions};
ghost use Rattle.lw_tso.specs.Independence.{AreIndependent, EventsCommute};
ghost use Rattle.lw_tso.specs.Fencing.{HasInsertedFencesInCode, HasInsertedFences, MarksAreFences, code_without};
ghost use Rattle.lw_tso.specs.Machines.{MachineState, EventResult, over_flat_memory, MachineTransition};
ghost use Rattle.lw_tso.specs.Runs.{MachineRunsTo, ReplaysTo, IsMachineOutcome, initial_machine_state};
ghost use Rattle.lw_tso.specs.Starts.{IsInitialMemory};

use lw_memory::MemorySystem;

/// States that a program has the same outcomes over every memory system: those over flat memory.
pub fn outcomes_are_flat<M: MemorySystem>()
    ensures { (test : X86Test) (m : M) (o : FinalState) → IsWellScopedProgram test
        → IsInitialMemory (memory_of M.content M.state M.serves) (invariant_of M.cpus M.sound) test m
        → IsMachineOutcome (memory_of M.content M.state M.serves) test m o ↔ IsMachineOutcome flat_memory test test.head.init_words o }
{}

/// States that a list of events without evictions replays over a memory system to an outcome if and
/// only if it does over flat memory.
pub fn replays_are_flat<M: MemorySystem>()
    ensures { (test : X86Test) (m : M) (events : List Event) (o : FinalState) → IsWellScopedProgram test
        → IsInitialMemory (memory_of M.content M.state M.serves) (invariant_of M.cpus M.sound) test m → without_evictions events ≡ events
        → ReplaysTo (memory_of M.content M.state M.serves) test m events o ↔ ReplaysTo flat_memory test test.head.init_words events o }
{}

/// States that every run of a program, over every memory system, can be extended to a final state by a
/// few more events of each thread.
pub fn every_run_ends<M: MemorySystem>()
    ensures { (test : X86Test) (m : M) (events : List Event) (s : MachineState M) → IsWellScopedProgram test
        → IsInitialMemory (memory_of M.content M.state M.serves) (invariant_of M.cpus M.sound) test m
        → MachineRunsTo (memory_of M.content M.state M.serves) test.threads events (initial_machine_state test m) s
        → CanTerminate (memory_of M.content M.state M.serves) test.threads s }
{}

/// States that the events of a replay name only the test's processors and locations, and that its
/// outcome has as many threads and locations.
pub fn replays_are_of_their_test<M: MemorySystem>()
    ensures { (test : X86Test) (m : M) (events : List Event) (o : FinalState) → IsWellScopedProgram test
        → IsInitialMemory (memory_of M.content M.state M.serves) (invariant_of M.cpus M.sound) test m
        → ReplaysTo (memory_of M.content M.state M.serves) test m events o
        → HasOutcomeShape test.head.threads (length test.head.locs) o
        × AllByRecursion (IsEventInRange test.head.threads (length test.head.locs)) events }
{}

/// States, of a reachable state and an event that is no eviction, that the event has the same result over a memory
/// system as over flat memory, and leaves the same processors and the same content.
pub fn events_are_flat<M: MemorySystem>()
    ensures over_flat { (test : X86Test) (m : M) (events : List Event) (s after : MachineState M) (e : Event) (answer : EventResult)
        → IsWellScopedProgram test → IsInitialMemory (memory_of M.content M.state M.serves) (invariant_of M.cpus M.sound) test m
        → MachineRunsTo (memory_of M.content M.state M.serves) test.threads events (initial_machine_state test m) s
        → without_evictions (e ∷ []) ≡ e ∷ []
        → MachineTransition (memory_of M.content M.state M.serves) test.threads e s answer after
        → MachineTransition flat_memory test.threads e (over_flat_memory (memory_of M.content M.state M.serves) s) answer
        (over_flat_memory (memory_of M.content M.state M.serves) after) }
    ensures over_memory { (test : X86Test) (m : M) (events : List Event) (s : MachineState M) (e : Event) (answer : EventResult)
        (end : MachineState (List ℕ))
        → IsWellScopedProgram test → IsInitialMemory (memory_of M.content M.state M.serves) (invariant_of M.cpus M.sound) test m
        → MachineRunsTo (memory_of M.content M.state M.serves) test.threads events (initial_machine_state test m) s
        → without_evictions (e ∷ []) ≡ e ∷ []
        → MachineTransition flat_memory test.threads e (over_flat_memory (memory_of M.content M.state M.serves) s) answer end
        → (after : MachineState M) × MachineTransition (memory_of M.content M.state M.serves) test.threads e s answer after
        × (over_flat_memory (memory_of M.content M.state M.serves) after ≡ end) }
{}

/// States that over flat memory an event has one result and one next state.
pub fn flat_events_are_determined()
    ensures { (program : List (List Instr)) (e : Event) (s after other : MachineState (List ℕ)) (a b : EventResult)
        → MachineTransition flat_memory program e s a after → MachineTransition flat_memory program e s b other → (a ≡ b) × (after ≡ other) }
{}

/// States that adjacent independent events of the flat machine commute: the state after both is the
/// same, and each step executes the same position.
pub fn independent_events_commute()
    ensures { (program : List (List Instr)) (e f : Event) (s : MachineState (List ℕ)) → AreIndependent program e f s
        → EventsCommute program e f s }
{}

/// States that fences only remove outcomes: every outcome of a test with MFENCEs inserted, at any
/// indices, is an outcome of the test.
pub fn fences_only_remove_outcomes()
    ensures { (test fenced : X86Test) (o : FinalState) → HasInsertedFences test fenced
        → IsMachineOutcome flat_memory fenced fenced.head.init_words o → IsMachineOutcome flat_memory test test.head.init_words o }
{}

/// States that fences only remove outcomes over every memory system too.
pub fn fences_only_remove_outcomes_over_every_memory<M: MemorySystem>()
    ensures { (test fenced : X86Test) (m n : M) (o : FinalState) → IsWellScopedProgram fenced → HasInsertedFences test fenced
        → IsInitialMemory (memory_of M.content M.state M.serves) (invariant_of M.cpus M.sound) test m
        → IsInitialMemory (memory_of M.content M.state M.serves) (invariant_of M.cpus M.sound) fenced n
        → IsMachineOutcome (memory_of M.content M.state M.serves) fenced n o
        → IsMachineOutcome (memory_of M.content M.state M.serves) test m o }
{
    outcomes_are_flat::<M>();
    fences_only_remove_outcomes();
    tests_without_fences_are_well_formed();
}

/// States that a test is well-scoped if it is so with MFENCEs inserted. It is well-formed if it has a valid name and is
/// well-formed with MFENCEs inserted.
pub fn tests_without_fences_are_well_formed()
    ensures well_scoped { (test fenced : X86Test) → IsWellScopedProgram fenced → HasInsertedFences test fenced → IsWellScopedProgram test }
    ensures well_formed { (test fenced : X86Test) → IsTestName test.head.name → IsWellFormedProgram fenced → HasInsertedFences test fenced
        → IsWellFormedProgram test }
{}

/// States that any MFENCEs of a code can be removed: inserting them again gives the code.
pub fn fences_can_be_removed()
    ensures { (left_out : List Bool) (code : List Instr) → MarksAreFences left_out code
        → HasInsertedFencesInCode (code_without left_out code) code }
{}
