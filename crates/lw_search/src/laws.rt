//! Laws of searches. A law is a function without a result whose contract states the law. A proof uses the law by
//! calling the function.
ghost use Rattle.std.specs.Prelude.{◌≡◌, ◌<◌, ℕ, Ok, Some, List, length, slice_get, IsTrue};
ghost use Rattle.lw_base.specs.declared.event.Event.{Event};
ghost use Rattle.lw_litmus.specs.declared.instr.Instr.{Instr};
ghost use Rattle.lw_memory.specs.Flat.{flat_memory};
ghost use Rattle.lw_tso.specs.Runs.{MachineRunsTo, is_final};
ghost use Rattle.lw_tso.specs.EventEffects.{cpu_of};
ghost use Rattle.lw_tso.specs.Machines.{MachineTransition};
ghost use Rattle.lw_search.specs.inner.InvisibleEvents.{IsInvisible, IsForward};
ghost use Rattle.lw_search.specs.inner.StateKeys.{State, Components, FoundStates};
ghost use Rattle.lw_search.specs.inner.Invariant.{Covers, SearchInvariant};

/// States that an invisible event can be taken before all other events: each final state that some run reaches from the state before it is
/// reached from the state after it, by a run that is no longer.
pub(crate) fn invisible_events_can_be_taken_first()
    ensures { (program : List (List Instr)) (e : Event) (s next : State) → IsForward program
        → MachineTransition flat_memory program e s (Ok tt) next → IsInvisible program e s → cpu_of e < length program → Covers program next s }
{}

/// States that a search that has visited each state that it found has found all final states that are reachable.
pub(crate) fn all_final_states_are_found()
    ensures { (program : List (List Instr)) (start : State) (tables : Components) (visited : FoundStates) (found : List State)
        → SearchInvariant program start tables visited found (length found)
        → (events : List Event) (end : State) → MachineRunsTo flat_memory program events start end → IsTrue (is_final program end)
        → (i : ℕ) × (slice_get found i ≡ Some end) }
{}
