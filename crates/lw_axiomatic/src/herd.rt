//! Laws that relate the definitions to herd's, which use other words. A law is a function without a result, whose
//! contract states the law.
ghost use Rattle.std.specs.Prelude.{◌≡◌, ◌↔◌, ℕ, ◌<◌, Bool, true, nat_lt};
ghost use Rattle.lw_axiomatic.specs.Axioms.{Coherence, GlobalHappensBefore, OnOneLocation, HappensBefore};
ghost use Rattle.lw_axiomatic.specs.Axioms.{SatisfiesAxioms, IsAllowed};
ghost use Rattle.lw_axiomatic.specs.Candidates.{IsCandidate};
ghost use Rattle.lw_axiomatic.specs.CoherenceOrders.{IsCoherenceOrder};
ghost use Rattle.lw_axiomatic.specs.Cycles.{HasNoCycle};
ghost use Rattle.lw_axiomatic.specs.Executions.{MemoryEvent, Execution, Writes};
ghost use Rattle.lw_axiomatic.specs.SplitEvents.{SatisfiesSplitAxioms, IsAllowedBySplitAxioms};
ghost use Rattle.lw_axiomatic.specs.Sequential.{IsSequentiallyConsistent, ScOrder};
ghost use Rattle.lw_base.specs.Outcomes.{FinalState};
ghost use Rattle.lw_litmus.specs.Programs.{x86_language};
ghost use Rattle.lw_litmus.specs.Sources.{source_language};
ghost use Rattle.lw_litmus.specs.Tests.{SourceTest, X86Test};

/// States that the relations of an axiom have no cycle together, as herd requires, if and only if some numbering of the events
/// increases along them, as the definitions require (`Acyclic`).
pub fn acyclic_relations_have_no_cycle()
    ensures coherence { (test : X86Test) (x : Execution) → Coherence test x ↔ HasNoCycle (OnOneLocation test x) }
    ensures happens_before { (test : X86Test) (x : Execution)
        → GlobalHappensBefore test x ↔ HasNoCycle (HappensBefore test x) }
    ensures x86_sequence { (test : X86Test) (x : Execution)
        → IsSequentiallyConsistent x86_language test x ↔ HasNoCycle (ScOrder x86_language test x) }
    ensures source_sequence { (test : SourceTest) (x : Execution)
        → IsSequentiallyConsistent source_language test x ↔ HasNoCycle (ScOrder source_language test x) }
{}

/// States that a locked instruction as one event, which reads and writes, is equivalent to two events with the axiom
/// that no write of another thread comes between them: for every candidate execution, and so for the outcomes.
pub fn locked_instructions_can_be_two_events()
    ensures executions { (test : X86Test) (x : Execution) (o : FinalState) → IsCandidate x86_language test x o
        → SatisfiesAxioms test x ↔ SatisfiesSplitAxioms test x }
    ensures outcomes { (test : X86Test) (o : FinalState) → IsAllowed test o ↔ IsAllowedBySplitAxioms test o }
{}

/// States that coherence order, which a candidate execution has by ranks, is a total order of each location's writes, as in herd,
/// and that each such order has ranks.
pub fn coherence_ranks_are_total_orders()
    ensures orders { (test : X86Test) (x : Execution) (o : FinalState) → IsCandidate x86_language test x o
        → IsCoherenceOrder x86_language test x (λ w v. nat_lt (x.co w) (x.co v)) }
    ensures indices { (test : X86Test) (x : Execution) (before : MemoryEvent → MemoryEvent → Bool)
        → IsCoherenceOrder x86_language test x before
        → (rank : MemoryEvent → ℕ) × ((w v : MemoryEvent) (l : ℕ) → Writes x86_language test x w l → Writes x86_language test x v l
        → (before w v ≡ true) ↔ (rank w < rank v)) }
{}
