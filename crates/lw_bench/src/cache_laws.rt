//! Theorems about the machine over caches, for tests as values: no test distinguishes the protocols, caches are
//! coherent, and every run can be extended to an end. A law is a function without a result, whose contract states the
//! law.
ghost use Rattle.std.specs.Prelude.{◌↔◌, List};
ghost use Rattle.lw_base.specs.Outcomes.{FinalState};
ghost use Rattle.lw_base.specs.declared.event.Event.{Event};
ghost use Rattle.lw_litmus.specs.Tests.{X86Test};
ghost use Rattle.lw_litmus.specs.WellScopedTests.{IsWellScopedProgram};
ghost use Rattle.lw_mesi.specs.CacheLines.{Caches};
ghost use Rattle.lw_mesi.specs.Coherence.{SatisfiesProtocol};
ghost use Rattle.lw_mesi.specs.Protocols.{caches_by};
ghost use Rattle.lw_mesi.specs.declared.protocol.Protocol.{Protocol};
ghost use Rattle.lw_tso.specs.Endings.{CanTerminate};
ghost use Rattle.lw_tso.specs.Machines.{MachineState};
ghost use Rattle.lw_tso_caches.specs.OverCaches.{FitsCaches, RunsToOverCaches, OutcomeOverCaches};

use lw_mesi::empty_caches_are_coherent;
use lw_tso_caches::outcomes_over_caches_are_flat;

/// States that an x86 test has the same outcomes over caches of any two protocols, empty at the start. So a protocol
/// shows only in cache lines and in memory's words.
pub fn protocols_have_the_same_outcomes()
    ensures { (protocol other : Protocol) (test : X86Test) (o : FinalState) → IsWellScopedProgram test
        → FitsCaches test → OutcomeOverCaches protocol test o ↔ OutcomeOverCaches other test o }
{
    outcomes_over_caches_are_flat();
}

/// States that in every state of every run there is a single writer or many readers. Over caches of a protocol, empty
/// at the start, the caches are coherent after any steps, drains and evictions: if there is a copy in M or E, there
/// is no other; at most one copy is in M or O; every copy holds the coherent word; and the copies are in states of
/// the protocol.
pub fn caches_are_coherent_in_every_run()
    ensures { (protocol : Protocol) (test : X86Test) (events : List Event) (s : MachineState Caches)
        → IsWellScopedProgram test → FitsCaches test → RunsToOverCaches protocol test events s
        → SatisfiesProtocol protocol s.memory }
{
    empty_caches_are_coherent();
}

/// States that every run of an x86 test over such caches can be extended to a final state, by a few more events of
/// each thread, none of them an eviction.
pub fn every_run_over_caches_ends()
    ensures { (protocol : Protocol) (test : X86Test) (events : List Event) (s : MachineState Caches)
        → IsWellScopedProgram test → FitsCaches test → RunsToOverCaches protocol test events s
        → CanTerminate (caches_by protocol) test.threads s }
{
    empty_caches_are_coherent();
}
