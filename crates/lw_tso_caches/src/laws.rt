//! Laws of the runs and outcomes of x86 tests over caches. They are proved by forward simulations, in both
//! directions, between caches and flat memory. A law is a function without a result, whose contract states the law. A
//! proof uses the law by calling the function.
ghost use Rattle.std.specs.Prelude.{◌≡◌, ◌↔◌, List};
ghost use Rattle.lw_base.specs.Outcomes.{FinalState};
ghost use Rattle.lw_base.specs.declared.event.Event.{Event};
ghost use Rattle.lw_memory.specs.Flat.{flat_memory};
ghost use Rattle.lw_mesi.specs.declared.protocol.Protocol.{Protocol};
ghost use Rattle.lw_tso.specs.Evictions.{without_evictions};
ghost use Rattle.lw_tso.specs.Runs.{ReplaysTo, IsMachineOutcome};
ghost use Rattle.lw_litmus.specs.WellScopedTests.{IsWellScopedProgram};
ghost use Rattle.lw_litmus.specs.Tests.{X86Test};
ghost use Rattle.lw_base.specs.ListedOutcomes.{IsListedOutcome};
ghost use Rattle.lw_tso_caches.specs.OverCaches.{FitsCaches, ReplaysToOverCaches, OutcomeOverCaches};

use lw_mesi::empty_caches_are_coherent;

/// States that an x86 test that fits the caches has the same outcomes over those of each protocol, empty at the start, as over flat memory.
pub fn outcomes_over_caches_are_flat()
    ensures { (protocol : Protocol) (test : X86Test) (o : FinalState) → IsWellScopedProgram test → FitsCaches test
        → OutcomeOverCaches protocol test o ↔ IsMachineOutcome flat_memory test test.head.init_words o }
{
    empty_caches_are_coherent();
}

/// States that a list of steps and drains replays to an outcome of a test that fits the caches over those of each protocol,
/// empty at the start, if and only if it does over flat memory. The events of a replay over caches, evictions included, name
/// only the test's processors and locations, and its outcome has as many threads and locations.
pub fn replays_over_caches_are_flat()
    ensures flat { (protocol : Protocol) (test : X86Test) (events : List Event) (o : FinalState) → IsWellScopedProgram test
        → FitsCaches test → without_evictions events ≡ events
        → ReplaysToOverCaches protocol test events o ↔ ReplaysTo flat_memory test test.head.init_words events o }
    ensures of_test { (protocol : Protocol) (test : X86Test) (events : List Event) (o : FinalState) → IsWellScopedProgram test
        → FitsCaches test → ReplaysToOverCaches protocol test events o → IsListedOutcome test.head (o, events) }
{
    empty_caches_are_coherent();
}
