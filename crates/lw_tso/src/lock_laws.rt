//! The law of locked instructions: executed in one step, or in phases under a global lock, they have the same
//! outcomes. A law is a function without a result, whose contract states the law. A proof uses the law by calling the
//! function.
ghost use Rattle.std.specs.Prelude.{◌↔◌};
ghost use Rattle.lw_base.specs.Outcomes.{FinalState};
ghost use Rattle.lw_memory.specs.Flat.{flat_memory};
ghost use Rattle.lw_litmus.specs.WellScopedTests.{IsWellScopedProgram};
ghost use Rattle.lw_litmus.specs.Tests.{X86Test};
ghost use Rattle.lw_tso.specs.LockPhases.{OutcomeInPhases};
ghost use Rattle.lw_tso.specs.Runs.{IsMachineOutcome};

/// States that the published machine has the outcomes of this machine. In the published machine a
/// locked instruction takes a lock, reads, writes into the store buffer and releases the lock once the buffer is
/// empty, while other processors continue; here it is one step.
pub fn lock_phases_change_no_outcome()
    ensures { (test : X86Test) (o : FinalState) → IsWellScopedProgram test
        → OutcomeInPhases test o ↔ IsMachineOutcome flat_memory test test.head.init_words o }
{}
