//! The complete list of a test, of either language, with schedules or without.
ghost use Rattle.std.specs.Prelude.{◌≡◌, ◌↔◌, All, Contains, IfOk, IfErr, OnOk, length};
ghost use Rattle.lw_base.specs.Heads.{head_of};
ghost use Rattle.lw_base.specs.Outcomes.{FinalState, HasOutcomeShape};
ghost use Rattle.lw_mesi.specs.declared.protocol.Protocol.{Protocol};
ghost use Rattle.lw_interleaving.specs.Runs.{SourceOutcome};
ghost use Rattle.lw_litmus.specs.Views.{source_of, program_of};
ghost use Rattle.lw_paths.specs.Counts.{LimitFaultIsTrue, IsWithinLimits};
ghost use Rattle.lw_base.specs.ListedOutcomes.{IsListedOutcome};
ghost use Rattle.lw_outcome_map.specs.Listings.{outcomes_of, IsStrictlySorted};
ghost use Rattle.lw_fence.specs.Compiling.{IsCompiled};
ghost use Rattle.lw_tso_caches.specs.CompleteLists.{ListsMachine, IsComplete, AreAllOutcomes};
ghost use Rattle.lw_memory.specs.Flat.{flat_memory};
ghost use Rattle.lw_tso.specs.Runs.{IsMachineOutcome};
ghost use Rattle.lw_tso_caches.specs.OverCaches.{ReplaysToOverCaches, OutcomeOverCaches};
ghost use Rattle.lw_litmus.specs.Sources.{source_language as source_language};
ghost use Rattle.lw_litmus.specs.Programs.{x86_language};

use crate::collect::list_program;
use crate::laws::lists_are_complete;
use crate::runner::OutcomeRunner;
use crate::source_runner::SourceRunner;
use crate::x86_runner::X86Runner;
use lw_fence::{Compiled, compile};
use lw_litmus::{Program, Source};
use lw_outcome_map::{Listing, OutcomeList};
use lw_paths::ListFault;
use std::alloc::Allocator;

/// Lists all final states of a source test, each with a schedule of the compiled program.
pub fn list_source<A: Allocator + Copy>(
    alloc: A,
    source: &Source<A>,
) -> Result<Listing<A>, ListFault>
    // The outcomes are strictly ascending, so there are no duplicates.
    ensures sorted { IfOk result (λ l. IsStrictlySorted l) }
    // They are exactly those that interleaving on one memory reaches.
    ensures exactly { IfOk result (λ l. (o : FinalState) → Contains (outcomes_of l) o ↔ SourceOutcome (source_of source.now) o) }
    // They are exactly those that the compiled program reaches on the whole machine, where each entry's schedule
    // replays to its outcome.
    ensures machine { IfOk result (ListsMachine (source_of source.now)) }
    // Each entry has the test's threads and locations.
    ensures of_test { IfOk result (λ l. All (IsListedOutcome (head_of source.now.head)) l) }
    // A list is returned only within the limits, and a limit is reported only if it is exceeded.
    ensures within { OnOk result (IsWithinLimits source_language source.now.threads) }
    ensures limit { IfErr result (LimitFaultIsTrue source_language source.now.threads) }
{
    let compiled = compile(alloc, source)?;
    list_compiled(alloc, source, &compiled)
}

/// Lists all final states of a source test whose compiled program is known.
fn list_compiled<A: Allocator + Copy>(
    alloc: A,
    source: &Source<A>,
    compiled: &Compiled<A>,
) -> Result<Listing<A>, ListFault>
    requires compiled { IsCompiled (source_of source.now) (program_of compiled.now.program) compiled.now.starts }
    requires outcomes { (o : FinalState)
        → IsMachineOutcome flat_memory (program_of compiled.now.program) compiled.now.program.head.init_words o ↔ SourceOutcome (source_of source.now) o }
    ensures sorted { IfOk result (λ l. IsStrictlySorted l) }
    ensures whole { IfOk result (IsComplete (SourceOutcome (source_of source.now)) (program_of compiled.now.program)) }
    ensures within { OnOk result (IsWithinLimits source_language source.now.threads) }
    ensures limit { IfErr result (LimitFaultIsTrue source_language source.now.threads) }
{
    lists_are_complete();
    let mut runner = SourceRunner::new(alloc, source, compiled)?;
    list_program(alloc, source.threads.as_slice(), &mut runner)
}

/// Lists all final states of a source test, without schedules.
pub fn list_source_outcomes<A: Allocator + Copy>(
    alloc: A,
    source: &Source<A>,
) -> Result<OutcomeList<A>, ListFault>
    // The outcomes are strictly ascending, so there are no duplicates.
    ensures sorted { IfOk result (λ l. IsStrictlySorted l) }
    // They are exactly those that interleaving on one memory reaches.
    ensures exactly { IfOk result (λ l. (o : FinalState) → Contains (outcomes_of l) o ↔ SourceOutcome (source_of source.now) o) }
    // Each has the test's threads and locations.
    ensures of_test { IfOk result (λ l. All (HasOutcomeShape source.now.head.threads (length source.now.head.locs)) (outcomes_of l)) }
    // A list is returned only within the limits, and a limit is reported only if it is exceeded.
    ensures within { OnOk result (IsWithinLimits source_language source.now.threads) }
    ensures limit { IfErr result (LimitFaultIsTrue source_language source.now.threads) }
{
    let compiled = compile(alloc, source)?;
    list_compiled_outcomes(alloc, source, &compiled)
}

/// Lists all final states of a source test whose compiled program is known, without schedules.
fn list_compiled_outcomes<A: Allocator + Copy>(
    alloc: A,
    source: &Source<A>,
    compiled: &Compiled<A>,
) -> Result<OutcomeList<A>, ListFault>
    requires compiled { IsCompiled (source_of source.now) (program_of compiled.now.program) compiled.now.starts }
    requires outcomes { (o : FinalState)
        → IsMachineOutcome flat_memory (program_of compiled.now.program) compiled.now.program.head.init_words o ↔ SourceOutcome (source_of source.now) o }
    ensures sorted { IfOk result (λ l. IsStrictlySorted l) }
    ensures whole { IfOk result (λ l. AreAllOutcomes (SourceOutcome (source_of source.now)) (program_of compiled.now.program) (outcomes_of l)) }
    ensures within { OnOk result (IsWithinLimits source_language source.now.threads) }
    ensures limit { IfErr result (LimitFaultIsTrue source_language source.now.threads) }
{
    lists_are_complete();
    let mut outcomes = OutcomeRunner::new(SourceRunner::new(alloc, source, compiled)?);
    list_program(alloc, source.threads.as_slice(), &mut outcomes)
}

/// Lists all final states of an x86 test on the whole machine, each with a schedule of steps and drains.
pub fn list_x86<A: Allocator + Copy>(
    alloc: A,
    program: &Program<A>,
) -> Result<Listing<A>, ListFault>
    // The outcomes are strictly ascending, so there are no duplicates.
    ensures sorted { IfOk result (λ l. IsStrictlySorted l) }
    // They are exactly those that the machine reaches over caches of either protocol, over all schedules of steps,
    // drains and evictions.
    ensures exactly { IfOk result (λ l. (protocol : Protocol) (o : FinalState)
        → Contains (outcomes_of l) o ↔ OutcomeOverCaches protocol (program_of program.now) o) }
    // Each entry's schedule replays there to its outcome.
    ensures replays { IfOk result (λ l. (protocol : Protocol) → All (λ e. ReplaysToOverCaches protocol (program_of program.now) e.1 e.0) l) }
    // Each entry has the test's threads and locations.
    ensures of_test { IfOk result (λ l. All (IsListedOutcome (head_of program.now.head)) l) }
    // A list is returned only within the limits, and a limit is reported only if it is exceeded.
    ensures within { OnOk result (IsWithinLimits x86_language program.now.threads) }
    ensures limit { IfErr result (LimitFaultIsTrue x86_language program.now.threads) }
{
    lists_are_complete();
    let mut runner = X86Runner::new(alloc, program)?;
    list_program(alloc, program.threads.as_slice(), &mut runner)
}

/// Lists all final states of an x86 test on the whole machine, without schedules.
pub fn list_x86_outcomes<A: Allocator + Copy>(
    alloc: A,
    program: &Program<A>,
) -> Result<OutcomeList<A>, ListFault>
    // The outcomes are strictly ascending, so there are no duplicates.
    ensures sorted { IfOk result (λ l. IsStrictlySorted l) }
    // They are exactly those that the machine reaches over caches of either protocol, over all schedules of steps,
    // drains and evictions.
    ensures exactly { IfOk result (λ l. (protocol : Protocol) (o : FinalState)
        → Contains (outcomes_of l) o ↔ OutcomeOverCaches protocol (program_of program.now) o) }
    // Each has the test's threads and locations.
    ensures of_test { IfOk result (λ l. All (HasOutcomeShape program.now.head.threads (length program.now.head.locs)) (outcomes_of l)) }
    // A list is returned only within the limits, and a limit is reported only if it is exceeded.
    ensures within { OnOk result (IsWithinLimits x86_language program.now.threads) }
    ensures limit { IfErr result (LimitFaultIsTrue x86_language program.now.threads) }
{
    lists_are_complete();
    let mut outcomes = OutcomeRunner::new(X86Runner::new(alloc, program)?);
    list_program(alloc, program.threads.as_slice(), &mut outcomes)
}
