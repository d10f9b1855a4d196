//! The schedule of a compiled program that simulates a run of its source.
ghost use Rattle.std.specs.Prelude.{◌≡◌, ℕ, List, ◌<◌, ◌++◌, ◌∷◌, [], if◌then◌else◌, length, map, replicate, take, slice_get, IfOk, OnErr};
ghost use Rattle.lw_base.specs.Outcomes.{FinalState};
ghost use Rattle.lw_base.specs.Threads.{thread_code};
ghost use Rattle.lw_base.specs.declared.event.Event.TheVariants.{Step, Drain};
ghost use Rattle.lw_memory.specs.Flat.{flat_memory};
ghost use Rattle.lw_interleaving.specs.Runs.{State, SourceRunsTo, InterleavesTo, initial_state};
ghost use Rattle.lw_litmus.specs.Views.{source_of, program_of};
ghost use Rattle.lw_tso.specs.Runs.{ReplaysTo};
ghost use Rattle.lw_litmus.specs.Operations.{is_store};
ghost use Rattle.lw_litmus.specs.Sources.{source_operation};
ghost use Rattle.lw_litmus.specs.Tests.{SourceTest, X86Test};
ghost use Rattle.lw_litmus.specs.WellScopedTests.{IsWellScopedSource};
ghost use Rattle.lw_fence.specs.Compiling.{IsCompiled};
ghost use Rattle.lw_fence.specs.Schedules.{statement_events, compiled_schedule};

use crate::compiled::Compiled;
use lw_base::{Cpu, Event};
use lw_interleaving::SourceRun;
use lw_litmus::{Source, Statement, Stmt};
use std::alloc::{AllocError, Allocator};

/// Appends the events of a statement: a step for each of its instructions, and after a store a drain. If memory runs
/// out, some of them may have been appended.
fn push_statement<A: Allocator>(
    events: &mut Vec<Event, A>,
    cpu: Cpu,
    stmt: &Stmt,
    instructions: usize,
) -> Result<(), AllocError>
    ensures ok { IfOk result (λ _. events.new.items ≡ events.old.items
        ++ (replicate instructions (Step cpu) ++ (if is_store (source_operation stmt.now) then Drain cpu ∷ [] else []))) }
    ensures err { OnErr result (take (length events.old.items) events.new.items ≡ events.old.items) }
{
    for _instr in 0..instructions {
        events.push(Event::Step(cpu))?;
    }
    if stmt.operation().is_store() {
        events.push(Event::Drain(cpu))?;
    }
    Ok(())
}

/// Appends the events of the statement at an index of a thread: a step for each of its instructions, and after a
/// store a drain. If memory runs out, none is appended.
pub fn push_next<A: Allocator>(
    events: &mut Vec<Event, A>,
    source: &Source<A>,
    compiled: &Compiled<A>,
    cpu: Cpu,
    index: usize,
) -> Result<(), AllocError>
    requires compiled { IsCompiled (source_of source.now) (program_of compiled.now.program) compiled.now.starts }
    requires in_range { index < length (thread_code source.now.threads cpu) }
    ensures ok { IfOk result (λ _. events.new.items ≡ events.old.items
        ++ statement_events cpu (thread_code compiled.now.starts cpu) index (slice_get (thread_code source.now.threads cpu) index)) }
    ensures err { OnErr result (events.new.items ≡ events.old.items) }
{
    let code = &source.threads.as_slice()[cpu.index()];
    let starts = &compiled.starts.as_slice()[cpu.index()];
    let code = code.as_slice();
    let starts = starts.as_slice();
    let len = events.len();
    match push_statement(events, cpu, &code[index], starts[index + 1] - starts[index]) {
        Ok(()) => Ok(()),
        Err(error) => {
            events.truncate(len);
            Err(error)
        }
    }
}

/// Returns the schedule of the compiled program that simulates a run of the source: for each thread of the order a
/// step for each instruction of its next statement, and after a store a drain.
pub fn schedule_of<A: Allocator + Copy>(
    alloc: A,
    source: &Source<A>,
    compiled: &Compiled<A>,
    order: &[Cpu],
) -> Result<Vec<Event, A>, AllocError>
    requires compiled { IsCompiled (source_of source.now) (program_of compiled.now.program) compiled.now.starts }
    requires possible { (end : State) × SourceRunsTo source.now.threads (map Step order.now) (initial_state (source_of source.now)) end }
    ensures schedule { IfOk result (λ v. v.items
        ≡ compiled_schedule source.now.threads compiled.now.starts order.now (initial_state (source_of source.now))) }
    ensures replays { IfOk result (λ v. (o : FinalState) → InterleavesTo (source_of source.now) order.now o
        → ReplaysTo flat_memory (program_of compiled.now.program) compiled.now.program.head.init_words v.items o) }
{
    let mut run = SourceRun::new(alloc, source)?;
    let mut events = Vec::new(alloc);
    for cpu in order {
        let index = run.position(*cpu);
        push_next(&mut events, source, compiled, *cpu, index)?;
        run.step(*cpu).unwrap();
    }
    Ok(events)
}

/// States that the schedule of a source run replays, over flat memory in the compiled program, to the outcome of the
/// run.
pub fn schedules_replay()
    ensures { (s : SourceTest) (p : X86Test) (starts : List (List ℕ)) (order : List ℕ) (o : FinalState)
        → IsWellScopedSource s → IsCompiled s p starts → InterleavesTo s order o
        → ReplaysTo flat_memory p p.head.init_words (compiled_schedule s.threads starts order (initial_state s)) o }
{}
