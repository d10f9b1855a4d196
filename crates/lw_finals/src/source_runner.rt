//! The runner of source tests.
ghost use Rattle.std.specs.Prelude.{◌≡◌, ◌<◌, true, false, length, All, IfOk};
ghost use Rattle.lw_fence.specs.Compiling.{IsCompiled};
ghost use Rattle.lw_interleaving.specs.Runs.{State};
ghost use Rattle.lw_litmus.specs.Views.{source_of, program_of};
ghost use Rattle.lw_finals.specs.SourceRuns.{SourceItemTransition, SourceFollowsPathsToEnd};
ghost use Rattle.lw_paths.specs.Items.{item_at};
ghost use Rattle.lw_finals.specs.X86Runs.{ReplaysFlatTo};
ghost use Rattle.lw_finals.specs.inner.SourceRunners.{CompiledSource, HasStatementAt, item_events};

use crate::runner::{OrderRunner, copy_outcome};
use lw_base::{Event, Outcome, Sequence};
use lw_fence::{Compiled, push_next, schedules_replay};
use lw_interleaving::SourceRun;
use lw_litmus::Source;
use lw_paths::Item;
use std::alloc::{AllocError, Allocator};
use std::marker::Model;

/// Runs a source test. Its schedules are those of the compiled program.
#[derive(Drop)]
pub(crate) struct SourceRunner<'a, A: Allocator> {
    alloc: A,
    source: &'a Source<A>,
    compiled: &'a Compiled<A>,
    run: SourceRun<'a, A, A>,
    /// The outcome of the last run that followed its paths; before that, room of its size.
    end: Outcome<A>,
}

impl<'a, A: Allocator> Model for SourceRunner<'a, A> {
    ghost use Rattle.std.specs.Prelude.{◌≡◌, length};
    ghost use Rattle.lw_fence.specs.Compiling.{IsCompiled};
    ghost use Rattle.lw_interleaving.specs.Runs.{initial_state};
    ghost use Rattle.lw_litmus.specs.Views.{source_of, program_of};
    ghost use Rattle.lw_finals.specs.X86Runs.{ReplaysFlatTo};
    ghost use Rattle.lw_finals.specs.inner.Collected.{RunnerState};
    ghost use Rattle.lw_finals.specs.inner.SourceRunners.{CompiledSource};
    ghost use Rattle.std.specs.Coded.{codes};
    ghost use Rattle.lw_finals.specs.inner.Codes.{formula_code};

    ghost Value = { RunnerState CompiledSource };

    ghost coded = { Prim.hlevel (codes, formula_code) };

    ghost view = { λ r. record {
      test = record { source = source_of r.source.now; program = program_of r.compiled.now.program; starts = r.compiled.now.starts };
      end = r.end;
    } };

    ghost invariant = { λ r.
        IsCompiled (source_of r.source.now) (program_of r.compiled.now.program) r.compiled.now.starts
        × (r.run.program ≡ r.source.now.threads) × (r.run.start ≡ initial_state (source_of r.source.now))
        × (length r.run.state.threads ≡ length r.source.now.threads) × (length r.run.state.words ≡ length r.source.now.head.locs)
        × (length r.end.regs ≡ length r.source.now.threads) × (length r.end.words ≡ length r.source.now.head.locs) };
}

/// Executes an item, which is always a statement here, and returns whether it did. It does not if the item's thread
/// does not exist or is at another statement.
fn carry_out<A: Allocator, B: Allocator>(
    run: &mut SourceRun<'_, A, B>,
    threads: usize,
    item: Item,
) -> bool
    requires { threads ≡ length run.old.state.threads }
    ensures program { run.new.program ≡ run.old.program }
    ensures start { run.new.start ≡ run.old.start }
    ensures threads { length run.new.state.threads ≡ length run.old.state.threads }
    ensures words { length run.new.state.words ≡ length run.old.state.words }
    ensures done { result ≡ true → SourceItemTransition run.old.program item run.old.state run.new.state }
    ensures left { result ≡ false → (next : State) → SourceItemTransition run.old.program item run.old.state next → ⊥ }
{
    item.thread.index() < threads
        && run.position(item.thread) == usize::from(item.position)
        && run.step(item.thread).is_ok()
}

impl<'a, A: Allocator + Copy> SourceRunner<'a, A> {
    /// Creates a runner of a source test with its compiled program. Fails only if memory runs out.
    pub(crate) fn new(
        alloc: A,
        source: &'a Source<A>,
        compiled: &'a Compiled<A>,
    ) -> Result<Self, AllocError>
        requires { IsCompiled (source_of source.now) (program_of compiled.now.program) compiled.now.starts }
        ensures test { IfOk result (λ r. r.test
            ≡ record { source = source_of source.now; program = program_of compiled.now.program; starts = compiled.now.starts }) }
    {
        let run = SourceRun::new(alloc, source)?;
        let end = run.outcome()?;
        Ok(SourceRunner {
            alloc,
            source,
            compiled,
            run,
            end,
        })
    }
}

/// Returns the schedule of an order's items: the events of their statements, concatenated.
fn schedule_of_items<A: Allocator>(
    alloc: A,
    source: &Source<A>,
    compiled: &Compiled<A>,
    items: &[Item],
    order: &[u8],
) -> Result<Vec<Event, A>, AllocError>
    requires within { All (λ i. i < length items.now) order.now }
    requires compiled { IsCompiled (source_of source.now) (program_of compiled.now.program) compiled.now.starts }
    requires has_statements { All (λ i. HasStatementAt source.now.threads (item_at items.now i)) order.now }
    ensures { IfOk result (λ v. v.items ≡ item_events source.now.threads compiled.now.starts items.now order.now) }
{
    let mut events = Vec::with_capacity(alloc, order.len().saturating_mul(2))?;
    for index in order {
        let item = items[usize::from(*index)];
        let position = usize::from(item.position);
        push_next(&mut events, source, compiled, item.thread, position)?;
    }
    Ok(events)
}

impl<'a, A: Allocator + Copy> OrderRunner<A> for SourceRunner<'a, A> {
    type Kept = Sequence<Event, A>;

    ghost Test = { CompiledSource };

    ghost test = { λ r. r.test };

    ghost ends = { λ t. SourceFollowsPathsToEnd t.source };

    ghost leads = { λ t. ReplaysFlatTo t.program };

    ghost end = { λ r. r.end };

    /// Runs the steps of an order's items, and returns whether they follow their paths to a final state.
    fn run(&mut self, items: &[Item], order: &[u8]) -> bool {
        let threads = self.source.threads.len();
        self.run.restart();
        for index in order {
            if !carry_out(&mut self.run, threads, items[usize::from(*index)]) {
                return false;
            }
        }
        if !self.run.is_final() {
            return false;
        }
        self.run.write_outcome(&mut self.end);
        true
    }

    /// Returns the outcome of the last run, if that followed its paths.
    fn last_outcome(&self) -> &Outcome<A> {
        &self.end
    }

    /// States that some schedule of the compiled program reaches the outcome.
    fn has_kept(&self, _items: &[Item], _order: &[u8]) {
        // (The proof needs the runner's invariant, which holds when a field is read.)
        let _source = self.source;
        schedules_replay();
    }

    /// Returns the outcome of the last run, with a schedule of the compiled program that reaches it.
    fn entry(
        &self,
        items: &[Item],
        order: &[u8],
    ) -> Result<(Outcome<A>, Sequence<Event, A>), AllocError> {
        schedules_replay();
        let events = schedule_of_items(self.alloc, self.source, self.compiled, items, order)?;
        let outcome = copy_outcome(&self.end)?;
        Ok((outcome, Sequence::from(events)))
    }
}
