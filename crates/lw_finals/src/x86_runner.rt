//! The runner of x86 tests, on the machine over MESI caches.
ghost use Rattle.std.specs.Prelude.{◌≡◌, ◌<◌, ◌↔◌, true, false, Err, IsTrue, length, All, IfOk};
ghost use Rattle.lw_base.specs.declared.stop.Stop.{Stop};
ghost use Rattle.lw_memory.specs.Flat.{flat_memory};
ghost use Rattle.lw_memory.specs.Memory.{memory_of};
ghost use Rattle.lw_tso.specs.Independence.{IsAtPosition};
ghost use Rattle.lw_tso.specs.Machines.{MachineTransition};
ghost use Rattle.lw_litmus.specs.Views.{program_of};
ghost use Rattle.lw_finals.specs.X86Runs.{event_of, events_of, X86ItemTransition, X86FollowsPathsToEnd, ReplaysFlatTo};

use crate::runner::{OrderRunner, copy_outcome};
use lw_base::{Event, Outcome, Sequence};
use lw_litmus::Program;
use lw_memory::MemorySystem;
use lw_mesi::{Mesi, empty_caches_are_coherent};
use lw_paths::Item;
use lw_tso::{Machine, events_are_flat};
use std::alloc::{AllocError, Allocator};
use std::marker::Model;

/// Runs an x86 test on the machine. Its outcomes do not depend on the caches.
#[derive(Drop)]
pub(crate) struct X86Runner<'a, A: Allocator> {
    alloc: A,
    program: &'a Program<A>,
    machine: Machine<'a, Mesi<A>, A, A>,
    /// The outcome of the last run that followed its paths; before that, room of its size.
    end: Outcome<A>,
}

impl<'a, A: Allocator> Model for X86Runner<'a, A> {
    ghost use Rattle.std.specs.Prelude.{◌≡◌, length};
    ghost use Rattle.std.specs.Coded.{codes};
    ghost use Rattle.lw_litmus.specs.Views.{program_of};
    ghost use Rattle.lw_finals.specs.inner.Codes.{formula_code};
    ghost use Rattle.lw_finals.specs.inner.Collected.{RunnerState};
    ghost use Rattle.lw_litmus.specs.Tests.{X86Test};

    ghost Value = { RunnerState X86Test };

    ghost coded = { Prim.hlevel (codes, formula_code) };

    ghost view = { λ r. record { test = program_of r.program.now; end = r.end } };

    ghost invariant = { λ r.
        (r.machine.program ≡ r.program.now.threads)
        × (r.machine.initial ≡ record { regs = r.program.now.head.init_regs; words = r.program.now.head.init_words })
        × (length r.end.regs ≡ length r.program.now.head.init_regs) × (length r.end.words ≡ length r.program.now.head.init_words) };
}

/// Returns the event that an item represents: a step of its thread, or a drain.
fn event_of(item: &Item) -> Event
    ensures { result ≡ event_of item.now }
{
    if item.is_drain {
        Event::Drain(item.thread)
    } else {
        Event::Step(item.thread)
    }
}

/// Returns the events of an order's items.
fn events_of<A: Allocator>(
    alloc: A,
    items: &[Item],
    order: &[u8],
) -> Result<Sequence<Event, A>, AllocError>
    requires { All (λ i. i < length items.now) order.now }
    ensures { IfOk result (λ events. events ≡ events_of items.now order.now) }
{
    let mut events = Vec::with_capacity(alloc, order.len())?;
    for index in order {
        events.push(event_of(&items[usize::from(*index)]))?;
    }
    Ok(Sequence::from(events))
}

/// Returns whether an item's thread is at the item's instruction. A drain needs no position, so this is always true
/// of a drain.
fn is_at_item<M: MemorySystem, A: Allocator, B: Allocator>(
    machine: &Machine<'_, M, A, B>,
    threads: usize,
    item: &Item,
) -> bool
    requires { threads ≡ length machine.now.state.processors }
    ensures { IsTrue result ↔ IsAtPosition (event_of item.now) item.now.position machine.now.state }
{
    if item.is_drain {
        return true;
    }
    if threads <= item.thread.index() {
        return false;
    }
    machine.position(item.thread) == usize::from(item.position)
}

/// Executes an item, an instruction or a drain, and returns whether it did. It does not if the event is rejected, or
/// if the item is an instruction whose thread does not exist or is elsewhere.
fn carry_out<M: MemorySystem, A: Allocator, B: Allocator>(
    machine: &mut Machine<'_, M, A, B>,
    threads: usize,
    item: &Item,
) -> bool
    requires { threads ≡ length machine.old.state.processors }
    ensures program { machine.new.program ≡ machine.old.program }
    ensures initial { machine.new.initial ≡ machine.old.initial }
    ensures processors { length machine.new.state.processors ≡ length machine.old.state.processors }
    ensures words { length (M.content machine.new.state.memory) ≡ length (M.content machine.old.state.memory) }
    ensures done { result ≡ true → X86ItemTransition (memory_of M.content M.state M.serves)
        machine.old.program item.now machine.old.state machine.new.state }
    ensures left { result ≡ false → IsAtPosition (event_of item.now) item.now.position machine.old.state
        → (stop : Stop) × MachineTransition (memory_of M.content M.state M.serves)
        machine.old.program (event_of item.now) machine.old.state (Err stop) machine.new.state }
{
    if !is_at_item(machine, threads, item) {
        return false;
    }
    machine.step(event_of(item)).is_ok()
}

/// Returns room for the outcome of a run, with the initial registers and words of the program: each run overwrites it.
fn room_for_outcome<A: Allocator + Copy>(program: &Program<A>) -> Result<Outcome<A>, AllocError>
    ensures { IfOk result (λ o. o ≡ record { regs = program.now.head.init_regs; words = program.now.head.init_words }) }
{
    Ok(Outcome {
        regs: program.head.init_regs.copy()?,
        words: program.head.init_words.copy()?,
    })
}

impl<'a, A: Allocator + Copy> X86Runner<'a, A> {
    /// Creates a runner of an x86 test. Fails only if memory runs out.
    pub(crate) fn new(alloc: A, program: &'a Program<A>) -> Result<Self, AllocError>
        ensures test { IfOk result (λ r. r.test ≡ program_of program.now) }
    {
        empty_caches_are_coherent();
        let end = room_for_outcome(program)?;
        let words = program.head.init_words.as_slice();
        let caches: Mesi<A> = Mesi::new(alloc, program.head.threads, words)?;
        let Ok(machine) = Machine::new(alloc, program, caches) else {
            return Err(AllocError);
        };
        Ok(X86Runner {
            alloc,
            program,
            machine,
            end,
        })
    }
}

impl<'a, A: Allocator + Copy> OrderRunner<A> for X86Runner<'a, A> {
    type Kept = Sequence<Event, A>;

    ghost use Rattle.lw_litmus.specs.Tests.{X86Test};

    ghost Test = { X86Test };

    ghost test = { λ r. r.test };

    ghost ends = { λ t. X86FollowsPathsToEnd flat_memory t t.head.init_words };

    ghost leads = { ReplaysFlatTo };

    ghost end = { λ r. r.end };

    /// Runs an order's items, steps and drains, and returns whether they follow their paths to a final state.
    fn run(&mut self, items: &[Item], order: &[u8]) -> bool {
        events_are_flat::<Mesi<A>>();
        let threads = self.program.threads.len();
        self.machine.restart();
        for index in order {
            if !carry_out(&mut self.machine, threads, &items[usize::from(*index)]) {
                return false;
            }
        }
        if !self.machine.is_final() {
            return false;
        }
        self.machine.write_outcome(&mut self.end);
        true
    }

    /// Returns the outcome of the last run, if that followed its paths.
    fn last_outcome(&self) -> &Outcome<A> {
        &self.end
    }

    /// States that some schedule reaches the outcome.
    fn has_kept(&self, _items: &[Item], _order: &[u8]) {}

    /// Returns the outcome of the last run, with the schedule of the order's events.
    fn entry(
        &self,
        items: &[Item],
        order: &[u8],
    ) -> Result<(Outcome<A>, Sequence<Event, A>), AllocError> {
        let events = events_of(self.alloc, items, order)?;
        let outcome = copy_outcome(&self.end)?;
        Ok((outcome, events))
    }
}
