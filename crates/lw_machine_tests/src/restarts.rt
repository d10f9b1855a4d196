//! Machines over each memory system: a run, and a restart.
ghost use Rattle.std.specs.Prelude.{◌≡◌, ◌≤◌, length};

use crate::machines::caches_of;
use lw_base::{Cpu, End, Event, Loc, Outcome, Stop, Word};
use lw_litmus::Program;
use lw_memory::{FlatMemory, LineState, MemorySystem};
use lw_mesi::{MesiProtocol, MoesiProtocol};
use lw_test_reader::program_of;
use lw_tso::{Machine, every_run_ends};
use std::alloc::Global;

/// The first thread jumps if the zero flag is set, and sets it. The second one exchanges, loads and stores.
const JUMP_AND_EXCHANGE: &str =
    "X86 A {x=5; y=7; 1:EBX=3} P0|P1; JE L | XCHG [y],EBX; MOV [x],$1 | MOV EAX,[x]; L: CMP EAX,$0 | MOV [x],$9; exists (true)";

/// Returns the events of a run in which each thread terminates. The first thread's store drains, and the second one's
/// remains in the buffer.
fn events() -> [Event; 7] {
    let [p0, p1, ..] = Cpu::all();
    [
        Event::Step(p0),
        Event::Step(p0),
        Event::Step(p0),
        Event::Step(p1),
        Event::Step(p1),
        Event::Step(p1),
        Event::Drain(p0),
    ]
}

/// Returns whether the second thread's first registers and the words are these, and all other registers are 0.
fn is_outcome(outcome: &Outcome, registers: [Word; 2], words: [Word; 2]) -> bool {
    let [eax, ebx] = registers;
    outcome.regs.as_slice() == [[0; 6], [eax, ebx, 0, 0, 0, 0]].as_slice()
        && outcome.words.as_slice() == words.as_slice()
}

/// Runs the events, and returns whether all are carried out and reach the expected state.
fn runs_as_expected<M: MemorySystem>(machine: &mut Machine<'_, M>) -> bool {
    let replay = machine.run(&events());
    match machine.outcome() {
        Ok(outcome) => {
            replay.done == 7 && replay.end == End::NotFinal && is_outcome(&outcome, [5, 7], [1, 3])
        }
        Err(_) => false,
    }
}

/// Returns whether the memory system of two processors is as it was created: the words of x and y are 5 and 7, and no
/// cache has a copy.
pub(crate) fn is_as_created<M: MemorySystem>(memory: &M) -> bool {
    if memory.cpu_count() != 2 || memory.location_count() != 2 {
        return false;
    }
    let ([p0, p1, ..], [x, y, ..]) = (Cpu::all(), Loc::all());
    let words = [
        memory.word_at_end(x),
        memory.word_at_end(y),
        memory.word_in_memory(x),
        memory.word_in_memory(y),
    ];
    let states = [
        memory.state_of(p0, x),
        memory.state_of(p0, y),
        memory.state_of(p1, x),
        memory.state_of(p1, y),
    ];
    words == [5, 7, 5, 7] && states == [LineState::I; 4]
}

/// Returns whether all store buffers are empty, and the memory system, registers and words are the initial ones.
fn is_at_start<M: MemorySystem>(machine: &mut Machine<'_, M>) -> bool {
    let [p0, p1, ..] = Cpu::all();
    let drained = (
        machine.step(Event::Drain(p0)),
        machine.step(Event::Drain(p1)),
    );
    match machine.outcome() {
        Ok(outcome) => {
            drained == (Err(Stop::BufferEmpty), Err(Stop::BufferEmpty))
                && is_as_created(machine.memory())
                && is_outcome(&outcome, [0, 3], [5, 7])
        }
        Err(_) => false,
    }
}

/// Returns whether a machine of a program over this memory system runs as expected, and again after a restart; `None` if
/// memory runs out.
fn is_restarted<M: MemorySystem + Drop>(alloc: Global, program: &Program, memory: M) -> Option<bool>
    requires threads { length program.now.threads ≤ M.cpus memory }
    requires words { M.content memory ≡ program.now.head.init_words }
{
    every_run_ends::<M>();
    let mut machine = Machine::new(alloc, program, memory).ok()?;
    let first_runs = runs_as_expected(&mut machine);
    machine.restart();
    let is_at_start = is_at_start(&mut machine);
    Some(first_runs && is_at_start && runs_as_expected(&mut machine))
}

/// Returns whether machines over each memory system run as expected, and again after a restart; `None` if memory runs out.
fn are_restarted(alloc: Global, program: &Program) -> Option<bool> {
    let flat = FlatMemory::new(program.head.threads, program.head.init_words.as_slice());
    let over_flat = is_restarted(alloc, program, flat)?;
    let mesi = caches_of::<MesiProtocol>(alloc, program)?;
    let over_mesi = is_restarted(alloc, program, mesi)?;
    let moesi = caches_of::<MoesiProtocol>(alloc, program)?;
    let over_moesi = is_restarted(alloc, program, moesi)?;
    Some(over_flat && over_mesi && over_moesi)
}

#[test]
fn runs_and_restarts_over_each_memory_system(rt: HostRuntime) {
    let are_restarted = match program_of(rt.alloc(), JUMP_AND_EXCHANGE) {
        Some(program) => are_restarted(rt.alloc(), &program),
        None => None,
    };
    assert!(rt; are_restarted == Some(true));
}
