//! The machine: an x86 program on processors with store buffers, over a memory system.
ghost use Rattle.std.specs.Prelude.{◌≡◌, ◌<◌, ◌≤◌, ℕ, length, map, Some, slice_get, slice_index, IfOk, IfErr, OnErr};
ghost use Rattle.std.specs.List.{list_all, zip};
ghost use Rattle.lw_base.specs.declared.event.Event.TheVariants as of;
ghost use Rattle.lw_memory.specs.Memory.{memory_of};
ghost use Rattle.lw_litmus.specs.Tests.{test_of};
ghost use Rattle.lw_tso.specs.Processors.{initial_processor};
ghost use Rattle.lw_tso.specs.Machines.{MachineTransition, buffer_of};
ghost use Rattle.lw_tso.specs.Runs.{has_terminated, initial_machine_state, machine_outcome, IsMachineReplay};
ghost use Rattle.lw_tso.specs.Runs as runs;
ghost use Rattle.lw_base.specs.Threads.{thread_code};
ghost use Rattle.lw_tso.specs.inner.BufferCapacity.{stores_from};
ghost use Rattle.lw_tso.specs.inner.Views.{processor_of};
ghost use Rattle.lw_tso.specs.declared.processor.Processor.{Processor as ProcessorInMemory};

use crate::processor::Processor;
use lw_base::{Cpu, End, Event, Loc, Outcome, REGISTERS, Reg, Replay, Sequence, Stop, Word};
use lw_litmus::{Instr, Program, Statement};
use lw_memory::{MemorySystem, NotHeld};
use std::alloc::{AllocError, Allocator, Global};
use std::marker::Model;

/// An x86 program on the machine: for each thread a processor with a store buffer, over one memory system.
#[derive(Drop)]
pub struct Machine<'a, M: MemorySystem, A: Allocator = Global, B: Allocator = Global> {
    program: &'a Program<B>,
    processors: Vec<Processor<A>, A>,
    memory: M,
}

impl<'a, M: MemorySystem, A: Allocator, B: Allocator> Model for Machine<'a, M, A, B> {
    ghost use Rattle.std.specs.Prelude.{length, map};
    ghost use Rattle.lw_tso.specs.Runs.{MachineRun};
    ghost use Rattle.lw_memory.specs.SystemLaws.{invariant_of};
    ghost use Rattle.lw_memory.specs.Memory.{memory_of};
    ghost use Rattle.lw_tso.specs.inner.BufferCapacity.{IsReachableMachine};
    ghost use Rattle.lw_tso.specs.inner.Views.{processor_of};

    ghost Value = { MachineRun M };

    ghost view = { λ m. record {
      program = m.program.now.threads;
      initial = record { regs = m.program.now.head.init_regs; words = m.program.now.head.init_words };
      state = record { processors = map processor_of m.processors.items; memory = m.memory };
    } };

    ghost invariant = { λ m. IsReachableMachine (memory_of M.content M.state M.serves) (invariant_of M.cpus M.sound)
        m.program.now.threads (length m.program.now.head.locs) m.memory m.processors.items };
}

impl<'a, M: MemorySystem, A: Allocator + Copy, B: Allocator> Machine<'a, M, A, B> {
    /// Creates a machine in the initial state of a program. The memory system has at least a processor for each
    /// thread, and the program's initial words as content. If memory runs out, the error returns the memory system
    /// unchanged. Later calls except `outcome` do not allocate.
    pub fn new(alloc: A, program: &'a Program<B>, memory: M) -> Result<Self, M>
        requires threads { length program.now.threads ≤ M.cpus memory }
        requires words { M.content memory ≡ program.now.head.init_words }
        ensures program { IfOk result (λ m. m.program ≡ program.now.threads) }
        ensures initial { IfOk result
            (λ m. m.initial ≡ record { regs = program.now.head.init_regs; words = program.now.head.init_words }) }
        ensures start { IfOk result (λ m. m.state ≡ initial_machine_state (test_of program.now.head program.now.threads) memory) }
        ensures err { IfErr result (λ m. m ≡ memory) }
    {
        let _cpus = memory.cpu_count();
        match processors_of(alloc, program) {
            Ok(processors) => Ok(Machine {
                program,
                processors,
                memory,
            }),
            Err(AllocError) => Err(memory),
        }
    }

    /// Returns the current registers and the memory's content. Fails only if memory runs out.
    pub fn outcome(&self) -> Result<Outcome<A>, AllocError>
        ensures { IfOk result (λ o. o ≡ machine_outcome (memory_of M.content M.state M.serves) self.now.state) }
    {
        let alloc = *self.processors.allocator();
        let regs = registers_of(alloc, self.processors.as_slice())?;
        let words = content_of(alloc, &self.memory)?;
        Ok(Outcome { regs, words })
    }
}

impl<'a, M: MemorySystem, A: Allocator, B: Allocator> Machine<'a, M, A, B> {
    /// Returns the index of the processor's next instruction.
    pub fn position(&self, cpu: Cpu) -> usize
        requires { cpu < length self.now.state.processors }
        ensures { slice_get (map (λ p. p.position) self.now.state.processors) cpu ≡ Some result }
    {
        self.processors[cpu.index()].position
    }

    /// Returns the word of a processor's register.
    pub fn reg(&self, cpu: Cpu, reg: Reg) -> Word
        requires { cpu < length self.now.state.processors }
        ensures { slice_get (map (λ p. slice_index p.regs reg) self.now.state.processors) cpu ≡ Some result }
    {
        self.processors[cpu.index()].regs[reg.index()]
    }

    /// Returns the number of entries in a processor's store buffer.
    pub fn buffered(&self, cpu: Cpu) -> usize
        requires { cpu < length self.now.state.processors }
        ensures { result ≡ length (buffer_of self.now.state cpu) }
    {
        self.processors[cpu.index()].buffer.len()
    }

    /// Returns an entry of a processor's store buffer, counted from the oldest.
    pub fn entry(&self, cpu: Cpu, index: usize) -> (Loc, Word)
        requires { index < length (buffer_of self.now.state cpu) }
        ensures entry { slice_get (buffer_of self.now.state cpu) index ≡ Some result }
        ensures location { result.0 < length (M.content self.now.state.memory) }
    {
        self.processors[cpu.index()].buffer.entry(index)
    }

    /// Resets the machine to the initial state. Does not allocate.
    pub fn restart(&mut self)
        ensures program { self.new.program ≡ self.old.program }
        ensures initial { self.new.initial ≡ self.old.initial }
        ensures state { self.new.state
            ≡ record { processors = map initial_processor self.old.initial.regs; memory = M.start (M.cpus self.old.state.memory) self.old.initial.words } }
        ensures sound { M.sound self.new.state.memory }
        ensures cpus { length self.new.program ≤ M.cpus self.new.state.memory }
        ensures words { M.content self.new.state.memory ≡ self.old.initial.words }
    {
        let head = &self.program.head;
        restart_all(&mut self.processors, head.init_regs.as_slice());
        self.memory.restart(head.init_words.as_slice());
    }

    /// Writes the current registers and the memory's content into an outcome of the same size. Does not allocate.
    pub fn write_outcome<C: Allocator>(&self, outcome: &mut Outcome<C>)
        requires threads { length outcome.old.regs ≡ length self.now.state.processors }
        requires words { length outcome.old.words ≡ length (M.content self.now.state.memory) }
        ensures { outcome.new ≡ machine_outcome (memory_of M.content M.state M.serves) self.now.state }
    {
        copy_registers(self.processors.as_slice(), &mut outcome.regs);
        copy_content(&self.memory, &mut outcome.words);
    }

    /// Borrows the memory system.
    pub fn memory(&self) -> &M
        ensures memory { result.now ≡ self.now.state.memory }
        ensures cpus { length self.now.state.processors ≤ M.cpus result.now }
    {
        &self.memory
    }

    /// Carries out an event. A rejected event changes nothing.
    pub fn step(&mut self, event: Event) -> Result<(), Stop>
        ensures program { self.new.program ≡ self.old.program }
        ensures initial { self.new.initial ≡ self.old.initial }
        ensures done { MachineTransition (memory_of M.content M.state M.serves)
            self.old.program event self.old.state result self.new.state }
        ensures err { OnErr result (self.new ≡ self.old) }
        ensures processors { length self.new.state.processors ≡ length self.old.state.processors }
        ensures words { length (M.content self.new.state.memory) ≡ length (M.content self.old.state.memory) }
    {
        match event {
            Event::Step(cpu) => self.step_thread(cpu),
            Event::Drain(cpu) => self.drain(cpu),
            Event::Evict(cpu, loc) => self.evict(cpu, loc),
        }
    }

    /// Carries out events up to the first that is rejected, or all.
    pub fn run(&mut self, events: &[Event]) -> Replay
        ensures program { self.new.program ≡ self.old.program }
        ensures initial { self.new.initial ≡ self.old.initial }
        ensures replayed { IsMachineReplay (memory_of M.content M.state M.serves)
            self.old.program events.now self.old.state result self.new.state }
        ensures processors { length self.new.state.processors ≡ length self.old.state.processors }
        ensures words { length (M.content self.new.state.memory) ≡ length (M.content self.old.state.memory) }
    {
        for (done, event) in events.iter().enumerate() {
            if let Err(stop) = self.step(*event) {
                return Replay {
                    done,
                    end: End::Stopped(stop),
                };
            }
        }
        let end = if self.is_final() {
            End::Final
        } else {
            End::NotFinal
        };
        Replay {
            done: events.len(),
            end,
        }
    }

    /// Returns whether all threads have terminated and all store buffers are empty.
    pub fn is_final(&self) -> bool
        ensures { result ≡ runs.is_final self.now.program self.now.state }
    {
        have_terminated(self.program, self.processors.as_slice())
    }

    /// Executes the next instruction of a processor. A rejected step changes nothing.
    fn step_thread(&mut self, cpu: Cpu) -> Result<(), Stop>
        ensures program { self.new.program ≡ self.old.program }
        ensures initial { self.new.initial ≡ self.old.initial }
        ensures done { MachineTransition (memory_of M.content M.state M.serves)
            self.old.program (of.Step cpu) self.old.state result self.new.state }
        ensures sound { M.sound self.old.state.memory }
    {
        if self.processors.len() <= cpu.index() {
            return Err(Stop::NoCpu);
        }
        let processor = &mut self.processors[cpu.index()];
        let Some(instr) = instr_at(self.program, cpu, processor.position) else {
            return Err(Stop::Ended);
        };
        processor.carry_out(cpu, instr.operation(), &mut self.memory)
    }

    /// Drains the oldest entry of a processor's store buffer to memory. A rejected drain changes nothing.
    fn drain(&mut self, cpu: Cpu) -> Result<(), Stop>
        ensures program { self.new.program ≡ self.old.program }
        ensures initial { self.new.initial ≡ self.old.initial }
        ensures done { MachineTransition (memory_of M.content M.state M.serves)
            self.old.program (of.Drain cpu) self.old.state result self.new.state }
        ensures sound { M.sound self.old.state.memory }
    {
        if self.processors.len() <= cpu.index() {
            return Err(Stop::NoCpu);
        }
        let processor = &mut self.processors[cpu.index()];
        processor.drain(cpu, &mut self.memory)
    }

    /// Evicts a location from a processor's cache. A rejected eviction changes nothing.
    fn evict(&mut self, cpu: Cpu, loc: Loc) -> Result<(), Stop>
        ensures program { self.new.program ≡ self.old.program }
        ensures initial { self.new.initial ≡ self.old.initial }
        ensures done { MachineTransition (memory_of M.content M.state M.serves)
            self.old.program (of.Evict cpu loc) self.old.state result self.new.state }
        ensures sound { M.sound self.old.state.memory }
    {
        if self.processors.len() <= cpu.index() {
            return Err(Stop::NoCpu);
        }
        if self.memory.location_count() <= loc.index() {
            return Err(Stop::NoLocation);
        }
        if let Err(NotHeld) = self.memory.evict(cpu, loc) {
            return Err(Stop::NotHeld);
        }
        Ok(())
    }
}

/// Creates the processors of a program, each at its first instruction.
fn processors_of<A: Allocator + Copy, B: Allocator>(
    alloc: A,
    program: &Program<B>,
) -> Result<Vec<Processor<A>, A>, AllocError>
    ensures start { IfOk result (λ v. map processor_of v.items ≡ map initial_processor program.now.head.init_regs) }
    ensures rooms { IfOk result (λ v. (t : ℕ) (p : ProcessorInMemory A) → slice_get v.items t ≡ Some p
        → stores_from 0 (thread_code program.now.threads t) ≤ p.buffer.room) }
{
    let mut processors = Vec::new(alloc);
    for (thread, regs) in program.head.init_regs.as_slice().iter().enumerate() {
        let code = &program.threads.as_slice()[thread];
        processors.push(Processor::new(alloc, *regs, code.as_slice())?)?;
    }
    Ok(processors)
}

/// Resets the processors to their first instructions, with these registers.
fn restart_all<A: Allocator>(processors: &mut [Processor<A>], init_regs: &[[Word; REGISTERS]])
    requires { length processors.old ≡ length init_regs.now }
    ensures start { map processor_of processors.new ≡ map initial_processor init_regs.now }
    ensures rooms { map (λ p. p.buffer.room) processors.new ≡ map (λ p. p.buffer.room) processors.old }
{
    for (thread, regs) in init_regs.iter().enumerate() {
        let processor = &mut processors[thread];
        processor.restart(*regs);
    }
}

/// Returns the instruction at a position of a thread's code, or `None` at the end.
fn instr_at<A: Allocator>(program: &Program<A>, cpu: Cpu, position: usize) -> Option<Instr>
    requires { cpu < length program.now.threads }
    ensures { result ≡ slice_get (thread_code program.now.threads cpu) position }
{
    let code = &program.threads.as_slice()[cpu.index()];
    code.get(position).copied()
}

/// Returns whether all processors are past the ends of their codes with empty store buffers.
fn have_terminated<A: Allocator, B: Allocator>(
    program: &Program<B>,
    processors: &[Processor<A>],
) -> bool
    ensures { result ≡ list_all (λ p. has_terminated p.0 (processor_of p.1)) (zip program.now.threads processors.now) }
{
    program
        .threads
        .as_slice()
        .iter()
        .zip(processors)
        .all(|(code, processor)| processor.is_done(code.len()))
}

/// Returns the registers of each processor.
fn registers_of<A: Allocator, B: Allocator>(
    alloc: A,
    processors: &[Processor<B>],
) -> Result<Sequence<[Word; REGISTERS], A>, AllocError>
    ensures { IfOk result (λ regs. regs ≡ map (λ p. p.regs) processors.now) }
{
    let mut regs = Sequence::new(alloc);
    for processor in processors {
        regs.push(processor.regs)?;
    }
    Ok(regs)
}

/// Returns the content of a memory system, a word for each location.
fn content_of<M: MemorySystem, A: Allocator>(
    alloc: A,
    memory: &M,
) -> Result<Sequence<Word, A>, AllocError>
    ensures { IfOk result (λ words. words ≡ M.content memory.now) }
{
    let mut words = Sequence::new(alloc);
    for loc in &Loc::all()[..memory.location_count()] {
        words.push(memory.word_at_end(*loc))?;
    }
    Ok(words)
}

/// Copies the registers of each processor over the rows of a list of the same length.
fn copy_registers<A: Allocator, B: Allocator>(
    processors: &[Processor<A>],
    regs: &mut Sequence<[Word; REGISTERS], B>,
)
    requires { length regs.old ≡ length processors.now }
    ensures { regs.new ≡ map (λ p. p.regs) processors.now }
{
    for (thread, processor) in processors.iter().enumerate() {
        regs.set(thread, processor.regs);
    }
}

/// Copies the content of a memory system over a list of the same length.
fn copy_content<M: MemorySystem, A: Allocator>(memory: &M, words: &mut Sequence<Word, A>)
    requires { length words.old ≡ length (M.content memory.now) }
    ensures { words.new ≡ M.content memory.now }
{
    for loc in &Loc::all()[..memory.location_count()] {
        words.set(loc.index(), memory.word_at_end(*loc));
    }
}
