//! Runs of source tests.
ghost use Rattle.std.specs.Prelude.{◌≡◌, ◌<◌, length, map, Some, slice_get, slice_index, IfOk};
ghost use Rattle.lw_litmus.specs.Views.{source_of};
ghost use Rattle.lw_interleaving.specs.Runs.{initial_state, source_step, source_event_result, IsStepResult, IsSourceReplay, source_outcome};
ghost use Rattle.lw_interleaving.specs.Runs as runs;

use crate::thread::Thread;
use lw_base::{Cpu, End, Event, Loc, Outcome, Reg, Replay, Sequence, Stop, Word};
use lw_litmus::{Source, Statement};
use std::alloc::{AllocError, Allocator, Global};
use std::marker::Model;

/// A run of a source test: its threads take their steps one at a time, on one memory. There are no store buffers and
/// no caches.
#[derive(Drop)]
pub struct SourceRun<'a, A: Allocator = Global, B: Allocator = Global> {
    source: &'a Source<B>,
    threads: Sequence<Thread, A>,
    words: Sequence<Word, A>,
}

impl<'a, A: Allocator, B: Allocator> Model for SourceRun<'a, A, B> {
    ghost use Rattle.std.specs.Prelude.{◌≡◌, length};
    ghost use Rattle.lw_interleaving.specs.Runs.{SourceRunState};

    ghost Value = { SourceRunState };

    ghost use Rattle.lw_interleaving.specs.Runs.{initial_state};
    ghost use Rattle.lw_litmus.specs.Views.{source_of};

    ghost view = { λ r. record {
      program = r.source.now.threads;
      start = initial_state (source_of r.source.now);
      state = record { threads = r.threads; words = r.words };
    } };

    ghost invariant = { λ r. (length r.threads ≡ length r.source.now.threads) × (length r.words ≡ length r.source.now.head.locs) };
}

impl<'a, A: Allocator + Copy, B: Allocator> SourceRun<'a, A, B> {
    /// Creates a run in the initial state of a test. Fails only if memory runs out.
    pub fn new(alloc: A, source: &'a Source<B>) -> Result<Self, AllocError>
        ensures program { IfOk result (λ r. r.program ≡ source.now.threads) }
        ensures start { IfOk result (λ r. r.start ≡ initial_state (source_of source.now)) }
        ensures state { IfOk result (λ r. r.state ≡ initial_state (source_of source.now)) }
    {
        let mut threads = Sequence::new(alloc);
        for regs in source.head.init_regs.as_slice() {
            threads.push(Thread {
                position: 0,
                regs: *regs,
            })?;
        }
        let words = Sequence::from_slice(alloc, source.head.init_words.as_slice())?;
        Ok(SourceRun {
            source,
            threads,
            words,
        })
    }

    /// Returns the current registers and memory. Fails only if memory runs out.
    pub fn outcome(&self) -> Result<Outcome<A>, AllocError>
        ensures { IfOk result (λ o. o ≡ source_outcome self.now.state) }
    {
        let alloc = *self.words.allocator();
        let mut regs = Sequence::new(alloc);
        for thread in self.threads.as_slice() {
            regs.push(thread.regs)?;
        }
        Ok(Outcome {
            regs,
            words: Sequence::from_slice(alloc, self.words.as_slice())?,
        })
    }
}

impl<'a, A: Allocator, B: Allocator> SourceRun<'a, A, B> {
    /// Resets the run to the initial state. Does not allocate.
    pub fn restart(&mut self)
        ensures program { self.new.program ≡ self.old.program }
        ensures start { self.new.start ≡ self.old.start }
        ensures state { self.new.state ≡ self.old.start }
    {
        for (cpu, regs) in self.source.head.init_regs.as_slice().iter().enumerate() {
            self.threads.set(
                cpu,
                Thread {
                    position: 0,
                    regs: *regs,
                },
            );
        }
        self.words.copy_from(self.source.head.init_words.as_slice());
    }

    /// Writes the current registers and memory into an outcome of the same size. Does not allocate.
    pub fn write_outcome<C: Allocator>(&self, outcome: &mut Outcome<C>)
        requires threads { length outcome.old.regs ≡ length self.now.state.threads }
        requires words { length outcome.old.words ≡ length self.now.state.words }
        ensures { outcome.new ≡ source_outcome self.now.state }
    {
        for (cpu, thread) in self.threads.as_slice().iter().enumerate() {
            outcome.regs.set(cpu, thread.regs);
        }
        outcome.words.copy_from(self.words.as_slice());
    }

    /// Executes the thread's next statement. A rejected step changes nothing.
    pub fn step(&mut self, cpu: Cpu) -> Result<(), Stop>
        ensures program { self.new.program ≡ self.old.program }
        ensures start { self.new.start ≡ self.old.start }
        ensures threads { length self.new.state.threads ≡ length self.old.state.threads }
        ensures words { length self.new.state.words ≡ length self.old.state.words }
        ensures done { IsStepResult (source_step self.old.program cpu self.old.state) result self.old self.new }
    {
        let Some(thread) = self.threads.get(cpu.index()) else {
            return Err(Stop::NoCpu);
        };
        let mut thread = *thread;
        let code = &self.source.threads.as_slice()[cpu.index()];
        let Some(stmt) = code.get(thread.position) else {
            return Err(Stop::Ended);
        };
        thread.carry_out(stmt.operation(), &mut self.words);
        self.threads.set(cpu.index(), thread);
        Ok(())
    }

    /// Carries out events up to the first that is rejected, or all.
    pub fn run(&mut self, events: &[Event]) -> Replay
        ensures program { self.new.program ≡ self.old.program }
        ensures start { self.new.start ≡ self.old.start }
        ensures replayed { IsSourceReplay self.old.program events.now self.old.state result self.new.state }
        ensures threads { length self.new.state.threads ≡ length self.old.state.threads }
        ensures words { length self.new.state.words ≡ length self.old.state.words }
    {
        for (done, event) in events.iter().enumerate() {
            if let Err(stop) = self.carry_out_event(*event) {
                return Replay {
                    done,
                    end: End::Stopped(stop),
                };
            }
        }
        let end = if self.is_final() {
            End::Final
        } else {
            End::NotFinal
        };
        Replay {
            done: events.len(),
            end,
        }
    }

    /// Carries out one event. A rejected event changes nothing.
    fn carry_out_event(&mut self, event: Event) -> Result<(), Stop>
        ensures program { self.new.program ≡ self.old.program }
        ensures start { self.new.start ≡ self.old.start }
        ensures done { IsStepResult (source_event_result self.old.program event self.old.state) result self.old self.new }
    {
        match event {
            Event::Step(cpu) => self.step(cpu),
            Event::Drain(cpu) => {
                if cpu.index() < self.threads.len() {
                    return Err(Stop::BufferEmpty);
                }
                Err(Stop::NoCpu)
            }
            Event::Evict(cpu, loc) => {
                if cpu.index() < self.threads.len() {
                    if loc.index() < self.words.len() {
                        return Err(Stop::NotHeld);
                    }
                    return Err(Stop::NoLocation);
                }
                Err(Stop::NoCpu)
            }
        }
    }

    /// Returns whether all threads have terminated.
    pub fn is_final(&self) -> bool
        ensures { result ≡ runs.is_source_final self.now.program self.now.state }
    {
        self.source
            .threads
            .as_slice()
            .iter()
            .zip(self.threads.as_slice())
            .all(|(code, thread)| thread.is_at_end(code.len()))
    }

    /// Returns the index of the thread's next statement.
    pub fn position(&self, cpu: Cpu) -> usize
        requires { cpu < length self.now.state.threads }
        ensures { slice_get (map (λ t. t.position) self.now.state.threads) cpu ≡ Some result }
    {
        self.threads.as_slice()[cpu.index()].position
    }

    /// Returns the word of a thread's register.
    pub fn reg(&self, cpu: Cpu, reg: Reg) -> Word
        requires { cpu < length self.now.state.threads }
        ensures { slice_get (map (λ t. slice_index t.regs reg) self.now.state.threads) cpu ≡ Some result }
    {
        self.threads.as_slice()[cpu.index()].regs[reg.index()]
    }

    /// Returns the word of a location.
    pub fn word(&self, loc: Loc) -> Word
        requires { loc < length self.now.state.words }
        ensures { slice_get self.now.state.words loc ≡ Some result }
    {
        self.words.as_slice()[loc.index()]
    }
}
