//! The search: breadth first, from each state along each event that is enabled there.
ghost use Rattle.std.specs.Prelude.{◌≡◌, ◌≢◌, [], ℕ, ◌+◌, ◌≤◌, ◌<◌, true, false, Some, Ok, List, length, slice_get, slice_index, IfOk, OnOk};
ghost use Rattle.lw_base.specs.Limits.{most_threads};
ghost use Rattle.lw_base.specs.declared.event.Event.TheVariants as of;
ghost use Rattle.lw_litmus.specs.Views.{program_of};
ghost use Rattle.lw_memory.specs.Flat.{flat_memory};
ghost use Rattle.lw_tso.specs.EventEffects.{event_effect};
ghost use Rattle.lw_tso.specs.Processors.{Processor};
ghost use Rattle.lw_tso.specs.Runs.{initial_machine_state};
ghost use Rattle.lw_search.specs.inner.Accesses.{HasConflictsOfOthers};
ghost use Rattle.lw_search.specs.inner.StateKeys.{Represents, Extends, event_of};
ghost use Rattle.lw_search.specs.inner.Invariant.{IsCovered, CoversThread, ExpandsState, ExpandsUpTo, IsProgress, IsStarted, IsWorking, SettlesFrom};
ghost use Rattle.lw_search.specs.inner.ThreadStates.{ActResult};
ghost use Rattle.lw_search.specs.inner.Transitions.{AppendsRows, AreTransitions, CopiesRow, IsTransition, TakesEvent};

use crate::accesses::{Conflicts, Outlooks};
use crate::invisible::settle;
use crate::queue::Queue;
use crate::run::{Run, RunEvent};
use crate::states::{StateKey, StateTable};
use crate::tables::{Tables, row_number};
use crate::thread_state::ThreadState;
use crate::transitions::{Successor, Transition, TransitionCache};
use lw_base::{Cpu, REGISTERS, Sequence, Word};
use lw_litmus::{Instr, Program, Statement};
use std::alloc::{AllocError, Allocator};

/// A search: the program, the states that were found, the transitions of threads that were computed, and a working copy of one thread's
/// state and of the memory, with the run that reached them, and with what the threads may access then. No contract depends on `outlooks`.
#[derive(Drop)]
pub(crate) struct Search<'a, A: Allocator> {
    pub(crate) program: &'a Program<A>,
    pub(crate) tables: Tables<'a, A>,
    pub(crate) states: StateTable<A>,
    transitions: TransitionCache<A>,
    thread: ThreadState<A>,
    words: Sequence<Word, A>,
    run: Run<A>,
    outlooks: Outlooks,
}

/// Copies the words of a memory.
fn copy_words<A: Allocator + Copy>(
    memory: &Sequence<Word, A>,
    words: &mut Sequence<Word, A>,
) -> Result<(), AllocError>
    ensures { OnOk result (words.new ≡ memory.now) }
{
    if memory.len() == words.len() {
        words.copy_from(memory.as_slice());
        return Ok(());
    }
    *words = memory.copy()?;
    Ok(())
}

/// Copies the state of a thread of a machine state, if the key's number has a row. Returns whether it has.
fn load_thread<A: Allocator>(
    tables: &Tables<'_, A>,
    key: &StateKey,
    cpu: Cpu,
    thread: &mut ThreadState<A>,
) -> Result<bool, AllocError>
    ensures { IfOk result (CopiesRow (slice_get tables.now.threads (slice_index key.now (cpu + 1))) thread.new) }
{
    let Some(from) = tables.thread(key[cpu.index() + 1]) else {
        return Ok(false);
    };
    thread.copy_from(from)?;
    Ok(true)
}

/// Copies the memory of a machine state, if the key's number has a row. Returns whether it has.
fn load_memory<A: Allocator + Copy>(
    tables: &Tables<'_, A>,
    key: &StateKey,
    words: &mut Sequence<Word, A>,
) -> Result<bool, AllocError>
    ensures { IfOk result (CopiesRow (slice_get tables.now.memories (slice_index key.now 0)) words.new) }
{
    let Some(memory) = tables.memory(key[0]) else {
        return Ok(false);
    };
    copy_words(memory, words)?;
    Ok(true)
}

/// Copies the run of a number, if the number has a row. Returns whether it has.
fn load_run<A: Allocator + Copy>(
    states: &StateTable<A>,
    number: u32,
    run: &mut Run<A>,
) -> Result<bool, AllocError>
    ensures { IfOk result (CopiesRow (slice_get states.now.runs number) run.new) }
{
    let Some(from) = states.run(number) else {
        return Ok(false);
    };
    run.copy_from(from)?;
    Ok(true)
}

/// Carries out an event of a thread with this code. Returns whether it is enabled. If not, nothing changes.
fn carry_out<A: Allocator>(
    program: &Program<A>,
    event: RunEvent,
    cpu: Cpu,
    code: &[Instr],
    thread: &mut ThreadState<A>,
    words: &mut Sequence<Word, A>,
) -> Result<bool, AllocError>
    requires cpu { event.0 ≡ cpu }
    requires code { slice_get program.now.threads cpu ≡ Some code.now }
    ensures { IfOk result (λ r. (locs : ℕ)
        → ActResult (event_effect program.now.threads locs (event_of event) thread.old) thread.old words.old r thread.new words.new) }
{
    if event.is_drain() {
        return Ok(thread.drain(words));
    }
    let Some(instr) = instr_at(code, thread.position()) else {
        return Ok(false);
    };
    thread.carry_out(instr.operation(), words)
}

/// Returns the processor of a thread.
pub(crate) fn cpu_at(thread: usize) -> Cpu
    requires { thread < most_threads }
    ensures { result ≡ thread }
{
    Cpu::all()[thread]
}

/// Returns the instruction at a position of a code, or `None` at its end.
pub(crate) fn instr_at(code: &[Instr], position: usize) -> Option<Instr>
    ensures { result ≡ slice_get code.now position }
{
    code.get(position).copied()
}

/// Returns a key with the number of another memory, and with that of another state of one thread.
fn with_numbers(key: &StateKey, memory: u32, cpu: Cpu, thread: u32) -> StateKey
    ensures size { length result ≡ length key.now }
    ensures memory { slice_index result 0 ≡ memory }
    ensures thread { slice_index result (cpu + 1) ≡ thread }
    ensures others { (t : ℕ) → t ≢ cpu → slice_index result (t + 1) ≡ slice_index key.now (t + 1) }
{
    let mut next = *key;
    next[0] = memory;
    next[cpu.index() + 1] = thread;
    next
}

/// Returns a key with the number of another memory.
fn with_memory(key: &StateKey, memory: u32) -> StateKey
    ensures size { length result ≡ length key.now }
    ensures memory { slice_index result 0 ≡ memory }
    ensures threads { (t : ℕ) → slice_index result (t + 1) ≡ slice_index key.now (t + 1) }
{
    let mut next = *key;
    next[0] = memory;
    next
}

/// The maximum number of rounds in which the threads of a state take invisible events: each round except the last
/// takes one.
const MOST_ROUNDS: u32 = 256;

impl<'a, A: Allocator + Copy> Search<'a, A> {
    /// Takes the invisible events of a thread of a key in the working copies, if `may_settle` says that the thread may have any. Returns
    /// the key with the number of the thread's state after them.
    fn settle_thread(
        &mut self,
        key: &StateKey,
        cpu: Cpu,
        code: &[Instr],
        may_settle: bool,
    ) -> Result<StateKey, AllocError>
        requires code { slice_get self.old.program.now.threads cpu ≡ Some code.now }
        requires of_program { self.old.tables.program ≡ self.old.program.now.threads }
        ensures program { self.new.program ≡ self.old.program }
        ensures states { self.new.states ≡ self.old.states }
        ensures transitions { self.new.transitions ≡ self.old.transitions }
        ensures settled { let program = self.old.program.now.threads in IfOk result (λ next.
            SettlesFrom program (IsWorking program self.old.tables key.now self.old.words)
            self.old.tables self.new.tables next self.new.words self.old.run self.new.run) }
    {
        if !may_settle {
            return Ok(*key);
        }
        let outlooks = self.tables.outlooks(key);
        load_thread(&self.tables, key, cpu, &mut self.thread)?;
        let count = self.run.len();
        settle(
            self.program,
            outlooks.conflicts_with_others(cpu),
            cpu,
            code,
            &mut self.thread,
            &mut self.words,
            &mut self.run,
        )?;
        if self.run.len() == count {
            return Ok(*key);
        }
        let thread = self.tables.thread_number(&self.thread)?;
        let next = with_numbers(key, key[0], cpu, thread);
        self.outlooks = self.outlooks.with(cpu, &self.tables.outlook(&next, cpu));
        Ok(next)
    }

    /// Takes the invisible events of each thread of a key in turn, if it may have any. Returns the key with the threads' numbers.
    fn settle_in_turn(&mut self, key: &StateKey) -> Result<StateKey, AllocError>
        requires { self.old.tables.program ≡ self.old.program.now.threads }
        ensures program { self.new.program ≡ self.old.program }
        ensures states { self.new.states ≡ self.old.states }
        ensures transitions { self.new.transitions ≡ self.old.transitions }
        ensures settled { let program = self.old.program.now.threads in IfOk result (λ next.
            SettlesFrom program (IsWorking program self.old.tables key.now self.old.words)
            self.old.tables self.new.tables next self.new.words self.old.run self.new.run) }
    {
        let mut next = *key;
        let program = self.program;
        for (thread, code) in program.threads.as_slice().iter().enumerate() {
            let cpu = cpu_at(thread);
            let may_settle = self.outlooks.may_settle(cpu);
            next = self.settle_thread(&next, cpu, code.as_slice(), may_settle)?;
        }
        Ok(next)
    }

    /// Takes invisible events of the threads of a key for as long as one is enabled: the events of one may make those of others
    /// invisible. Returns the key with the threads' numbers.
    fn settle_all(&mut self, key: &StateKey) -> Result<StateKey, AllocError>
        requires { self.old.tables.program ≡ self.old.program.now.threads }
        ensures program { self.new.program ≡ self.old.program }
        ensures states { self.new.states ≡ self.old.states }
        ensures transitions { self.new.transitions ≡ self.old.transitions }
        ensures settled { let program = self.old.program.now.threads in IfOk result (λ next.
            SettlesFrom program (IsWorking program self.old.tables key.now self.old.words)
            self.old.tables self.new.tables next self.new.words self.old.run self.new.run) }
    {
        let mut next = *key;
        for _ in 0..MOST_ROUNDS {
            let count = self.run.len();
            next = self.settle_in_turn(&next)?;
            if self.run.len() == count || !self.outlooks.some_may_settle() {
                return Ok(next);
            }
        }
        Ok(next)
    }

    /// Numbers the thread's state, the memory and the run of the working copies. The memory is most often that of number `last`.
    fn number_copies(&mut self, last: u32) -> Result<Successor, AllocError>
        ensures program { self.new.program ≡ self.old.program }
        ensures transitions { self.new.transitions ≡ self.old.transitions }
        ensures appended { OnOk result (AppendsRows self.old.tables self.old.states self.new.tables self.new.states) }
        ensures thread { IfOk result (λ n. slice_get self.new.tables.threads n.thread ≡ Some self.old.thread) }
        ensures memory { IfOk result (λ n. slice_get self.new.tables.memories n.memory ≡ Some self.old.words) }
        ensures run { IfOk result (λ n. slice_get self.new.states.runs n.run ≡ Some self.old.run) }
    {
        let thread = self.tables.thread_number(&self.thread)?;
        let memory = self.tables.memory_number(&self.words, last)?;
        let run = self.states.run_number(&self.run)?;
        Ok(Successor {
            thread,
            memory,
            run,
        })
    }

    /// Takes an event of a thread in the state of a key, with the invisible events that follow it given the conflicts of the other threads,
    /// in the working copies. Returns where they lead, or `None` if the event is not enabled.
    fn compute_successor(
        &mut self,
        key: &StateKey,
        cpu: Cpu,
        event: RunEvent,
        code: &[Instr],
        conflicts: Conflicts,
    ) -> Result<Option<Successor>, AllocError>
        requires cpu { event.0 ≡ cpu }
        requires code { slice_get self.old.program.now.threads cpu ≡ Some code.now }
        ensures program { self.new.program ≡ self.old.program }
        ensures transitions { self.new.transitions ≡ self.old.transitions }
        ensures appended { OnOk result (AppendsRows self.old.tables self.old.states self.new.tables self.new.states) }
        ensures taken { IfOk result (TakesEvent self.old.program.now.threads
            self.new.tables self.new.states.runs key.now cpu event conflicts) }
    {
        if !load_thread(&self.tables, key, cpu, &mut self.thread)? {
            return Ok(None);
        }
        if !load_memory(&self.tables, key, &mut self.words)? {
            return Ok(None);
        }
        let program = self.program;
        if !carry_out(program, event, cpu, code, &mut self.thread, &mut self.words)? {
            return Ok(None);
        }
        self.run.restart(event)?;
        settle(
            program,
            conflicts,
            cpu,
            code,
            &mut self.thread,
            &mut self.words,
            &mut self.run,
        )?;
        let next = self.number_copies(key[0])?;
        Ok(Some(next))
    }

    /// Returns where an event of a thread leads in the state of a key, with the invisible events that follow it beside threads with these
    /// conflicts, or `None` if the event is not enabled. Takes the event only if the cache does not hold the transition.
    fn successor(
        &mut self,
        key: &StateKey,
        cpu: Cpu,
        event: RunEvent,
        code: &[Instr],
        conflicts: Conflicts,
    ) -> Result<Option<Successor>, AllocError>
        requires cpu { event.0 ≡ cpu }
        requires code { slice_get self.old.program.now.threads cpu ≡ Some code.now }
        requires kept { AreTransitions self.old.program.now.threads self.old.tables self.old.states.runs self.old.transitions }
        ensures program { self.new.program ≡ self.old.program }
        ensures kept { OnOk result (AreTransitions self.old.program.now.threads self.new.tables self.new.states.runs self.new.transitions) }
        ensures appended { OnOk result (AppendsRows self.old.tables self.old.states self.new.tables self.new.states) }
        ensures taken { IfOk result (TakesEvent self.old.program.now.threads
            self.new.tables self.new.states.runs key.now cpu event conflicts) }
    {
        let thread = key[cpu.index() + 1];
        let memory = key[0];
        if let Some(next) = self.transitions.get(event, thread, memory, conflicts) {
            return Ok(Some(next));
        }
        let Some(next) = self.compute_successor(key, cpu, event, code, conflicts)? else {
            return Ok(None);
        };
        self.transitions.insert(Transition {
            event,
            thread,
            memory,
            conflicts,
            next,
        });
        Ok(Some(next))
    }

    /// Inserts the state to which a transition of a thread leads from a state, after the invisible events of all threads that follow.
    /// `at` is the index of the state before the transition, and `own` the key after it.
    fn add_settled(
        &mut self,
        at: usize,
        key: &StateKey,
        own: &StateKey,
        cpu: Cpu,
        event: RunEvent,
        code: &[Instr],
        conflicts: Conflicts,
        next: Successor,
    ) -> Result<(), AllocError>
        requires cpu { event.0 ≡ cpu }
        requires code { slice_get self.old.program.now.threads cpu ≡ Some code.now }
        requires taken { IsTransition self.old.program.now.threads self.old.tables self.old.states.runs
            (record { event = event; thread = slice_index key.now (cpu + 1); memory = slice_index key.now 0; conflicts = conflicts; next = next }) }
        requires size { length own.now ≡ length key.now }
        requires memory { slice_index own.now 0 ≡ next.memory }
        requires thread { slice_index own.now (cpu + 1) ≡ next.thread }
        requires others { (t : ℕ) → t ≢ cpu → slice_index own.now (t + 1) ≡ slice_index key.now (t + 1) }
        requires kept { AreTransitions self.old.program.now.threads self.old.tables self.old.states.runs self.old.transitions }
        ensures program { self.new.program ≡ self.old.program }
        ensures kept { OnOk result (AreTransitions self.old.program.now.threads self.new.tables self.new.states.runs self.new.transitions) }
        ensures covered { let program = self.old.program.now.threads in
            OnOk result (ExpandsState program self.old.tables self.old.states self.new.tables self.new.states at key.now
            (λ s. HasConflictsOfOthers program s cpu conflicts) (λ s more. IsCovered program more s (event_of event))) }
    {
        load_memory(&self.tables, own, &mut self.words)?;
        load_run(&self.states, next.run, &mut self.run)?;
        let all = self.settle_all(own)?;
        let memory = self.tables.memory_number(&self.words, own[0])?;
        self.states
            .insert(with_memory(&all, memory), row_number(at)?, &self.run)
    }

    /// Returns the outlooks of the state to which a transition of a thread leads from a state with these outlooks, if it may have invisible
    /// events that are enabled. All states but the start are settled, and so is the thread after its transition, so others have become able
    /// to settle only if the thread's accesses changed. No contract depends on the answer.
    fn unsettled(
        &self,
        at: usize,
        outlooks: &Outlooks,
        own: &StateKey,
        cpu: Cpu,
    ) -> Option<Outlooks> {
        let next = self.tables.outlook(own, cpu);
        if at != 0 && outlooks.has_same_conflicts(cpu, &next) {
            return None;
        }
        let after = outlooks.with(cpu, &next);
        if after.some_may_settle() {
            Some(after)
        } else {
            None
        }
    }

    /// Inserts the successor of a state by an event of a thread, after the invisible events that follow, if the event is enabled.
    fn add_successor(
        &mut self,
        at: usize,
        key: &StateKey,
        cpu: Cpu,
        event: RunEvent,
        code: &[Instr],
        outlooks: &Outlooks,
        conflicts: Conflicts,
    ) -> Result<(), AllocError>
        requires cpu { event.0 ≡ cpu }
        requires code { slice_get self.old.program.now.threads cpu ≡ Some code.now }
        requires kept { AreTransitions self.old.program.now.threads self.old.tables self.old.states.runs self.old.transitions }
        ensures program { self.new.program ≡ self.old.program }
        ensures kept { OnOk result (AreTransitions self.old.program.now.threads self.new.tables self.new.states.runs self.new.transitions) }
        ensures covered { let program = self.old.program.now.threads in
            OnOk result (ExpandsState program self.old.tables self.old.states self.new.tables self.new.states at key.now
            (λ s. HasConflictsOfOthers program s cpu conflicts) (λ s more. IsCovered program more s (event_of event))) }
    {
        let Some(next) = self.successor(key, cpu, event, code, conflicts)? else {
            return Ok(());
        };
        let own = with_numbers(key, next.memory, cpu, next.thread);
        let Some(unsettled) = self.unsettled(at, outlooks, &own, cpu) else {
            return self.states.insert_numbered(own, row_number(at)?, next.run);
        };
        self.outlooks = unsettled;
        self.add_settled(at, key, &own, cpu, event, code, conflicts, next)
    }

    /// Finds the successor of a state by a thread's step, if the step is enabled.
    fn expand_step(
        &mut self,
        at: usize,
        key: &StateKey,
        cpu: Cpu,
        code: &[Instr],
        outlooks: &Outlooks,
        conflicts: Conflicts,
    ) -> Result<(), AllocError>
        requires code { slice_get self.old.program.now.threads cpu ≡ Some code.now }
        requires kept { AreTransitions self.old.program.now.threads self.old.tables self.old.states.runs self.old.transitions }
        ensures program { self.new.program ≡ self.old.program }
        ensures kept { OnOk result (AreTransitions self.old.program.now.threads self.new.tables self.new.states.runs self.new.transitions) }
        ensures covered { let program = self.old.program.now.threads in
            OnOk result (ExpandsState program self.old.tables self.old.states self.new.tables self.new.states at key.now
            (λ s. HasConflictsOfOthers program s cpu conflicts) (λ s more. IsCovered program more s (of.Step cpu))) }
    {
        if self.tables.refuses_step(key, cpu, code) {
            return Ok(());
        }
        self.add_successor(at, key, cpu, RunEvent::step(cpu), code, outlooks, conflicts)
    }

    /// Finds the successor of a state by a thread's drain, if the thread's store buffer has an entry.
    fn expand_drain(
        &mut self,
        at: usize,
        key: &StateKey,
        cpu: Cpu,
        code: &[Instr],
        outlooks: &Outlooks,
        conflicts: Conflicts,
    ) -> Result<(), AllocError>
        requires code { slice_get self.old.program.now.threads cpu ≡ Some code.now }
        requires kept { AreTransitions self.old.program.now.threads self.old.tables self.old.states.runs self.old.transitions }
        ensures program { self.new.program ≡ self.old.program }
        ensures kept { OnOk result (AreTransitions self.old.program.now.threads self.new.tables self.new.states.runs self.new.transitions) }
        ensures covered { let program = self.old.program.now.threads in
            OnOk result (ExpandsState program self.old.tables self.old.states self.new.tables self.new.states at key.now
            (λ s. HasConflictsOfOthers program s cpu conflicts) (λ s more. IsCovered program more s (of.Drain cpu))) }
    {
        if self.tables.has_empty_buffer(key, cpu) {
            return Ok(());
        }
        self.add_successor(
            at,
            key,
            cpu,
            RunEvent::drain(cpu),
            code,
            outlooks,
            conflicts,
        )
    }

    /// Finds the successors of a state by the events of a thread.
    fn expand_thread(
        &mut self,
        at: usize,
        key: &StateKey,
        cpu: Cpu,
        code: &[Instr],
        outlooks: &Outlooks,
        conflicts: Conflicts,
    ) -> Result<(), AllocError>
        requires code { slice_get self.old.program.now.threads cpu ≡ Some code.now }
        requires kept { AreTransitions self.old.program.now.threads self.old.tables self.old.states.runs self.old.transitions }
        ensures program { self.new.program ≡ self.old.program }
        ensures kept { OnOk result (AreTransitions self.old.program.now.threads self.new.tables self.new.states.runs self.new.transitions) }
        ensures covered { let program = self.old.program.now.threads in
            OnOk result (ExpandsState program self.old.tables self.old.states self.new.tables self.new.states at key.now
            (λ s. HasConflictsOfOthers program s cpu conflicts) (CoversThread program cpu)) }
    {
        self.expand_step(at, key, cpu, code, outlooks, conflicts)?;
        self.expand_drain(at, key, cpu, code, outlooks, conflicts)
    }

    /// Finds all successors of the state at an index, which counts as visited then.
    fn expand(&mut self, at: usize) -> Result<(), AllocError>
        requires found { at < length self.old.states.keys }
        requires kept { AreTransitions self.old.program.now.threads self.old.tables self.old.states.runs self.old.transitions }
        ensures program { self.new.program ≡ self.old.program }
        ensures kept { OnOk result (AreTransitions self.old.program.now.threads self.new.tables self.new.states.runs self.new.transitions) }
        ensures expanded { OnOk result (ExpandsUpTo self.old.program.now.threads
            self.old.tables self.old.states at self.new.tables self.new.states (at + 1)) }
    {
        self.transitions.make_room(self.states.len())?;
        let key = self.states.key(at);
        let program = self.program;
        let outlooks = self.tables.outlooks(&key);
        for (thread, code) in program.threads.as_slice().iter().enumerate() {
            let cpu = cpu_at(thread);
            let conflicts = outlooks.conflicts_with_others(cpu);
            self.expand_thread(at, &key, cpu, code.as_slice(), &outlooks, conflicts)?;
        }
        Ok(())
    }

    /// Visits states until each is visited, or more than `budget` are found. Returns whether each is visited.
    pub(crate) fn run(&mut self, budget: usize) -> Result<bool, AllocError>
        requires started { IsStarted (program_of self.old.program.now) self.old.tables self.old.states }
        requires kept { AreTransitions self.old.program.now.threads self.old.tables self.old.states.runs self.old.transitions }
        ensures program { self.new.program ≡ self.old.program }
        ensures progress { IfOk result (λ finished. IsProgress self.old.program.now.threads
            self.old.tables self.old.states self.new.tables self.new.states budget finished) }
    {
        for at in 0..budget {
            if at == self.states.len() {
                return Ok(true);
            }
            self.expand(at)?;
            if budget < self.states.len() {
                return Ok(false);
            }
        }
        if budget < self.states.len() {
            return Ok(false);
        }
        Ok(true)
    }
}

/// Returns the key of the state at the start of a program.
fn start_key<A: Allocator + Copy>(
    alloc: A,
    program: &Program<A>,
    tables: &mut Tables<'_, A>,
) -> Result<StateKey, AllocError>
    ensures key { IfOk result (λ key. Represents tables.new key (initial_machine_state (program_of program.now) program.now.head.init_words)) }
    ensures extended { OnOk result (Extends tables.old tables.new) }
{
    let memory = tables.memory_number(&program.head.init_words, 0)?;
    let mut key = [memory, 0, 0, 0, 0];
    for (thread, regs) in program.head.init_regs.as_slice().iter().enumerate() {
        let number = tables.thread_number(&ThreadState::new(alloc, *regs))?;
        key = with_numbers(&key, memory, cpu_at(thread), number);
    }
    Ok(key)
}

impl<'a, A: Allocator + Copy> Search<'a, A> {
    /// Creates a search that has found the start of a program.
    pub(crate) fn new(alloc: A, program: &'a Program<A>) -> Result<Self, AllocError>
        ensures program { IfOk result (λ s. s.program.now ≡ program.now) }
        ensures started { IfOk result (λ s. IsStarted (program_of program.now) s.tables s.states) }
        ensures kept { IfOk result (λ s. AreTransitions program.now.threads s.tables s.states.runs s.transitions) }
    {
        let mut search = Search {
            program,
            tables: Tables::new(alloc, program),
            states: StateTable::new(alloc)?,
            transitions: TransitionCache::new(alloc),
            thread: ThreadState::new(alloc, [0; REGISTERS]),
            words: Sequence::new(alloc),
            run: Queue::new(alloc),
            outlooks: Outlooks::NONE,
        };
        search.insert_start(alloc)?;
        Ok(search)
    }

    /// Inserts the start of the program into empty tables.
    fn insert_start(&mut self, alloc: A) -> Result<(), AllocError>
        requires tables { self.old.tables ≡ record { program = self.old.program.now.threads; threads = []; memories = [] } }
        requires states { self.old.states ≡ record { keys = []; origins = []; runs = [] } }
        ensures program { self.new.program ≡ self.old.program }
        ensures transitions { self.new.transitions ≡ self.old.transitions }
        ensures of_program { OnOk result (self.new.tables.program ≡ self.old.program.now.threads) }
        ensures started { OnOk result (IsStarted (program_of self.old.program.now) self.new.tables self.new.states) }
    {
        let key = start_key(alloc, self.program, &mut self.tables)?;
        self.states.insert(key, 0, &self.run)
    }
}
