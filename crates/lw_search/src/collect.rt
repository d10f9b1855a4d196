//! The outcomes of the final states that a search has found, each with a schedule.
ghost use Rattle.std.specs.Prelude.{◌≡◌, ◌++◌, ◌<◌, ℕ, true, false, Some, List, length, slice_get, slice_index, ◌+◌, IsTrue, IfOk, OnOk};
ghost use Rattle.lw_base.specs.declared.event.Event.{Event};
ghost use Rattle.lw_memory.specs.Flat.{flat_memory};
ghost use Rattle.lw_tso.specs.Processors.{Processor};
ghost use Rattle.lw_tso.specs.Runs as runs;
ghost use Rattle.lw_tso.specs.Runs.{machine_outcome};
ghost use Rattle.lw_outcome_map.specs.Listings.{IsStrictlySorted};
ghost use Rattle.lw_search.specs.inner.StateKeys.{State, Represents, events_of};
ghost use Rattle.lw_search.specs.inner.Invariant.{ReportsThreadEnd, ReachesIndex, CollectsState, CollectsAll, IsScheduleOf, AreSame, events_at};

use crate::run::RunEvent;
use crate::search::{Search, cpu_at};
use crate::states::{StateKey, StateTable};
use crate::tables::Tables;
use lw_base::{Cpu, Event, Outcome, REGISTERS, Reg, Sequence, Word};
use lw_litmus::Program;
use lw_outcome_map::{Listing, OutcomeMap};
use std::alloc::{AllocError, Allocator};

/// Returns whether a state is final: all threads are at their ends, and their store buffers are empty.
pub(crate) fn is_final<A: Allocator>(
    program: &Program<A>,
    tables: &Tables<'_, A>,
    key: &StateKey,
) -> bool
    ensures yes { result ≡ true → (s : State) → Represents tables.now key.now s → length s.processors ≡ length program.now.threads
        → IsTrue (runs.is_final program.now.threads s) }
    ensures no { result ≡ false → (s : State) → Represents tables.now key.now s → length s.processors ≡ length program.now.threads
        → IsTrue (runs.is_final program.now.threads s) → ⊥ }
{
    for (thread, code) in program.threads.as_slice().iter().enumerate() {
        if !is_done(tables, key, cpu_at(thread), code.len()) {
            return false;
        }
    }
    true
}

/// Returns whether a thread of a state is past the last of `count` instructions, with an empty store buffer; `false` if the key's number
/// has no row.
fn is_done<A: Allocator>(tables: &Tables<'_, A>, key: &StateKey, cpu: Cpu, count: usize) -> bool
    ensures { ReportsThreadEnd tables.now key.now cpu count result }
{
    match tables.thread(key[cpu.index() + 1]) {
        Some(thread) => thread.is_done(count),
        None => false,
    }
}

/// Returns the word of a register of a thread of a state, or 0 if the key's number has no row.
pub(crate) fn register_of<A: Allocator>(
    tables: &Tables<'_, A>,
    key: &StateKey,
    cpu: Cpu,
    reg: Reg,
) -> Word
    ensures { (p : Processor) → slice_get tables.now.threads (slice_index key.now (cpu + 1)) ≡ Some p → result ≡ slice_index p.regs reg }
{
    match tables.thread(key[cpu.index() + 1]) {
        Some(thread) => thread.reg(reg),
        None => 0,
    }
}

/// Returns the registers of a thread of a state, or 0 in each if the key's number has no row.
fn registers_of<A: Allocator>(tables: &Tables<'_, A>, key: &StateKey, cpu: Cpu) -> [Word; REGISTERS]
    ensures { (p : Processor) → slice_get tables.now.threads (slice_index key.now (cpu + 1)) ≡ Some p → result ≡ p.regs }
{
    match tables.thread(key[cpu.index() + 1]) {
        Some(thread) => thread.regs(),
        None => [0; REGISTERS],
    }
}

/// Returns the words of a state's memory, or none if the key's number has no row.
fn words_of<A: Allocator + Copy>(
    alloc: A,
    tables: &Tables<'_, A>,
    key: &StateKey,
) -> Result<Sequence<Word, A>, AllocError>
    ensures { IfOk result (λ words. (m : List ℕ) → slice_get tables.now.memories (slice_index key.now 0) ≡ Some m → words ≡ m) }
{
    match tables.memory(key[0]) {
        Some(memory) => memory.copy(),
        None => Ok(Sequence::new(alloc)),
    }
}

/// Returns the outcome of a state: its registers and its words.
pub(crate) fn outcome_of<A: Allocator + Copy>(
    alloc: A,
    program: &Program<A>,
    tables: &Tables<'_, A>,
    key: &StateKey,
) -> Result<Outcome<A>, AllocError>
    ensures { IfOk result (λ o. (s : State) → Represents tables.now key.now s → length s.processors ≡ length program.now.threads
        → o ≡ machine_outcome flat_memory s) }
{
    let mut regs = Sequence::new(alloc);
    for thread in 0..program.threads.len() {
        regs.push(registers_of(tables, key, cpu_at(thread)))?;
    }
    let words = words_of(alloc, tables, key)?;
    Ok(Outcome { regs, words })
}

/// Appends the events of the run that has a number, or none if no run has it.
fn push_run<A: Allocator>(
    states: &StateTable<A>,
    number: u32,
    events: &mut Vec<Event, A>,
) -> Result<(), AllocError>
    ensures { OnOk result (events.new.items ≡ events.old.items ++ events_at states.now.runs number) }
{
    match states.run(number) {
        Some(run) => push_events(run.as_slice(), events),
        None => Ok(()),
    }
}

/// Appends the events of a run.
fn push_events<A: Allocator>(run: &[RunEvent], events: &mut Vec<Event, A>) -> Result<(), AllocError>
    ensures { OnOk result (events.new.items ≡ events.old.items ++ events_of run.now) }
{
    for index in 0..run.len() {
        events.push(run[index].event())?;
    }
    Ok(())
}

/// Appends a schedule that leads from the start to the state at an index, or nothing if there is no such state. The start, which is its own
/// parent, needs no event; the parent of every other state was found before that state.
fn push_schedule<A: Allocator>(
    states: &StateTable<A>,
    index: usize,
    events: &mut Vec<Event, A>,
) -> Result<(), AllocError>
    ensures { OnOk result ((more : List Event) × (events.new.items ≡ events.old.items ++ more) × ReachesIndex states.now index more) }
{
    let Some(origin) = states.origin(index) else {
        return Ok(());
    };
    let parent = origin.parent as usize;
    if index <= parent {
        return Ok(());
    }
    push_schedule(states, parent, events)?;
    push_run(states, origin.run, events)
}

/// Returns a schedule that leads from the start to the state at an index.
fn schedule_to<A: Allocator + Copy>(
    alloc: A,
    states: &StateTable<A>,
    index: usize,
) -> Result<Sequence<Event, A>, AllocError>
    ensures { IfOk result (λ events. ReachesIndex states.now index events) }
{
    let mut events = Vec::new(alloc);
    push_schedule(states, index, &mut events)?;
    Ok(Sequence::from(events))
}

/// Adds the outcome of the state at an index, with a schedule that leads to the state, if the state is final and its outcome is new.
fn collect_state<A: Allocator + Copy>(
    alloc: A,
    search: &Search<'_, A>,
    at: usize,
    found: &mut OutcomeMap<A>,
) -> Result<(), AllocError>
    requires { at < length search.now.states.keys }
    ensures { OnOk result (CollectsState search.now.program.now.threads search.now.tables search.now.states at found.old found.new) }
{
    let key = search.states.key(at);
    if !is_final(search.program, &search.tables, &key) {
        return Ok(());
    }
    let outcome = outcome_of(alloc, search.program, &search.tables, &key)?;
    if found.contains(&outcome) {
        return Ok(());
    }
    let schedule = schedule_to(alloc, &search.states, at)?;
    found.insert_new(outcome, schedule)
}

/// Returns the list of the outcomes of all final states that a search has found, each with a schedule.
pub(crate) fn collect_outcomes<A: Allocator + Copy>(
    alloc: A,
    search: &Search<'_, A>,
) -> Result<Listing<A>, AllocError>
    ensures sorted { IfOk result (λ l. IsStrictlySorted l) }
    ensures collected { IfOk result (CollectsAll AreSame IsScheduleOf search.now.program.now.threads search.now.tables search.now.states) }
{
    let mut found = OutcomeMap::new(alloc);
    for at in 0..search.states.len() {
        collect_state(alloc, search, at, &mut found)?;
    }
    found.into_listing()
}
