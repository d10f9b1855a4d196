//! The states of threads and the memories that a search has found, each with a number.
ghost use Rattle.std.specs.Prelude.{◌≡◌, ◌==◌, ◌+◌, ◌<◌, true, Some, length, slice_get, slice_index, option_copied, [], IfOk, OnOk};
ghost use Rattle.lw_base.specs.Threads.{thread_code};
ghost use Rattle.lw_tso.specs.Processors.{Processor};
ghost use Rattle.lw_search.specs.inner.Accesses.{HasConflictsOf, DescribeState};
ghost use Rattle.lw_search.specs.inner.StateKeys.{State, Extends, RepresentsThreads};
ghost use Rattle.lw_search.specs.inner.ThreadStates.{HasRow, RefusesStep};

use crate::accesses::{Outlook, Outlooks, outlooks_of};
use crate::search::cpu_at;
use crate::states::StateKey;
use crate::thread_state::ThreadState;
use indexmap::IndexSet;
use lw_base::{Cpu, Sequence, Word};
use lw_litmus::{Instr, Program};
use std::alloc::{AllocError, Allocator};
use std::hash::{BuildHasherDefault, FoldHasher};
use std::marker::Model;

/// The states of threads and the memories that a search has found, each at the index that is its number; and what each thread of the
/// program may access in each of these states. A failed insertion may leave one more row of outlooks.
#[derive(Drop)]
pub(crate) struct Tables<'a, A: Allocator> {
    alloc: A,
    program: &'a Program<A>,
    outlooks: Vec<Outlooks, A>,
    threads: IndexSet<ThreadState<A>, BuildHasherDefault<FoldHasher>, A>,
    memories: IndexSet<Sequence<Word, A>, BuildHasherDefault<FoldHasher>, A>,
}

impl<'a, A: Allocator> Model for Tables<'a, A> {
    ghost use Rattle.lw_search.specs.inner.Accesses.{DescribeRows};
    ghost use Rattle.lw_search.specs.inner.StateKeys.{Components};

    ghost Value = { Components };

    ghost view = { λ t. record { program = t.program.now.threads; threads = t.threads.keys; memories = t.memories.keys } };

    ghost invariant = { λ t. DescribeRows t.program.now.threads t.threads.keys t.outlooks.items };
}

/// Returns an index as the number of a row. Fails if a table of 2^32 rows has none for it.
pub(crate) fn row_number(index: usize) -> Result<u32, AllocError>
    ensures { IfOk result (λ n. n ≡ index) }
{
    match u32::try_from(index) {
        Ok(number) => Ok(number),
        Err(_) => Err(AllocError),
    }
}

impl<'a, A: Allocator + Copy> Tables<'a, A> {
    /// Creates tables without rows, for the threads of a program. Does not allocate.
    pub(crate) fn new(alloc: A, program: &'a Program<A>) -> Self
        ensures { result ≡ record { program = program.now.threads; threads = []; memories = [] } }
    {
        Tables {
            alloc,
            program,
            outlooks: Vec::new(alloc),
            threads: IndexSet::new(alloc),
            memories: IndexSet::new(alloc),
        }
    }

    /// Returns the number of a thread's state, which is inserted if it has none.
    pub(crate) fn thread_number(&mut self, thread: &ThreadState<A>) -> Result<u32, AllocError>
        ensures extended { OnOk result (Extends self.old self.new) }
        ensures found { IfOk result (λ n. slice_get self.new.threads n ≡ Some thread.now) }
    {
        match self.threads.get_index_of(thread) {
            Some(index) => row_number(index),
            None => {
                let copy = thread.copy(self.alloc)?;
                self.outlooks.truncate(self.threads.len());
                self.outlooks.push(outlooks_of(self.program, thread))?;
                let (index, _) = self.threads.insert_full(copy)?;
                row_number(index)
            }
        }
    }

    /// Returns whether the memory with a number has these words. The contract promises nothing of `false`: then the words are looked up.
    fn has_memory(&self, number: u32, words: &Sequence<Word, A>) -> bool
        ensures { result ≡ true → slice_get self.now.memories number ≡ Some words.now }
    {
        match self.memory(number) {
            Some(memory) => memory == words,
            None => false,
        }
    }

    /// Returns the number of a memory, which is inserted if it has none. Looks at the memory with the number `last` first.
    pub(crate) fn memory_number(
        &mut self,
        words: &Sequence<Word, A>,
        last: u32,
    ) -> Result<u32, AllocError>
        ensures extended { OnOk result (Extends self.old self.new) }
        ensures found { IfOk result (λ n. slice_get self.new.memories n ≡ Some words.now) }
    {
        if self.has_memory(last, words) {
            return Ok(last);
        }
        match self.memories.get_index_of(words) {
            Some(index) => row_number(index),
            None => {
                let copy = words.copy()?;
                let (index, _) = self.memories.insert_full(copy)?;
                row_number(index)
            }
        }
    }
}

impl<'a, A: Allocator> Tables<'a, A> {
    /// Returns the thread's state of a number, or `None` if no row has it.
    pub(crate) fn thread(&self, number: u32) -> Option<&ThreadState<A>>
        ensures { option_copied result ≡ slice_get self.now.threads number }
    {
        self.threads.get_index(number as usize)
    }

    /// Returns whether the next step of a thread of a state is rejected. The contract promises nothing of `false`: then the step is tried.
    pub(crate) fn refuses_step(&self, key: &StateKey, cpu: Cpu, code: &[Instr]) -> bool
        ensures { result ≡ true → HasRow self.now.threads key.now cpu (RefusesStep code.now) }
    {
        match self.thread(key[cpu.index() + 1]) {
            Some(thread) => thread.refuses_step(code),
            None => false,
        }
    }

    /// Returns whether the store buffer of a thread of a state is empty. The contract promises nothing of `false`: then the drain is tried.
    pub(crate) fn has_empty_buffer(&self, key: &StateKey, cpu: Cpu) -> bool
        ensures { result ≡ true → HasRow self.now.threads key.now cpu (λ p. (length p.buffer == 0) ≡ true) }
    {
        match self.thread(key[cpu.index() + 1]) {
            Some(thread) => thread.has_empty_buffer(),
            None => false,
        }
    }

    /// Returns the memory of a number, or `None` if no row has it.
    pub(crate) fn memory(&self, number: u32) -> Option<&Sequence<Word, A>>
        ensures { option_copied result ≡ slice_get self.now.memories number }
    {
        self.memories.get_index(number as usize)
    }

    /// Returns what a thread of a state may access, or `Outlook::NONE` if the key's number has no row.
    pub(crate) fn outlook(&self, key: &StateKey, cpu: Cpu) -> Outlook
        ensures { (p : Processor) → cpu < length self.now.program → slice_get self.now.threads (slice_index key.now (cpu + 1)) ≡ Some p
            → HasConflictsOf (thread_code self.now.program cpu) p result.conflicts }
    {
        match self.outlooks.get(key[cpu.index() + 1] as usize) {
            Some(row) => row.threads[cpu.index()],
            None => Outlook::NONE,
        }
    }

    /// Returns what each thread of a state may access.
    pub(crate) fn outlooks(&self, key: &StateKey) -> Outlooks
        ensures { (s : State) → RepresentsThreads self.now key.now s → length s.processors ≡ length self.now.program
            → DescribeState self.now.program s result.threads }
    {
        let mut threads = [Outlook::NONE; 4];
        for index in 0..self.program.threads.len() {
            threads[index] = self.outlook(key, cpu_at(index));
        }
        Outlooks { threads }
    }
}
