//! The state of one thread, and what its events do to it and to memory.
ghost use Rattle.std.specs.Prelude.{◌≡◌, ◌+◌, ◌<◌, ◌^◌, ◌==◌, ◌&&◌, ℕ, List, nat_le, true, false, Ok, [], length, slice_index, slice_set, IfOk, OnOk};
ghost use Rattle.lw_base.specs.Changes.{wrapping_sum};
ghost use Rattle.lw_base.specs.Threads.{operand_value};
ghost use Rattle.lw_base.specs.declared.stop.Stop.{Stop};
ghost use Rattle.lw_litmus.specs.Operations.{guard_holds};
ghost use Rattle.lw_memory.specs.Flat.{flat_memory};
ghost use Rattle.lw_tso.specs.Processors.{Processor, initial_processor, advance_processor, set_register, set_zero_flag, enqueue_store, jump_or_advance_processor};
ghost use Rattle.lw_tso.specs.EventEffects.{LocalStep, Refused, operation_effect, drain_effect};
ghost use Rattle.lw_tso.specs.Machines.{EffectTransition};
ghost use Rattle.lw_litmus.specs.declared.operation.Operation.TheVariants as Operation;
ghost use Rattle.lw_search.specs.inner.ThreadStates.{ActResult, RefusesStep};

use crate::queue::{Queue, newest_in};
use crate::search::instr_at;
use lw_base::{Loc, Operand, REGISTERS, Reg, Sequence, Word};
use lw_litmus::{Instr, Operation, Statement};
use std::alloc::{AllocError, Allocator, Global};
use std::marker::Model;

/// The state of one thread: its position, registers, zero flag and store buffer. Contracts see it as a processor of
/// the machine.
#[derive(Drop)]
#[derive_where(PartialEq, Eq, Hash)]
pub(crate) struct ThreadState<A: Allocator = Global> {
    /// The index of its next instruction.
    pub(crate) position: usize,
    pub(crate) regs: [Word; REGISTERS],
    pub(crate) zero_flag: bool,
    /// The entries of the store buffer, the oldest first: a location's number and a word.
    pub(crate) buffer: Queue<(u8, Word), A>,
}

impl<A: Allocator> Model for ThreadState<A> {
    ghost use Rattle.lw_tso.specs.Processors.{Processor};

    ghost Value = { Processor };

    ghost view = { λ p. record { position = p.position; regs = p.regs; zero_flag = p.zero_flag; buffer = p.buffer } };

    ghost inverse = { λ q. record { position = q.position; regs = q.regs; zero_flag = q.zero_flag; buffer = q.buffer } };
}

/// Returns the word of a location, or 0 if there is no such location.
pub(crate) fn word_at<A: Allocator>(words: &Sequence<Word, A>, loc: usize) -> Word
    ensures { result ≡ slice_index words.now loc }
{
    match words.get(loc) {
        Some(word) => *word,
        None => 0,
    }
}

/// Writes a word to a location, if there is such a location.
fn put_at<A: Allocator>(words: &mut Sequence<Word, A>, loc: usize, word: Word)
    ensures { words.new ≡ slice_set words.old loc word }
{
    if loc < words.len() {
        words.set(loc, word);
    }
}

/// Returns the number of a location as a byte.
fn byte_of(loc: Loc) -> u8
    ensures { result ≡ loc }
{
    loc.index() as u8
}

/// Returns whether an operation is enabled only if the store buffer is empty, as a fence or a locked instruction is. The contract promises
/// nothing of `false`, with which the search would only be slower.
pub(crate) fn needs_empty_buffer(operation: Operation) -> bool
    ensures { result ≡ true → (p : Processor) → (length p.buffer == 0) ≡ false
        → (stop : Stop) × (operation_effect operation p ≡ Refused stop) }
{
    match operation {
        Operation::Fence => true,
        Operation::Swap { .. } => true,
        Operation::FetchAdd(_, _, _) => true,
        _ => false,
    }
}

impl<A: Allocator> ThreadState<A> {
    /// Creates the state of a thread at its first instruction, with an empty store buffer.
    pub(crate) fn new(alloc: A, regs: [Word; REGISTERS]) -> Self
        ensures { result ≡ initial_processor regs }
    {
        ThreadState {
            position: 0,
            regs,
            zero_flag: false,
            buffer: Queue::new(alloc),
        }
    }

    /// Copies another state into this one. Fails only if memory runs out.
    pub(crate) fn copy_from(&mut self, other: &ThreadState<A>) -> Result<(), AllocError>
        ensures { OnOk result (self.new ≡ other.now) }
    {
        self.position = other.position;
        self.regs = other.regs;
        self.zero_flag = other.zero_flag;
        self.buffer.copy_from(&other.buffer)
    }

    /// Returns a copy. Fails only if memory runs out.
    pub(crate) fn copy(&self, alloc: A) -> Result<Self, AllocError>
        ensures { IfOk result (λ p. p ≡ self.now) }
    {
        Ok(ThreadState {
            position: self.position,
            regs: self.regs,
            zero_flag: self.zero_flag,
            buffer: self.buffer.copy(alloc)?,
        })
    }

    /// Returns the index of the next instruction.
    pub(crate) fn position(&self) -> usize
        ensures { result ≡ self.now.position }
    {
        self.position
    }

    /// Returns whether the next step is rejected: the thread is at the end of its code, or its operation needs an empty buffer and has none.
    /// The contract promises nothing of `false`.
    pub(crate) fn refuses_step(&self, code: &[Instr]) -> bool
        ensures { result ≡ true → RefusesStep code.now self.now }
    {
        let Some(instr) = instr_at(code, self.position) else {
            return true;
        };
        if self.buffer.is_empty() {
            return false;
        }
        needs_empty_buffer(instr.operation())
    }

    /// Returns whether the store buffer is empty.
    pub(crate) fn has_empty_buffer(&self) -> bool
        ensures { result ≡ (length self.now.buffer == 0) }
    {
        self.buffer.is_empty()
    }

    /// Returns the word of a register.
    pub(crate) fn reg(&self, reg: Reg) -> Word
        ensures { result ≡ slice_index self.now.regs reg }
    {
        self.regs[reg.index()]
    }

    /// Returns the registers.
    pub(crate) fn regs(&self) -> [Word; REGISTERS]
        ensures { result ≡ self.now.regs }
    {
        self.regs
    }

    /// Returns whether the thread is past the last of `count` instructions, with an empty store buffer.
    pub(crate) fn is_done(&self, count: usize) -> bool
        ensures { result ≡ (nat_le count self.now.position && (length self.now.buffer == 0)) }
    {
        count <= self.position && self.buffer.is_empty()
    }

    /// Returns the word of an operand.
    fn value(&self, operand: Operand) -> Word
        ensures { result ≡ operand_value operand self.now.regs }
    {
        operand.value(&self.regs)
    }

    /// Moves the oldest entry of the store buffer to memory. Returns whether there was one.
    pub(crate) fn drain(&mut self, words: &mut Sequence<Word, A>) -> bool
        ensures { ActResult (drain_effect self.old.buffer self.old) self.old words.old result self.new words.new }
    {
        let Some((loc, word)) = self.buffer.pop() else {
            return false;
        };
        put_at(words, usize::from(loc), word);
        true
    }

    /// Carries out an operation. Returns whether it did. If not, the operation needs an empty store buffer, and
    /// nothing changes.
    pub(crate) fn carry_out(
        &mut self,
        operation: Operation,
        words: &mut Sequence<Word, A>,
    ) -> Result<bool, AllocError>
        requires { self.old.position + 1 < 2 ^ 64 }
        ensures { IfOk result (λ r. ActResult (operation_effect operation self.old) self.old words.old r self.new words.new) }
    {
        match operation {
            Operation::Set { dst, val } => {
                let word = self.value(val);
                self.advance_with(dst, word);
                Ok(true)
            }
            Operation::Sum { dst, left, right } => {
                let word = self.value(right);
                self.add(dst, left, word);
                Ok(true)
            }
            Operation::Compare { reg, val } => {
                let word = self.value(val);
                self.compare(reg, word);
                Ok(true)
            }
            Operation::Store { loc, val } => {
                let word = self.value(val);
                self.store(byte_of(loc), word)?;
                Ok(true)
            }
            Operation::Load { dst, loc } => {
                self.load(dst, loc, words);
                Ok(true)
            }
            Operation::Swap { dst, loc, src } => Ok(self.swap(dst, loc, src, words)),
            Operation::FetchAdd(dst, loc, val) => Ok(self.fetch_add(dst, loc, val, words)),
            Operation::Fence => Ok(self.fence()),
            Operation::Branch { guard, to } => {
                let holds = guard.holds(&self.regs, self.zero_flag);
                self.jump(holds, to);
                Ok(true)
            }
        }
    }

    /// Appends an entry to the store buffer, and advances.
    fn store(&mut self, loc: u8, word: Word) -> Result<(), AllocError>
        requires { self.old.position + 1 < 2 ^ 64 }
        ensures { OnOk result (self.new ≡ advance_processor (enqueue_store self.old loc word)) }
    {
        self.buffer.push((loc, word))?;
        self.position += 1;
        Ok(())
    }

    /// Advances if the store buffer is empty. Returns whether it is.
    fn fence(&mut self) -> bool
        requires { self.old.position + 1 < 2 ^ 64 }
        ensures { (m : List ℕ) → ActResult (operation_effect Operation.Fence self.old) self.old m result self.new m }
    {
        if !self.buffer.is_empty() {
            return false;
        }
        self.position += 1;
        true
    }

    /// Loads the newest word that the store buffer has for a location, or the memory's if it has none, and advances.
    fn load(&mut self, dst: Reg, loc: Loc, words: &Sequence<Word, A>)
        requires { self.old.position + 1 < 2 ^ 64 }
        ensures { ActResult (operation_effect (Operation.Load dst loc) self.old) self.old words.now true self.new words.now }
    {
        let word = match newest_in(self.buffer.as_slice(), byte_of(loc)) {
            Some(word) => word,
            None => word_at(words, loc.index()),
        };
        self.advance_with(dst, word);
    }

    /// Exchanges a location's word for a register's and advances, if the store buffer is empty. Returns whether it
    /// is.
    fn swap(&mut self, dst: Reg, loc: Loc, src: Reg, words: &mut Sequence<Word, A>) -> bool
        requires { self.old.position + 1 < 2 ^ 64 }
        ensures { ActResult (operation_effect (Operation.Swap dst loc src) self.old) self.old words.old result self.new words.new }
    {
        if !self.buffer.is_empty() {
            return false;
        }
        let word = self.regs[src.index()];
        let old = word_at(words, loc.index());
        put_at(words, loc.index(), word);
        self.advance_with(dst, old);
        true
    }

    /// Adds a value to a location's word, which the register gets if one is named, and advances, if the store buffer is empty. Returns
    /// whether it is.
    fn fetch_add(
        &mut self,
        dst: Option<Reg>,
        loc: Loc,
        val: Operand,
        words: &mut Sequence<Word, A>,
    ) -> bool
        requires { self.old.position + 1 < 2 ^ 64 }
        ensures { ActResult (operation_effect (Operation.FetchAdd dst loc val) self.old) self.old words.old result self.new words.new }
    {
        if !self.buffer.is_empty() {
            return false;
        }
        let word = self.value(val);
        let old = word_at(words, loc.index());
        let sum = old.wrapping_add(word);
        put_at(words, loc.index(), sum);
        self.zero_flag = sum == 0;
        if let Some(dst) = dst {
            self.regs[dst.index()] = old;
        }
        self.position += 1;
        true
    }

    /// Adds a word to a register's, sets the zero flag if the sum is 0, and advances.
    fn add(&mut self, dst: Reg, left: Reg, word: Word)
        requires { self.old.position + 1 < 2 ^ 64 }
        ensures { let sum = wrapping_sum (slice_index self.old.regs left) word in
            self.new ≡ advance_processor (set_zero_flag (set_register self.old dst sum) (sum == 0)) }
    {
        let sum = self.regs[left.index()].wrapping_add(word);
        self.zero_flag = sum == 0;
        self.advance_with(dst, sum);
    }

    /// Sets the zero flag if a register has this word, and advances.
    fn compare(&mut self, reg: Reg, word: Word)
        requires { self.old.position + 1 < 2 ^ 64 }
        ensures { self.new ≡ advance_processor (set_zero_flag self.old (slice_index self.old.regs reg == word)) }
    {
        self.zero_flag = self.regs[reg.index()] == word;
        self.position += 1;
    }

    /// Jumps to the target if the guard holds, and advances otherwise.
    fn jump(&mut self, holds: bool, to: usize)
        requires { self.old.position + 1 < 2 ^ 64 }
        ensures { self.new ≡ jump_or_advance_processor self.old holds to }
    {
        self.position = if holds { to } else { self.position + 1 };
    }

    /// Writes a word to a register, and advances.
    fn advance_with(&mut self, reg: Reg, word: Word)
        requires { self.old.position + 1 < 2 ^ 64 }
        ensures { self.new ≡ advance_processor (set_register self.old reg word) }
    {
        self.regs[reg.index()] = word;
        self.position += 1;
    }
}
