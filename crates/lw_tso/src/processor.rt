//! A processor of the machine: its position, its registers and its store buffer, and the effects of its events.
ghost use Rattle.std.specs.Prelude.{◌≡◌, ◌+◌, ◌<◌, ◌≤◌, ◌^◌, ◌==◌, ◌&&◌, nat_le, true, Some, Ok, Err, length, max, slice_index, if◌then◌else◌, All, IfOk, OnOk};
ghost use Rattle.std.specs.Prelude.{OnErr};
ghost use Rattle.std.specs.Option.{ForSome};
ghost use Rattle.lw_base.specs.Changes.{wrapping_sum};
ghost use Rattle.lw_memory.specs.Memory.{memory_of};
ghost use Rattle.lw_litmus.specs.Operations.{location_of, is_store, guard_holds};
ghost use Rattle.lw_base.specs.Threads.{operand_value};
ghost use Rattle.lw_tso.specs.Processors.{initial_processor, advance_processor, set_register, set_zero_flag, enqueue_store, jump_or_advance_processor};
ghost use Rattle.lw_tso.specs.EventEffects.{operation_effect, drain_effect};
ghost use Rattle.lw_tso.specs.Machines.{EffectTransition};
ghost use Rattle.lw_tso.specs.inner.BufferCapacity.{stores_from};
ghost use Rattle.lw_tso.specs.inner.Views.{processor_of};

use crate::buffer::StoreBuffer;
use lw_base::{Change, Cpu, Loc, Operand, REGISTERS, Reg, Stop, Word};
use lw_litmus::{Guard, Instr, Operation, Statement};
use lw_memory::MemorySystem;
use std::alloc::{AllocError, Allocator, Global};

/// A processor, which executes the code of the thread with its index.
#[derive(Drop)]
pub(crate) struct Processor<A: Allocator = Global> {
    /// The index of its next instruction.
    pub(crate) position: usize,
    pub(crate) regs: [Word; REGISTERS],
    pub(crate) zero_flag: bool,
    pub(crate) buffer: StoreBuffer<A>,
}

impl<A: Allocator> Processor<A> {
    /// Creates a processor at the first instruction. Its store buffer has room for one entry for each store of the
    /// code, and at least for one.
    pub(crate) fn new(alloc: A, regs: [Word; REGISTERS], code: &[Instr]) -> Result<Self, AllocError>
        ensures processor { IfOk result (λ p. processor_of p ≡ initial_processor regs) }
        ensures room { IfOk result (λ p. p.buffer.room ≡ max (stores_from 0 code.now) 1) }
    {
        let stores = code
            .iter()
            .filter(|instr| instr.operation().is_store())
            .count();
        let buffer = StoreBuffer::with_room(alloc, stores.max(1))?;
        Ok(Processor {
            position: 0,
            regs,
            zero_flag: false,
            buffer,
        })
    }

    /// Resets the processor to the first instruction, with these registers. Does not allocate.
    pub(crate) fn restart(&mut self, regs: [Word; REGISTERS])
        ensures processor { processor_of self.new ≡ initial_processor regs }
        ensures room { self.new.buffer.room ≡ self.old.buffer.room }
    {
        self.position = 0;
        self.regs = regs;
        self.zero_flag = false;
        self.buffer.clear();
    }

    /// Returns whether the processor is past the last of `count` instructions and its store buffer is empty.
    pub(crate) fn is_done(&self, count: usize) -> bool
        ensures { result ≡ (nat_le count self.now.position && (length self.now.buffer.entries == 0)) }
    {
        count <= self.position && self.buffer.is_empty()
    }

    /// Executes an operation over the memory. A rejected operation changes nothing.
    pub(crate) fn carry_out<M: MemorySystem>(
        &mut self,
        cpu: Cpu,
        operation: Operation,
        memory: &mut M,
    ) -> Result<(), Stop>
        requires cpu { cpu < M.cpus memory.old }
        requires loc { ForSome (location_of operation) (λ x. x < length (M.content memory.old)) }
        requires position { self.old.position + 1 < 2 ^ 64 }
        requires room { is_store operation ≡ true → length self.old.buffer.entries < self.old.buffer.room }
        ensures done { EffectTransition (memory_of M.content M.state M.serves) cpu
            (operation_effect operation (processor_of self.old)) (processor_of self.old) memory.old
            result (processor_of self.new) memory.new }
        ensures room { self.new.buffer.room ≡ self.old.buffer.room }
    {
        match operation {
            Operation::Set { dst, val } => self.advance_with_register(dst, self.value(val)),
            Operation::Sum { dst, left, right } => self.add(dst, left, self.value(right)),
            Operation::Compare { reg, val } => self.compare(reg, self.value(val)),
            Operation::Store { loc, val } => self.store(loc, self.value(val)),
            Operation::Load { dst, loc } => self.load(cpu, dst, loc, memory),
            Operation::Swap { dst, loc, src } => return self.swap(cpu, dst, loc, src, memory),
            Operation::FetchAdd(dst, loc, val) => {
                return self.fetch_add(cpu, dst, loc, val, memory);
            }
            Operation::Fence => return self.fence(),
            Operation::Branch { guard, to } => self.jump(self.holds(guard), to),
        }
        Ok(())
    }

    /// Returns the operand's word.
    fn value(&self, operand: Operand) -> Word
        ensures { result ≡ operand_value operand self.now.regs }
    {
        operand.value(&self.regs)
    }

    /// Returns whether a guard holds.
    fn holds(&self, guard: Guard) -> bool
        ensures { result ≡ guard_holds guard self.now.regs self.now.zero_flag }
    {
        guard.holds(&self.regs, self.zero_flag)
    }

    /// Enqueues an entry into the store buffer and advances.
    fn store(&mut self, loc: Loc, word: Word)
        requires position { self.old.position + 1 < 2 ^ 64 }
        requires room { length self.old.buffer.entries < self.old.buffer.room }
        ensures processor { processor_of self.new ≡ advance_processor (enqueue_store (processor_of self.old) loc word) }
        ensures room { self.new.buffer.room ≡ self.old.buffer.room }
    {
        self.buffer.push(loc, word);
        self.position += 1;
    }

    /// Writes a word to a register and advances.
    fn advance_with_register(&mut self, reg: Reg, word: Word)
        requires { self.old.position + 1 < 2 ^ 64 }
        ensures processor { processor_of self.new ≡ advance_processor (set_register (processor_of self.old) reg word) }
        ensures buffer { self.new.buffer ≡ self.old.buffer }
    {
        self.regs[reg.index()] = word;
        self.position += 1;
    }

    /// Loads into a register the newest buffered word for a location, or the memory's word if none is buffered, and
    /// advances.
    fn load<M: MemorySystem>(&mut self, cpu: Cpu, reg: Reg, loc: Loc, memory: &mut M)
        requires cpu { cpu < M.cpus memory.old }
        requires loc { loc < length (M.content memory.old) }
        requires position { self.old.position + 1 < 2 ^ 64 }
        ensures done { EffectTransition (memory_of M.content M.state M.serves) cpu
            (operation_effect (Operation.Load reg loc) (processor_of self.old)) (processor_of self.old) memory.old
            (Ok tt) (processor_of self.new) memory.new }
        ensures buffer { self.new.buffer ≡ self.old.buffer }
    {
        match self.buffer.newest(loc) {
            Some(word) => self.advance_with_register(reg, word),
            None => self.advance_with_register(reg, memory.load(cpu, loc)),
        }
    }

    /// Writes the sum of a register's word and another to a register, and advances. The zero flag is set if the sum
    /// is 0.
    fn add(&mut self, dst: Reg, left: Reg, word: Word)
        requires { self.old.position + 1 < 2 ^ 64 }
        ensures processor { let sum = wrapping_sum (slice_index self.old.regs left) word in
            processor_of self.new ≡ advance_processor (set_zero_flag (set_register (processor_of self.old) dst sum) (sum == 0)) }
        ensures buffer { self.new.buffer ≡ self.old.buffer }
    {
        let sum = self.regs[left.index()].wrapping_add(word);
        self.zero_flag = sum == 0;
        self.advance_with_register(dst, sum);
    }

    /// Sets the zero flag if a register has this word, clears it otherwise, and advances.
    fn compare(&mut self, reg: Reg, word: Word)
        requires { self.old.position + 1 < 2 ^ 64 }
        ensures processor { processor_of self.new
            ≡ advance_processor (set_zero_flag (processor_of self.old) (slice_index self.old.regs reg == word)) }
        ensures buffer { self.new.buffer ≡ self.old.buffer }
    {
        self.zero_flag = self.regs[reg.index()] == word;
        self.position += 1;
    }

    /// Jumps to the target if the guard holds, and advances otherwise.
    fn jump(&mut self, holds: bool, to: usize)
        requires { self.old.position + 1 < 2 ^ 64 }
        ensures processor { processor_of self.new ≡ jump_or_advance_processor (processor_of self.old) holds to }
        ensures buffer { self.new.buffer ≡ self.old.buffer }
    {
        self.position = if holds { to } else { self.position + 1 };
    }

    /// Atomically loads the location's word into `dst`, stores the word of `src`, and advances. Is rejected unless
    /// the store buffer is empty.
    fn swap<M: MemorySystem>(
        &mut self,
        cpu: Cpu,
        dst: Reg,
        loc: Loc,
        src: Reg,
        memory: &mut M,
    ) -> Result<(), Stop>
        requires cpu { cpu < M.cpus memory.old }
        requires loc { loc < length (M.content memory.old) }
        requires position { self.old.position + 1 < 2 ^ 64 }
        ensures done { EffectTransition (memory_of M.content M.state M.serves) cpu
            (operation_effect (Operation.Swap dst loc src) (processor_of self.old)) (processor_of self.old) memory.old
            result (processor_of self.new) memory.new }
        ensures buffer { self.new.buffer ≡ self.old.buffer }
    {
        if !self.buffer.is_empty() {
            return Err(Stop::SwapWaits);
        }
        let word = self.regs[src.index()];
        self.advance_with_register(dst, memory.update(cpu, loc, Change::Put(word)));
        Ok(())
    }

    /// Atomically loads the location's word into `dst`, if there is one, adds a value to the location, and advances.
    /// The zero flag is set if the sum is 0. Is rejected unless the store buffer is empty.
    fn fetch_add<M: MemorySystem>(
        &mut self,
        cpu: Cpu,
        dst: Option<Reg>,
        loc: Loc,
        val: Operand,
        memory: &mut M,
    ) -> Result<(), Stop>
        requires cpu { cpu < M.cpus memory.old }
        requires loc { loc < length (M.content memory.old) }
        requires position { self.old.position + 1 < 2 ^ 64 }
        ensures done { EffectTransition (memory_of M.content M.state M.serves) cpu
            (operation_effect (Operation.FetchAdd dst loc val) (processor_of self.old)) (processor_of self.old) memory.old
            result (processor_of self.new) memory.new }
        ensures buffer { self.new.buffer ≡ self.old.buffer }
    {
        if !self.buffer.is_empty() {
            return Err(Stop::SwapWaits);
        }
        let word = self.value(val);
        let old = memory.update(cpu, loc, Change::Add(word));
        self.zero_flag = old.wrapping_add(word) == 0;
        if let Some(dst) = dst {
            self.regs[dst.index()] = old;
        }
        self.position += 1;
        Ok(())
    }

    /// Executes a fence, which only advances. Is rejected unless the store buffer is empty.
    fn fence(&mut self) -> Result<(), Stop>
        requires { self.old.position + 1 < 2 ^ 64 }
        ensures waits { result ≡ (if length self.old.buffer.entries == 0 then Ok tt else Err Stop.FenceWaits) }
        ensures ok { OnOk result (processor_of self.new ≡ advance_processor (processor_of self.old)) }
        ensures err { OnErr result (self.new ≡ self.old) }
        ensures buffer { self.new.buffer ≡ self.old.buffer }
    {
        if !self.buffer.is_empty() {
            return Err(Stop::FenceWaits);
        }
        self.position += 1;
        Ok(())
    }

    /// Drains the oldest entry of the store buffer to memory. Is rejected, and changes nothing, if the buffer is
    /// empty.
    pub(crate) fn drain<M: MemorySystem>(&mut self, cpu: Cpu, memory: &mut M) -> Result<(), Stop>
        requires cpu { cpu < M.cpus memory.old }
        requires locs { All (λ entry. entry.0 < length (M.content memory.old)) self.old.buffer.entries }
        ensures done { EffectTransition (memory_of M.content M.state M.serves) cpu
            (drain_effect self.old.buffer.entries (processor_of self.old)) (processor_of self.old) memory.old
            result (processor_of self.new) memory.new }
        ensures room { self.new.buffer.room ≡ self.old.buffer.room }
    {
        let Some((loc, word)) = self.buffer.pop() else {
            return Err(Stop::BufferEmpty);
        };
        memory.store(cpu, loc, word);
        Ok(())
    }
}
