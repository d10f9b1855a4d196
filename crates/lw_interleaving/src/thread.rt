//! The state of one thread of a source test, and the effect of an operation on it.
ghost use Rattle.std.specs.Prelude.{◌≡◌, ◌+◌, ◌<◌, ◌^◌, length, nat_le};
ghost use Rattle.lw_base.specs.Changes.{wrapping_sum};
ghost use Rattle.lw_interleaving.specs.Statements as statements;
ghost use Rattle.lw_interleaving.specs.Statements.{words_after};
ghost use Rattle.lw_litmus.specs.WellFormed.{IsWellFormedOperation};

use lw_base::{REGISTERS, Reg, Sequence, Word};
use lw_litmus::Operation;
use std::alloc::Allocator;

/// A thread's position in its code, and its registers.
#[derive(Clone, Copy)]
pub struct Thread {
    /// The index of its next statement.
    pub position: usize,
    pub regs: [Word; REGISTERS],
}

impl Thread {
    /// Returns whether the thread is past the last of `count` statements.
    pub(crate) fn is_at_end(&self, count: usize) -> bool
        ensures { result ≡ nat_le count self.now.position }
    {
        count <= self.position
    }

    /// Executes an operation: advances the thread, and writes to memory what the operation writes.
    pub(crate) fn carry_out<A: Allocator>(
        &mut self,
        operation: Operation,
        words: &mut Sequence<Word, A>,
    )
        requires operation { IsWellFormedOperation (length words.old) operation }
        requires room { self.old.position + 1 < 2 ^ 64 }
        ensures thread { self.new ≡ statements.thread_after operation self.old words.old }
        ensures words { words.new ≡ words_after operation self.old words.old }
    {
        match operation {
            Operation::Set { dst, val } => {
                let word = val.value(&self.regs);
                self.advance_with_register(dst, word);
            }
            Operation::Sum { dst, left, right } => {
                let sum = wrapping_sum(self.regs[left.index()], right.value(&self.regs));
                self.advance_with_register(dst, sum);
            }
            Operation::Load { dst, loc } => {
                let word = words.as_slice()[loc.index()];
                self.advance_with_register(dst, word);
            }
            Operation::Store { loc, val } => {
                words.set(loc.index(), val.value(&self.regs));
                self.advance();
            }
            Operation::Swap { dst, loc, src } => {
                let word = words.as_slice()[loc.index()];
                words.set(loc.index(), self.regs[src.index()]);
                self.advance_with_register(dst, word);
            }
            Operation::FetchAdd(dst, loc, val) => {
                let word = words.as_slice()[loc.index()];
                words.set(loc.index(), wrapping_sum(word, val.value(&self.regs)));
                self.advance_with_register_if_some(dst, word);
            }
            Operation::Branch { guard, to } => {
                let holds = guard.holds(&self.regs, false);
                self.jump(holds, to);
            }
            Operation::Compare { .. } | Operation::Fence => self.advance(),
        }
    }

    /// Advances to the next statement.
    fn advance(&mut self)
        requires { self.old.position + 1 < 2 ^ 64 }
        ensures { self.new ≡ statements.advance self.old }
    {
        self.position += 1;
    }

    /// Writes a word to a register and advances.
    fn advance_with_register(&mut self, dst: Reg, word: Word)
        requires { self.old.position + 1 < 2 ^ 64 }
        ensures { self.new ≡ statements.advance_with_register self.old dst word }
    {
        self.regs[dst.index()] = word;
        self.position += 1;
    }

    /// Writes a word to a register, if one is named, and advances.
    fn advance_with_register_if_some(&mut self, dst: Option<Reg>, word: Word)
        requires { self.old.position + 1 < 2 ^ 64 }
        ensures { self.new ≡ statements.advance_with_register_if_some self.old dst word }
    {
        match dst {
            Some(dst) => self.advance_with_register(dst, word),
            None => self.advance(),
        }
    }

    /// Jumps to the target if the guard holds, and advances otherwise.
    fn jump(&mut self, holds: bool, to: usize)
        requires { self.old.position + 1 < 2 ^ 64 }
        ensures { self.new ≡ statements.jump_or_advance self.old holds to }
    {
        self.position = if holds { to } else { self.position + 1 };
    }
}

/// Returns the sum of two words, modulo 2^32.
fn wrapping_sum(left: Word, right: Word) -> Word
    ensures { result ≡ wrapping_sum left right }
{
    left.wrapping_add(right)
}
