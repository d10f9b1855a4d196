//! The head of a test: everything except its threads' code.
ghost use Rattle.std.specs.Prelude.{◌≡◌, IfOk};
ghost use Rattle.lw_base.specs.Heads.{head_of};

use crate::indices::{Cpu, Loc, Reg, Word};
use crate::limits::REGISTERS;
use crate::location::LocNames;
use crate::proposition::Prop;
use crate::sequence::Sequence;
use crate::text::Text;
use std::alloc::{AllocError, Allocator, Global};

/// The language of a test's threads.
#[derive(Clone, Copy, PartialEq, Eq)]
pub enum Arch {
    /// The workbench's own source language, `SRC`.
    Source,
    /// x86 instructions, `X86`.
    X86,
}

/// The quantifier of a condition over the final states.
#[derive(Clone, Copy, PartialEq, Eq)]
pub enum Quant {
    /// Some final state satisfies the proposition.
    Exists,
    /// No final state satisfies it.
    NotExists,
    /// Every final state satisfies it.
    Forall,
}

/// What a report can show of a state: a thread's register, or a location.
#[derive(Clone, Copy, PartialEq, Eq)]
pub enum Seen {
    Register(Cpu, Reg),
    Location(Loc),
}

/// The head of a test.
#[derive(Drop)]
pub struct Head<A: Allocator = Global> {
    /// The test's name.
    pub name: Text<A>,
    /// The language of its threads.
    pub arch: Arch,
    /// The number of its threads, 1 to `MAX_THREADS`.
    pub threads: usize,
    /// The table of its locations.
    pub locs: LocNames<A>,
    /// The initial words of the registers, six for each thread.
    pub init_regs: Sequence<[Word; REGISTERS], A>,
    /// The initial words of the locations, one for each name of the table.
    pub init_words: Sequence<Word, A>,
    /// The observed registers and locations that the text lists, without duplicates: registers by thread and index,
    /// then locations by index.
    pub listed: Sequence<Seen, A>,
    /// The quantifier of the condition.
    pub quant: Quant,
    /// The proposition of the condition.
    pub prop: Prop<A>,
}

impl<A: Allocator + Copy> Head<A> {
    /// Copies the head, with the same allocator. Fails only if memory runs out.
    pub fn copy(&self) -> Result<Self, AllocError>
        ensures { IfOk result (λ h. head_of h ≡ head_of self.now) }
    {
        Ok(Head {
            name: self.name.copy()?,
            arch: self.arch,
            threads: self.threads,
            locs: self.locs.copy()?,
            init_regs: self.init_regs.copy()?,
            init_words: self.init_words.copy()?,
            listed: self.listed.copy()?,
            quant: self.quant,
            prop: self.prop.copy(*self.locs.allocator())?,
        })
    }
}
