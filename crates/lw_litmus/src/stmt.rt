//! The statements of the source language.
ghost use Rattle.lw_litmus.specs.Sources.{source_language};

use crate::operation::{Guard, Operation};
use crate::statement::Statement;
use lw_base::{Loc, Operand, Reg, Word};

/// A statement of a thread. The target of a jump is the index of a statement of the same thread, or the length of its
/// code.
#[derive(Clone, Copy, PartialEq, Eq)]
pub enum Stmt {
    /// `x := n`, `x := a`: stores the value to the location.
    Store { loc: Loc, val: Operand },
    /// `d := x`: loads the location's word into the register.
    Load { dst: Reg, loc: Loc },
    /// `d := swap x a`: atomically loads the location's word into `d` and stores the word that `a` had.
    Swap { dst: Reg, loc: Loc, src: Reg },
    /// `d := fetchadd x a`: atomically loads the location's word into `d` and adds the word that `a` had to the
    /// location, modulo 2^32.
    FetchAdd { dst: Reg, loc: Loc, src: Reg },
    /// `d := n`, `d := a`: sets the register to the value.
    Set { dst: Reg, val: Operand },
    /// `d := a + n`, `d := a + b`: sets the register to the sum, modulo 2^32.
    Sum { dst: Reg, left: Reg, right: Operand },
    /// `if a = n goto L`: jumps if the register has this word.
    IfEq { reg: Reg, num: Word, to: usize },
    /// `if a != n goto L`: jumps if the register has another word.
    IfNe { reg: Reg, num: Word, to: usize },
    /// `goto L`: jumps.
    Goto { to: usize },
}

impl Statement for Stmt {
    ghost language = { source_language };

    /// Returns the operation that the statement executes.
    fn operation(&self) -> Operation {
        match *self {
            Stmt::Store { loc, val } => Operation::Store { loc, val },
            Stmt::Load { dst, loc } => Operation::Load { dst, loc },
            Stmt::Swap { dst, loc, src } => Operation::Swap { dst, loc, src },
            Stmt::FetchAdd { dst, loc, src } => {
                Operation::FetchAdd(Some(dst), loc, Operand::Register(src))
            }
            Stmt::Set { dst, val } => Operation::Set { dst, val },
            Stmt::Sum { dst, left, right } => Operation::Sum { dst, left, right },
            Stmt::IfEq { reg, num, to } => Operation::Branch {
                guard: Guard::Equal { reg, num },
                to,
            },
            Stmt::IfNe { reg, num, to } => Operation::Branch {
                guard: Guard::NotEqual { reg, num },
                to,
            },
            Stmt::Goto { to } => Operation::Branch {
                guard: Guard::Always,
                to,
            },
        }
    }

    /// Returns false: source stores go to memory at once.
    fn is_buffered() -> bool {
        false
    }
}
