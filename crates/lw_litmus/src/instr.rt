//! x86 instructions.
ghost use Rattle.lw_litmus.specs.Programs.{x86_language};

use crate::operation::{Guard, Operation};
use crate::statement::Statement;
use lw_base::{Loc, Operand, Reg};

/// An instruction of a thread. The target of a jump is the index of an instruction of the same thread, or the length
/// of its code. Registers and words have 32 bits; ZF is the zero flag.
#[derive(Clone, Copy, PartialEq, Eq)]
pub enum Instr {
    /// `MOV [x],$n`, `MOV [x],a`: enqueues the value into the store buffer, as an entry for the location.
    Store { loc: Loc, val: Operand },
    /// `MOV d,[x]`: loads the location's word into the register.
    Load { reg: Reg, loc: Loc },
    /// `MOV d,$n`, `MOV d,a`: sets the register to the value.
    Set { reg: Reg, val: Operand },
    /// `ADD d,$n`, `ADD d,a`: adds the value to the register, modulo 2^32. ZF is set if the sum is 0.
    Add { reg: Reg, val: Operand },
    /// `CMP a,$n`, `CMP a,b`: compares. ZF is set if the two are equal.
    Cmp { reg: Reg, val: Operand },
    /// `XCHG [x],a`: exchanges the words of register and location atomically. Needs an empty store buffer.
    Xchg { loc: Loc, reg: Reg },
    /// `LOCK XADD [x],a`: atomically loads the location's word into the register, and adds the register's old word to
    /// the location. ZF is set if the sum is 0. Needs an empty store buffer.
    Xadd { loc: Loc, reg: Reg },
    /// `MFENCE`: needs an empty store buffer.
    Mfence,
    /// `JE L`: jumps if ZF is set.
    Je { to: usize },
    /// `JNE L`: jumps if ZF is clear.
    Jne { to: usize },
    /// `JMP L`: jumps.
    Jmp { to: usize },
}

impl Statement for Instr {
    ghost language = { x86_language };

    /// Returns the operation that the instruction executes.
    fn operation(&self) -> Operation {
        match *self {
            Instr::Store { loc, val } => Operation::Store { loc, val },
            Instr::Load { reg, loc } => Operation::Load { dst: reg, loc },
            Instr::Set { reg, val } => Operation::Set { dst: reg, val },
            Instr::Add { reg, val } => Operation::Sum {
                dst: reg,
                left: reg,
                right: val,
            },
            Instr::Cmp { reg, val } => Operation::Compare { reg, val },
            Instr::Xchg { loc, reg } => Operation::Swap {
                dst: reg,
                loc,
                src: reg,
            },
            Instr::Xadd { loc, reg } => {
                Operation::FetchAdd(Some(reg), loc, Operand::Register(reg))
            }
            Instr::Mfence => Operation::Fence,
            Instr::Je { to } => Operation::Branch {
                guard: Guard::Zero,
                to,
            },
            Instr::Jne { to } => Operation::Branch {
                guard: Guard::NotZero,
                to,
            },
            Instr::Jmp { to } => Operation::Branch {
                guard: Guard::Always,
                to,
            },
        }
    }

    /// Returns true: x86 stores go through a store buffer.
    fn is_buffered() -> bool {
        true
    }
}
