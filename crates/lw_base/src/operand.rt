//! Operands of statements and instructions.
ghost use Rattle.std.specs.Prelude.{◌≡◌};
ghost use Rattle.lw_base.specs.Threads.{operand_value};

use crate::indices::{Reg, Word};
use crate::limits::REGISTERS;

/// A register, or a number that is written in the text.
#[derive(Clone, Copy, PartialEq, Eq)]
pub enum Operand {
    Register(Reg),
    Number(Word),
}

impl Operand {
    /// Returns the operand's word, by the words of the thread's registers.
    pub fn value(self, regs: &[Word; REGISTERS]) -> Word
        ensures { result ≡ operand_value self regs.now }
    {
        match self {
            Operand::Register(reg) => regs[reg.index()],
            Operand::Number(word) => word,
        }
    }
}
