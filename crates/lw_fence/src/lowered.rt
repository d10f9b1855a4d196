//! The lowering of one statement to at most two instructions.
ghost use Rattle.std.specs.Prelude.{◌≡◌, ◌≤◌, ◌++◌, length, slice_index, OnOk};
ghost use Rattle.lw_fence.specs.Compiling as compiling;

use lw_base::{Operand, Reg, Sequence, Word};
use lw_litmus::{Instr, Stmt};
use std::alloc::{AllocFailed, Allocator};

/// The instructions of a statement.
#[derive(Clone, Copy)]
pub enum Lowered {
    One(Instr),
    Two(Instr, Instr),
}

impl Lowered {
    /// Lowers a statement, with a fence or without, by a table `starts` of each statement's first instruction. The
    /// length does not depend on the table; a target that the table does not have yet becomes 0.
    pub(crate) fn of(stmt: &Stmt, fence: bool, starts: &[usize]) -> Lowered
        ensures { result ≡ compiling.lowered starts.now fence stmt.now }
    {
        match *stmt {
            Stmt::Store { loc, val } => Lowered::One(Instr::Store { loc, val }),
            Stmt::Load { dst, loc } => Lowered::fenced(fence, Instr::Load { reg: dst, loc }),
            Stmt::Swap { dst, loc, src } => Lowered::moved(dst, src, Instr::Xchg { loc, reg: dst }),
            Stmt::FetchAdd { dst, loc, src } => Lowered::moved(
                dst,
                src,
                Instr::Xadd { loc, reg: dst },
            ),
            Stmt::Set { dst, val } => Lowered::One(Instr::Set { reg: dst, val }),
            Stmt::Sum { dst, left, right } => Lowered::summed(dst, left, right),
            Stmt::IfEq { reg, num, to } => {
                let to = start_of(starts, to);
                Lowered::Two(compared(reg, num), Instr::Je { to })
            }
            Stmt::IfNe { reg, num, to } => {
                let to = start_of(starts, to);
                Lowered::Two(compared(reg, num), Instr::Jne { to })
            }
            Stmt::Goto { to } => {
                let to = start_of(starts, to);
                Lowered::One(Instr::Jmp { to })
            }
        }
    }

    /// Returns the instruction, after a fence if `fence` is set.
    fn fenced(fence: bool, last: Instr) -> Lowered
        ensures { result ≡ compiling.with_fence_if fence last }
    {
        if fence {
            Lowered::Two(Instr::Mfence, last)
        } else {
            Lowered::One(last)
        }
    }

    /// Returns the instruction, after a move from `src` to `dst` if they differ.
    fn moved(dst: Reg, src: Reg, last: Instr) -> Lowered
        ensures { result ≡ compiling.with_move_if dst src last }
    {
        if dst == src {
            return Lowered::One(last);
        }
        let first = Instr::Set {
            reg: dst,
            val: Operand::Register(src),
        };
        Lowered::Two(first, last)
    }

    /// Lowers a sum. If the destination is the right operand, the left operand is added to it.
    fn summed(dst: Reg, left: Reg, right: Operand) -> Lowered
        ensures { result ≡ compiling.lower_sum dst left right }
    {
        if right == Operand::Register(dst) {
            let val = Operand::Register(left);
            return Lowered::One(Instr::Add { reg: dst, val });
        }
        Lowered::moved(
            dst,
            left,
            Instr::Add {
                reg: dst,
                val: right,
            },
        )
    }

    /// Returns the number of instructions.
    pub(crate) fn len(&self) -> usize
        ensures result_is { result ≡ length (compiling.instrs_of self.now) }
        ensures bounded { result ≤ 2 }
    {
        match self {
            Lowered::One(_) => 1,
            Lowered::Two(_, _) => 2,
        }
    }

    /// Appends the instructions to those of a thread.
    pub(crate) fn push_to<A: Allocator>(
        self,
        instrs: &mut Sequence<Instr, A>,
    ) -> Result<(), AllocFailed<Instr>>
        ensures { OnOk result (instrs.new ≡ instrs.old ++ compiling.instrs_of self) }
    {
        match self {
            Lowered::One(last) => instrs.push(last),
            Lowered::Two(first, last) => {
                instrs.push(first)?;
                instrs.push(last)
            }
        }
    }
}

/// Returns the instruction that sets the zero flag if a register has a word.
fn compared(reg: Reg, num: Word) -> Instr
    ensures { result ≡ compiling.lower_compare reg num }
{
    Instr::Cmp {
        reg,
        val: Operand::Number(num),
    }
}

/// Returns the index of a statement's first instruction, or 0 if the table does not have it.
fn start_of(starts: &[usize], index: usize) -> usize
    ensures { result ≡ slice_index starts.now index }
{
    starts.get(index).copied().unwrap_or(0)
}
