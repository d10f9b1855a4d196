//! The instructions of a thread: its lowered statements, concatenated.
ghost use Rattle.std.specs.Prelude.{◌≡◌, length, IfOk};
ghost use Rattle.lw_fence.specs.Compiling.{lowered_code};

use crate::lowered::Lowered;
use lw_base::Sequence;
use lw_litmus::{Instr, Stmt};
use std::alloc::{AllocError, Allocator};

/// Lowers a thread, by the fences and the first instructions of its statements. Fails only if memory runs out.
pub(crate) fn lower<A: Allocator>(
    alloc: A,
    code: &[Stmt],
    fences: &[bool],
    starts: &[usize],
) -> Result<Sequence<Instr, A>, AllocError>
    requires { length fences.now ≡ length code.now }
    ensures { IfOk result (λ instrs. instrs ≡ lowered_code starts.now fences.now code.now) }
{
    let mut instrs = Sequence::new(alloc);
    for index in 0..code.len() {
        Lowered::of(&code[index], fences[index], starts).push_to(&mut instrs)?;
    }
    Ok(instrs)
}
