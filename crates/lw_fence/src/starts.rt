//! The first instruction of each statement.
ghost use Rattle.std.specs.Prelude.{◌≡◌, ◌≤◌, length, IfOk};
ghost use Rattle.lw_litmus.specs.Limits.{most_statements};
ghost use Rattle.lw_fence.specs.Compiling.{starts_from};

use crate::lowered::Lowered;
use lw_base::Sequence;
use lw_litmus::Stmt;
use std::alloc::{AllocError, Allocator};

/// Returns the index of the first instruction of each statement of a thread, its fence included, and at the end the
/// number of instructions.
pub(crate) fn starts_of<A: Allocator>(
    alloc: A,
    code: &[Stmt],
    fences: &[bool],
) -> Result<Sequence<usize, A>, AllocError>
    requires short { length code.now ≤ most_statements }
    requires as_many { length fences.now ≡ length code.now }
    ensures { IfOk result (λ starts. starts ≡ starts_from 0 fences.now code.now) }
{
    let mut starts = Sequence::new(alloc);
    let mut next = 0;
    for index in 0..code.len() {
        starts.push(next)?;
        next += Lowered::of(&code[index], fences[index], &[]).len();
    }
    starts.push(next)?;
    Ok(starts)
}
