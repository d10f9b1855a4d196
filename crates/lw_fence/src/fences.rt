//! The analysis that finds which statements need a fence: one forward pass with marks.
ghost use Rattle.std.specs.Prelude.{◌≡◌, ◌<◌, ◌≤◌, ◌+◌, ◌↔◌, ◌&&◌, ℕ, true, false, if◌then◌else◌, Some, length, slice_get, slice_index_or, slice_set, IfOk};
ghost use Rattle.std.specs.Option.{ForSome};
ghost use Rattle.lw_litmus.specs.Limits.{most_statements};
ghost use Rattle.lw_litmus.specs.declared.stmt.Stmt.{Stmt as SourceStatement};
ghost use Rattle.lw_litmus.specs.Operations.{is_load, branch_target};
ghost use Rattle.lw_litmus.specs.Sources.{source_operation};
ghost use Rattle.lw_fence.specs.Fences.{IsReachableFromStore, NeedsFence};
ghost use Rattle.lw_fence.specs.inner.Marks.{may_wait, mark_successors};

use lw_litmus::{Operation, Statement as _, Stmt};
use std::alloc::{AllocError, Allocator};

/// Returns for each position of a thread, its end included, whether some flow path reaches it from a store that may
/// still be in the store buffer.
fn marks_of<A: Allocator>(alloc: A, code: &[Stmt]) -> Result<Vec<bool, A>, AllocError>
    requires short { length code.now ≤ most_statements }
    requires forward { (j : ℕ) (s : SourceStatement) → slice_get code.now j ≡ Some s
        → ForSome (branch_target (source_operation s)) (λ to. (j < to) × (to ≤ length code.now)) }
    ensures as_many { IfOk result (λ v. length v.items ≡ length code.now + 1) }
    ensures reachable { IfOk result (λ v. (j : ℕ) → j ≤ length code.now
        → (slice_index_or v.items j false ≡ true) ↔ IsReachableFromStore code.now j) }
{
    let mut marks = vec![in alloc; false; code.len() + 1]?;
    for index in 0..code.len() {
        propagate_marks(&mut marks, code[index].operation(), index);
    }
    Ok(marks)
}

/// Returns whether a store may be in the buffer after an operation, if one may be before it.
fn stores_wait_past(operation: Operation, before: bool) -> bool
    ensures { result ≡ may_wait operation before }
{
    let ends_waiting = matches!(operation, Operation::Load { .. })
        || operation.needs_empty_buffer();
    operation.is_store() || !ends_waiting && before
}

/// Marks the successors of an operation if a store may be in the buffer after it.
fn propagate_marks(marks: &mut [bool], operation: Operation, index: usize)
    requires next { index + 1 < length marks.old }
    requires target { ForSome (branch_target operation) (λ to. to < length marks.old) }
    ensures { marks.new ≡ (if may_wait operation (slice_index_or marks.old index false)
        then mark_successors operation index marks.old else marks.old) }
{
    if !stores_wait_past(operation, marks[index]) {
        return;
    }
    if let Some(to) = operation.target() {
        marks[to] = true;
    }
    if operation.falls_through() {
        marks[index + 1] = true;
    }
}

/// Returns for each statement of a thread whether it needs a fence before it.
pub(crate) fn fences_of<A: Allocator + Copy>(
    alloc: A,
    code: &[Stmt],
) -> Result<Vec<bool, A>, AllocError>
    requires short { length code.now ≤ most_statements }
    requires forward { (j : ℕ) (s : SourceStatement) → slice_get code.now j ≡ Some s
        → ForSome (branch_target (source_operation s)) (λ to. (j < to) × (to ≤ length code.now)) }
    ensures as_many { IfOk result (λ v. length v.items ≡ length code.now) }
    ensures needed { IfOk result (λ v. (j : ℕ) → (slice_get v.items j ≡ Some true) ↔ NeedsFence code.now j) }
{
    let marks = marks_of(alloc, code)?;
    let mut fences = Vec::new(alloc);
    for index in 0..code.len() {
        let operation = code[index].operation();
        fences.push(needs_fence(operation, marks[index]))?;
    }
    Ok(fences)
}

/// Returns whether the operation is a load at a marked position.
fn needs_fence(operation: Operation, mark: bool) -> bool
    ensures { result ≡ (is_load operation && mark) }
{
    matches!(operation, Operation::Load { .. }) && mark
}
