//! The maximum number of items of a path assignment, without a visit: the longest path of each thread, by items.
ghost use Rattle.std.specs.Prelude.{◌≡◌, ◌+◌, ◌*◌, ◌<◌, ◌≤◌, ℕ, Contains, length, OnOk, IfErr, slice_index, Some};
ghost use Rattle.lw_litmus.specs.Limits.{most_instructions};
ghost use Rattle.lw_litmus.specs.Flow.{IsFlowPathFrom};
ghost use Rattle.lw_paths.specs.PathAssignments.{JumpsForward, IsPathAssignment};
ghost use Rattle.lw_paths.specs.AssignmentLists.{successors};
ghost use Rattle.lw_paths.specs.Counts.{HasTooManyItems, items_of_assignment};
ghost use Rattle.lw_paths.specs.inner.Sizes.{IsMost, statement_size, path_size};
ghost use Rattle.lw_paths.specs.Visits.{IsVisitable};
ghost use Rattle.lw_paths.specs.declared.fault.ListFault.TheVariants.{TooManyItems as PastItems};

use crate::fault::ListFault;
use crate::statement::drains;
use crate::visit::successors;
use lw_base::Sequence;
use lw_litmus::{MAX_INSTRUCTIONS, Statement};
use lw_orders::MAX_ITEMS;
use std::alloc::Allocator;

/// The number of positions of the longest thread: those of its statements, and its end.
const POSITIONS: usize = MAX_INSTRUCTIONS + 1;

/// Returns the number of items of a statement: itself, and its drain if it has one.
fn statement_size<S: Statement>(stmt: &S) -> usize
    ensures { result ≡ statement_size S.language stmt.now }
{
    match drains(stmt) {
        Some(_) => 2,
        None => 1,
    }
}

/// Returns the maximum number of items on the paths after a statement, from a table of the maxima of later positions.
fn max_items_from<S: Statement>(most: &[usize; POSITIONS], stmt: &S, at: usize) -> usize
    requires at { at < most_instructions }
    requires within { (k : ℕ) → Contains (successors S.language stmt.now at) k → k ≤ most_instructions }
    ensures { IsMost (Contains (successors S.language stmt.now at)) (λ k. slice_index most.now k) result }
{
    let (first, second) = successors(stmt, at);
    let most_first = most[first];
    let Some(to) = second else {
        return most_first;
    };
    let most_second = most[to];
    if most_first < most_second {
        return most_second;
    }
    most_first
}

/// Returns the maximum number of items on the paths of a thread.
fn max_items_of_thread<S: Statement, A: Allocator>(code: &Sequence<S, A>) -> usize
    requires short { length code.now ≤ most_instructions }
    requires forward { JumpsForward S.language code.now }
    ensures most { IsMost (IsFlowPathFrom S.language code.now 0) (path_size S.language code.now) result }
    ensures bounded { result ≤ 2 * most_instructions }
{
    let stmts = code.as_slice();
    let mut most = [0; POSITIONS];
    for done in 0..stmts.len() {
        let at = stmts.len() - 1 - done;
        let stmt = &stmts[at];
        most[at] = statement_size(stmt) + max_items_from(&most, stmt, at);
    }
    most[0]
}

/// Returns the maximum number of items of the path assignments of a program.
fn max_items<S: Statement, A: Allocator>(program: &[Sequence<S, A>]) -> usize
    requires { IsVisitable S.language program.now }
    ensures most { IsMost (IsPathAssignment S.language program.now) (items_of_assignment S.language program.now) result }
    ensures bounded { result ≤ 2 * most_instructions * length program.now }
{
    match program.split_first() {
        Some((code, others)) => max_items_of_thread(code) + max_items(others),
        None => 0,
    }
}

/// Fails if some path assignment of a program has more items than a list takes.
pub(crate) fn check_items<S: Statement, A: Allocator>(
    program: &[Sequence<S, A>],
) -> Result<(), ListFault>
    requires { IsVisitable S.language program.now }
    ensures bounded { OnOk result (HasTooManyItems S.language program.now → ⊥) }
    ensures fault { IfErr result (λ e. e ≡ PastItems) }
    ensures many { IfErr result (λ e. HasTooManyItems S.language program.now) }
{
    if max_items(program) > MAX_ITEMS {
        return Err(ListFault::TooManyItems);
    }
    Ok(())
}
