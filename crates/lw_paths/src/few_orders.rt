//! A quick test for few orders, without a visit of all path assignments.
ghost use Rattle.std.specs.Prelude.{◌≡◌, ◌≤◌, true, List, []};
ghost use Rattle.std.specs.List.{sum_by};
ghost use Rattle.lw_orders.specs.Limits.{most_unordered, most_orders};
ghost use Rattle.lw_paths.specs.Totals.{total_of};
ghost use Rattle.lw_paths.specs.Items.{constraints_of};
ghost use Rattle.lw_paths.specs.declared.item.Item.{Item};
ghost use Rattle.lw_paths.specs.Visits.{IsVisitable};
ghost use Rattle.lw_paths.specs.inner.Few.{branches, code_has_no_access as silent_code, has_no_access as silent};

use lw_base::Sequence;
use lw_litmus::Statement;
use lw_orders::MAX_UNORDERED;
use std::alloc::Allocator;

/// The maximum number of branches of a program that is known to have few path assignments: there are at most 2 to
/// this power.
const MAX_BRANCHES: usize = MAX_UNORDERED;

/// Returns the number of branches of a thread.
fn count_branches<S: Statement, A: Allocator>(code: &Sequence<S, A>) -> usize
    ensures { result ≡ branches S.language code.now }
{
    code.as_slice()
        .iter()
        .filter(|stmt| stmt.operation().target().is_some())
        .count()
}

/// Returns whether no statement of a thread accesses a location.
fn code_has_no_access<S: Statement, A: Allocator>(code: &Sequence<S, A>) -> bool
    ensures { result ≡ silent_code S.language code.now }
{
    code.as_slice()
        .iter()
        .all(|stmt| stmt.operation().location().is_none())
}

/// Returns whether no statement of a program accesses a location.
fn has_no_access<S: Statement, A: Allocator>(program: &[Sequence<S, A>]) -> bool
    ensures { result ≡ silent S.language program.now }
{
    program.iter().all(|code| code_has_no_access(code))
}

/// Returns whether no items of a program conflict on any paths because no statement accesses a location. If it returns false, some may
/// conflict.
pub fn has_no_conflicts<S: Statement, A: Allocator>(program: &[Sequence<S, A>]) -> bool
    ensures { result ≡ true → (items : List Item) → (constraints_of S.language program.now items).conflicts ≡ [] }
{
    has_no_access(program)
}

/// Returns whether a program has few enough branches to have few path assignments. The contract promises nothing of `false`.
fn has_few_branches<S: Statement, A: Allocator>(program: &[Sequence<S, A>]) -> bool
    ensures { result ≡ true → sum_by (branches S.language) program.now ≤ most_unordered }
{
    let mut room = MAX_BRANCHES;
    for code in program {
        let count = count_branches(code);
        if room < count {
            return false;
        }
        room -= count;
    }
    true
}

/// Returns whether a program is known to be within the limit of orders: each path assignment has one order, and there
/// are few path assignments. The contract promises nothing of `false`: then the orders are counted.
pub(crate) fn has_few_orders<S: Statement, A: Allocator>(program: &[Sequence<S, A>]) -> bool
    requires { IsVisitable S.language program.now }
    ensures { result ≡ true → total_of S.language program.now ≤ most_orders }
{
    if !has_no_access(program) {
        return false;
    }
    has_few_branches(program)
}
