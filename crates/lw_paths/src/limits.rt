//! The limits of a list.
ghost use Rattle.std.specs.Prelude.{◌≤◌, OnOk, IfErr};
ghost use Rattle.lw_orders.specs.Limits.{most_orders};
ghost use Rattle.lw_paths.specs.Counts.{HasTooManyItems, LimitFaultIsTrue, IsWithinLimits};
ghost use Rattle.lw_paths.specs.Totals.{total_of, LimitFaultOfAssignments};
ghost use Rattle.lw_paths.specs.Visits.{IsVisitable};

use crate::count::Counter;
use crate::fault::ListFault;
use crate::few_orders::has_few_orders;
use crate::size::check_items;
use crate::visit::visit_assignments;
use lw_base::Sequence;
use lw_litmus::Statement;
use std::alloc::Allocator;

/// Fails if a program has too many orders.
fn check_orders<S: Statement, A: Allocator + Copy, B: Allocator>(
    alloc: A,
    program: &[Sequence<S, B>],
) -> Result<(), ListFault>
    requires { IsVisitable S.language program.now }
    ensures items { OnOk result (HasTooManyItems S.language program.now → ⊥) }
    ensures orders { OnOk result (total_of S.language program.now ≤ most_orders) }
    ensures err { IfErr result (LimitFaultOfAssignments S.language program.now) }
{
    let mut counter = Counter {
        alloc,
        program,
        items: Vec::new(alloc),
        total: 0,
    };
    visit_assignments(program, &mut counter)
}

/// Checks that a program is within the limits of a list, items before orders. The orders are not counted if it is
/// clear without a visit that they are few.
pub fn check_limits<S: Statement, A: Allocator + Copy, B: Allocator>(
    alloc: A,
    program: &[Sequence<S, B>],
) -> Result<(), ListFault>
    requires { IsVisitable S.language program.now }
    ensures within { OnOk result (IsWithinLimits S.language program.now) }
    ensures err { IfErr result (LimitFaultIsTrue S.language program.now) }
{
    check_items(program)?;
    if has_few_orders(program) {
        return Ok(());
    }
    check_orders(alloc, program)
}
