//! Collecting the outcomes of a program, path assignment by path assignment and order by order.
ghost use Rattle.std.specs.Prelude.{◌≡◌, ◌<◌, ◌≤◌, true, List, [], length, All, Contains, IfOk, IfErr, OnOk};
ghost use Rattle.lw_orders.specs.Limits.{most_items};
ghost use Rattle.lw_paths.specs.Items.{constraints_of};
ghost use Rattle.lw_paths.specs.declared.item.Item.{Item};
ghost use Rattle.lw_paths.specs.Counts.{LimitFaultIsTrue, IsWithinLimits};
ghost use Rattle.lw_paths.specs.Totals.{LimitFaultOfAssignment, LimitFaultOfOrders};
ghost use Rattle.lw_finals.specs.inner.Collected.{RunResult, CollectsOutcomes, OutcomesOfOne, OutcomesOfItems, OutcomesOfAssignment, OutcomesOfProgram};
ghost use Rattle.lw_outcome_map.specs.Listings.{IsStrictlySorted, outcomes_of};
ghost use Rattle.lw_paths.specs.Visits.{IsVisitable};

use crate::runner::OrderRunner;
use lw_base::Sequence;
use lw_litmus::Statement;
use lw_orders::{Order, Orders, one_order_without_unordered_conflicts};
use lw_outcome_map::{Listing, OutcomeMap};
use lw_paths::{
    Item, ListFault, PathAssignment, Visitor, check_limits, conflicts_of, fill_few_items,
    has_no_conflicts, reduced_constraints, visit_assignments,
};
use std::alloc::{AllocError, Allocator};

/// Runs an order of items, and adds its outcome with what is kept for it if it is new. A known outcome costs one look-up.
#[inline(always)]
fn collect_order<A: Allocator, R: OrderRunner<A>>(
    runner: &mut R,
    items: &[Item],
    order: &[u8],
    found: &mut OutcomeMap<A, R::Kept>,
) -> Result<(), AllocError>
    requires { All (λ i. i < length items.now) order.now }
    ensures same { R.test runner.new ≡ R.test runner.old }
    ensures gathered { OnOk result
        (CollectsOutcomes (R.ends (R.test runner.old) items.now order.now) (R.leads (R.test runner.old)) found.old found.new) }
{
    if !runner.run(items, order) || found.contains(runner.last_outcome()) {
        return Ok(());
    }
    add_last_outcome(runner, items, order, found)
}

/// Adds the outcome of the last run, which is new, with what is kept for it.
fn add_last_outcome<A: Allocator, R: OrderRunner<A>>(
    runner: &R,
    items: &[Item],
    order: &[u8],
    found: &mut OutcomeMap<A, R::Kept>,
) -> Result<(), AllocError>
    requires within { All (λ i. i < length items.now) order.now }
    requires ran { RunResult (R.ends (R.test runner.now) items.now order.now) true (R.end runner.now) }
    requires new { ¬ Contains (outcomes_of found.old) (R.end runner.now) }
    ensures { OnOk result (CollectsOutcomes (R.ends (R.test runner.now) items.now order.now) (R.leads (R.test runner.now)) found.old found.new) }
{
    let (outcome, kept) = runner.entry(items, order)?;
    found.insert_new(outcome, kept)
}

/// Runs each of these orders of items, and collects their outcomes.
fn collect_orders<A: Allocator, R: OrderRunner<A>>(
    runner: &mut R,
    items: &[Item],
    orders: Orders<A>,
    found: &mut OutcomeMap<A, R::Kept>,
) -> Result<(), AllocError>
    requires { All (λ o. All (λ i. i < length items.now) o) orders.to_come }
    ensures same { R.test runner.new ≡ R.test runner.old }
    ensures gathered { OnOk result (CollectsOutcomes
        (OutcomesOfOne (R.ends (R.test runner.old) items.now) orders.to_come)
        (R.leads (R.test runner.old)) found.old found.new) }
{
    for order in orders {
        collect_order(runner, items, order.as_slice(), found)?;
    }
    Ok(())
}

/// Runs each order of the items, and collects their outcomes. If it is known that nothing conflicts, there is one
/// order, and no pairs are computed.
fn collect_items<S: Statement, A: Allocator + Copy, B: Allocator, R: OrderRunner<A>>(
    alloc: A,
    program: &[Sequence<S, B>],
    is_conflict_free: bool,
    runner: &mut R,
    items: &[Item],
    found: &mut OutcomeMap<A, R::Kept>,
) -> Result<(), ListFault>
    requires bounded { length items.now ≤ most_items }
    requires apart { is_conflict_free ≡ true → (constraints_of S.language program.now items.now).conflicts ≡ [] }
    ensures same { R.test runner.new ≡ R.test runner.old }
    ensures gathered { OnOk result (CollectsOutcomes
        (OutcomesOfItems S.language (R.ends (R.test runner.old)) program.now items.now)
        (R.leads (R.test runner.old)) found.old found.new) }
    ensures err { IfErr result (LimitFaultOfOrders S.language program.now items.now) }
{
    if is_conflict_free {
        return collect_single_order(program, runner, items, found);
    }
    let conflicts = conflicts_of(alloc, program, items)?;
    if conflicts.is_empty() {
        return collect_single_order(program, runner, items, found);
    }
    collect_conflicting(alloc, program, runner, items, conflicts, found)
}

/// Runs each order of items with these conflicts, and collects their outcomes.
fn collect_conflicting<S: Statement, A: Allocator + Copy, B: Allocator, R: OrderRunner<A>>(
    alloc: A,
    program: &[Sequence<S, B>],
    runner: &mut R,
    items: &[Item],
    conflicts: Vec<(u8, u8), A>,
    found: &mut OutcomeMap<A, R::Kept>,
) -> Result<(), ListFault>
    requires bounded { length items.now ≤ most_items }
    requires conflicts { conflicts.items ≡ (constraints_of S.language program.now items.now).conflicts }
    ensures same { R.test runner.new ≡ R.test runner.old }
    ensures gathered { OnOk result (CollectsOutcomes
        (OutcomesOfItems S.language (R.ends (R.test runner.old)) program.now items.now)
        (R.leads (R.test runner.old)) found.old found.new) }
    ensures err { IfErr result (LimitFaultOfOrders S.language program.now items.now) }
{
    let constraints = reduced_constraints(alloc, program, items, conflicts)?;
    let Some(orders) = Orders::new(alloc, &constraints)? else {
        return Err(ListFault::TooManyOrders);
    };
    collect_orders(runner, items, orders, found)?;
    Ok(())
}

/// Runs the single order of items without conflicts.
fn collect_single_order<S: Statement, A: Allocator, B: Allocator, R: OrderRunner<A>>(
    program: &[Sequence<S, B>],
    runner: &mut R,
    items: &[Item],
    found: &mut OutcomeMap<A, R::Kept>,
) -> Result<(), ListFault>
    requires bounded { length items.now ≤ most_items }
    requires none { (constraints_of S.language program.now items.now).conflicts ≡ [] }
    ensures same { R.test runner.new ≡ R.test runner.old }
    ensures gathered { OnOk result (CollectsOutcomes
        (OutcomesOfItems S.language (R.ends (R.test runner.old)) program.now items.now)
        (R.leads (R.test runner.old)) found.old found.new) }
    ensures err { IfErr result (LimitFaultOfOrders S.language program.now items.now) }
{
    one_order_without_unordered_conflicts();
    let order = Order::ascending(items.len());
    collect_order(runner, items, order.as_slice(), found)?;
    Ok(())
}

/// The visitor that collects the outcomes of path assignments.
#[derive(Drop)]
struct Gatherer<'a, 'r, S: Statement, A: Allocator, B: Allocator, R: OrderRunner<A>> {
    alloc: A,
    program: &'a [Sequence<S, B>],
    // Whether it is known that nothing conflicts.
    is_conflict_free: bool,
    items: Vec<Item, A>,
    runner: &'r mut R,
    found: OutcomeMap<A, R::Kept>,
    ghost apart: { is_conflict_free ≡ true → (items : List Item) → (constraints_of S.language program.now items).conflicts ≡ [] },
}

impl<'a, 'r, S: Statement, A: Allocator + Copy, B: Allocator, R: OrderRunner<A>> Visitor
    for Gatherer<'a, 'r, S, A, B, R> {
    type Fault = ListFault;

    ghost visits = { λ v paths w. (w.program.now ≡ v.program.now) × (R.test w.runner.now ≡ R.test v.runner.now)
        × CollectsOutcomes (OutcomesOfAssignment S.language (R.ends (R.test v.runner.now)) v.program.now paths) (R.leads (R.test v.runner.now)) v.found w.found };

    ghost refuses = { λ v paths e. LimitFaultOfAssignment S.language v.program.now 0 paths e };

    /// Computes the items of one path assignment, and collects the outcomes of their orders.
    fn visit(&mut self, assignment: &PathAssignment) -> Result<(), ListFault> {
        fill_few_items(self.program, assignment, &mut self.items)?;
        collect_items(
            self.alloc,
            self.program,
            self.is_conflict_free,
            self.runner,
            self.items.as_slice(),
            &mut self.found,
        )
    }
}

/// Lists the outcomes of a program: those of all orders of all its path assignments.
pub(crate) fn list_program<S: Statement, A: Allocator + Copy, B: Allocator, R: OrderRunner<A>>(
    alloc: A,
    program: &[Sequence<S, B>],
    runner: &mut R,
) -> Result<Listing<A, R::Kept>, ListFault>
    requires { IsVisitable S.language program.now }
    ensures within { OnOk result (IsWithinLimits S.language program.now) }
    ensures err { IfErr result (LimitFaultIsTrue S.language program.now) }
    ensures sorted { IfOk result (λ l. IsStrictlySorted l) }
    ensures gathered { IfOk result (λ l. CollectsOutcomes
        (OutcomesOfProgram S.language (R.ends (R.test runner.old)) program.now) (R.leads (R.test runner.old)) [] l) }
{
    check_limits(alloc, program)?;
    let mut gatherer = Gatherer {
        alloc,
        program,
        is_conflict_free: has_no_conflicts(program),
        items: Vec::new(alloc),
        runner,
        found: OutcomeMap::new(alloc),
    };
    visit_assignments(program, &mut gatherer)?;
    Ok(gatherer.found.into_listing()?)
}
