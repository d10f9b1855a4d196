//! Counting the orders of a program.
ghost use Rattle.std.specs.Prelude.{◌≡◌, ◌+◌, ◌<◌, ◌≤◌, ℕ, List, length, take, IfOk, IfErr, OnOk, OnErr, MatchOption};
ghost use Rattle.lw_orders.specs.Orientations.{orientation_count};
ghost use Rattle.lw_orders.specs.Limits.{most_items, most_orders};
ghost use Rattle.lw_paths.specs.Counts.{items_of_assignment};
ghost use Rattle.lw_paths.specs.Totals.{orders_of_assignment, LimitFaultOfPaths, LimitFaultOfAssignment};
ghost use Rattle.lw_paths.specs.Items.{constraints_of, items_of};
ghost use Rattle.lw_paths.specs.ReducedPairs.{reduced_constraints_of};
ghost use Rattle.lw_paths.specs.Views.{assignment_of};

use crate::conflicts::conflicts_of;
use crate::fault::ListFault;
use crate::item::Item;
use crate::items::fill_items;
use crate::path::PathAssignment;
use crate::preserved_order::reduced_pairs;
use crate::visit::Visitor;
use lw_base::Sequence;
use lw_litmus::Statement;
use lw_orders::{Items, MAX_ITEMS, MAX_ORDERS, count};
use std::alloc::{AllocError, Allocator};

/// Fills a list with the items of a path assignment. Fails if there are more than a list takes, or if memory runs
/// out; then the list has some of the first items.
pub fn fill_few_items<S: Statement, A: Allocator, B: Allocator>(
    program: &[Sequence<S, B>],
    assignment: &PathAssignment,
    items: &mut Vec<Item, A>,
) -> Result<(), ListFault>
    ensures ok { OnOk result (items.new.items ≡ items_of S.language program.now (assignment_of assignment.now)) }
    ensures bounded { OnOk result (length items.new.items ≤ most_items) }
    ensures err { IfErr result (LimitFaultOfPaths S.language program.now (assignment_of assignment.now)) }
    ensures left { OnErr result ((filled : ℕ) × (items.new.items ≡ take filled (items_of S.language program.now (assignment_of assignment.now)))) }
{
    fill_items(program, assignment, items)?;
    if items.len() > MAX_ITEMS {
        return Err(ListFault::TooManyItems);
    }
    Ok(())
}

/// Returns the items with these conflicts and their reduced pairs, which are equivalent to all preserved pairs.
pub fn reduced_constraints<S: Statement, A: Allocator, B: Allocator>(
    alloc: A,
    program: &[Sequence<S, B>],
    items: &[Item],
    conflicts: Vec<(u8, u8), A>,
) -> Result<Items<A>, AllocError>
    requires bounded { length items.now ≤ most_items }
    requires conflicts { conflicts.items ≡ (constraints_of S.language program.now items.now).conflicts }
    ensures { IfOk result (λ t. t ≡ reduced_constraints_of S.language program.now items.now) }
{
    let preserved = reduced_pairs(alloc, program, items)?;
    Ok(Items::new(items.len(), preserved, conflicts))
}

/// Returns the number of orders of a path assignment's items, or `None` above the limit. If nothing conflicts there
/// is one, and no pairs are computed.
fn count_orders<S: Statement, A: Allocator + Copy, B: Allocator>(
    alloc: A,
    program: &[Sequence<S, B>],
    items: &[Item],
) -> Result<Option<u64>, AllocError>
    requires bounded { length items.now ≤ most_items }
    requires of_assignment { (paths : List (List ℕ)) × (items.now ≡ items_of S.language program.now paths) }
    ensures { IfOk result (λ c. MatchOption c
        (most_orders < orientation_count (constraints_of S.language program.now items.now))
        (λ n. (n ≡ orientation_count (constraints_of S.language program.now items.now)) × (n ≤ most_orders))) }
{
    let conflicts = conflicts_of(alloc, program, items)?;
    if conflicts.is_empty() {
        return Ok(Some(1));
    }
    let constraints = reduced_constraints(alloc, program, items, conflicts)?;
    count(alloc, &constraints)
}

/// The visitor that adds up the orders of path assignments.
#[derive(Drop)]
pub(crate) struct Counter<'a, S: Statement, A: Allocator, B: Allocator> {
    pub(crate) alloc: A,
    pub(crate) program: &'a [Sequence<S, B>],
    pub(crate) items: Vec<Item, A>,
    pub(crate) total: u64,
}

impl<'a, S: Statement, A: Allocator + Copy, B: Allocator> Visitor for Counter<'a, S, A, B> {
    type Fault = ListFault;

    ghost visits = { λ v paths w. (w.program.now ≡ v.program.now)
        × (items_of_assignment S.language v.program.now paths ≤ most_items)
        × (w.total ≡ v.total + orders_of_assignment S.language v.program.now paths) × (w.total ≤ most_orders) };

    ghost refuses = { λ v paths e. LimitFaultOfAssignment S.language v.program.now v.total paths e };

    /// Adds the number of one path assignment's orders to the total. Fails at too many items or orders.
    fn visit(&mut self, assignment: &PathAssignment) -> Result<(), ListFault> {
        fill_few_items(self.program, assignment, &mut self.items)?;
        let Some(orders) = count_orders(self.alloc, self.program, self.items.as_slice())? else {
            return Err(ListFault::TooManyOrders);
        };
        let total = self.total.saturating_add(orders);
        if total > MAX_ORDERS {
            return Err(ListFault::TooManyOrders);
        }
        self.total = total;
        Ok(())
    }
}
