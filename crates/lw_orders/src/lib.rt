//! The orders of items, some pairs of which conflict: one order for each orientation of the conflicts.
//! There are up to `MAX_ITEMS` items, numbered from 0. A preserved pair has its first item before its second in every
//! order. A conflict may have either orientation, unless the preserved pairs order it. Two orders are
//! trace-equivalent if they agree on the orientation of every conflict. Of all linear extensions of the preserved
//! pairs, `Orders` returns exactly one of each Mazurkiewicz trace, in which items that do not conflict are
//! independent. Running only these orders is partial-order reduction.
//! A caller covers all orders by a run of each returned order (`run_all` in the tests of orders is such a caller):
//! 1. A loop over `Orders::new(alloc, &items)?` runs each order, unless there are too many. The orders that the
//!    iterator has yet to return are its value's list `to_come`. `next` takes the head of this list, so after the
//!    loop each order of the initial list has been run.
//! 2. Take any linear extension of the preserved pairs. By the clause `exactly_one` of `Orders::new` it is
//!    trace-equivalent to one order in that list, which by the clause `each` is a linear extension too.
//!    (`orders_are_complete` states this of all well-formed items, without a call.)
//! 3. By the law `trace_equivalent_orders_are_connected` the two orders are connected by swaps of adjacent items that neither
//!    conflict nor are preserved, through linear extensions only. If each such swap preserves the outcome of a run,
//!    the two runs have the same outcome. So the outcome of every order was found.
//! A contract cannot speak of outcomes of any type. Lemmas for that are in `proofs/api/`: `SwapInvariance` has
//! `preserved-by_swaps` (what each swap preserves is preserved between connected orders), and `Indices` has the indices of
//! items. The law `trace_equivalent_orders_agree` states it for a test of orders.
//! This crate depends only on std.
#![tactic(auto)]

mod adjacency;
mod greedy;
mod item_bits;
mod item_set;
mod items;
mod laws;
mod limits;
mod order;
mod orders;
mod reach;
mod small_item_set;

pub use items::{Items, count};
pub use laws::{
    one_order_without_unordered_conflicts, orders_are_complete, orders_are_permutations,
    orientations_are_counted, paths_order_pairs, trace_equivalent_orders_agree,
    trace_equivalent_orders_are_connected,
};
pub use limits::{MAX_ITEMS, MAX_ORDERS, MAX_UNORDERED, the_constants_are_the_limits};
pub use order::Order;
pub use orders::Orders;
