//! Path assignments, which choose a whole flow path for each thread of a test, and their items. They are defined for
//! any language whose statements have operations (`statement` says what these mean here).
//! How the path assignments of a program are visited:
//! 1. `visit`: each path assignment is visited once, without a list of them (`path`, `path_methods`).
//! 2. `item`, `items`, `preserved_order`, `conflicts`: the statements on the paths, and the drains of their stores,
//!    are the items. The order of some pairs is preserved, and some pairs conflict. lw_orders enumerates one order
//!    for each orientation of the conflicts.
//! 3. `size`, `count`, `limits`: the maximum number of items is checked first. Then the orders of all path
//!    assignments are counted, up to the limit, unless `few_orders` shows without counting that they are within it.
//!    `fault` has the causes.
//! This crate depends on lw_base, on the operations of lw_litmus, and on lw_orders. It executes nothing. Crates above
//! rely on one promise: `visit_assignments` visits exactly the path assignments of a program, each once; `laws` says so
//! of their list.
#![tactic(auto)]

mod conflicts;
mod count;
mod fault;
mod few_orders;
mod item;
mod items;
mod laws;
mod limits;
mod path;
mod path_methods;
mod preserved_order;
mod size;
mod statement;
mod visit;

pub use conflicts::conflicts_of;
pub use count::{fill_few_items, reduced_constraints};
pub use fault::ListFault;
pub use few_orders::has_no_conflicts;
pub use item::Item;
pub use laws::{
    path_assignments_are_complete, reduced_pairs_are_equivalent, source_tests_have_few_items,
    totals_are_counted,
};
pub use limits::check_limits;
pub use path::{Path, PathAssignment};
pub use visit::{Visitor, visit_assignments};
