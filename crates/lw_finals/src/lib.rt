//! The complete lists of final states. The list of a source test has each reachable outcome once, with a schedule of
//! the compiled program that reaches it; the list of an x86 test has each outcome that the machine reaches, with a
//! schedule. `list_source_outcomes` and `list_x86_outcomes` list the same outcomes without schedules. Crates above
//! rely on the contracts of these four.
//! How a list is made, for either language:
//! 1. lw_paths visits each path assignment, and computes its items with their preserved pairs and conflicts; it also
//!    checks the limits.
//! 2. lw_orders enumerates one order of the items for each orientation of the conflicts.
//! 3. `runner`, `source_runner`, `x86_runner`, `collect`: each enumerated order is run once. An order that leaves its
//!    paths is dropped; the outcome of any other is looked up in the map of lw_outcome_map, and inserted if it is new,
//!    with its schedule if schedules are kept.
//! Why the list is complete: `laws`. Every run of the test is a linear extension of the items of some path
//! assignment; it is trace-equivalent to an enumerated order; and trace-equivalent orders have the same outcome. (So
//! the list is made by partial-order reduction.)
//! This crate depends on lw_base, lw_litmus, lw_interleaving, lw_memory, lw_mesi, lw_tso, lw_fence, lw_orders,
//! lw_outcome_map, lw_paths and lw_tso_caches.
#![tactic(auto)]

mod collect;
mod laws;
mod list;
mod runner;
mod source_runner;
mod x86_runner;

pub use laws::{
    source_outcomes_are_those_of_path_assignments, trace_equivalent_source_orders_have_one_outcome,
    trace_equivalent_x86_orders_have_one_outcome, x86_outcomes_are_those_of_path_assignments,
};
pub use list::{list_source, list_source_outcomes, list_x86, list_x86_outcomes};
pub use lw_outcome_map::{Listing, OutcomeList, outcomes_are_distinct};
pub use lw_paths::{
    ListFault, Path, PathAssignment, Visitor, path_assignments_are_complete,
    source_tests_have_few_items, visit_assignments,
};
pub use lw_tso_caches::{outcomes_over_caches_are_flat, replays_over_caches_are_flat};
