//! Lists of outcomes without duplicates, each with a schedule that reaches it or without: first in the order of
//! discovery, then sorted.
//! This crate depends on lw_base, and on indexmap for the look-up of an outcome. Crates above rely on one promise:
//! every `Listing` is strictly sorted.
#![tactic(auto)]

mod listing;

pub use listing::{Listing, OutcomeList, OutcomeMap, outcomes_are_distinct};
