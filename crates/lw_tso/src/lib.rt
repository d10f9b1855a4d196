//! The x86-TSO machine: processors with store buffers over any memory system.
//! This crate depends on lw_base, on the program and its instructions in lw_litmus, on the trait of memory systems in
//! lw_memory, and on circular_buffer for the store buffers. Crates above rely on one promise: an event of a `Machine`
//! has the effect that the table in `specs/EventEffects.antt` says, over any lawful memory.
#![tactic(auto)]

mod buffer;
mod laws;
mod lock_laws;
mod machine;
mod processor;

pub use laws::{
    events_are_flat, every_run_ends, fences_can_be_removed, fences_only_remove_outcomes,
    fences_only_remove_outcomes_over_every_memory, flat_events_are_determined,
    independent_events_commute, outcomes_are_flat, replays_are_flat, replays_are_of_their_test,
    tests_without_fences_are_well_formed,
};
pub use lock_laws::lock_phases_change_no_outcome;
pub use machine::Machine;
