//! The axiomatic model of x86-TSO: which executions of a test are allowed, by relations between their events. Its
//! theorem: the axioms allow exactly the outcomes that a test has on the machine, whatever its size.
//! There is no code here. `specs/` has the definitions: executions and candidates (of tests of either language), the
//! axioms of x86-TSO and of sequential consistency, equivalent forms, runs by interleaving, fences, and locks; they do
//! not name the machine. `laws` has the theorem, `herd` the relation to herd's definitions, `times` the same model by
//! times in place of relations, `programs` consequences for programmers, and `examples` classic tests and a spin lock.
//! This crate depends on lw_base, on the tests of both languages in lw_litmus, and on the insertion of an MFENCE into
//! a code in lw_tso. Its laws and proofs name lw_interleaving, lw_memory, lw_mesi, lw_tso and lw_tso_caches, whose
//! outcomes they relate; lw_fence, for the compiled program of a source test; lw_orders, lw_paths and lw_finals, by
//! whose orders of items the theorem is proved; and lw_report and lw_bench, for the output of `lw states`. The
//! program does not depend on this crate.
#![tactic(auto)]

mod examples;
mod herd;
mod laws;
mod programs;
mod times;

pub use examples::{
    store_buffering_has_a_triangular_race, store_buffering_is_allowed,
    the_fence_of_own_loads_is_spare, the_spin_lock_excludes,
};
pub use herd::{
    acyclic_relations_have_no_cycle, coherence_ranks_are_total_orders,
    locked_instructions_can_be_two_events,
};
pub use laws::{
    interleaving_outcomes_are_sequential, machine_outcomes_are_those_allowed,
    source_outcomes_are_those_allowed_to_compiled_programs, states_prints_what_the_axioms_allow,
};
pub use programs::{
    accesses_of_one_location_are_coherent, critical_sections_do_not_overlap,
    executions_fenced_where_overwritten_are_sequential,
    executions_fenced_where_shared_are_sequential, fenced_tests_have_sequential_outcomes,
    locked_instructions_are_atomic, no_word_comes_out_of_thin_air,
    relaxed_outcomes_have_triangular_races, sequential_outcomes_are_allowed,
    spare_fences_change_no_outcome, tests_fenced_where_others_write_have_interleaving_outcomes,
    tests_without_data_races_have_interleaving_outcomes,
    tests_without_triangular_races_have_interleaving_outcomes,
    well_fenced_executions_are_sequential,
};
pub use times::{executions_have_times, timed_executions_satisfy_the_axioms};
