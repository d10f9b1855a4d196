//! The workbench: from the bytes of a test to the bytes of an output. `answer` does this in memory; the runs do it
//! between devices.
//! This crate depends on both wings. Of the crates that read tests it uses lw_text for frames and their faults,
//! lw_statements for the meaning of a cell's fault, and lw_source and lw_x86 for reading tests and for the canonical
//! text. Of the crates of the semantics it uses lw_base; lw_litmus for tests, lw_interleaving for runs of source
//! tests, lw_fence for the compiler, and lw_tso for the machine, over the caches of lw_mesi, which are a memory
//! system of lw_memory; lw_tso_caches for the law that an x86 test has the same outcomes over caches as over flat
//! memory; lw_finals for complete lists, lw_outcome_map for a list and lw_paths for why there is none; and lw_report
//! for states, reports and lists of schedules. Its tests are in lw_run_tests.
#![tactic(auto)]

mod cache_laws;
mod command;
mod compile;
mod device;
mod ending;
mod fault;
mod fence_laws;
mod films;
mod input;
mod laws;
mod lists;
mod litmus_test;
mod output;
mod page;
mod render;
mod replay;
mod run;
mod whole_command;

pub use cache_laws::{
    caches_are_coherent_in_every_run, every_run_over_caches_ends, protocols_have_the_same_outcomes,
};
pub use command::{Task, command_of};
pub use device::{ByteReader, ByteWriter, Failed, FromRead, ToWrite};
pub use ending::{Ending, Line, refusal_of};
pub use fault::{
    BenchFault, end_status, fault_line, memory_line, status_of, success_status, usage_line,
    usage_status,
};
pub use fence_laws::{
    fences_only_remove_outcomes_over_caches, more_fences_have_no_more_outcomes,
    no_fence_is_needed_if_no_store_waits, store_buffering_is_forbidden_with_fences,
};
pub use films::film;
pub use input::read_input;
pub use laws::{
    a_source_has_one_compiled_program, a_text_has_one_report,
    compiled_programs_have_their_sources_outcomes,
    compiled_programs_have_their_sources_outcomes_over_every_memory,
    compiled_texts_have_their_sources_outcomes, every_test_has_an_outcome,
    every_test_has_its_program, interleaving_outcomes_need_no_fences,
    message_passing_is_forbidden_on_x86, outcomes_of_texts_do_not_depend_on_the_protocol,
    store_buffering_is_allowed_on_x86, store_buffering_is_forbidden_by_interleaving,
    tests_of_texts_are_well_formed, the_text_of_store_buffering_has_this_report,
};
pub use lists::{
    list_outcomes, list_test, marks_of_listing, report_of_listing, schedules_of_listing,
};
pub use litmus_test::{
    LitmusTest, a_text_has_one_cell_fault, a_text_has_one_fault, a_text_has_one_test, read_test,
};
pub use lw_base::End;
pub use lw_mesi::Protocol;
pub use output::write_output;
pub use render::answer;
pub use run::{carry_out, compile_text, replay_text, schedules_text, states};
pub use whole_command::{read_for, run_command, texts_of};
