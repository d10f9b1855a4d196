//! The source language: reading a source test from its frame.
//! This crate depends on lw_base, on the tests of lw_litmus, on the frames of lw_text, and on the reader of
//! lw_statements. docs/FORMAT.md defines what is read. It re-exports the test and its statements from lw_litmus, and
//! its runs from lw_interleaving. Crates above rely on one promise: a `Source` that is read is the test of its frame.
#![tactic(auto)]

mod language;
mod read;

pub use lw_interleaving::{
    SourceRun, Thread, a_step_changes_one_thread, a_step_follows_the_flow,
    independent_steps_commute,
};
pub use lw_litmus::{Source, Stmt};
pub use read::{a_frame_has_one_source, read_source, source_cells_have_one_fault};
