//! Runs of source tests by interleaving: threads take their steps one at a time, each in program order, on one
//! memory. This is sequential consistency as Lamport defines it. The crate also has the laws of steps.
//! This crate depends on lw_base and lw_litmus. Crates above rely on one promise: a step of a `SourceRun` executes
//! one statement, by the table in `specs/Statements.antt`.
#![tactic(auto)]

mod laws;
mod run;
mod thread;

pub use laws::{a_step_changes_one_thread, a_step_follows_the_flow, independent_steps_commute};
pub use run::SourceRun;
pub use thread::Thread;
