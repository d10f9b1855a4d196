//! The compiler from the source language to x86: each statement is lowered to its instructions, with a fence before
//! each load that needs one, and before no other.
//! This crate depends on lw_base, on the tests of both languages in lw_litmus, and on the runs of source tests in
//! lw_interleaving. Its contracts name the outcomes of lw_tso over the flat memory of lw_memory.
//! `specs/Compiling.antt` and docs/FORMAT.md define the result. Crates above rely on one promise: `compile` returns a
//! well-formed program with the source's outcomes.
#![tactic(auto)]

mod compiled;
mod compiler;
mod fences;
mod lowered;
mod lowering;
mod schedule;
mod starts;

pub use compiled::Compiled;
pub use compiler::compile;
pub use schedule::{push_next, schedule_of, schedules_replay};
