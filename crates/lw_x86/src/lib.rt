//! The x86 language: reading an x86 test from its frame, and its canonical text.
//! This crate depends on lw_base, on the tests of lw_litmus, on the frames of lw_text, and on the reader of
//! lw_statements. docs/FORMAT.md defines what is read and written. It re-exports the test and its instructions from
//! lw_litmus. Crates above rely on one promise: a `Program` that is read is the test of its frame; its canonical
//! text, which `specs/CanonicalTexts.antt` defines, reads back as the same program.
#![tactic(auto)]

mod block;
mod canonical;
mod instruction_text;
mod language;
mod read;
mod rows;
mod separator;

pub use canonical::{a_canonical_text_reads_back, write_program};
pub use lw_litmus::{Instr, MAX_INSTRUCTIONS, Program};
pub use read::{
    a_frame_has_one_program, a_text_has_one_program, read_program, x86_cells_have_one_fault,
};
