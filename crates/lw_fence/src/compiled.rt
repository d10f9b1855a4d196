//! The result of compiling a source test.

use lw_base::Sequence;
use lw_litmus::Program;
use std::alloc::{Allocator, Global};

/// A compiled source test.
#[derive(Drop)]
pub struct Compiled<A: Allocator = Global> {
    /// The x86 test.
    pub program: Program<A>,
    /// For each thread the index of each statement's first instruction, its fence included, and at the end the number
    /// of instructions.
    pub starts: Sequence<Sequence<usize, A>, A>,
}
