//! An x86 test.
ghost use Rattle.lw_litmus.specs.Tests.{test_of};
ghost use Rattle.lw_litmus.specs.TestProps.{IsWellFormed-prop};
ghost use Rattle.lw_litmus.specs.Programs.{x86_language};
ghost use Rattle.lw_litmus.specs.WellFormedTests.{IsWellFormedProgram};

use crate::instr::Instr;
use lw_base::{Head, Sequence};
use std::alloc::{Allocator, Global};

/// An x86 test: its head, and the instructions of each thread. It is well-formed: it has 1 to `MAX_THREADS` threads
/// of at most 32 instructions each, accesses only locations of its table, and jumps only forward, at most to the
/// thread's end.
#[derive(Drop)]
pub struct Program<A: Allocator = Global> {
    pub head: Head<A>,
    pub threads: Sequence<Sequence<Instr, A>, A>,
    pub ghost well_formed: { IsWellFormedProgram (test_of head threads) } by { IsWellFormed-prop x86_language (test_of head threads) },
}
