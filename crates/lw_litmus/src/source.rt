//! A source test.
ghost use Rattle.lw_litmus.specs.Tests.{test_of};
ghost use Rattle.lw_litmus.specs.TestProps.{IsWellFormed-prop};
ghost use Rattle.lw_litmus.specs.Sources.{source_language};
ghost use Rattle.lw_litmus.specs.WellFormedTests.{IsWellFormedSource};

use crate::stmt::Stmt;
use lw_base::{Head, Sequence};
use std::alloc::{Allocator, Global};

/// A source test: its head, and the statements of each thread. It is well-formed: it has 1 to `MAX_THREADS` threads
/// of at most 16 statements each, accesses only locations of its table, and jumps only forward, at most to the
/// thread's end.
#[derive(Drop)]
pub struct Source<A: Allocator = Global> {
    pub head: Head<A>,
    pub threads: Sequence<Sequence<Stmt, A>, A>,
    pub ghost well_formed: { IsWellFormedSource (test_of head threads) } by { IsWellFormed-prop source_language (test_of head threads) },
}
