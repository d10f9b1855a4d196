//! The parts of a test.
use lw_base::{Head, Sequence};
use std::alloc::{Allocator, Global};

/// A test's head, and the statements of each thread.
#[derive(Drop)]
pub struct TestParts<S, A: Allocator = Global> {
    pub head: Head<A>,
    pub threads: Sequence<Sequence<S, A>, A>,
}
