//! Flow paths of threads, and path assignments. They do not allocate.
ghost use Rattle.std.specs.Prelude.{◌≤◌};
ghost use Rattle.lw_base.specs.Limits.{most_threads};
ghost use Rattle.lw_litmus.specs.Limits.{most_instructions};

use lw_base::MAX_THREADS;
use lw_litmus::MAX_INSTRUCTIONS;

/// The positions of the statements that a thread passes. Its capacity is the maximum length of a thread.
#[derive(Clone, Copy)]
pub struct Path {
    pub(crate) positions: [u8; MAX_INSTRUCTIONS],
    pub(crate) len: u8,
    ghost fits: { len ≤ most_instructions },
}

/// A path for each of the first threads of a program. Its capacity is the maximum number of threads.
#[derive(Clone, Copy)]
pub struct PathAssignment {
    pub(crate) paths: [Path; MAX_THREADS],
    pub(crate) len: u8,
    ghost fits: { len ≤ most_threads },
}
