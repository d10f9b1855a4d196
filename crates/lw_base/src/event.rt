//! The events of a schedule.

use crate::indices::{Cpu, Loc};

/// An event of the machine, or a step of a source test.
#[derive(Clone, Copy, PartialEq, Eq)]
pub enum Event {
    /// The processor executes its next instruction (or source statement).
    Step(Cpu),
    /// The oldest entry of the processor's store buffer drains to memory.
    Drain(Cpu),
    /// The processor's cache evicts its line of the location.
    Evict(Cpu, Loc),
}
