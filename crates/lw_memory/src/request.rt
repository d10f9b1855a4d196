//! Requests of processors to a memory system.

use lw_base::{Change, Cpu, Loc, Word};

/// A request of a processor to the memory system.
#[derive(Clone, Copy)]
pub enum Request {
    /// Accesses the location through the processor's cache.
    Ask(Cpu, Loc, Access),
    /// Evicts the location from the processor's cache.
    Evict(Cpu, Loc),
}

/// An access to a location.
#[derive(Clone, Copy)]
pub enum Access {
    /// Loads its word.
    Load,
    /// Stores a new word.
    Store(Word),
    /// Atomically loads its word and changes it.
    Update(Change),
}
