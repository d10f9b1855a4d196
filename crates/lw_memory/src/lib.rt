//! The memory under the store buffers: the interface and the laws of a memory system, and flat memory, which has no
//! caches.
//! This crate depends only on lw_base and std.
#![tactic(auto)]

mod flat;
mod request;
mod system;

pub use flat::FlatMemory;
pub use request::{Access, Request};
pub use system::{LineState, MemorySystem, NotHeld};
