//! The whole machine: the processors and store buffers of lw_tso over the caches of lw_mesi, of each protocol. Its
//! outcomes and replays are those over flat memory. (lw_bench states further laws for readers, such as coherence in
//! every state of every run.)
//! This crate depends on lw_base, on the x86 tests of lw_litmus, and on lw_tso, lw_memory and lw_mesi. It is the
//! lowest crate that names both the machine and the caches. It has no code: `laws` states what the crates above use.
#![tactic(auto)]

mod laws;

pub use laws::{outcomes_over_caches_are_flat, replays_over_caches_are_flat};
