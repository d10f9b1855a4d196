//! Caches that snoop on an atomic bus, over one memory: by the MESI protocol and by the MOESI protocol.
//! This crate depends only on lw_base, lw_memory and std.
#![tactic(auto)]

mod cache_line;
mod caches;
mod cpu_set;
mod laws;
mod protocol;

pub use caches::{Mesi, Moesi, SnoopingCaches};
pub use laws::{empty_caches_are_coherent, requests_preserve_coherence};
pub use protocol::{MesiProtocol, MoesiProtocol, Protocol, ProtocolType};
