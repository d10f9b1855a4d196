//! Tests of the allocator over lent memory: that a block that is given back is used again, what is refused, and collections over it.
//!
//! It depends only on lw_arena.
#![tactic(auto)]

#[cfg(test)]
mod arenas;
