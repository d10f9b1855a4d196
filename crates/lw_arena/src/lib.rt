//! An allocator over lent memory, for programs without another allocator: the workbench as a library allocates only
//! from memory that its caller lends.
//! It cuts blocks off the start of the lent memory. A block is a power of two of units of 16 bytes. A freed block
//! goes to the free list of its size, from which it is reused before anything is cut. So each call takes a few steps,
//! however many blocks there are, and what a growing vector leaves behind is at most what it ends with. Blocks are
//! never merged.
//! A block is memory that nobody else owns. The ghost fields and `also_owns` state this, and it is proved by hand for
//! the few functions that use a pointer. `Arena` meets the contract of `Allocator`, and has no other. When it is
//! dropped, no contract gives the lent memory back; nothing points there any more once the collections over it are
//! gone.
#![tactic(auto)]

mod arena;
mod block;
mod shelf;
mod sizes;

pub use arena::Arena;
pub use block::{Block, Memory};
