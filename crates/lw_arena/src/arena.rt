//! The allocator: lent memory that is not cut into blocks yet, and a list of free blocks for each size.
ghost use Rattle.std.specs.Prelude.{◌≡◌, ◌^◌, ◌<◌, ◌≤◌, IfSome};
ghost use Rattle.lw_arena.specs.Sizes.{block_units};
ghost use Rattle.lw_arena.specs.Ownership.{block_token};

use crate::block::{Block, Memory};
use crate::shelf::Shelf;
use crate::sizes::{CLASSES, UNIT, class_units, size_class};
use std::alloc::{AllocError, Allocator};
use std::array;
use std::cell::Cell;

/// An allocator over lent memory. A collection holds a `&` to it.
#[derive(Drop)]
pub struct Arena {
    /// The lent memory that is not cut into blocks yet. `None` only while a call uses it.
    rest: Cell<Option<Memory>>,
    /// The free list of each class; `None` before a block of the class is freed, and while a call uses the list.
    shelves: [Cell<Option<Shelf>>; CLASSES],
}

impl Arena {
    /// Creates an allocator over this memory. What it holds is in cells, so a contract cannot speak of it.
    pub fn new(memory: Memory) -> Arena {
        Arena {
            rest: Cell::new(Some(memory)),
            shelves: array::from_fn(|_| Cell::new(None)),
        }
    }

    /// Returns a block of at least `size` bytes: a free one, or one that is cut off the lent memory. Returns `None`
    /// if there is none, or if more is requested than a block can have.
    fn take(&self, size: usize, align: usize) -> Option<Block>
        ensures { IfSome result (λ b. (b.units ≡ block_units size) × (size < 2 ^ 63) × (align ≤ 16)) }
    {
        if UNIT < align || (isize::MAX as usize) < size {
            return None;
        }
        let class = size_class(size);
        let units = class_units(class);
        match self.take_spare(class, units) {
            Some(block) => Some(block),
            None => self.take_new(units),
        }
    }

    /// Returns a free block of this class, if there is one. `units` is the size of the class's blocks.
    fn take_spare(&self, class: usize, units: usize) -> Option<Block>
        ensures { IfSome result (λ b. b.units ≡ units) }
    {
        let place = self.shelves.get(class)?;
        let shelf = place.replace(None)?;
        // A shelf of this class always has blocks of these units; it is tested since no contract says what a cell holds.
        if !shelf.is_of(units) {
            place.set(Some(shelf));
            return None;
        }
        let (block, shelf) = shelf.take();
        place.set(Some(shelf));
        block
    }

    /// Cuts a block of `units` units off the memory that is not cut yet.
    fn take_new(&self, units: usize) -> Option<Block>
        requires { (1 ≤ units) × (units < 2 ^ 60) }
        ensures { IfSome result (λ b. b.units ≡ units) }
    {
        match self.rest.replace(None)?.take(units) {
            Ok((block, rest)) => {
                self.rest.set(Some(rest));
                Some(block)
            }
            Err(rest) => {
                self.rest.set(Some(rest));
                None
            }
        }
    }

    /// Frees the block of an allocation of `size` bytes: inserts it into the free list of its size.
    fn give(&self, block: Block, size: usize)
        requires { (block.units ≡ block_units size) × (size < 2 ^ 63) }
    {
        let class = size_class(size);
        let units = class_units(class);
        if let Some(place) = self.shelves.get(class) {
            let shelf = match place.replace(None) {
                Some(shelf) => shelf,
                None => Shelf::new(units),
            };
            if shelf.is_of(units) {
                place.set(Some(shelf.put(block)));
            }
        }
    }
}

unsafe impl Allocator for Arena {
    ghost dealloc_token = { λ _. block_token };

    /// Allocates a block with room for `size` bytes. Fails if none is left.
    fn allocate(&self, size: usize, align: usize) -> Result<*mut u8, AllocError> {
        match self.take(size, align) {
            Some(Block { at }) => Ok(at),
            None => Err(AllocError),
        }
    }

    unsafe fn deallocate(&self, ptr: *mut u8, size: usize, _align: usize) {
        self.give(Block { at: ptr }, size);
    }
}
