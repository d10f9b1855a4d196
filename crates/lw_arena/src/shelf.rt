//! The free list of one size, stored in its own blocks: each begins with a pointer to the next.
ghost use Rattle.std.specs.Prelude.{◌≡◌, ℕ, ◌+◌, ◌≤◌, true, IfSome};
ghost use Rattle.lw_arena.specs.Ownership.{chain};

use crate::block::Block;
use std::marker::Model;
use std::ptr::null_mut;

/// The content of the start of a free block.
#[repr(C)]
struct Node {
    next: *mut Node,
}

/// A list of free blocks, each of `units` units.
#[derive(Drop)]
struct SpareList {
    first: *mut Node,
    ghost units: { ℕ },
    ghost count: { ℕ },
}

impl Model for SpareList {
    ghost also_owns = { λ l. chain l.units l.count l.first };
}

impl SpareList {
    /// Creates an empty list for blocks of `_units` units.
    fn new(_units: usize) -> SpareList
        ensures { (result.units ≡ _units) × (result.count ≡ 0) }
    {
        SpareList { first: null_mut() }
    }

    /// Returns the list with one more block, at its head.
    fn push(self, block: Block) -> SpareList
        requires { (block.units ≡ self.units) × (1 ≤ self.units) }
        ensures { (result.units ≡ self.units) × (result.count ≡ self.count + 1) }
    {
        let SpareList { first } = self;
        let Block { at } = block;
        let node = at as *mut Node;
        unsafe { node.write(Node { next: first }) };
        SpareList { first: node }
    }

    /// Returns the block at the head, and the list of the others.
    fn pop(self) -> (Block, SpareList)
        requires { 1 ≤ self.count }
        ensures { (result.0.units ≡ self.units) × (result.1.units ≡ self.units) × (result.1.count + 1 ≡ self.count) }
    {
        let SpareList { first } = self;
        let next = unsafe { (*first).next };
        (
            Block {
                at: first as *mut u8,
            },
            SpareList { first: next },
        )
    }
}

/// A list of free blocks, with their number and their size in units.
#[derive(Drop)]
pub(crate) struct Shelf {
    units: usize,
    count: usize,
    list: SpareList,
    ghost has_units: { 1 ≤ units },
    ghost list_agrees: { (list.units ≡ units) × (list.count ≡ count) },
}

impl Shelf {
    /// Creates an empty shelf for blocks of `units` units.
    pub(crate) fn new(units: usize) -> Shelf
        requires { 1 ≤ units }
        ensures { result.units ≡ units }
    {
        Shelf {
            units,
            count: 0,
            list: SpareList::new(units),
        }
    }

    /// Returns whether the blocks of this shelf have `units` units. The contract promises nothing of `false`.
    pub(crate) fn is_of(&self, units: usize) -> bool
        ensures { result ≡ true → self.now.units ≡ units }
    {
        self.units == units
    }

    /// Returns the shelf with one more block. No memory holds more blocks than can be counted; one more would be
    /// lost. The contract promises only the size of the blocks: a lost block costs memory, and makes nothing wrong.
    pub(crate) fn put(self, block: Block) -> Shelf
        requires { block.units ≡ self.units }
        ensures { result.units ≡ self.units }
    {
        if self.count == usize::MAX {
            return self;
        }
        let Shelf { units, count, list } = self;
        Shelf {
            units,
            count: count + 1,
            list: list.push(block),
        }
    }

    /// Returns one of its blocks, if there is one, and the shelf without it.
    pub(crate) fn take(self) -> (Option<Block>, Shelf)
        ensures { IfSome result.0 (λ b. b.units ≡ self.units) × (result.1.units ≡ self.units) }
    {
        if self.count == 0 {
            return (None, self);
        }
        let Shelf { units, count, list } = self;
        let (block, list) = list.pop();
        (
            Some(block),
            Shelf {
                units,
                count: count - 1,
                list,
            },
        )
    }
}
