//! Unused memory: blocks, and lent memory that is not cut into blocks yet.
ghost use Rattle.std.specs.Prelude.{◌≡◌, ℕ, ◌+◌, ◌/◌, ◌^◌, ◌<◌, ◌≤◌, IfOk, IfSome};
ghost use Rattle.lw_arena.specs.Ownership.{memory};

use crate::sizes::UNIT;
use std::alloc::Allocator;
use std::marker::Model;

/// Units of memory at a pointer, owned by nobody else. They are aligned to 16 bytes.
#[repr(C)]
#[derive(Drop)]
pub struct Block {
    pub(crate) at: *mut u8,
    ghost units: { ℕ },
}

impl Model for Block {
    ghost also_owns = { λ b. memory b.units b.at };
}

impl Block {
    /// Takes `units` units from another allocator, which never gets them back. For callers with an allocator, such as
    /// tests.
    fn kept<A: Allocator>(alloc: &A, units: usize) -> Option<Block>
        requires { units < 2 ^ 59 }
        ensures { IfSome result (λ b. b.units ≡ units) }
    {
        match alloc.allocate(units * UNIT, UNIT) {
            Ok(at) => Some(Block { at }),
            Err(_) => None,
        }
    }

    /// Cuts the block in two: its first `units` units, and the rest.
    pub(crate) fn cut(self, units: usize) -> (Block, Block)
        requires { (1 ≤ units) × (units ≤ self.units) × (units < 2 ^ 60) }
        ensures { (result.0.units ≡ units) × (result.1.units + units ≡ self.units) }
    {
        let Block { at } = self;
        let behind = unsafe { at.add(units * UNIT) };
        (Block { at }, Block { at: behind })
    }
}

/// Lent memory, and its size in bytes. Bytes beyond the last whole unit are not used. The pointer may be null if
/// there are fewer than 16 bytes.
#[repr(C)]
#[derive(Drop)]
pub struct Memory {
    block: Block,
    size: usize,
    ghost whole: { block.units ≡ size / 16 },
}

impl Memory {
    /// Takes `size` bytes from another allocator, which never gets them back, to lend them to an arena. For callers
    /// with an allocator, such as tests.
    pub fn kept<A: Allocator>(alloc: &A, size: usize) -> Option<Memory>
        ensures { IfSome result (λ m. (m.size ≡ size) × (size < 2 ^ 63)) }
    {
        if (isize::MAX as usize) < size {
            return None;
        }
        let block = Block::kept(alloc, size / UNIT)?;
        Some(Memory { block, size })
    }

    /// Cuts a block of `units` units off the start, and returns it with the rest. Returns all of the memory as an
    /// error if it is smaller.
    pub(crate) fn take(self, units: usize) -> Result<(Block, Memory), Memory>
        requires { (1 ≤ units) × (units < 2 ^ 60) }
        ensures { IfOk result (λ r. r.0.units ≡ units) }
    {
        if self.size / UNIT < units {
            return Err(self);
        }
        let Memory { block, size } = self;
        let (front, rest) = block.cut(units);
        Ok((
            front,
            Memory {
                block: rest,
                size: size - units * UNIT,
            },
        ))
    }
}
