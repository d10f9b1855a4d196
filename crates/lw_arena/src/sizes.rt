//! The sizes of blocks: a power of two of units, whose exponent is the block's class.
ghost use Rattle.std.specs.Prelude.{◌≡◌, ◌*◌, ◌^◌, ◌<◌, ◌≤◌};
ghost use Rattle.lw_arena.specs.Sizes.{block_class};

/// The size of a unit in bytes, to which each block is aligned.
pub(crate) const UNIT: usize = 16;

/// The number of classes of blocks. A block of the last class is larger than any that can be requested.
pub(crate) const CLASSES: usize = 60;

/// Returns the class of the block for `size` bytes.
pub(crate) fn size_class(size: usize) -> usize
    requires { size < 2 ^ 63 }
    ensures class { result ≡ block_class size }
    ensures bound { result < 60 }
{
    let before_last = (size.max(1) - 1) / UNIT;
    (usize::BITS - before_last.leading_zeros()) as usize
}

/// Returns the number of units of a block of this class.
pub(crate) fn class_units(class: usize) -> usize
    requires { class < 60 }
    ensures units { result ≡ 2 ^ class }
    ensures some { 1 ≤ result }
    ensures bound { result ≤ 2 ^ 59 }
{
    1 << class
}
