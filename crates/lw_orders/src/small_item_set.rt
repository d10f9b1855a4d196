//! Sets of items below 64.

use crate::item_bits::ItemBits;
use crate::item_set::ItemSet;
use std::marker::Model;

/// A set of items below 64, as the bits of a number.
#[derive(Clone, Copy)]
pub(crate) struct SmallItemSet(u64);

impl Model for SmallItemSet {
    ghost use Rattle.std.specs.Prelude.{ℕ, ◌<◌, ◌^◌};

    ghost Value = { ℕ };

    ghost view = { λ s. s.0 };

    ghost invariant = { λ s. s.0 < 2 ^ 64 };

    ghost inverse = { λ n. record { 0 = n } };
}

impl ItemBits for SmallItemSet {
    ghost number = { λ s. s };

    ghost WIDTH = { 64 };

    const WIDTH: usize = 64;

    /// Returns the set of all items below `len`.
    fn below(len: usize) -> Self {
        if len == Self::WIDTH {
            SmallItemSet(u64::MAX)
        } else {
            SmallItemSet((1 << len) - 1)
        }
    }

    /// Returns the set of one item.
    fn only(item: usize) -> Self {
        SmallItemSet(1 << item)
    }

    /// Returns the lowest item, by counting the zeros below its bit.
    fn lowest(self) -> usize {
        self.0.trailing_zeros() as usize
    }

    /// Returns the set without an item.
    fn without(self, item: usize) -> Self {
        SmallItemSet(self.0 & !(1 << item))
    }

    /// Returns the items of this set that are not among the items of `set` below 64.
    fn without_all(self, set: ItemSet) -> Self {
        SmallItemSet(self.0 & !set.low())
    }

    /// Returns the items of `others` that are in this set or among those of `set` below 64.
    fn with_all_among(self, set: ItemSet, others: Self) -> Self {
        SmallItemSet((self.0 | set.low()) & others.0)
    }

    /// Returns whether this set and the items of `set` below 64 are disjoint.
    fn is_disjoint(self, set: ItemSet) -> bool {
        set.low() & self.0 == 0
    }
}
