//! Sets of items of two widths: in most tests all items fit into 64 bits.

ghost use Rattle.std.specs.Prelude.{◌≡◌, ℕ, ◌^◌, ◌<◌, ◌≤◌, ◌==◌, ◌&&◌, ◌||◌, false, true, not, nat_lt};
ghost use Rattle.lw_orders.specs.Limits.{most_items};
ghost use Rattle.lw_orders.specs.inner.Sets.{has, are_disjoint};

use crate::item_set::ItemSet;

/// A set of items below `WIDTH`. Operations with a wider set use only its items below `WIDTH`.
pub(crate) trait ItemBits: Copy {
    /// The number whose bits are the items.
    ghost number: { Self → ℕ };

    /// `WIDTH`, for the contracts.
    ghost WIDTH: { ℕ };

    /// The bound of the items.
    const WIDTH: usize;

    /// Returns the set of all items below `len`.
    fn below(len: usize) -> Self
        requires { len ≤ WIDTH }
        ensures items { (k : ℕ) → k < most_items → has (number result) k ≡ nat_lt k len }
        ensures fits { number result < 2 ^ most_items };

    /// Returns the set of one item.
    fn only(item: usize) -> Self
        requires { item < WIDTH }
        ensures { number result ≡ 2 ^ item };

    /// Returns the lowest item, or `WIDTH` if the set is empty.
    fn lowest(self) -> usize
        ensures below { (k : ℕ) → k < result → has (number self) k ≡ false }
        ensures found { result < WIDTH → has (number self) result ≡ true };

    /// Returns the set without an item.
    fn without(self, item: usize) -> Self
        requires { item < WIDTH }
        ensures items { (k : ℕ) → k < most_items → has (number result) k ≡ (not (k == item) && has (number self) k) }
        ensures fits { number result < 2 ^ most_items };

    /// Returns the items of this set that are not in the other.
    fn without_all(self, set: ItemSet) -> Self
        ensures { (k : ℕ) → k < most_items → has (number result) k ≡ (has (number self) k && not (has set k)) };

    /// Returns the items of `others` that are in this set or in `set`.
    fn with_all_among(self, set: ItemSet, others: Self) -> Self
        ensures { (k : ℕ) → k < most_items
            → has (number result) k ≡ ((has (number self) k || has set k) && has (number others) k) };

    /// Returns whether the two sets are disjoint.
    fn is_disjoint(self, set: ItemSet) -> bool
        ensures { result ≡ are_disjoint set (number self) };
}
