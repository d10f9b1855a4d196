//! Graphs of items as tables of sets: predecessors, successors, neighbours.

ghost use Rattle.std.specs.Prelude.{◌≡◌, ℕ, ◌<◌, ◌≤◌, ◌==◌, ◌&&◌, ◌||◌, List, [], ◌++◌, length, slice_index, slice_index_or};
ghost use Rattle.lw_orders.specs.Limits.{most_items};
ghost use Rattle.lw_orders.specs.Sequence.{AreInRange};
ghost use Rattle.lw_orders.specs.inner.Sets.{has, has_edge, ArePredecessors, EdgesAreIn, AreNeighbours};

use crate::item_set::ItemSet;
use crate::limits::MAX_ITEMS;

/// A set for each item.
pub(crate) type SetOfEach = [ItemSet; MAX_ITEMS];

/// The predecessors of each item.
pub(crate) type Predecessors = SetOfEach;

/// The successors of each item.
pub(crate) type Successors = SetOfEach;

/// Returns the set of an item from such a table.
pub(crate) fn set_of(sets: &SetOfEach, item: usize) -> ItemSet
    requires { item < most_items }
    ensures { result ≡ slice_index sets.now item }
{
    sets[item]
}

/// Returns the predecessors of each item along the pairs.
pub(crate) fn predecessors_of(pairs: &[(u8, u8)]) -> Predecessors
    requires { AreInRange most_items pairs.now }
    ensures { ArePredecessors most_items pairs.now result }
{
    let mut sets = [ItemSet::empty(); MAX_ITEMS];
    add_predecessors(&mut sets, pairs);
    sets
}

/// Returns the successors of each item along the pairs.
pub(crate) fn successors_of(pairs: &[(u8, u8)]) -> Successors
    requires { AreInRange most_items pairs.now }
    ensures { (i j : ℕ) → i < most_items → j < most_items → has (slice_index result i) j ≡ has_edge pairs.now i j }
{
    let mut sets = [ItemSet::empty(); MAX_ITEMS];
    add_successors(&mut sets, pairs);
    sets
}

/// Returns the neighbours of each item: its successors along the preserved pairs, and the items with which it is in
/// an unordered pair. However the unordered pairs are oriented, an item's successors are among its neighbours, so one table serves the whole
/// search.
pub(crate) fn neighbours_of(preserved: &[(u8, u8)], unordered: &[(u8, u8)]) -> SetOfEach
    requires preserved { AreInRange most_items preserved.now }
    requires unordered { AreInRange most_items unordered.now }
    ensures preserved { EdgesAreIn preserved.now result }
    ensures unordered { AreNeighbours unordered.now result }
{
    let mut neighbours = [ItemSet::empty(); MAX_ITEMS];
    add_successors(&mut neighbours, preserved);
    add_successors(&mut neighbours, unordered);
    add_predecessors(&mut neighbours, unordered);
    neighbours
}

/// Inserts the first item of each pair into the set of its second.
fn add_predecessors(sets: &mut SetOfEach, pairs: &[(u8, u8)])
    requires { AreInRange most_items pairs.now }
    ensures { (i j : ℕ) → i < most_items → j < most_items →
        has (slice_index sets.new i) j ≡ (has (slice_index sets.old i) j || has_edge pairs.now j i) }
{
    for pair in pairs {
        insert_into(sets, pair.1 as usize, pair.0 as usize);
    }
}

/// Inserts the second item of each pair into the set of its first.
fn add_successors(sets: &mut SetOfEach, pairs: &[(u8, u8)])
    requires { AreInRange most_items pairs.now }
    ensures { (i j : ℕ) → i < most_items → j < most_items →
        has (slice_index sets.new i) j ≡ (has (slice_index sets.old i) j || has_edge pairs.now i j) }
{
    for pair in pairs {
        insert_into(sets, pair.0 as usize, pair.1 as usize);
    }
}

/// Inserts `item` into the set of `at`.
fn insert_into(sets: &mut SetOfEach, at: usize, item: usize)
    requires at { at < most_items }
    requires item { item < most_items }
    ensures { (i j : ℕ) → i < most_items → j < most_items →
        has (slice_index sets.new i) j ≡ (has (slice_index sets.old i) j || ((item == j) && (at == i))) }
{
    sets[at] = set_of(sets, at).with(item);
}

/// Fills the second table with the predecessors along the preserved and the chosen pairs. The first table, which is
/// unchanged, has those along the preserved pairs.
pub(crate) fn fill_next_predecessors(len: usize, tables: &mut [Predecessors], chosen: &[(u8, u8)])
    requires bounded { len ≤ most_items }
    requires two { length tables.old ≡ 2 }
    requires chosen_within { AreInRange len chosen.now }
    ensures kept { slice_index_or tables.new 0 [] ≡ slice_index_or tables.old 0 [] }
    ensures filled { (preserved : List (ℕ × ℕ)) → ArePredecessors most_items preserved (slice_index_or tables.old 0 [])
        → ArePredecessors len (preserved ++ chosen.now) (slice_index_or tables.new 1 []) }
{
    let (before, room) = tables.split_at_mut(1);
    fill_predecessors(len, &before[0], &mut room[0], chosen);
}

/// Fills the sets of the first `len` items with their predecessors: those in `before`, and those along the chosen pairs.
/// Overwrites what these sets held, and leaves the others as they are.
fn fill_predecessors(
    len: usize,
    before: &Predecessors,
    sets: &mut Predecessors,
    chosen: &[(u8, u8)],
)
    requires bounded { len ≤ most_items }
    requires chosen_within { AreInRange len chosen.now }
    ensures { (preserved : List (ℕ × ℕ)) → ArePredecessors most_items preserved before.now → ArePredecessors len (preserved ++ chosen.now) sets.new }
{
    sets[..len].copy_from_slice(&before[..len]);
    add_predecessors(sets, chosen);
}
