//! The list type of the workbench. A contract sees it as the list of its items.
ghost use Rattle.std.specs.Prelude.{◌≡◌, [], ◌∷◌, ◌++◌, ◌<◌, ◌==◌, length, slice_get, slice_set, IfOk, IfErr, OnOk, OnErr, option_copied};
ghost use Rattle.std.specs.Cmp.Lexicographic.{pointwise, slice_cmp, slice_partial_cmp, lists_equiv, lists_agrees, lists_total, lists_ties, lists_po, lists_per};
ghost use Rattle.std.specs.Hash as hash;
ghost use Rattle.std.specs.Hash.{items_Alike};

use std::alloc::{AllocError, AllocFailed, Allocator, Global};
use std::cmp::Ordering;
use std::hash::{Hash, Hasher};
use std::marker::Model;

/// A list that owns its items, in memory of the allocator passed to `new`.
#[derive(Drop)]
pub struct Sequence<T, A: Allocator = Global> {
    items: Vec<T, A>,
}

impl<T, A: Allocator> Model for Sequence<T, A> {
    ghost use Rattle.std.specs.Prelude.{List};

    ghost Value = { List T };

    ghost view = { λ s. s.items.items };
}

impl<T, A: Allocator> Sequence<T, A> {
    /// Creates an empty list. Does not allocate.
    pub fn new(alloc: A) -> Self
        ensures { result ≡ [] }
    {
        Sequence {
            items: Vec::new(alloc),
        }
    }

    /// Returns the number of items.
    pub fn len(&self) -> usize
        ensures { result ≡ length self.now }
    {
        self.items.len()
    }

    /// Returns whether the list is empty.
    pub fn is_empty(&self) -> bool
        ensures { result ≡ (length self.now == 0) }
    {
        self.items.is_empty()
    }

    /// Borrows the items as a slice.
    pub fn as_slice(&self) -> &[T]
        ensures { result.now ≡ self.now }
    {
        self.items.as_slice()
    }

    /// Returns the item at an index, or `None` past the end.
    pub fn get(&self, index: usize) -> Option<&T>
        ensures { option_copied result ≡ slice_get self.now index }
    {
        self.items.get(index)
    }

    /// Appends an item. If memory runs out, the error returns the item, and the list is unchanged.
    pub fn push(&mut self, item: T) -> Result<(), AllocFailed<T>>
        ensures ok { OnOk result (self.new ≡ self.old ++ item ∷ []) }
        ensures value_returned { IfErr result (λ e. e.value ≡ item) }
        ensures err { OnErr result (self.new ≡ self.old) }
    {
        self.items.push(item)
    }

    /// Converts the list into a `Vec`. Does not allocate.
    pub fn into_vec(self) -> Vec<T, A>
        ensures { result.items ≡ self }
    {
        self.items
    }

    /// Returns the allocator that holds the items.
    pub fn allocator(&self) -> &A {
        self.items.allocator()
    }
}

/// Converts a `Vec` into a list. Does not allocate.
impl<T, A: Allocator> From<Vec<T, A>> for Sequence<T, A> {
    ghost from_gives = { λ items sequence. sequence ≡ items.items };

    /// Converts a `Vec` into a list of its items.
    fn from(items: Vec<T, A>) -> Sequence<T, A> {
        Sequence { items }
    }
}

impl<T: Copy, A: Allocator> Sequence<T, A> {
    /// Copies the items of a slice into a new list. Fails only if memory runs out.
    pub fn from_slice(alloc: A, items: &[T]) -> Result<Self, AllocError>
        ensures { IfOk result (λ s. s ≡ items.now) }
    {
        Ok(Sequence {
            items: Vec::from_slice(alloc, items)?,
        })
    }

    /// Copies the list, with the same allocator. Fails only if memory runs out.
    pub fn copy(&self) -> Result<Self, AllocError>
    where
        A: Copy,
        ensures { IfOk result (λ s. s ≡ self.now) }
    {
        Sequence::from_slice(*self.items.allocator(), self.items.as_slice())
    }

    /// Replaces the item at an index.
    pub fn set(&mut self, index: usize, item: T)
        requires { index < length self.old }
        ensures { self.new ≡ slice_set self.old index item }
    {
        self.items[index] = item;
    }

    /// Overwrites all items with those of a slice of the same length. Does not allocate.
    pub fn copy_from(&mut self, items: &[T])
        requires { length items.now ≡ length self.old }
        ensures { self.new ≡ items.now }
    {
        self.items.as_mut_slice().copy_from_slice(items);
    }
}

impl<T: PartialEq, A: Allocator> PartialEq for Sequence<T, A> {
    ghost eq = { pointwise T.eq };

    ghost laws = { lists_per T.laws };

    /// Returns whether two lists have equal items.
    fn eq(&self, other: &Self) -> bool {
        self.items == other.items
    }
}

impl<T: Eq, A: Allocator> Eq for Sequence<T, A> {
    ghost laws = { lists_equiv T.Eq.laws };
}

impl<T: PartialOrd, A: Allocator> PartialOrd for Sequence<T, A> {
    ghost partial_cmp = { slice_partial_cmp T.partial_cmp };

    ghost laws = { lists_po T.PartialOrd.laws };

    /// Compares two lists lexicographically. Returns `None` if the first items that differ are not comparable.
    fn partial_cmp(&self, other: &Self) -> Option<Ordering> {
        self.items.partial_cmp(&other.items)
    }
}

impl<T: Ord, A: Allocator> Ord for Sequence<T, A> {
    ghost cmp = { slice_cmp T.cmp };

    ghost total = { lists_total T.total };

    ghost matches_partial_cmp = { lists_agrees T.matches_partial_cmp };

    ghost matches_eq = { lists_ties T.cmp T.matches_eq };

    /// Compares two lists lexicographically.
    fn cmp(&self, other: &Self) -> Ordering {
        self.items.cmp(&other.items)
    }
}

impl<T: Hash, A: Allocator> Hash for Sequence<T, A> {
    ghost hash_input = { hash.slice T.hash_input };

    ghost respects_eq = { (items_Alike (record { fed = T.respects_eq })).fed };

    /// Feeds the items to a hasher.
    fn hash<H: Hasher>(&self, state: &mut H) {
        self.items.hash(state);
    }
}
