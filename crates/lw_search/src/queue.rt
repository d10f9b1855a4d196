//! A first-in, first-out queue that can be hashed, for store buffers and for the events of a run; and the newest word of a store buffer.
ghost use Rattle.std.specs.Prelude.{◌≡◌, [], ◌∷◌, ◌++◌, ◌==◌, length, drop, take, slice_get, Some, None, if◌then◌else◌, IfOk, OnOk};
ghost use Rattle.std.specs.Option.{option_or};
ghost use Rattle.std.specs.Cmp.Lexicographic.{pointwise, lists_equiv, lists_per};
ghost use Rattle.std.specs.Hash as hash;
ghost use Rattle.std.specs.Hash.{items_Alike};
ghost use Rattle.lw_tso.specs.Processors as processors;

use lw_base::Word;
use std::alloc::{AllocError, Allocator, Global};
use std::hash::{Hash, Hasher};
use std::marker::Model;

/// A first-in, first-out queue.
#[derive(Drop)]
pub(crate) struct Queue<T, A: Allocator = Global> {
    items: Vec<T, A>,
}

impl<T, A: Allocator> Model for Queue<T, A> {
    ghost use Rattle.std.specs.Prelude.{List};

    ghost Value = { List T };

    ghost view = { λ q. q.items.items };
}

impl<T, A: Allocator> Queue<T, A> {
    /// Creates an empty queue. Does not allocate.
    pub(crate) fn new(alloc: A) -> Self
        ensures { result ≡ [] }
    {
        Queue {
            items: Vec::new(alloc),
        }
    }

    /// Returns whether the queue is empty.
    pub(crate) fn is_empty(&self) -> bool
        ensures { result ≡ (length self.now == 0) }
    {
        self.items.is_empty()
    }

    /// Returns the number of items.
    pub(crate) fn len(&self) -> usize
        ensures { result ≡ length self.now }
    {
        self.items.len()
    }

    /// Returns the items, the first to leave first.
    pub(crate) fn as_slice(&self) -> &[T]
        ensures { result.now ≡ self.now }
    {
        self.items.as_slice()
    }
}

impl<T: Copy, A: Allocator> Queue<T, A> {
    /// Appends an item.
    pub(crate) fn push(&mut self, item: T) -> Result<(), AllocError>
        ensures { OnOk result (self.new ≡ self.old ++ item ∷ []) }
    {
        self.items.push(item)?;
        Ok(())
    }

    /// Removes the first item and returns it, or returns `None` if the queue is empty.
    pub(crate) fn pop(&mut self) -> Option<T>
        ensures oldest { result ≡ slice_get self.old 0 }
        ensures entries { self.new ≡ drop 1 self.old }
    {
        if self.items.is_empty() {
            return None;
        }
        Some(self.items.remove(0))
    }

    /// Makes an item the only one, in place of the queue's own.
    pub(crate) fn restart(&mut self, item: T) -> Result<(), AllocError>
        ensures { OnOk result (self.new ≡ item ∷ []) }
    {
        self.items.clear();
        self.items.push(item)?;
        Ok(())
    }

    /// Copies the items of another queue into this one, in place of its own.
    pub(crate) fn copy_from(&mut self, other: &Queue<T, A>) -> Result<(), AllocError>
        ensures { OnOk result (self.new ≡ other.now) }
    {
        self.items.clear();
        self.items.extend_from_slice(other.items.as_slice())?;
        Ok(())
    }

    /// Returns a copy.
    pub(crate) fn copy(&self, alloc: A) -> Result<Self, AllocError>
        ensures { IfOk result (λ q. q ≡ self.now) }
    {
        Ok(Queue {
            items: Vec::from_slice(alloc, self.items.as_slice())?,
        })
    }
}

impl<T: PartialEq, A: Allocator> PartialEq for Queue<T, A> {
    ghost eq = { pointwise T.eq };

    ghost laws = { lists_per T.laws };

    /// Returns whether both have equal items.
    fn eq(&self, other: &Self) -> bool {
        self.items == other.items
    }
}

impl<T: Eq, A: Allocator> Eq for Queue<T, A> {
    ghost laws = { lists_equiv T.Eq.laws };
}

impl<T: Hash, A: Allocator> Hash for Queue<T, A> {
    ghost hash_input = { hash.slice T.hash_input };

    ghost respects_eq = { (items_Alike (record { fed = T.respects_eq })).fed };

    /// Feeds the items to a hasher.
    fn hash<H: Hasher>(&self, state: &mut H) {
        self.items.hash(state);
    }
}

/// Returns the newest word that the entries have for a location, or `None` if they have none.
pub(crate) fn newest_in(entries: &[(u8, Word)], loc: u8) -> Option<Word>
    ensures { result ≡ processors.newest_buffered entries.now loc }
{
    let mut found = None;
    for index in 0..entries.len() {
        found = newer_of(entries[index], loc, found);
    }
    found
}

/// Returns the word of an entry if it is for the location, and `found` otherwise.
fn newer_of(entry: (u8, Word), loc: u8, found: Option<Word>) -> Option<Word>
    ensures { result ≡ option_or (if entry.0 == loc then Some entry.1 else None) found }
{
    let (at, word) = entry;
    if at == loc { Some(word) } else { found }
}
