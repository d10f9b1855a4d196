//! Store buffers: the words that a processor has stored and that are not in memory yet.
ghost use Rattle.std.specs.Prelude.{◌≡◌, ◌<◌, ◌≤◌, ◌==◌, [], ◌∷◌, ◌++◌, length, drop, slice_get, Some, None, IfOk};
ghost use Rattle.lw_tso.specs.Processors as processors;

use circular_buffer::HeapCircularBuffer;
use lw_base::{Loc, Word};
use std::alloc::{AllocError, Allocator, Global};
use std::marker::Model;

/// The entries of a store buffer, the oldest first, in a ring of fixed capacity. No call after `with_room` allocates.
#[derive(Drop)]
pub(crate) struct StoreBuffer<A: Allocator = Global> {
    ring: HeapCircularBuffer<(Loc, Word), A>,
}

impl<A: Allocator> Model for StoreBuffer<A> {
    ghost use Rattle.std.specs.Prelude.{◌≤◌, length};
    ghost use Rattle.lw_tso.specs.inner.Buffers.{Buffered};

    ghost Value = { Buffered };

    ghost view = { λ b. record { entries = b.ring.items; room = b.ring.capacity } };

    ghost invariant = { λ b. length b.ring.items ≤ b.ring.capacity };
}

impl<A: Allocator> StoreBuffer<A> {
    /// Creates an empty buffer of capacity `room`. Fails only if memory runs out.
    pub(crate) fn with_room(alloc: A, room: usize) -> Result<Self, AllocError>
        ensures { IfOk result (λ b. b ≡ record { entries = []; room = room }) }
    {
        let ring = HeapCircularBuffer::with_capacity(alloc, room)?;
        Ok(StoreBuffer { ring })
    }

    /// Returns the number of entries.
    pub(crate) fn len(&self) -> usize
        ensures { result ≡ length self.now.entries }
    {
        self.ring.len()
    }

    /// Returns whether the buffer is empty.
    pub(crate) fn is_empty(&self) -> bool
        ensures { result ≡ (length self.now.entries == 0) }
    {
        self.ring.is_empty()
    }

    /// Enqueues an entry.
    pub(crate) fn push(&mut self, loc: Loc, word: Word)
        requires { length self.old.entries < self.old.room }
        ensures entries { self.new.entries ≡ self.old.entries ++ (loc, word) ∷ [] }
        ensures room { self.new.room ≡ self.old.room }
    {
        let overwritten = self.ring.push_back((loc, word));
        prove!(overwritten.is_none());
    }

    /// Dequeues and returns the oldest entry. Returns `None` if the buffer is empty.
    pub(crate) fn pop(&mut self) -> Option<(Loc, Word)>
        ensures oldest { result ≡ slice_get self.old.entries 0 }
        ensures entries { self.new.entries ≡ drop 1 self.old.entries }
        ensures room { self.new.room ≡ self.old.room }
    {
        self.ring.pop_front()
    }

    /// Removes all entries.
    pub(crate) fn clear(&mut self)
        ensures { self.new ≡ record { entries = []; room = self.old.room } }
    {
        self.ring.clear();
    }

    /// Returns the entry at an index, counted from the oldest.
    pub(crate) fn entry(&self, index: usize) -> (Loc, Word)
        requires { index < length self.now.entries }
        ensures { slice_get self.now.entries index ≡ Some result }
    {
        *self.ring.get(index).unwrap()
    }

    /// Returns the newest buffered word for a location, if there is one.
    pub(crate) fn newest(&self, loc: Loc) -> Option<Word>
        ensures { result ≡ processors.newest_buffered self.now.entries loc }
    {
        newest_in(&self.ring, loc)
    }
}

/// Returns the newest word for a location in a ring of entries, searching from the newest entry.
fn newest_in<A: Allocator>(ring: &HeapCircularBuffer<(Loc, Word), A>, loc: Loc) -> Option<Word>
    ensures { result ≡ processors.newest_buffered ring.now.items loc }
{
    for index in (0..ring.len()).rev() {
        let (at, word) = *ring.get(index).unwrap();
        if at == loc {
            return Some(word);
        }
    }
    None
}
