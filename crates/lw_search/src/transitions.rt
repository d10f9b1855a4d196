//! Transitions of threads, by the numbers of their states, and a cache of them. What an event of a thread does depends on the thread's
//! state and on the memory alone, and what invisible events follow it depends on the conflicts with the other threads; so it is computed
//! once for many states.
ghost use Rattle.std.specs.Prelude.{◌≡◌, ◌⊎◌, [], Some, OnOk};
ghost use Rattle.lw_search.specs.declared.transitions.Successor.{Successor};
ghost use Rattle.lw_search.specs.declared.transitions.Transition.{Transition};
ghost use Rattle.lw_search.specs.inner.Transitions.{Caches};

use crate::accesses::Conflicts;
use crate::run::RunEvent;
use std::alloc::{AllocError, Allocator};
use std::marker::Model;

/// The state of a thread and the memory after an event of the thread and the invisible events that follow it, and the run of these
/// events, each by its number.
#[derive(Clone, Copy)]
pub(crate) struct Successor {
    pub(crate) thread: u32,
    pub(crate) memory: u32,
    pub(crate) run: u32,
}

/// An event of a thread, with the numbers of the thread's state and of the memory before it and with the conflicts with other threads
/// then, and where it leads.
#[derive(Clone, Copy)]
pub(crate) struct Transition {
    pub(crate) event: RunEvent,
    pub(crate) thread: u32,
    pub(crate) memory: u32,
    pub(crate) conflicts: Conflicts,
    pub(crate) next: Successor,
}

/// A cache of transitions. Each has one slot, and replaces the transition that had the slot.
#[derive(Drop)]
pub(crate) struct TransitionCache<A: Allocator> {
    alloc: A,
    slots: Vec<Option<Transition>, A>,
}

impl<A: Allocator> Model for TransitionCache<A> {
    ghost use Rattle.std.specs.Prelude.{List, Option};
    ghost use Rattle.lw_search.specs.declared.transitions.Transition.{Transition};

    ghost Value = { List (Option Transition) };

    ghost view = { λ c. c.slots.items };
}

/// The number of slots of the smallest cache that has any. Like that of each larger cache it is a power of 2.
const LEAST_SLOTS: usize = 4096;

/// The number of slots of the largest cache.
const MOST_SLOTS: usize = 65536;

/// The number of states that a search finds before the cache gets more slots, for each slot that it has.
const STATES_FOR_SLOT: usize = 2;

impl<A: Allocator + Copy> TransitionCache<A> {
    /// Creates a cache without slots. Does not allocate.
    pub(crate) fn new(alloc: A) -> Self
        ensures { result ≡ [] }
    {
        TransitionCache {
            alloc,
            slots: Vec::new(alloc),
        }
    }

    /// Doubles the slots, if a search has found many states for them. A larger cache begins empty.
    pub(crate) fn make_room(&mut self, states: usize) -> Result<(), AllocError>
        ensures { OnOk result ((t : Transition) → Caches self.new t → Caches self.old t) }
    {
        let count = self.slots.len();
        if MOST_SLOTS <= count || states / STATES_FOR_SLOT < count {
            return Ok(());
        }
        let more = if count < LEAST_SLOTS {
            LEAST_SLOTS
        } else {
            count * 2
        };
        self.slots = vec![in self.alloc; None; more]?;
        Ok(())
    }
}

impl<A: Allocator> TransitionCache<A> {
    /// Returns the slot of a transition. No contract depends on it.
    fn slot(&self, event: RunEvent, thread: u32, memory: u32, conflicts: Conflicts) -> usize {
        let threads = thread
            .wrapping_shl(3)
            .wrapping_add(event.code())
            .wrapping_mul(0x9e37_79b1);
        let others = memory
            .wrapping_shl(16)
            .wrapping_add(conflicts.bits())
            .wrapping_add(memory)
            .wrapping_mul(0x85eb_ca6b);
        let both = threads ^ others;
        let mixed = both ^ both.wrapping_shr(16);
        mixed as usize & self.slots.len().wrapping_sub(1)
    }

    /// Returns where an event leads from the numbers of a thread's state and of a memory, given the conflicts of the other threads, if the cache
    /// holds the transition.
    pub(crate) fn get(
        &self,
        event: RunEvent,
        thread: u32,
        memory: u32,
        conflicts: Conflicts,
    ) -> Option<Successor>
        ensures { (next : Successor) → result ≡ Some next
            → Caches self.now (record { event = event; thread = thread; memory = memory; conflicts = conflicts; next = next }) }
    {
        match self
            .slots
            .get(self.slot(event, thread, memory, conflicts))
            .copied()
        {
            Some(Some(found)) => found.next_if_from(event, thread, memory, conflicts),
            _ => None,
        }
    }

    /// Stores a transition, in place of the one that has its slot. Does nothing while the cache has no slots.
    pub(crate) fn insert(&mut self, transition: Transition)
        ensures { (t : Transition) → Caches self.new t → (t ≡ transition) ⊎ Caches self.old t }
    {
        let slot = self.slot(
            transition.event,
            transition.thread,
            transition.memory,
            transition.conflicts,
        );
        if slot < self.slots.len() {
            self.slots[slot] = Some(transition);
        }
    }
}

impl Transition {
    /// Returns where the transition leads, if it is of this event and from these numbers, given the conflicts of the other threads.
    fn next_if_from(
        self,
        event: RunEvent,
        thread: u32,
        memory: u32,
        conflicts: Conflicts,
    ) -> Option<Successor>
        ensures { (next : Successor) → result ≡ Some next
            → self ≡ record { event = event; thread = thread; memory = memory; conflicts = conflicts; next = next } }
    {
        if self.event == event
            && self.thread == thread
            && self.memory == memory
            && self.conflicts.is_same(conflicts)
        {
            return Some(self.next);
        }
        None
    }
}
