//! The outcomes found, without duplicates, each with what is kept for it: a schedule, or nothing.
ghost use Rattle.std.specs.Prelude.{◌≡◌, ◌↔◌, [], ◌∷◌, ◌++◌, ◌<◌, ◌==◌, ℕ, length, OnOk, OnErr, IfOk, IsTrue, MatchOption, Contains, Some, slice_get};
ghost use Rattle.std.specs.Prelude.{IsPermutation, IsSorted};
ghost use Rattle.lw_base.specs.Outcomes.{FinalState, final_state_cmp};
ghost use Rattle.lw_outcome_map.specs.Listings.{OutcomeEntries, outcomes_of, schedules_of, IsStrictlySorted};

use indexmap::IndexMap;
use lw_base::{Event, Outcome, Sequence};
use std::alloc::{AllocError, Allocator, Global};
use std::cmp::Ordering;
use std::hash::{BuildHasherDefault, FoldHasher};
use std::marker::Model;

/// A value for each outcome.
type ValueByOutcome<A, K> = IndexMap<Outcome<A>, K, BuildHasherDefault<FoldHasher>, A>;

/// Outcomes, each with a value of type `K`, in the order in which they were found.
/// A contract sees the list of the pairs.
#[derive(Drop)]
pub struct OutcomeMap<A: Allocator = Global, K = Sequence<Event, A>> {
    found: ValueByOutcome<A, K>,
}

impl<A: Allocator, K> Model for OutcomeMap<A, K> {
    ghost use Rattle.lw_outcome_map.specs.Listings.{OutcomesWith};

    ghost Value = { OutcomesWith K };

    ghost view = { λ f. f.found.entries };
}

impl<A: Allocator + Copy, K> OutcomeMap<A, K> {
    /// Creates an empty map. Does not allocate.
    pub fn new(alloc: A) -> Self
        ensures { result ≡ [] }
    {
        OutcomeMap {
            found: IndexMap::new(alloc),
        }
    }
}

impl<A: Allocator, K: Drop> OutcomeMap<A, K> {
    /// Returns whether the map has this outcome. Does not allocate.
    pub fn contains(&self, outcome: &Outcome<A>) -> bool
        ensures { IsTrue result ↔ Contains (outcomes_of self.now) outcome.now }
    {
        self.found.contains_key(outcome)
    }

    /// Inserts an outcome that is not in the map, with its value. If memory runs out, the map is unchanged.
    pub fn insert_new(&mut self, outcome: Outcome<A>, kept: K) -> Result<(), AllocError>
        requires { ¬ Contains (outcomes_of self.old) outcome }
        ensures inserted { OnOk result (self.new ≡ self.old ++ (outcome, kept) ∷ []) }
        ensures err { OnErr result (self.new ≡ self.old) }
    {
        self.found.insert(outcome, kept)?;
        Ok(())
    }

    /// Sorts the outcomes, each with its value, into a listing. Fails only if memory runs out.
    pub fn into_listing(self) -> Result<Listing<A, K>, AllocError>
    where
        A: Copy,
        ensures same { IfOk result (λ listing. IsPermutation self listing) }
        ensures sorted { IfOk result (λ listing. IsStrictlySorted listing) }
    {
        let alloc = *self.found.allocator();
        let mut entries = Vec::with_capacity(alloc, self.found.len())?;
        entries.extend(self.found)?;
        sort_by_outcome(&mut entries);
        Ok(Listing { entries })
    }
}

/// Sorts entries by their outcomes.
fn sort_by_outcome<A: Allocator, K>(entries: &mut Vec<(Outcome<A>, K), A>)
    ensures same { IsPermutation entries.old.items entries.new.items }
    ensures sorted { IsSorted final_state_cmp (outcomes_of entries.new.items) }
{
    entries.sort_unstable_by(
        |first, second| -> Ordering
            ensures { result ≡ final_state_cmp first.now.0 second.now.0 }
        { first.0.cmp(&second.0) },
    );
}

/// The outcomes found, sorted, without duplicates, each with a value of type `K`: a schedule, unless another type is
/// named. A contract sees the list of the pairs.
#[derive(Drop)]
pub struct Listing<A: Allocator = Global, K = Sequence<Event, A>> {
    entries: Vec<(Outcome<A>, K), A>,
}

/// The outcomes found, sorted, without duplicates and without schedules.
pub type OutcomeList<A = Global> = Listing<A, ()>;

impl<A: Allocator, K> Model for Listing<A, K> {
    ghost use Rattle.lw_outcome_map.specs.Listings.{OutcomesWith, IsStrictlySorted};

    ghost Value = { OutcomesWith K };

    ghost view = { λ l. l.entries.items };

    ghost invariant = { λ l. IsStrictlySorted l.entries.items };
}

impl<A: Allocator, K> Listing<A, K> {
    /// Returns the number of outcomes.
    pub fn len(&self) -> usize
        ensures number { result ≡ length self.now }
        // Every listing is strictly sorted.
        ensures sorted { IsStrictlySorted self.now }
    {
        self.entries.len()
    }

    /// Returns whether the listing has no outcome.
    pub fn is_empty(&self) -> bool
        ensures { result ≡ (length self.now == 0) }
    {
        self.entries.is_empty()
    }

    /// Returns the outcome at an index.
    pub fn outcome(&self, index: usize) -> &Outcome<A>
        requires { index < length self.now }
        ensures { slice_get (outcomes_of self.now) index ≡ Some result.now }
    {
        &self.entries[index].0
    }

    /// Returns the index of an outcome, or `None` if it is not listed.
    pub fn find(&self, outcome: &Outcome<A>) -> Option<usize>
        ensures { MatchOption result
            (¬ Contains (outcomes_of self.now) outcome.now)
            (λ index. slice_get (outcomes_of self.now) index ≡ Some outcome.now) }
    {
        self.entries
            .binary_search_by(
                |entry| -> Ordering
                    ensures { result ≡ final_state_cmp entry.now.0 outcome.entry.now }
                { entry.0.cmp(outcome) },
            )
            .ok()
    }
}

impl<A: Allocator, K: Drop> Listing<A, K> {
    /// Makes a listing of outcomes with values, in any order. Of several entries with one outcome it has one.
    pub fn from_entries(entries: Vec<(Outcome<A>, K), A>) -> Self
        ensures from { (entry : FinalState × K) → Contains result entry → Contains entries.items entry }
        ensures complete { (outcome : FinalState) → Contains (outcomes_of entries.items) outcome → Contains (outcomes_of result) outcome }
        ensures sorted { IsStrictlySorted result }
    {
        let mut sorted = entries;
        sort_by_outcome(&mut sorted);
        sorted.dedup_by(|later, first| later.0 == first.0);
        Listing { entries: sorted }
    }
}

impl<A: Allocator> Listing<A> {
    /// Returns the schedule of the outcome at an index.
    pub fn schedule(&self, index: usize) -> &[Event]
        requires { index < length self.now }
        ensures { slice_get (schedules_of self.now) index ≡ Some result.now }
    {
        self.entries[index].1.as_slice()
    }
}

/// States that in a strictly sorted list with schedules an outcome is at one index only: the outcomes are distinct.
pub fn outcomes_are_distinct()
    ensures { (entries : OutcomeEntries) (i j : ℕ) (outcome : FinalState) → IsStrictlySorted entries
        → slice_get (outcomes_of entries) i ≡ Some outcome → slice_get (outcomes_of entries) j ≡ Some outcome → i ≡ j }
{}
