//! The states that a search has visited or is to visit, packed, each with the state before it.
ghost use Rattle.std.specs.Prelude.{◌≡◌, ◌<◌, ℕ, Bool, List, [], Some, length, slice_get, option_copied, IfOk, IfSome, OnOk};
ghost use Rattle.lw_search.specs.inner.StateKeys.{InsertsKey, AppendsOrigin, IsPrefix};

use crate::run::Run;
use crate::tables::row_number;
use indexmap::IndexSet;
use std::alloc::{AllocError, Allocator};
use std::hash::{BuildHasherDefault, FoldHasher};
use std::marker::Model;

/// A state: the number of its memory, followed by the numbers of its threads' states, with 0 for each thread that the program lacks.
pub(crate) type StateKey = [u32; 5];

/// How a state was reached.
#[derive(Clone, Copy)]
pub(crate) struct Origin {
    /// The index of the state before. The initial state is its own parent.
    pub(crate) parent: u32,
    /// The number of the run from the state before.
    pub(crate) run: u32,
}

/// The keys of states, without duplicates, in the order in which they were found, each with its origin; and the runs of the origins, each
/// at the index that is its number.
#[derive(Drop)]
pub(crate) struct StateTable<A: Allocator> {
    alloc: A,
    keys: IndexSet<StateKey, BuildHasherDefault<FoldHasher>, A>,
    origins: Vec<Origin, A>,
    runs: IndexSet<Run<A>, BuildHasherDefault<FoldHasher>, A>,
    /// For each first event, by its number, the number of the last run that began with it. Most runs are equal to this one.
    recent: [u32; 8],
}

impl<A: Allocator> Model for StateTable<A> {
    ghost use Rattle.lw_search.specs.inner.StateKeys.{FoundStates};

    ghost Value = { FoundStates };

    ghost view = { λ s. record { keys = s.keys.keys; origins = s.origins.items; runs = s.runs.keys } };
}

/// The number of states for which a new table has room. If more are inserted, all keys are hashed into a larger table.
const INITIAL_STATES: usize = 4096;

/// Returns the number of a run's first event, which is below 8, or 0 if the run is empty.
fn first_event<A: Allocator>(run: &Run<A>) -> usize
    ensures { result < 8 }
{
    match run.as_slice().first() {
        Some(event) => event.code() as usize % 8,
        None => 0,
    }
}

impl<A: Allocator + Copy> StateTable<A> {
    /// Creates a table without states.
    pub(crate) fn new(alloc: A) -> Result<Self, AllocError>
        ensures { IfOk result (λ t. t ≡ record { keys = []; origins = []; runs = [] }) }
    {
        Ok(StateTable {
            alloc,
            keys: IndexSet::with_capacity(alloc, INITIAL_STATES)?,
            origins: Vec::with_capacity(alloc, INITIAL_STATES)?,
            runs: IndexSet::new(alloc),
            recent: [0; 8],
        })
    }

    /// Returns the number of a run if the run is equal to the last one that began with the same event, and `None` otherwise.
    fn recent_number(&self, run: &Run<A>) -> Option<u32>
        ensures { IfSome result (λ n. slice_get self.now.runs n ≡ Some run.now) }
    {
        let number = self.recent[first_event(run)];
        let recent = self.runs.get_index(number as usize)?;
        if *recent == *run {
            return Some(number);
        }
        None
    }

    /// Looks a run up among all runs, and returns its number. Inserts the run if it has none.
    fn number_of_run(&mut self, run: &Run<A>) -> Result<u32, AllocError>
        ensures keys { OnOk result (self.new.keys ≡ self.old.keys) }
        ensures origins { OnOk result (self.new.origins ≡ self.old.origins) }
        ensures runs { OnOk result (IsPrefix self.old.runs self.new.runs) }
        ensures found { IfOk result (λ n. slice_get self.new.runs n ≡ Some run.now) }
    {
        match self.runs.get_index_of(run) {
            Some(index) => row_number(index),
            None => {
                let copy = run.copy(self.alloc)?;
                let (index, _) = self.runs.insert_full(copy)?;
                row_number(index)
            }
        }
    }

    /// Returns the number of a run, which is inserted if it has none. Compares the run with the recent one of its first event, before it is
    /// looked up among all runs.
    pub(crate) fn run_number(&mut self, run: &Run<A>) -> Result<u32, AllocError>
        ensures keys { OnOk result (self.new.keys ≡ self.old.keys) }
        ensures origins { OnOk result (self.new.origins ≡ self.old.origins) }
        ensures runs { OnOk result (IsPrefix self.old.runs self.new.runs) }
        ensures found { IfOk result (λ n. slice_get self.new.runs n ≡ Some run.now) }
    {
        if let Some(number) = self.recent_number(run) {
            return Ok(number);
        }
        let number = self.number_of_run(run)?;
        self.recent[first_event(run)] = number;
        Ok(number)
    }

    /// Appends an origin with a parent and a run.
    fn push_origin(&mut self, parent: u32, run: &Run<A>) -> Result<(), AllocError>
        ensures { OnOk result ((self.new.keys ≡ self.old.keys) × AppendsOrigin self.old parent run.now self.new) }
    {
        let run = self.run_number(run)?;
        self.origins.push(Origin { parent, run })?;
        Ok(())
    }

    /// Appends the key of a state with its parent and the run that led from there, unless the table has the key.
    pub(crate) fn insert(
        &mut self,
        key: StateKey,
        parent: u32,
        run: &Run<A>,
    ) -> Result<(), AllocError>
        ensures { OnOk result (InsertsKey self.old key parent run.now self.new) }
    {
        let (_, is_new) = self.keys.insert_full(key)?;
        if is_new {
            return self.push_origin(parent, run);
        }
        Ok(())
    }

    /// Appends the key of a state with its parent and the number of the run that led from there, unless the table has the key.
    pub(crate) fn insert_numbered(
        &mut self,
        key: StateKey,
        parent: u32,
        run: u32,
    ) -> Result<(), AllocError>
        ensures { OnOk result ((events : List (ℕ × Bool)) → slice_get self.old.runs run ≡ Some events → InsertsKey self.old key parent events self.new) }
    {
        let (_, is_new) = self.keys.insert_full(key)?;
        if is_new {
            self.origins.push(Origin { parent, run })?;
        }
        Ok(())
    }
}

impl<A: Allocator> StateTable<A> {
    /// Returns the number of states.
    pub(crate) fn len(&self) -> usize
        ensures { result ≡ length self.now.keys }
    {
        self.keys.len()
    }

    /// Returns the key of the state at an index.
    pub(crate) fn key(&self, index: usize) -> StateKey
        requires { index < length self.now.keys }
        ensures { slice_get self.now.keys index ≡ Some result }
    {
        *self.keys.get_index(index).unwrap()
    }

    /// Returns the origin of the state at an index, or `None` if there is no such state.
    pub(crate) fn origin(&self, index: usize) -> Option<Origin>
        ensures { result ≡ slice_get self.now.origins index }
    {
        self.origins.get(index).copied()
    }

    /// Returns the run of a number, or `None` if no row has it.
    pub(crate) fn run(&self, number: u32) -> Option<&Run<A>>
        ensures { option_copied result ≡ slice_get self.now.runs number }
    {
        self.runs.get_index(number as usize)
    }
}
