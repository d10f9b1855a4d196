//! What a report shows of the final states of a search: one outcome for each list of words that the observed names have there.
ghost use Rattle.std.specs.Prelude.{◌≡◌, ◌<◌, [], ℕ, length, IfOk, OnOk};
ghost use Rattle.lw_base.specs.FinalWords.{final_word, final_words};
ghost use Rattle.lw_base.specs.declared.head.Seen.TheVariants.{Location, Register};
ghost use Rattle.lw_memory.specs.Flat.{flat_memory};
ghost use Rattle.lw_tso.specs.Runs.{machine_outcome};
ghost use Rattle.lw_outcome_map.specs.Listings.{IsStrictlySorted};
ghost use Rattle.lw_search.specs.inner.StateKeys.{State, Represents};
ghost use Rattle.lw_search.specs.inner.Invariant.{CollectsAll, HaveSameWords, IsOfSomeRun};
ghost use Rattle.lw_search.specs.inner.ObservedStates.{InsertsWords, ObservesState};

use crate::collect::{is_final, outcome_of, register_of};
use crate::search::Search;
use crate::states::StateKey;
use crate::tables::Tables;
use crate::thread_state::word_at;
use indexmap::IndexSet;
use lw_base::{Cpu, Loc, Outcome, Reg, Seen, Sequence, Word};
use lw_litmus::Program;
use lw_outcome_map::{Listing, OutcomeList};
use std::alloc::{AllocError, Allocator};
use std::hash::{BuildHasherDefault, FoldHasher};
use std::marker::Model;

/// Returns the word of a thread's register in a state, or 0 if the program has no such thread.
fn word_of_register<A: Allocator>(
    program: &Program<A>,
    tables: &Tables<'_, A>,
    key: &StateKey,
    cpu: Cpu,
    reg: Reg,
) -> Word
    ensures { (s : State) → Represents tables.now key.now s → length s.processors ≡ length program.now.threads
        → result ≡ final_word (machine_outcome flat_memory s) (Register cpu reg) }
{
    if program.threads.len() <= cpu.index() {
        return 0;
    }
    register_of(tables, key, cpu, reg)
}

/// Returns the word of a location in a state, or 0 if the state has no such location.
fn word_of_location<A: Allocator>(tables: &Tables<'_, A>, key: &StateKey, loc: Loc) -> Word
    ensures { (s : State) → Represents tables.now key.now s → result ≡ final_word (machine_outcome flat_memory s) (Location loc) }
{
    match tables.memory(key[0]) {
        Some(memory) => word_at(memory, loc.index()),
        None => 0,
    }
}

/// Returns the word of a register or a location in a state, or 0 if there is no such thread or location.
fn word_of<A: Allocator>(
    program: &Program<A>,
    tables: &Tables<'_, A>,
    key: &StateKey,
    name: Seen,
) -> Word
    ensures { (s : State) → Represents tables.now key.now s → length s.processors ≡ length program.now.threads
        → result ≡ final_word (machine_outcome flat_memory s) name }
{
    match name {
        Seen::Register(cpu, reg) => word_of_register(program, tables, key, cpu, reg),
        Seen::Location(loc) => word_of_location(tables, key, loc),
    }
}

/// Returns the words that a state has for some names.
fn words_of<A: Allocator>(
    alloc: A,
    program: &Program<A>,
    tables: &Tables<'_, A>,
    key: &StateKey,
    names: &[Seen],
) -> Result<Sequence<Word, A>, AllocError>
    ensures { IfOk result (λ words. (s : State) → Represents tables.now key.now s → length s.processors ≡ length program.now.threads
        → words ≡ final_words names.now (machine_outcome flat_memory s)) }
{
    let mut words = Vec::with_capacity(alloc, names.len())?;
    for name in names {
        words.push(word_of(program, tables, key, *name))?;
    }
    Ok(Sequence::from(words))
}

/// The words that final states have for some names, without duplicates, and for each list of words an outcome that has them.
#[derive(Drop)]
struct ObservedStates<A: Allocator> {
    words: IndexSet<Sequence<Word, A>, BuildHasherDefault<FoldHasher>, A>,
    outcomes: Vec<(Outcome<A>, ()), A>,
}

impl<A: Allocator> Model for ObservedStates<A> {
    ghost use Rattle.lw_search.specs.inner.ObservedStates.{ObservedWords};

    ghost Value = { ObservedWords };

    ghost view = { λ s. record { words = s.words.keys; outcomes = s.outcomes.items } };
}

impl<A: Allocator + Copy> ObservedStates<A> {
    /// Creates an empty set. Does not allocate.
    fn new(alloc: A) -> Self
        ensures { result ≡ record { words = []; outcomes = [] } }
    {
        ObservedStates {
            words: IndexSet::new(alloc),
            outcomes: Vec::new(alloc),
        }
    }

    /// Inserts words without an outcome, unless the set has them. Returns whether they are new.
    fn insert_words(&mut self, words: Sequence<Word, A>) -> Result<bool, AllocError>
        ensures { IfOk result (λ is_new. InsertsWords self.old words is_new self.new) }
    {
        let (_, is_new) = self.words.insert_full(words)?;
        Ok(is_new)
    }

    /// Inserts the state at an index of a search, if the state is final and its words of some names are new.
    fn observe(
        &mut self,
        alloc: A,
        search: &Search<'_, A>,
        at: usize,
        names: &[Seen],
    ) -> Result<(), AllocError>
        requires { at < length search.now.states.keys }
        ensures { OnOk result (ObservesState names.now search.now.program.now.threads search.now.tables search.now.states at self.old self.new) }
    {
        let key = search.states.key(at);
        if !is_final(search.program, &search.tables, &key) {
            return Ok(());
        }
        let words = words_of(alloc, search.program, &search.tables, &key, names)?;
        let is_new = self.insert_words(words)?;
        if !is_new {
            return Ok(());
        }
        let outcome = outcome_of(alloc, search.program, &search.tables, &key)?;
        self.outcomes.push((outcome, ()))?;
        Ok(())
    }
}

/// Returns a list with an outcome for each list of words that the final states of a search have for some names.
pub(crate) fn collect_observed<A: Allocator + Copy>(
    alloc: A,
    search: &Search<'_, A>,
    names: &[Seen],
) -> Result<OutcomeList<A>, AllocError>
    ensures sorted { IfOk result (λ l. IsStrictlySorted l) }
    ensures collected { IfOk result (CollectsAll (HaveSameWords names.now) IsOfSomeRun search.now.program.now.threads search.now.tables search.now.states) }
{
    let mut found = ObservedStates::new(alloc);
    for at in 0..search.states.len() {
        found.observe(alloc, search, at, names)?;
    }
    Ok(Listing::from_entries(found.outcomes))
}
