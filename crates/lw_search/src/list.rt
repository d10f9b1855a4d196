//! The complete list of a test, of either language, by a search of the machine's states, with schedules; and the states that a report shows.
ghost use Rattle.std.specs.Prelude.{◌≡◌, ◌↔◌, ◌≤◌, All, Contains, IfOk, IfErr, length};
ghost use Rattle.lw_base.specs.FinalWords.{ContainsWordsOf};
ghost use Rattle.lw_base.specs.Heads.{head_of};
ghost use Rattle.lw_base.specs.ListedOutcomes.{IsListedOutcome};
ghost use Rattle.lw_base.specs.Outcomes.{FinalState, HasOutcomeShape};
ghost use Rattle.lw_interleaving.specs.Runs.{SourceOutcome};
ghost use Rattle.lw_litmus.specs.Views.{source_of, program_of};
ghost use Rattle.lw_outcome_map.specs.Listings.{outcomes_of, IsStrictlySorted};
ghost use Rattle.lw_memory.specs.Flat.{flat_memory};
ghost use Rattle.lw_mesi.specs.declared.protocol.Protocol.{Protocol};
ghost use Rattle.lw_tso.specs.Runs.{IsMachineOutcome};
ghost use Rattle.lw_tso_caches.specs.CompleteLists.{ListsMachine, IsComplete};
ghost use Rattle.lw_tso_caches.specs.OverCaches.{ReplaysToOverCaches, OutcomeOverCaches};
ghost use Rattle.lw_search.specs.Reachability.{Visits, ExceedsBudget, HoldsOfCompiled};
ghost use Rattle.lw_search.specs.declared.fault.SearchFault.TheVariants as fault;
ghost use Rattle.lw_search.specs.inner.Invariant.{HaveSameWords, IsFinished, IsOfSomeRun, ListsAgreeing};

use crate::collect::collect_outcomes;
use crate::fault::SearchFault;
use crate::observed::collect_observed;
use crate::search::Search;
use lw_base::{Event, Seen, Sequence};
use lw_fence::compile;
use lw_litmus::{Program, Source};
use lw_outcome_map::Listing;
use lw_tso_caches::{outcomes_over_caches_are_flat, replays_over_caches_are_flat};
use std::alloc::Allocator;

/// The result of a search that visited each state that it found.
#[derive(Drop)]
pub struct Searched<A: Allocator, K = Sequence<Event, A>> {
    /// The outcomes, each with a value of type `K`: a schedule, unless another type is named.
    pub listing: Listing<A, K>,
    /// The number of different states of the machine that were visited.
    pub states: usize,
}

/// The result of a search that keeps no schedules.
pub type SearchedOutcomes<A> = Searched<A, ()>;

/// Returns a search of a program that has visited each state that it found. Fails if memory runs out, or if more than `budget` states are
/// found.
fn search_states<'a, A: Allocator + Copy>(
    alloc: A,
    program: &'a Program<A>,
    budget: usize,
) -> Result<Search<'a, A>, SearchFault>
    ensures program { IfOk result (λ s. s.program.now ≡ program.now) }
    ensures finished { IfOk result (λ s. IsFinished (program_of program.now) s.tables s.states) }
    ensures visited { IfOk result (λ s. Visits (program_of program.now) (length s.states.keys)) }
    ensures within { IfOk result (λ s. length s.states.keys ≤ budget) }
    ensures budget { IfErr result (λ f. f ≡ fault.Budget → ExceedsBudget (program_of program.now) budget) }
{
    let mut search = Search::new(alloc, program)?;
    if !search.run(budget)? {
        return Err(SearchFault::Budget);
    }
    Ok(search)
}

/// Searches the states of a program, and lists the outcomes of the final ones, each with a schedule.
fn search_schedules<A: Allocator + Copy>(
    alloc: A,
    program: &Program<A>,
    budget: usize,
) -> Result<Searched<A>, SearchFault>
    ensures sorted { IfOk result (λ s. IsStrictlySorted s.listing) }
    ensures complete { IfOk result (λ s. let test = program_of program.now in IsComplete (IsMachineOutcome flat_memory test test.head.init_words) test s.listing) }
    ensures visited { IfOk result (λ s. Visits (program_of program.now) s.states) }
    ensures within { IfOk result (λ s. s.states ≤ budget) }
    ensures budget { IfErr result (λ f. f ≡ fault.Budget → ExceedsBudget (program_of program.now) budget) }
{
    outcomes_over_caches_are_flat();
    replays_over_caches_are_flat();
    let search = search_states(alloc, program, budget)?;
    let listing = collect_outcomes(alloc, &search)?;
    Ok(Searched {
        listing,
        states: search.states.len(),
    })
}

/// Searches the states of a program, and lists final outcomes without schedules: one for each combination of words that the registers and
/// locations `names` have in some final state.
fn search_observed<A: Allocator + Copy>(
    alloc: A,
    program: &Program<A>,
    names: &[Seen],
    budget: usize,
) -> Result<SearchedOutcomes<A>, SearchFault>
    ensures observed { IfOk result (λ s. ListsAgreeing (HaveSameWords names.now) IsOfSomeRun (program_of program.now) s.listing) }
    ensures visited { IfOk result (λ s. Visits (program_of program.now) s.states) }
    ensures within { IfOk result (λ s. s.states ≤ budget) }
    ensures budget { IfErr result (λ f. f ≡ fault.Budget → ExceedsBudget (program_of program.now) budget) }
{
    outcomes_over_caches_are_flat();
    replays_over_caches_are_flat();
    let search = search_states(alloc, program, budget)?;
    let listing = collect_observed(alloc, &search, names)?;
    Ok(Searched {
        listing,
        states: search.states.len(),
    })
}

/// Lists all final states of an x86 test on the whole machine, each with a schedule of steps and drains, by a search of the machine's
/// states. Fails if memory runs out, or if more than `budget` states are found.
pub fn reach_program<A: Allocator + Copy>(
    alloc: A,
    program: &Program<A>,
    budget: usize,
) -> Result<Searched<A>, SearchFault>
    // The outcomes are without duplicates and in ascending order.
    ensures sorted { IfOk result (λ s. IsStrictlySorted s.listing) }
    // They are exactly those that the machine reaches over caches of either protocol, over all schedules of steps, drains and
    // evictions.
    ensures exactly { IfOk result (λ s. (protocol : Protocol) (o : FinalState)
        → Contains (outcomes_of s.listing) o ↔ OutcomeOverCaches protocol (program_of program.now) o) }
    // Each entry's schedule replays there to its outcome.
    ensures replays { IfOk result (λ s. (protocol : Protocol) → All (λ e. ReplaysToOverCaches protocol (program_of program.now) e.1 e.0) s.listing) }
    // Each entry is of the test's threads and locations.
    ensures of_test { IfOk result (λ s. All (IsListedOutcome (head_of program.now.head)) s.listing) }
    // So many different reachable states were visited, all final ones among them, and no more than the budget allows.
    ensures visited { IfOk result (λ s. Visits (program_of program.now) s.states) }
    ensures within { IfOk result (λ s. s.states ≤ budget) }
    // The budget is exceeded only if more than so many different states are reachable.
    ensures budget { IfErr result (λ f. f ≡ fault.Budget → ExceedsBudget (program_of program.now) budget) }
{
    search_schedules(alloc, program, budget)
}

/// Lists the final states of an x86 test that a report shows: for each list of words that some names have at the end of a run on the
/// whole machine, an outcome that has these words, by a search of the machine's states. Fails if memory runs out, or if more than
/// `budget` states are found.
pub fn reach_program_states<A: Allocator + Copy>(
    alloc: A,
    program: &Program<A>,
    names: &[Seen],
    budget: usize,
) -> Result<SearchedOutcomes<A>, SearchFault>
    // The machine reaches each listed outcome over caches of either protocol, by a schedule of steps, drains and evictions.
    ensures reached { IfOk result (λ s. (protocol : Protocol) (o : FinalState)
        → Contains (outcomes_of s.listing) o → OutcomeOverCaches protocol (program_of program.now) o) }
    // Each outcome that it reaches has the words of a listed one.
    ensures observed { IfOk result (λ s. (protocol : Protocol) (o : FinalState)
        → OutcomeOverCaches protocol (program_of program.now) o → ContainsWordsOf names.now (outcomes_of s.listing) o) }
    // Each listed outcome is of the test's threads and locations.
    ensures of_test { IfOk result (λ s. All (HasOutcomeShape program.now.head.threads (length program.now.head.locs)) (outcomes_of s.listing)) }
    // So many different reachable states were visited, all final ones among them, and no more than the budget allows.
    ensures visited { IfOk result (λ s. Visits (program_of program.now) s.states) }
    ensures within { IfOk result (λ s. s.states ≤ budget) }
    // The budget is exceeded only if more than so many different states are reachable.
    ensures budget { IfErr result (λ f. f ≡ fault.Budget → ExceedsBudget (program_of program.now) budget) }
{
    search_observed(alloc, program, names, budget)
}

/// Lists all final states of a source test, each with a schedule of the program that it is compiled to, by a search of that program's
/// states. Fails if memory runs out, or if more than `budget` states are found.
pub fn reach_source<A: Allocator + Copy>(
    alloc: A,
    source: &Source<A>,
    budget: usize,
) -> Result<Searched<A>, SearchFault>
    // The outcomes are without duplicates and in ascending order.
    ensures sorted { IfOk result (λ s. IsStrictlySorted s.listing) }
    // They are exactly those that interleaving on one memory reaches.
    ensures exactly { IfOk result (λ s. (o : FinalState) → Contains (outcomes_of s.listing) o ↔ SourceOutcome (source_of source.now) o) }
    // They are exactly those of the compiled program on the whole machine, and each entry's schedule replays to its outcome there.
    ensures machine { IfOk result (λ s. ListsMachine (source_of source.now) s.listing) }
    // Each entry is of the test's threads and locations.
    ensures of_test { IfOk result (λ s. All (IsListedOutcome (head_of source.now.head)) s.listing) }
    // So many different reachable states of the compiled program were visited, all final ones among them, and no more than the budget
    // allows.
    ensures visited { IfOk result (λ s. HoldsOfCompiled (source_of source.now) (λ program. Visits program s.states)) }
    ensures within { IfOk result (λ s. s.states ≤ budget) }
    // The budget is exceeded only if more than so many different states of the compiled program are reachable.
    ensures budget { IfErr result (λ f. f ≡ fault.Budget → HoldsOfCompiled (source_of source.now) (λ program. ExceedsBudget program budget)) }
{
    let compiled = compile(alloc, source)?;
    search_schedules(alloc, &compiled.program, budget)
}

/// Lists the final states of a source test that a report shows: for each list of words that some names have at the end of a run by
/// interleaving on one memory, an outcome that has these words, by a search of the states of the program that the test is compiled to.
/// Fails if memory runs out, or if more than `budget` states are found.
pub fn reach_source_states<A: Allocator + Copy>(
    alloc: A,
    source: &Source<A>,
    names: &[Seen],
    budget: usize,
) -> Result<SearchedOutcomes<A>, SearchFault>
    // Interleaving on one memory reaches each listed outcome.
    ensures reached { IfOk result (λ s. (o : FinalState) → Contains (outcomes_of s.listing) o → SourceOutcome (source_of source.now) o) }
    // Each outcome that it reaches has the words of a listed one.
    ensures observed { IfOk result (λ s. (o : FinalState) → SourceOutcome (source_of source.now) o → ContainsWordsOf names.now (outcomes_of s.listing) o) }
    // Each listed outcome is of the test's threads and locations.
    ensures of_test { IfOk result (λ s. All (HasOutcomeShape source.now.head.threads (length source.now.head.locs)) (outcomes_of s.listing)) }
    // So many different reachable states of the compiled program were visited, all final ones among them, and no more than the budget
    // allows.
    ensures visited { IfOk result (λ s. HoldsOfCompiled (source_of source.now) (λ program. Visits program s.states)) }
    ensures within { IfOk result (λ s. s.states ≤ budget) }
    // The budget is exceeded only if more than so many different states of the compiled program are reachable.
    ensures budget { IfErr result (λ f. f ≡ fault.Budget → HoldsOfCompiled (source_of source.now) (λ program. ExceedsBudget program budget)) }
{
    let compiled = compile(alloc, source)?;
    search_observed(alloc, &compiled.program, names, budget)
}
