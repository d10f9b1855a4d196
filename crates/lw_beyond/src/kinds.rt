//! The two kinds of lists, with schedules and for reports, and how each is made.
ghost use Rattle.std.specs.Prelude.{◌≡◌, ◌≤◌, IfOk, IfErr, OnOk};
ghost use Rattle.lw_bench.specs.LitmusTests.{LitmusTest, litmus_test_of};
ghost use Rattle.lw_bench.specs.FaultTruth.{TestLimitFaultIsTrue};
ghost use Rattle.lw_bench.specs.Lists.{IsWithinListLimits, IsListOf, AreObservedOutcomesOf};
ghost use Rattle.lw_outcome_map.specs.Listings.{OutcomesWith, outcomes_of};
ghost use Rattle.lw_beyond.specs.Requests.{VisitsStatesOf, ExceedsBudgetOf};
ghost use Rattle.lw_search.specs.declared.fault.SearchFault.TheVariants as search;

use lw_base::{Event, Sequence};
use lw_bench::{LitmusTest, list_outcomes, list_test};
use lw_outcome_map::{Listing, OutcomeList};
use lw_paths::ListFault;
use lw_report::observed;
use lw_search::{
    SearchFault, Searched, SearchedOutcomes, reach_program, reach_program_states, reach_source,
    reach_source_states,
};
use lw_tso_caches::outcomes_over_caches_are_flat;
use std::alloc::Allocator;

/// A kind of lists: all outcomes, each with a schedule, or what a report needs.
pub(crate) trait ListKind<A: Allocator> {
    /// What a list has for each outcome: a schedule, or nothing.
    type Kept: Drop;

    /// The relation between a test and its list of this kind.
    ghost lists: { LitmusTest → OutcomesWith Self.Kept → Type 0 };

    /// Lists a test by the orders of its conflicting items. Fails if the test exceeds a limit of lists, or if memory runs out.
    fn list_by_orders(alloc: A, test: &LitmusTest<A>) -> Result<Listing<A, Self::Kept>, ListFault>
        ensures listed { IfOk result (lists (litmus_test_of test.now)) }
        ensures within { OnOk result (IsWithinListLimits (litmus_test_of test.now)) }
        ensures limit { IfErr result (TestLimitFaultIsTrue (litmus_test_of test.now)) };

    /// Lists a test by a search of the states of its x86 program. Fails if there are more than `budget` states, or if memory runs out.
    fn list_by_search(
        alloc: A,
        test: &LitmusTest<A>,
        budget: usize,
    ) -> Result<Searched<A, Self::Kept>, SearchFault>
        ensures listed { IfOk result (λ s. lists (litmus_test_of test.now) s.listing) }
        ensures visited { IfOk result (λ s. VisitsStatesOf (litmus_test_of test.now) s.states) }
        ensures within { IfOk result (λ s. s.states ≤ budget) }
        ensures budget { IfErr result (λ f. f ≡ search.Budget → ExceedsBudgetOf (litmus_test_of test.now) budget) };
}

/// Lists with schedules.
pub(crate) struct WithSchedules;

impl<A: Allocator + Copy> ListKind<A> for WithSchedules {
    type Kept = Sequence<Event, A>;

    ghost lists = { IsListOf };

    /// Lists a test by orders, with schedules.
    fn list_by_orders(alloc: A, test: &LitmusTest<A>) -> Result<Listing<A>, ListFault> {
        list_test(alloc, test)
    }

    /// Lists a test by a search, with schedules.
    fn list_by_search(
        alloc: A,
        test: &LitmusTest<A>,
        budget: usize,
    ) -> Result<Searched<A>, SearchFault> {
        outcomes_over_caches_are_flat();
        match test {
            LitmusTest::Source(source) => reach_source(alloc, source, budget),
            LitmusTest::X86(program) => reach_program(alloc, program, budget),
        }
    }
}

/// Lists for reports: an outcome for each list of words that the observed names have, or more.
pub(crate) struct ForReports;

impl<A: Allocator + Copy> ListKind<A> for ForReports {
    type Kept = ();

    ghost lists = { λ test l. AreObservedOutcomesOf test (outcomes_of l) };

    /// Lists a test by orders: all its outcomes.
    fn list_by_orders(alloc: A, test: &LitmusTest<A>) -> Result<OutcomeList<A>, ListFault> {
        list_outcomes(alloc, test)
    }

    /// Lists a test by a search: an outcome for each list of observed words.
    fn list_by_search(
        alloc: A,
        test: &LitmusTest<A>,
        budget: usize,
    ) -> Result<SearchedOutcomes<A>, SearchFault> {
        outcomes_over_caches_are_flat();
        let names = observed(alloc, test.head())?;
        match test {
            LitmusTest::Source(source) => {
                reach_source_states(alloc, source, names.as_slice(), budget)
            }
            LitmusTest::X86(program) => {
                reach_program_states(alloc, program, names.as_slice(), budget)
            }
        }
    }
}
