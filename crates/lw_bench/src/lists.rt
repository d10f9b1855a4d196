//! The report of a test's states, and the list of their schedules.
ghost use Rattle.std.specs.Prelude.{◌≡◌, ◌⊎◌, IfOk, IfErr, OnOk};
ghost use Rattle.lw_bench.specs.LitmusTests.{litmus_test_of};
ghost use Rattle.lw_outcome_map.specs.Listings.{outcomes_of};
ghost use Rattle.lw_bench.specs.Lists.{IsWithinListLimits, IsListOf, AreOutcomesOf, AreObservedOutcomesOf, IsExactReport, IsExactMarkedList, IsExactScheduleList, IsStatesReport, IsScheduleReport};
ghost use Rattle.lw_bench.specs.FaultTruth.{TestLimitFaultIsTrue, ListFaultIsTrue, IsNotDeviceFault};

use crate::fault::BenchFault;
use crate::litmus_test::LitmusTest;
use lw_base::Text;
use lw_finals::{list_source, list_source_outcomes, list_x86, list_x86_outcomes};
use lw_outcome_map::{Listing, OutcomeList};
use lw_paths::ListFault;
use lw_report::{
    Claim, outcomes_with_the_same_words_agree, states_of, write_marks, write_report,
    write_schedules,
};
use lw_tso_caches::outcomes_over_caches_are_flat;
use std::alloc::{AllocError, Allocator};

/// Lists all outcomes of a test, each with a schedule of its x86 program. Fails if the test exceeds a limit of lists, or memory
/// runs out.
pub fn list_test<A: Allocator + Copy>(
    alloc: A,
    test: &LitmusTest<A>,
) -> Result<Listing<A>, ListFault>
    ensures listed { IfOk result (IsListOf (litmus_test_of test.now)) }
    ensures within { OnOk result (IsWithinListLimits (litmus_test_of test.now)) }
    ensures limit { IfErr result (TestLimitFaultIsTrue (litmus_test_of test.now)) }
{
    outcomes_over_caches_are_flat();
    match test {
        LitmusTest::Source(source) => list_source(alloc, source),
        LitmusTest::X86(program) => list_x86(alloc, program),
    }
}

/// Lists all outcomes of a test, without schedules. Fails as `list_test` does.
pub fn list_outcomes<A: Allocator + Copy>(
    alloc: A,
    test: &LitmusTest<A>,
) -> Result<OutcomeList<A>, ListFault>
    ensures listed { IfOk result (λ l. AreOutcomesOf (litmus_test_of test.now) (outcomes_of l)) }
    ensures within { OnOk result (IsWithinListLimits (litmus_test_of test.now)) }
    ensures limit { IfErr result (TestLimitFaultIsTrue (litmus_test_of test.now)) }
{
    outcomes_over_caches_are_flat();
    match test {
        LitmusTest::Source(source) => list_source_outcomes(alloc, source),
        LitmusTest::X86(program) => list_x86_outcomes(alloc, program),
    }
}

/// Renders the report of the outcomes of a test. Fails if there is no list of them.
pub(crate) fn report_of<A: Allocator + Copy>(
    alloc: A,
    test: &LitmusTest<A>,
) -> Result<Text<A>, BenchFault>
    ensures found { IfOk result (IsStatesReport (litmus_test_of test.now)) }
    ensures fault { IfErr result (λ f. (f ≡ BenchFault.Memory) ⊎ ListFaultIsTrue (litmus_test_of test.now) f) }
    ensures device { IfErr result IsNotDeviceFault }
{
    let listing = list_outcomes(alloc, test)?;
    Ok(report_of_listing(alloc, test, listing)?)
}

/// Renders the report of a test with this list, which may have one outcome for each list of observed words, and may keep
/// schedules. The list is dropped before the report is written.
pub fn report_of_listing<A: Allocator + Copy, K: Drop>(
    alloc: A,
    test: &LitmusTest<A>,
    listing: Listing<A, K>,
) -> Result<Text<A>, AllocError>
    requires { AreObservedOutcomesOf (litmus_test_of test.now) (outcomes_of listing) }
    ensures { IfOk result (IsExactReport (litmus_test_of test.now)) }
{
    outcomes_with_the_same_words_agree();
    let head = test.head();
    let states = states_of(alloc, head, &listing);
    drop(listing);
    let states = states?;
    let report = write_report(alloc, head, &states, Claim::Exact);
    drop(states);
    report
}

/// Renders the list of a test's states, each with a schedule. Fails if there is no list of its outcomes.
pub(crate) fn schedules_of<A: Allocator + Copy>(
    alloc: A,
    test: &LitmusTest<A>,
) -> Result<Text<A>, BenchFault>
    ensures found { IfOk result (IsScheduleReport (litmus_test_of test.now)) }
    ensures fault { IfErr result (λ f. (f ≡ BenchFault.Memory) ⊎ ListFaultIsTrue (litmus_test_of test.now) f) }
    ensures device { IfErr result IsNotDeviceFault }
{
    let listing = list_test(alloc, test)?;
    let list = schedules_of_listing(alloc, test, &listing);
    drop(listing);
    Ok(list?)
}

/// Renders the list of a test's states, each with the schedule that the listing of its outcomes has. Fails only if memory runs out.
pub fn schedules_of_listing<A: Allocator + Copy>(
    alloc: A,
    test: &LitmusTest<A>,
    listing: &Listing<A>,
) -> Result<Text<A>, AllocError>
    requires { IsListOf (litmus_test_of test.now) listing.now }
    ensures { IfOk result (IsExactScheduleList (litmus_test_of test.now)) }
{
    let head = test.head();
    let states = states_of(alloc, head, listing)?;
    let list = write_schedules(alloc, head, &states, listing);
    drop(states);
    list
}

/// Renders the list of the states of a test, each marked by whether the proposition is true in it, from a list that may have
/// one outcome for each list of observed words.
pub fn marks_of_listing<A: Allocator + Copy, K: Drop>(
    alloc: A,
    test: &LitmusTest<A>,
    listing: Listing<A, K>,
) -> Result<Text<A>, AllocError>
    requires { AreObservedOutcomesOf (litmus_test_of test.now) (outcomes_of listing) }
    ensures { IfOk result (IsExactMarkedList (litmus_test_of test.now)) }
{
    outcomes_with_the_same_words_agree();
    let head = test.head();
    let states = states_of(alloc, head, &listing);
    drop(listing);
    let states = states?;
    let list = write_marks(alloc, head, &states);
    drop(states);
    list
}
