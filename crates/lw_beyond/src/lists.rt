//! The complete list of a test, by orders or by a search, and the output that is rendered from it.
ghost use Rattle.std.specs.Prelude.{IfOk, IfErr, MatchOption};
ghost use Rattle.lw_bench.specs.LitmusTests.{litmus_test_of};
ghost use Rattle.lw_bench.specs.Lists.{IsWithinListLimits, IsExactReport, IsExactMarkedList, IsExactScheduleList};
ghost use Rattle.lw_beyond.specs.Requests.{PassesLimit, IsListedBy, IsMadeFor, NeedsSearch, RefusesList};

use crate::fault::BeyondFault;
use crate::kinds::{ForReports, ListKind, WithSchedules};
use lw_base::Text;
use lw_bench::{LitmusTest, marks_of_listing, report_of_listing, schedules_of_listing};
use lw_outcome_map::Listing;
use lw_paths::ListFault;
use lw_search::SearchFault;
use std::alloc::{AllocError, Allocator};

/// The output that is rendered from a list.
#[derive(Clone, Copy, PartialEq, Eq)]
pub enum Output {
    /// The report of the final states, with the verdict on the condition.
    States,
    /// The final states, each with a schedule.
    Schedules,
    /// The final states, each marked by whether the proposition is true in it.
    Marks,
}

/// A request for a complete list.
#[derive(Clone, Copy)]
pub struct Request {
    /// The output that is rendered from the list.
    pub output: Output,
    /// Whether the list is made by a search even if the test is within the limits of lists.
    pub search: bool,
    /// The maximum number of states that a search may find.
    pub budget: usize,
}

/// How a list was made.
#[derive(Clone, Copy, PartialEq, Eq)]
pub enum Method {
    /// By an enumeration of the orders of conflicting items.
    Orders,
    /// By a search that visited this number of states of the machine.
    Search(usize),
}

/// A list of a kind, and how it was made.
type Made<A, K> = (Listing<A, K>, Method);

/// Lists a test by orders. Returns `None` if the test exceeds a limit of lists. Fails only if memory runs out.
fn list_within_limits<A: Allocator + Copy, L: ListKind<A>>(
    alloc: A,
    test: &LitmusTest<A>,
) -> Result<Option<Listing<A, L::Kept>>, AllocError>
    ensures { IfOk result (λ found. MatchOption found (PassesLimit (litmus_test_of test.now))
        (λ l. L.lists (litmus_test_of test.now) l × IsWithinListLimits (litmus_test_of test.now))) }
{
    match L::list_by_orders(alloc, test) {
        Ok(listing) => Ok(Some(listing)),
        Err(ListFault::Memory) => Err(AllocError),
        Err(_) => Ok(None),
    }
}

/// Lists a test by a search within the request's budget. The clauses on the method and on faults assume that a search is needed.
fn list_by_required_search<A: Allocator + Copy, L: ListKind<A>>(
    alloc: A,
    test: &LitmusTest<A>,
    request: &Request,
) -> Result<Made<A, L::Kept>, BeyondFault>
    ensures listed { IfOk result (λ x. L.lists (litmus_test_of test.now) x.0) }
    ensures method { NeedsSearch (litmus_test_of test.now) request.now
        → IfOk result (λ x. IsListedBy (litmus_test_of test.now) request.now x.1) }
    ensures refused { NeedsSearch (litmus_test_of test.now) request.now
        → IfErr result (RefusesList (litmus_test_of test.now) request.now) }
{
    match L::list_by_search(alloc, test, request.budget) {
        Ok(searched) => Ok((searched.listing, Method::Search(searched.states))),
        Err(SearchFault::Memory) => Err(BeyondFault::from(AllocError)),
        Err(SearchFault::Budget) => Err(BeyondFault::Budget(request.budget)),
    }
}

/// Lists a test: by orders if it is within the limits of lists and no search is requested, and by a search otherwise.
fn list_of<A: Allocator + Copy, L: ListKind<A>>(
    alloc: A,
    test: &LitmusTest<A>,
    request: &Request,
) -> Result<Made<A, L::Kept>, BeyondFault>
    ensures listed { IfOk result (λ x. L.lists (litmus_test_of test.now) x.0) }
    ensures method { IfOk result (λ x. IsListedBy (litmus_test_of test.now) request.now x.1) }
    ensures refused { IfErr result (RefusesList (litmus_test_of test.now) request.now) }
{
    if request.search {
        return list_by_required_search::<A, L>(alloc, test, request);
    }
    match list_within_limits::<A, L>(alloc, test)? {
        Some(listing) => Ok((listing, Method::Orders)),
        None => list_by_required_search::<A, L>(alloc, test, request),
    }
}

/// Renders the report of a test for a request, and returns it with the method of the list.
fn make_report<A: Allocator + Copy>(
    alloc: A,
    test: &LitmusTest<A>,
    request: &Request,
) -> Result<(Text<A>, Method), BeyondFault>
    ensures made { IfOk result (λ x. IsExactReport (litmus_test_of test.now) x.0) }
    ensures method { IfOk result (λ x. IsListedBy (litmus_test_of test.now) request.now x.1) }
    ensures refused { IfErr result (RefusesList (litmus_test_of test.now) request.now) }
{
    let (listing, method) = list_of::<A, ForReports>(alloc, test, request)?;
    let text = report_of_listing(alloc, test, listing)?;
    Ok((text, method))
}

/// Renders the list of a test's schedules for a request, and returns it with the method of the list.
fn make_schedules<A: Allocator + Copy>(
    alloc: A,
    test: &LitmusTest<A>,
    request: &Request,
) -> Result<(Text<A>, Method), BeyondFault>
    ensures made { IfOk result (λ x. IsExactScheduleList (litmus_test_of test.now) x.0) }
    ensures method { IfOk result (λ x. IsListedBy (litmus_test_of test.now) request.now x.1) }
    ensures refused { IfErr result (RefusesList (litmus_test_of test.now) request.now) }
{
    let (listing, method) = list_of::<A, WithSchedules>(alloc, test, request)?;
    let text = schedules_of_listing(alloc, test, &listing);
    drop(listing);
    Ok((text?, method))
}

/// Renders the list of a test's marked states for a request, and returns it with the method of the list.
fn make_marks<A: Allocator + Copy>(
    alloc: A,
    test: &LitmusTest<A>,
    request: &Request,
) -> Result<(Text<A>, Method), BeyondFault>
    ensures made { IfOk result (λ x. IsExactMarkedList (litmus_test_of test.now) x.0) }
    ensures method { IfOk result (λ x. IsListedBy (litmus_test_of test.now) request.now x.1) }
    ensures refused { IfErr result (RefusesList (litmus_test_of test.now) request.now) }
{
    let (listing, method) = list_of::<A, ForReports>(alloc, test, request)?;
    let text = marks_of_listing(alloc, test, listing)?;
    Ok((text, method))
}

/// Renders the output of a test for a request, and returns it with the method of the list.
pub(crate) fn make<A: Allocator + Copy>(
    alloc: A,
    test: &LitmusTest<A>,
    request: &Request,
) -> Result<(Text<A>, Method), BeyondFault>
    ensures made { IfOk result (λ x. IsMadeFor request.now.output (litmus_test_of test.now) x.0) }
    ensures method { IfOk result (λ x. IsListedBy (litmus_test_of test.now) request.now x.1) }
    ensures refused { IfErr result (RefusesList (litmus_test_of test.now) request.now) }
{
    match request.output {
        Output::States => make_report(alloc, test, request),
        Output::Schedules => make_schedules(alloc, test, request),
        Output::Marks => make_marks(alloc, test, request),
    }
}
