//! Searches where memory is refused, each request in turn.
use lw_base::{Cpu, Reg, Seen};
use lw_outcome_map::{Listing, OutcomeList};
use lw_search::{
    SearchFault, Searched, SearchedOutcomes, reach_program, reach_program_states, reach_source,
    reach_source_states,
};
use lw_test_reader::{Made, MadeByAllocator, Refusing, count_requests, program_of, source_of};
use std::alloc::Allocator;

/// Store buffering.
const STORE_BUFFERING: &str =
    "SRC SB {} P0|P1; x := 1 | y := 1; r0 := y | r0 := x; exists (0:r0=0 /\\ 1:r0=0)";

/// The same in x86 instructions.
const X86_STORE_BUFFERING: &str =
    "X86 SB {} P0|P1; MOV [x],$1 | MOV [y],$1; MOV EAX,[y] | MOV EAX,[x]; exists (0:EAX=0 /\\ 1:EAX=0)";

/// Returns whether two lists have the same entries.
fn are_same<A: Allocator>(listing: &Listing<A>, other: &Listing<A>) -> bool {
    if listing.len() != other.len() {
        return false;
    }
    for place in 0..listing.len() {
        if *listing.outcome(place) != *other.outcome(place) {
            return false;
        }
        if listing.schedule(place) != other.schedule(place) {
            return false;
        }
    }
    true
}

/// Returns what becomes of a search, compared with the same one where memory is not refused.
fn searched<A: Allocator>(
    scarce: Result<Searched<A>, SearchFault>,
    whole: Result<Searched<A>, SearchFault>,
) -> Option<Made> {
    match (scarce, whole) {
        (Ok(scarce), Ok(whole)) => (scarce.states == whole.states
            && are_same(&scarce.listing, &whole.listing)).then_some(Made::Whole),
        (Err(SearchFault::Memory), Ok(_)) => Some(Made::Refused),
        _ => None,
    }
}

/// Returns whether two lists have the same outcomes.
fn have_same_outcomes<A: Allocator>(listing: &OutcomeList<A>, other: &OutcomeList<A>) -> bool {
    if listing.len() != other.len() {
        return false;
    }
    for place in 0..listing.len() {
        if *listing.outcome(place) != *other.outcome(place) {
            return false;
        }
    }
    true
}

/// Returns what becomes of a search for a report, compared with the same one where memory is not refused.
fn searched_states<A: Allocator>(
    scarce: Result<SearchedOutcomes<A>, SearchFault>,
    whole: Result<SearchedOutcomes<A>, SearchFault>,
) -> Option<Made> {
    match (scarce, whole) {
        (Ok(scarce), Ok(whole)) => (scarce.states == whole.states
            && whole.listing.len() == 2
            && have_same_outcomes(&scarce.listing, &whole.listing)).then_some(Made::Whole),
        (Err(SearchFault::Memory), Ok(_)) => Some(Made::Refused),
        _ => None,
    }
}

/// The register of the first thread, which has two words at the end of the runs of these tests.
fn first_register() -> [Seen; 1] {
    [Seen::Register(Cpu::all()[0], Reg::all()[0])]
}

/// The search of a source test.
struct SourceSearch;

impl MadeByAllocator for SourceSearch {
    fn make<'a>(&self, ample: &'a Refusing, scarce: &'a Refusing) -> Option<Made> {
        let source = source_of(ample, STORE_BUFFERING)?;
        searched(
            reach_source(scarce, &source, 100),
            reach_source(ample, &source, 100),
        )
    }
}

/// The search of an x86 test.
struct X86Search;

impl MadeByAllocator for X86Search {
    fn make<'a>(&self, ample: &'a Refusing, scarce: &'a Refusing) -> Option<Made> {
        let program = program_of(ample, X86_STORE_BUFFERING)?;
        searched(
            reach_program(scarce, &program, 100),
            reach_program(ample, &program, 100),
        )
    }
}

/// The search of a source test for a report.
struct ObservedSourceSearch;

impl MadeByAllocator for ObservedSourceSearch {
    fn make<'a>(&self, ample: &'a Refusing, scarce: &'a Refusing) -> Option<Made> {
        let source = source_of(ample, STORE_BUFFERING)?;
        let names = first_register();
        searched_states(
            reach_source_states(scarce, &source, &names, 100),
            reach_source_states(ample, &source, &names, 100),
        )
    }
}

/// The search of an x86 test for a report.
struct ObservedX86Search;

impl MadeByAllocator for ObservedX86Search {
    fn make<'a>(&self, ample: &'a Refusing, scarce: &'a Refusing) -> Option<Made> {
        let program = program_of(ample, X86_STORE_BUFFERING)?;
        let names = first_register();
        searched_states(
            reach_program_states(scarce, &program, &names, 100),
            reach_program_states(ample, &program, &names, 100),
        )
    }
}

#[test]
fn searches_for_reports_where_memory_is_refused(rt: HostRuntime) {
    let source = count_requests(rt.alloc(), &ObservedSourceSearch);
    assert!(rt; matches!(source, Some(number) if number > 0), "{source:?}");
    let program = count_requests(rt.alloc(), &ObservedX86Search);
    assert!(rt;
        matches!(program, Some(number) if number > 0),
        "{program:?}"
    );
}

#[test]
fn searches_where_memory_is_refused(rt: HostRuntime) {
    let source = count_requests(rt.alloc(), &SourceSearch);
    assert!(rt; matches!(source, Some(number) if number > 0), "{source:?}");
    let program = count_requests(rt.alloc(), &X86Search);
    assert!(rt;
        matches!(program, Some(number) if number > 0),
        "{program:?}"
    );
}
