//! Lists that are made while memory is refused, each request in turn.
use lw_finals::{list_source, list_source_outcomes, list_x86, list_x86_outcomes};
use lw_outcome_map::{Listing, OutcomeList};
use lw_paths::ListFault;
use lw_test_reader::{Made, MadeByAllocator, Refusing, count_requests, program_of, source_of};
use std::alloc::Allocator;

/// Store buffering.
const STORE_BUFFERING: &str =
    "SRC SB {} P0|P1; x := 1 | y := 1; r0 := y | r0 := x; exists (0:r0=0 /\\ 1:r0=0)";

/// Store buffering in x86 instructions.
const X86_STORE_BUFFERING: &str =
    "X86 SB {} P0|P1; MOV [x],$1 | MOV [y],$1; MOV EAX,[y] | MOV EAX,[x]; exists (0:EAX=0 /\\ 1:EAX=0)";

/// Returns whether two lists have the same entries, in the same order.
fn are_same<A: Allocator>(listing: &Listing<A>, other: &Listing<A>) -> bool {
    if listing.len() != other.len() {
        return false;
    }
    for place in 0..listing.len() {
        if *listing.outcome(place) != *other.outcome(place) {
            return false;
        }
        if listing.schedule(place) != other.schedule(place) {
            return false;
        }
    }
    true
}

/// Compares a list that was made while memory was refused with the whole list of the same test. Returns `Whole` if they are the same,
/// `Refused` if the first was not made because memory ran out, and `None` otherwise.
fn compare_lists<A: Allocator>(
    listing: Result<Listing<A>, ListFault>,
    whole: Result<Listing<A>, ListFault>,
) -> Option<Made> {
    match (listing, whole) {
        (Ok(listing), Ok(whole)) => are_same(&listing, &whole).then_some(Made::Whole),
        (Err(ListFault::Memory), Ok(_)) => Some(Made::Refused),
        _ => None,
    }
}

/// Returns whether two lists without schedules have the same outcomes, in the same order.
fn are_same_outcomes<A: Allocator>(list: &OutcomeList<A>, other: &OutcomeList<A>) -> bool {
    if list.len() != other.len() {
        return false;
    }
    for place in 0..list.len() {
        if *list.outcome(place) != *other.outcome(place) {
            return false;
        }
    }
    true
}

/// Compares a list without schedules that was made while memory was refused with the whole one of the same test. Returns `Whole` if they
/// are the same, `Refused` if the first was not made because memory ran out, and `None` otherwise.
fn compare_outcome_lists<A: Allocator>(
    list: Result<OutcomeList<A>, ListFault>,
    whole: Result<OutcomeList<A>, ListFault>,
) -> Option<Made> {
    match (list, whole) {
        (Ok(list), Ok(whole)) => are_same_outcomes(&list, &whole).then_some(Made::Whole),
        (Err(ListFault::Memory), Ok(_)) => Some(Made::Refused),
        _ => None,
    }
}

/// Lists store buffering.
struct SourceList;

impl MadeByAllocator for SourceList {
    fn make<'a>(&self, ample: &'a Refusing, scarce: &'a Refusing) -> Option<Made> {
        let source = source_of(ample, STORE_BUFFERING)?;
        compare_lists(list_source(scarce, &source), list_source(ample, &source))
    }
}

/// Lists store buffering in x86 instructions.
struct X86List;

impl MadeByAllocator for X86List {
    fn make<'a>(&self, ample: &'a Refusing, scarce: &'a Refusing) -> Option<Made> {
        let program = program_of(ample, X86_STORE_BUFFERING)?;
        compare_lists(list_x86(scarce, &program), list_x86(ample, &program))
    }
}

/// Lists the outcomes of store buffering without schedules.
struct SourceOutcomes;

impl MadeByAllocator for SourceOutcomes {
    fn make<'a>(&self, ample: &'a Refusing, scarce: &'a Refusing) -> Option<Made> {
        let source = source_of(ample, STORE_BUFFERING)?;
        compare_outcome_lists(
            list_source_outcomes(scarce, &source),
            list_source_outcomes(ample, &source),
        )
    }
}

/// Lists the outcomes of store buffering in x86 instructions without schedules.
struct X86Outcomes;

impl MadeByAllocator for X86Outcomes {
    fn make<'a>(&self, ample: &'a Refusing, scarce: &'a Refusing) -> Option<Made> {
        let program = program_of(ample, X86_STORE_BUFFERING)?;
        compare_outcome_lists(
            list_x86_outcomes(scarce, &program),
            list_x86_outcomes(ample, &program),
        )
    }
}

#[test]
fn lists_where_memory_is_refused(rt: HostRuntime) {
    let lists = count_requests(rt.alloc(), &SourceList);
    assert!(rt; matches!(lists, Some(number) if number > 0), "{lists:?}");
    let x86_lists = count_requests(rt.alloc(), &X86List);
    assert!(rt;
        matches!(x86_lists, Some(number) if number > 0),
        "{x86_lists:?}"
    );
    let outcomes = count_requests(rt.alloc(), &SourceOutcomes);
    assert!(rt;
        matches!(outcomes, Some(number) if number > 0),
        "{outcomes:?}"
    );
    let x86_outcomes = count_requests(rt.alloc(), &X86Outcomes);
    assert!(rt;
        matches!(x86_outcomes, Some(number) if number > 0),
        "{x86_outcomes:?}"
    );
}
