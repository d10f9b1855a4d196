//! Complete lists of source tests whose outcomes and schedules are worked out by hand.
use lw_base::{Arch, Head, Outcome, Sequence, Word, read_schedule, reg_from_name};
use lw_finals::{list_source, list_source_outcomes};
use lw_litmus::Source;
use lw_outcome_map::{Listing, OutcomeList};
use lw_test_reader::source_of;
use std::alloc::Global;

/// Returns the outcome that these words spell, such as `1:r0=1 x=2`. A register or a location that none of them names
/// is 0.
fn outcome_of(alloc: Global, head: &Head, words: &str) -> Option<Outcome> {
    let mut regs = [[0; 6]; 4];
    let mut memory = [0; 8];
    for word in words.split(' ') {
        let (place, digits) = word.split_once('=')?;
        let value = digits.parse::<Word>().ok()?;
        match place.split_once(':') {
            Some((cpu, name)) => {
                let reg = reg_from_name(Arch::Source, name)?;
                let thread = regs.get_mut(cpu.parse::<usize>().ok()?)?;
                thread[reg.index()] = value;
            }
            None => memory[head.locs.find(place)?.index()] = value,
        }
    }
    let regs = Sequence::from_slice(alloc, regs.get(..head.threads)?).ok()?;
    let words = Sequence::from_slice(alloc, memory.get(..head.locs.len())?).ok()?;
    Some(Outcome { regs, words })
}

/// Returns whether the listing has this outcome at this index, and `find` returns the index.
fn has_outcome(listing: &Listing, place: usize, outcome: &Outcome) -> bool {
    place < listing.len()
        && *listing.outcome(place) == *outcome
        && listing.find(outcome) == Some(place)
}

/// Returns whether the listing has the outcome that these words spell at this index, and `find` returns the index.
fn is_found(
    alloc: Global,
    head: &Head,
    listing: &Listing,
    place: usize,
    words: &str,
) -> Option<bool> {
    let outcome = outcome_of(alloc, head, words)?;
    Some(has_outcome(listing, place, &outcome))
}

/// Returns whether the listing has this schedule at this index.
fn has_schedule(
    alloc: Global,
    head: &Head,
    listing: &Listing,
    place: usize,
    schedule: &str,
) -> bool {
    match read_schedule(alloc, schedule, &head.locs) {
        Ok(events) => place < listing.len() && listing.schedule(place) == events.as_slice(),
        Err(_) => false,
    }
}

/// Returns whether the listing has the entry at this index. An entry is an outcome, which `find` must find there, and after ` by ` its
/// schedule, if that is tested.
fn is_entry(
    alloc: Global,
    head: &Head,
    listing: &Listing,
    place: usize,
    entry: &str,
) -> Option<bool> {
    match entry.split_once(" by ") {
        Some((words, schedule)) => Some(
            is_found(alloc, head, listing, place, words)?
                && has_schedule(alloc, head, listing, place, schedule),
        ),
        None => is_found(alloc, head, listing, place, entry),
    }
}

/// Returns whether these are the entries of the listing, in this order.
fn are_entries(alloc: Global, head: &Head, listing: &Listing, entries: &str) -> Option<bool> {
    let mut count = 0usize;
    for entry in entries.split(", ") {
        if !is_entry(alloc, head, listing, count, entry)? {
            return Some(false);
        }
        count = count.saturating_add(1);
    }
    Some(listing.len() == count && !listing.is_empty())
}

/// Returns whether none of these outcomes is in the listing.
fn are_missing(alloc: Global, head: &Head, listing: &Listing, outcomes: &str) -> Option<bool> {
    for words in outcomes.split(", ") {
        if listing.find(&outcome_of(alloc, head, words)?).is_some() {
            return Some(false);
        }
    }
    Some(true)
}

/// Returns whether a listing is as a line says: it has the entries before ` but not ` and no others, in this order, and none of the
/// outcomes after it.
fn has_entries_of_line(
    alloc: Global,
    head: &Head,
    listing: &Listing,
    expected: &str,
) -> Option<bool> {
    let (entries, missing) = expected.split_once(" but not ")?;
    Some(are_entries(alloc, head, listing, entries)? && are_missing(alloc, head, listing, missing)?)
}

/// Returns whether a list without schedules has the outcomes of a listing, in the same order.
fn has_outcomes_of(list: &OutcomeList, listing: &Listing) -> bool {
    if list.len() != listing.len() {
        return false;
    }
    for place in 0..listing.len() {
        if *list.outcome(place) != *listing.outcome(place) {
            return false;
        }
    }
    true
}

/// Returns whether the list that is made of a test without schedules has the outcomes of a listing, in the same order.
fn is_listed_without_schedules(alloc: Global, source: &Source, listing: &Listing) -> bool {
    match list_source_outcomes(alloc, source) {
        Ok(list) => has_outcomes_of(&list, listing),
        Err(_) => false,
    }
}

/// Returns whether the list of a test with schedules is as a line says, and the list without them has the same outcomes.
fn is_listed(alloc: Global, source: &Source, expected: &str) -> bool {
    match list_source(alloc, source) {
        Ok(listing) => {
            has_entries_of_line(alloc, &source.head, &listing, expected) == Some(true)
                && is_listed_without_schedules(alloc, source, &listing)
        }
        Err(_) => false,
    }
}

/// Store buffering; message passing; load buffering; independent reads of independent writes; two stores each to two locations;
/// store buffering by swaps, and with loads of the threads' own stores first; five stores against four; additions to a counter;
/// and a test of no statement.
const LISTS: &str = "
SRC SB {} P0|P1; x := 1 | y := 1; r0 := y | r0 := x; exists (0:r0=0 /\\ 1:r0=0) => 1:r0=1 x=1 y=1 by P0 D0 P0 P0 P1 D1 P1 P1, 0:r0=1 x=1 y=1 by P1 D1 P1 P1 P0 D0 P0 P0, 0:r0=1 1:r0=1 x=1 y=1 by P0 D0 P1 D1 P0 P0 P1 P1 but not x=1 y=1, 1:r0=1 x=1, 0:r0=1 1:r0=2 x=1 y=1, 0:r0=1 1:r0=1 0:r1=1 x=1 y=1
SRC MP {} P0|P1; x := 1 | r0 := y; y := 1 | r1 := x; ~exists (1:r0=1 /\\ 1:r1=0) => x=1 y=1, 1:r1=1 x=1 y=1, 1:r0=1 1:r1=1 x=1 y=1 but not 1:r0=1 x=1 y=1
SRC LB {} P0|P1; r0 := x | r0 := y; y := 1 | x := 1; exists (0:r0=1 /\\ 1:r0=1) => x=1 y=1, 1:r0=1 x=1 y=1, 0:r0=1 x=1 y=1 but not 0:r0=1 1:r0=1 x=1 y=1
SRC IRIW {} P0|P1|P2|P3; x := 1 | y := 1 | r0 := x | r0 := y; | | r1 := y | r1 := x; exists (2:r0=1 /\\ 2:r1=0 /\\ 3:r0=1 /\\ 3:r1=0) => x=1 y=1, 3:r1=1 x=1 y=1, 3:r0=1 x=1 y=1, 3:r0=1 3:r1=1 x=1 y=1, 2:r1=1 x=1 y=1, 2:r1=1 3:r1=1 x=1 y=1, 2:r1=1 3:r0=1 x=1 y=1, 2:r1=1 3:r0=1 3:r1=1 x=1 y=1, 2:r0=1 x=1 y=1, 2:r0=1 3:r1=1 x=1 y=1, 2:r0=1 3:r0=1 3:r1=1 x=1 y=1, 2:r0=1 2:r1=1 x=1 y=1, 2:r0=1 2:r1=1 3:r1=1 x=1 y=1, 2:r0=1 2:r1=1 3:r0=1 x=1 y=1, 2:r0=1 2:r1=1 3:r0=1 3:r1=1 x=1 y=1 but not 2:r0=1 3:r0=1 x=1 y=1
SRC 2+2W {} P0|P1; x := 1 | y := 1; y := 2 | x := 2; exists (x=1 /\\ y=1) => x=1 y=2, x=2 y=1, x=2 y=2 but not x=1 y=1
SRC SB+swaps { 0:r1=1; 1:r1=1; } P0|P1; r0 := swap x r1 | r0 := swap y r1; r2 := y | r2 := x; exists (0:r2=0 /\\ 1:r2=0) => 0:r1=1 1:r1=1 1:r2=1 x=1 y=1, 0:r1=1 0:r2=1 1:r1=1 x=1 y=1, 0:r1=1 0:r2=1 1:r1=1 1:r2=1 x=1 y=1 but not 0:r1=1 1:r1=1 x=1 y=1
SRC SB+own {} P0|P1; x := 1 | y := 1; r0 := x | r0 := y; r1 := y | r1 := x; exists (0:r1=0 /\\ 1:r1=0) => 0:r0=1 1:r0=1 1:r1=1 x=1 y=1, 0:r0=1 0:r1=1 1:r0=1 x=1 y=1, 0:r0=1 0:r1=1 1:r0=1 1:r1=1 x=1 y=1 but not 0:r0=1 1:r0=1 x=1 y=1
SRC WW {} P0|P1; x := 1 | x := 6; x := 2 | x := 7; x := 3 | x := 8; x := 4 | x := 9; x := 5 |; exists (true) => x=5, x=9 but not x=0, x=4, x=8
SRC FA { 0:r1=1; 1:r1=1; } P0|P1; r0 := fetchadd x r1 | r0 := fetchadd x r1; locations [0:r0; 1:r0;] forall (x=2) => 0:r1=1 1:r0=1 1:r1=1 x=2 by P0 P0 P1 P1, 0:r0=1 0:r1=1 1:r1=1 x=2 by P1 P1 P0 P0 but not 0:r1=1 1:r1=1 x=2, 0:r1=1 1:r1=1 x=1
SRC NONE { 0:r5=7; x=9; } P0|P1; exists (true) => 0:r5=7 x=9 but not x=9, 1:r5=7 x=9
";

/// Returns whether the lists of a line's test are as the line says.
fn holds(alloc: Global, line: &str) -> bool {
    let (text, expected) = line.split_once(" => ").unwrap_or((line, ""));
    match source_of(alloc, text) {
        Some(source) => is_listed(alloc, &source, expected),
        None => false,
    }
}

#[test]
fn worked_lists(rt: HostRuntime) {
    for line in LISTS.split('\n') {
        assert!(rt; line.is_empty() || holds(rt.alloc(), line), "{line}");
    }
}
