//! Verdicts, observations and the words of observed names, as values. Those under the claim
//! `Exact` are also in the reports of the folder `tables`. Those under the claim `Listed` are tested here alone.
ghost use Rattle.std.specs.Prelude.{◌≤◌, length, All};
ghost use Rattle.lw_base.specs.Limits.{most_threads};
ghost use Rattle.lw_base.specs.Outcomes.{HasOutcomeShape};
ghost use Rattle.lw_base.specs.Propositions.{formula_of};
ghost use Rattle.lw_base.specs.WellFormed.{MentionsLocationsBelow, MentionsOnly};
ghost use Rattle.lw_outcome_map.specs.Listings.{outcomes_of};

use lw_base::{Head, Word};
use lw_finals::{list_source, list_x86};
use lw_litmus::{Program, Source};
use lw_outcome_map::{Listing, OutcomeMap};
use lw_report::{Claim, States, Verdict, project, states_of, verdict, write_report};
use lw_test_reader::{program_of, source_of};
use std::alloc::Global;

/// Returns the printed word of a verdict.
fn word_of(verdict: Verdict) -> &'static str {
    match verdict {
        Verdict::Ok => "Ok",
        Verdict::No => "No",
        Verdict::Unknown => "Unknown",
    }
}

/// Message passing; and two stores to a location: `x` ends as 1 or as 2, so `x=0` is true in neither state, `x=1` in one, and
/// `~x=0` in both. After ` => ` each line has the last lines of the report under the claim `Listed`. The first of them is
/// the verdict.
const LISTED: &str = "
SRC MP {} P0|P1; x := 1 | r0 := y; y := 1 | r1 := x; ~exists (1:r0=1 /\\ 1:r1=0) => Unknown; Positive: 0 Negative: 3; Condition ~exists (1:r0=1 /\\ 1:r1=0); Observation MP Unknown 0 3; Listed, not claimed complete
SRC A {} P0|P1; x := 1 | x := 2; exists (x=0) => Unknown; Positive: 0 Negative: 2; Condition exists (x=0); Observation A Unknown 0 2; Listed, not claimed complete
SRC A {} P0|P1; x := 1 | x := 2; ~exists (x=0) => Unknown; Positive: 0 Negative: 2; Condition ~exists (x=0); Observation A Unknown 0 2; Listed, not claimed complete
SRC A {} P0|P1; x := 1 | x := 2; forall (x=0) => No; Positive: 0 Negative: 2; Condition forall (x=0); Observation A Unknown 0 2; Listed, not claimed complete
SRC A {} P0|P1; x := 1 | x := 2; exists (x=1) => Ok; Positive: 1 Negative: 1; Condition exists (x=1); Observation A Sometimes 1 1; Listed, not claimed complete
SRC A {} P0|P1; x := 1 | x := 2; ~exists (x=1) => No; Positive: 1 Negative: 1; Condition ~exists (x=1); Observation A Sometimes 1 1; Listed, not claimed complete
SRC A {} P0|P1; x := 1 | x := 2; forall (x=1) => No; Positive: 1 Negative: 1; Condition forall (x=1); Observation A Sometimes 1 1; Listed, not claimed complete
SRC A {} P0|P1; x := 1 | x := 2; exists (~x=0) => Ok; Positive: 2 Negative: 0; Condition exists (~x=0); Observation A Unknown 2 0; Listed, not claimed complete
SRC A {} P0|P1; x := 1 | x := 2; ~exists (~x=0) => No; Positive: 2 Negative: 0; Condition ~exists (~x=0); Observation A Unknown 2 0; Listed, not claimed complete
SRC A {} P0|P1; x := 1 | x := 2; forall (~x=0) => Unknown; Positive: 2 Negative: 0; Condition forall (~x=0); Observation A Unknown 2 0; Listed, not claimed complete
";

/// X86 tests, with the last lines of the same reports: store buffering, message passing, independent reads of independent writes, two
/// stores each to two locations, store buffering with loads of the threads' own stores first and with fences that are jumped over, and a
/// test of no statement.
const LISTED_OF_X86: &str = "
X86 SB {} P0|P1; MOV [x],$1 | MOV [y],$1; MOV EAX,[y] | MOV EAX,[x]; exists (0:EAX=0 /\\ 1:EAX=0) => Ok; Positive: 1 Negative: 3; Condition exists (0:EAX=0 /\\ 1:EAX=0); Observation SB Sometimes 1 3; Listed, not claimed complete
X86 MP {} P0|P1; MOV [x],$1 | MOV EAX,[y]; MOV [y],$1 | MOV EBX,[x]; ~exists (1:EAX=1 /\\ 1:EBX=0) => Unknown; Positive: 0 Negative: 3; Condition ~exists (1:EAX=1 /\\ 1:EBX=0); Observation MP Unknown 0 3; Listed, not claimed complete
X86 IRIW {} P0|P1|P2|P3; MOV [x],$1 | MOV [y],$1 | MOV EAX,[x] | MOV EAX,[y]; | | MOV EBX,[y] | MOV EBX,[x]; exists (2:EAX=1 /\\ 2:EBX=0 /\\ 3:EAX=1 /\\ 3:EBX=0) => Unknown; Positive: 0 Negative: 15; Condition exists (2:EAX=1 /\\ 2:EBX=0 /\\ 3:EAX=1 /\\ 3:EBX=0); Observation IRIW Unknown 0 15; Listed, not claimed complete
X86 2+2W {} P0|P1; MOV [x],$1 | MOV [y],$1; MOV [y],$2 | MOV [x],$2; exists (x=1 /\\ y=1) => Unknown; Positive: 0 Negative: 3; Condition exists (x=1 /\\ y=1); Observation 2+2W Unknown 0 3; Listed, not claimed complete
X86 OWN {} P0|P1; MOV [x],$1 | MOV [y],$1; MOV EAX,[x] | MOV EAX,[y]; MOV EBX,[y] | MOV EBX,[x]; locations [0:EAX; 1:EAX] exists (0:EBX=0 /\\ 1:EBX=0) => Ok; Positive: 1 Negative: 3; Condition exists (0:EBX=0 /\\ 1:EBX=0); Observation OWN Sometimes 1 3; Listed, not claimed complete
X86 JUMPED {} P0|P1; MOV [x],$1 | MOV [y],$1; CMP EAX,$0 | CMP EAX,$0; JE L | JE L; MFENCE | MFENCE; L: MOV EBX,[y] | L: MOV EBX,[x]; exists (0:EBX=0 /\\ 1:EBX=0) => Ok; Positive: 1 Negative: 3; Condition exists (0:EBX=0 /\\ 1:EBX=0); Observation JUMPED Sometimes 1 3; Listed, not claimed complete
X86 EMPTY {} P0; exists (true) => Ok; Positive: 1 Negative: 0; Condition exists (true); Observation EMPTY Unknown 1 0; Listed, not claimed complete
";

/// Tests, with the last lines of the reports of which no outcome is listed.
const LISTED_NOTHING: &str = "
SRC A {} P0; exists (true) => Unknown; Positive: 0 Negative: 0; Condition exists (true); Observation A Unknown 0 0; Listed, not claimed complete
SRC A {} P0; ~exists (true) => Unknown; Positive: 0 Negative: 0; Condition ~exists (true); Observation A Unknown 0 0; Listed, not claimed complete
SRC A {} P0; forall (false) => Unknown; Positive: 0 Negative: 0; Condition forall (false); Observation A Unknown 0 0; Listed, not claimed complete
";

/// Returns whether the verdict and the end of the report of these states under the claim `Listed` are as expected.
fn are_judged(alloc: Global, head: &Head, states: &States, expected: &str) -> bool
    requires threads { head.now.threads ≤ most_threads }
    requires locations { MentionsLocationsBelow (length head.now.locs) (formula_of head.now.prop) }
{
    let word = word_of(verdict(head, states, Claim::Listed));
    match write_report(alloc, head, states, Claim::Listed) {
        Ok(report) => {
            expected.starts_with(word)
                && report
                    .as_str()
                    .lines()
                    .skip(states.len().saturating_add(2))
                    .eq(expected.split("; "))
        }
        Err(_) => false,
    }
}

/// Returns whether the verdict and the end of the report of a listing's states under the claim `Listed` are as expected.
fn is_judged(alloc: Global, head: &Head, listing: &Listing, expected: &str) -> bool
    requires threads { head.now.threads ≤ most_threads }
    requires condition { MentionsOnly head.now.threads (length head.now.locs) (formula_of head.now.prop) }
    requires outcomes { All (HasOutcomeShape head.now.threads (length head.now.locs)) (outcomes_of listing.now) }
{
    match states_of(alloc, head, listing) {
        Ok(states) => are_judged(alloc, head, &states, expected),
        Err(_) => false,
    }
}

/// Returns whether the verdict and the end of the report of a source test's listing under the claim `Listed` are as expected.
fn is_source_judged(alloc: Global, source: &Source, expected: &str) -> bool {
    match list_source(alloc, source) {
        Ok(listing) => is_judged(alloc, &source.head, &listing, expected),
        Err(_) => false,
    }
}

/// Returns whether the verdict and the end of the report of an x86 test's listing under the claim `Listed` are as expected.
fn is_x86_judged(alloc: Global, program: &Program, expected: &str) -> bool {
    match list_x86(alloc, program) {
        Ok(listing) => is_judged(alloc, &program.head, &listing, expected),
        Err(_) => false,
    }
}

/// Returns whether the verdict and the end of the report of the empty listing under the claim `Listed` are as expected.
fn is_none_judged(alloc: Global, source: &Source, expected: &str) -> bool {
    let Ok(listing) = OutcomeMap::new(alloc).into_listing() else {
        return false;
    };
    listing.is_empty() && is_judged(alloc, &source.head, &listing, expected)
}

/// Returns whether the verdict and the report of a line's source test are as the line says.
fn holds(alloc: Global, line: &str) -> bool {
    let (text, expected) = line.split_once(" => ").unwrap_or((line, ""));
    match source_of(alloc, text) {
        Some(source) => is_source_judged(alloc, &source, expected),
        None => false,
    }
}

/// Returns whether the verdict and the report of a line's x86 test are as the line says.
fn holds_of_x86(alloc: Global, line: &str) -> bool {
    let (text, expected) = line.split_once(" => ").unwrap_or((line, ""));
    match program_of(alloc, text) {
        Some(program) => is_x86_judged(alloc, &program, expected),
        None => false,
    }
}

/// Returns whether the verdict and the report of a line's source test are as the line says if nothing is listed.
fn holds_of_none(alloc: Global, line: &str) -> bool {
    let (text, expected) = line.split_once(" => ").unwrap_or((line, ""));
    match source_of(alloc, text) {
        Some(source) => is_none_judged(alloc, &source, expected),
        None => false,
    }
}

#[test]
fn verdicts_and_observations(rt: HostRuntime) {
    for line in LISTED.split('\n') {
        assert!(rt; line.is_empty() || holds(rt.alloc(), line), "{line}");
    }
    for line in LISTED_OF_X86.split('\n') {
        assert!(rt; line.is_empty() || holds_of_x86(rt.alloc(), line), "{line}");
    }
    for line in LISTED_NOTHING.split('\n') {
        assert!(rt;
            line.is_empty() || holds_of_none(rt.alloc(), line),
            "{line}"
        );
    }
}

/// Store buffering.
const STORE_BUFFERING: &str =
    "SRC SB {} P0|P1; x := 1 | y := 1; r0 := y | r0 := x; forall (0:r0=1 \\/ 1:r0=1)";

/// Returns whether the names in the condition of a source test have these words in the first outcome of its listing.
fn is_first_projection(alloc: Global, source: &Source, words: &[Word]) -> bool {
    let Ok(listing) = list_source(alloc, source) else {
        return false;
    };
    if listing.is_empty() {
        return false;
    }
    match project(alloc, &source.head, listing.outcome(0)) {
        Ok(projected) => projected.as_slice() == words,
        Err(_) => false,
    }
}

#[test]
fn words_of_the_observed_names(rt: HostRuntime) {
    let is_first = match source_of(rt.alloc(), STORE_BUFFERING) {
        Some(source) => is_first_projection(rt.alloc(), &source, &[0, 1]),
        None => false,
    };
    assert!(rt; is_first);
}
