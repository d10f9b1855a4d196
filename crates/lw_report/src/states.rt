//! The states of a report: the observed words of each outcome, sorted, without duplicates.
ghost use Rattle.std.specs.Prelude.{◌≡◌, ◌≤◌, length, All, IfOk};
ghost use Rattle.std.specs.List.Sorted.{IsSorted};
ghost use Rattle.lw_base.specs.Heads.{head_of};
ghost use Rattle.lw_base.specs.Limits.{most_threads};
ghost use Rattle.lw_base.specs.Outcomes.{HasOutcomeShape};
ghost use Rattle.lw_base.specs.Propositions.{formula_of};
ghost use Rattle.lw_base.specs.WellFormed.{MentionsOnly};
ghost use Rattle.lw_outcome_map.specs.Listings.{outcomes_of};
ghost use Rattle.lw_report.specs.inner.UnsortedStates.{state_at, state_cmp, AreStatesOfFirst, AreFirstStates};
ghost use Rattle.lw_report.specs.Observed as specs;
ghost use Rattle.lw_report.specs.States.{AreListedStates};

use crate::projection::{observed, words_of};
use crate::truth::holds;
use lw_base::{Head, Outcome, Seen, Sequence, Word};
use lw_outcome_map::Listing;
use std::alloc::{AllocError, Allocator, Global};
use std::marker::Model;

/// The state of an outcome in a report. States are ordered by their words, then by their entries.
#[derive(Drop)]
#[derive_where(PartialEq, Eq, PartialOrd, Ord)]
pub struct State<A: Allocator = Global> {
    /// The words of the observed names.
    pub words: Sequence<Word, A>,
    /// The index, in the listing, of the smallest outcome with these words.
    pub entry: usize,
    /// Whether the test's proposition is true in the state.
    pub holds: bool,
}

impl<A: Allocator> Model for State<A> {
    ghost use Rattle.lw_report.specs.States.{ListedState};

    ghost Value = { ListedState };

    ghost view = { λ s. record { words = s.words; entry = s.entry; holds = s.holds } };

    ghost inverse = { λ s. record { words = s.words; entry = s.entry; holds = s.holds } };
}

/// The states of a test, sorted by their words, without duplicates.
pub type States<A = Global> = Sequence<State<A>, A>;

/// Returns the states of the listed outcomes of a test with this head, each with the index of the smallest outcome
/// with its words and the truth of the test's proposition. The outcomes have the head's threads and locations, and
/// its proposition names no others. Fails only if memory runs out.
pub fn states_of<A: Allocator + Copy, K>(
    alloc: A,
    head: &Head<A>,
    listing: &Listing<A, K>,
) -> Result<States<A>, AllocError>
    requires threads { head.now.threads ≤ most_threads }
    requires condition { MentionsOnly head.now.threads (length head.now.locs) (formula_of head.now.prop) }
    requires outcomes { All (HasOutcomeShape head.now.threads (length head.now.locs)) (outcomes_of listing.now) }
    ensures { IfOk result (λ states. AreListedStates (head_of head.now) (outcomes_of listing.now) states) }
{
    let mut states = unsorted_states(alloc, head, listing)?;
    states.sort_unstable();
    Ok(first_of_each(states))
}

/// Returns the states of all outcomes of a listing, one for each outcome, not yet sorted.
fn unsorted_states<A: Allocator + Copy, K>(
    alloc: A,
    head: &Head<A>,
    listing: &Listing<A, K>,
) -> Result<Vec<State<A>, A>, AllocError>
    requires threads { head.now.threads ≤ most_threads }
    requires condition { MentionsOnly head.now.threads (length head.now.locs) (formula_of head.now.prop) }
    requires outcomes { All (HasOutcomeShape head.now.threads (length head.now.locs)) (outcomes_of listing.now) }
    ensures { IfOk result (λ states. AreStatesOfFirst (head_of head.now) (outcomes_of listing.now) (length listing.now) states.items) }
{
    let names = observed(alloc, head)?;
    let states = project_outcomes(alloc, head, names.as_slice(), listing);
    drop(names);
    states
}

/// Returns the states of all outcomes of a listing, one for each outcome, for these observed names.
fn project_outcomes<A: Allocator + Copy, K>(
    alloc: A,
    head: &Head<A>,
    names: &[Seen],
    listing: &Listing<A, K>,
) -> Result<Vec<State<A>, A>, AllocError>
    requires condition { MentionsOnly head.now.threads (length head.now.locs) (formula_of head.now.prop) }
    requires names { names.now ≡ specs.observed (head_of head.now) }
    requires outcomes { All (HasOutcomeShape head.now.threads (length head.now.locs)) (outcomes_of listing.now) }
    ensures { IfOk result (λ states. AreStatesOfFirst (head_of head.now) (outcomes_of listing.now) (length listing.now) states.items) }
{
    let mut states = Vec::with_capacity(alloc, listing.len())?;
    for entry in 0..listing.len() {
        states.push(state_of(alloc, head, names, listing.outcome(entry), entry)?)?;
    }
    Ok(states)
}

/// Returns the state of an outcome: its words of the observed names, its index in the listing (`entry`), and whether
/// the proposition is true in it.
fn state_of<A: Allocator + Copy>(
    alloc: A,
    head: &Head<A>,
    names: &[Seen],
    outcome: &Outcome<A>,
    entry: usize,
) -> Result<State<A>, AllocError>
    requires condition { MentionsOnly head.now.threads (length head.now.locs) (formula_of head.now.prop) }
    requires names { names.now ≡ specs.observed (head_of head.now) }
    requires outcome { HasOutcomeShape head.now.threads (length head.now.locs) outcome.now }
    ensures { IfOk result (λ state. state ≡ state_at (head_of head.now) entry outcome.now) }
{
    Ok(State {
        words: words_of(alloc, names, outcome)?,
        entry,
        holds: holds(&head.prop, outcome),
    })
}

/// Returns the first of each run of sorted states with the same words. Its entry is the smallest, since states with the same words
/// are sorted by their entries.
fn first_of_each<A: Allocator>(sorted: Vec<State<A>, A>) -> States<A>
    requires { IsSorted state_cmp sorted.items }
    ensures { AreFirstStates sorted.items result }
{
    let mut states = sorted;
    states.dedup_by(|later, first| later.words == first.words);
    Sequence::from(states)
}
