//! The list of a test's states, each with a schedule that reaches it.
ghost use Rattle.std.specs.Prelude.{◌≡◌, ◌<◌, ◌≤◌, ◌++◌, length, map, codes, All, IfOk, OnOk};
ghost use Rattle.std.specs.List.{flat_map, AllByRecursion};
ghost use Rattle.std.specs.String.{string_bytes};
ghost use Rattle.lw_base.specs.Heads.{head_of};
ghost use Rattle.lw_base.specs.Limits.{most_threads};
ghost use Rattle.lw_base.specs.Schedules.{IsEvent};
ghost use Rattle.lw_outcome_map.specs.Listings.{outcomes_of, schedules_of};
ghost use Rattle.lw_report.specs.inner.Labels.{labelled_words, schedule_line};
ghost use Rattle.lw_report.specs.Reports.{schedule_list_text, scheduled, scheduled_lines};
ghost use Rattle.lw_report.specs.States.{ListedState, AreListedStates};

use crate::line::{observed_labels, write_state};
use crate::states::{State, States};
use lw_base::{Head, Text, write_schedule};
use lw_outcome_map::Listing;
use std::alloc::{AllocError, Allocator};

/// Renders the list of these states of a test with this head, each with the schedule of its entry in the listing. The
/// schedules name only the head's locations, and the states are those of the listing. Fails only if memory runs out.
pub fn write_schedules<A: Allocator + Copy>(
    alloc: A,
    head: &Head<A>,
    states: &States<A>,
    listing: &Listing<A>,
) -> Result<Text<A>, AllocError>
    requires threads { head.now.threads ≤ most_threads }
    requires schedules { All (AllByRecursion (IsEvent head.now.locs)) (schedules_of listing.now) }
    requires states { AreListedStates (head_of head.now) (outcomes_of listing.now) states.now }
    ensures { IfOk result (λ text. text ≡ schedule_list_text (head_of head.now) (map (scheduled (schedules_of listing.now)) states.now)) }
{
    let mut out = String::new(alloc);
    writeln!(out, "Test {}\nStates {}", head.name.as_str(), states.len())?;
    write_scheduled_states(&mut out, alloc, head, states.as_slice(), listing)?;
    Ok(Text::from(out))
}

/// Writes the lines of the states, each with its schedule.
fn write_scheduled_states<A: Allocator + Copy>(
    out: &mut String<A>,
    alloc: A,
    head: &Head<A>,
    states: &[State<A>],
    listing: &Listing<A>,
) -> Result<(), AllocError>
    requires threads { head.now.threads ≤ most_threads }
    requires schedules { All (AllByRecursion (IsEvent head.now.locs)) (schedules_of listing.now) }
    requires within { All (λ (s : ListedState). s.entry < length listing.now) states.now }
    ensures { OnOk result (string_bytes out.new ≡ string_bytes out.old
        ++ flat_map (λ (s : ListedState). scheduled_lines (head_of head.now) (scheduled (schedules_of listing.now) s)) states.now) }
{
    let labels = observed_labels(alloc, head)?;
    for state in states {
        write_scheduled_state(out, head, labels.as_slice(), state, listing)?;
    }
    Ok(())
}

/// Writes two lines: that of a state, and, after a space, that of its entry's schedule.
fn write_scheduled_state<A: Allocator>(
    out: &mut String<A>,
    head: &Head<A>,
    labels: &[Text<A>],
    state: &State<A>,
    listing: &Listing<A>,
) -> Result<(), AllocError>
    requires schedules { All (AllByRecursion (IsEvent head.now.locs)) (schedules_of listing.now) }
    requires within { state.now.entry < length listing.now }
    ensures { OnOk result (string_bytes out.new ≡ string_bytes out.old
        ++ ((labelled_words labels.now state.now.words ++ codes "\n") ++ schedule_line head.now.locs (schedules_of listing.now) state.now.entry)) }
{
    write_state(out, labels, state.words.as_slice())?;
    out.push(' ')?;
    write_schedule(out, listing.schedule(state.entry), &head.locs)?;
    out.push('\n')
}
