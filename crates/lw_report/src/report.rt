//! The report of a test's states.
ghost use Rattle.std.specs.Prelude.{◌≡◌, ◌≤◌, ◌++◌, length, map, IfOk, OnOk};
ghost use Rattle.std.specs.List.{flat_map};
ghost use Rattle.std.specs.String.{string_bytes};
ghost use Rattle.lw_base.specs.Heads.{head_of};
ghost use Rattle.lw_base.specs.Limits.{most_threads};
ghost use Rattle.lw_base.specs.WellFormed.{MentionsLocationsBelow};
ghost use Rattle.lw_base.specs.Propositions.{formula_of};
ghost use Rattle.lw_report.specs.Judgement as judgement;
ghost use Rattle.lw_report.specs.Judgement.{positive, negative};
ghost use Rattle.lw_report.specs.inner.Labels.{labels};
ghost use Rattle.lw_report.specs.Reports.{title_line, state_line, count_line, observation_line, claim_line, judgement_lines, report_text};
ghost use Rattle.lw_report.specs.States.{ListedState, projection_of};

use crate::judgement::{Claim, Counts, Verdict, kind_text, observation_of, verdict_of};
use crate::line::{observed_labels, write_state};
use crate::states::{State, States};
use lw_base::{Head, Text, write_condition};
use std::alloc::{AllocError, Allocator};

/// Returns the verdict on a head's condition, for these states and the claim on them. Does not allocate.
pub fn verdict<A: Allocator>(head: &Head<A>, states: &States<A>, claim: Claim) -> Verdict
    ensures { result ≡ judgement.verdict_of claim head.now.quant (positive (map projection_of states.now)) (negative (map projection_of states.now)) }
{
    verdict_of(claim, head.quant, counts_of(states.as_slice()))
}

/// Renders the report of these states of a test with this head. Fails only if memory runs out.
pub fn write_report<A: Allocator + Copy>(
    alloc: A,
    head: &Head<A>,
    states: &States<A>,
    claim: Claim,
) -> Result<Text<A>, AllocError>
    requires threads { head.now.threads ≤ most_threads }
    requires locations { MentionsLocationsBelow (length head.now.locs) (formula_of head.now.prop) }
    ensures { IfOk result (λ text. text ≡ report_text (head_of head.now) claim (map projection_of states.now)) }
{
    let mut out = String::new(alloc);
    write_title(&mut out, head, states.len())?;
    write_states(&mut out, alloc, head, states.as_slice())?;
    write_judgement(&mut out, alloc, head, claim, counts_of(states.as_slice()))?;
    Ok(Text::from(out))
}

/// Counts the states in which the proposition is true, and those in which it is false.
fn counts_of<A: Allocator>(states: &[State<A>]) -> Counts
    ensures positive { result.positive ≡ positive (map projection_of states.now) }
    ensures negative { result.negative ≡ negative (map projection_of states.now) }
{
    let mut positive = 0;
    for state in states {
        positive += usize::from(state.holds);
    }
    Counts {
        positive,
        negative: states.len() - positive,
    }
}

/// Writes the first two lines: the test's name with the kind of its condition, and the number of states, `states`.
fn write_title<A: Allocator>(
    out: &mut String<A>,
    head: &Head<A>,
    states: usize,
) -> Result<(), AllocError>
    ensures { OnOk result (string_bytes out.new ≡ string_bytes out.old ++ (title_line (head_of head.now) ++ count_line states)) }
{
    writeln!(
        out,
        "Test {} {}\nStates {}",
        head.name.as_str(),
        kind_text(head.quant),
        states
    )
}

/// Writes the lines of the states.
fn write_states<A: Allocator + Copy>(
    out: &mut String<A>,
    alloc: A,
    head: &Head<A>,
    states: &[State<A>],
) -> Result<(), AllocError>
    requires { head.now.threads ≤ most_threads }
    ensures { OnOk result (string_bytes out.new ≡ string_bytes out.old
        ++ flat_map (λ (s : ListedState). state_line (head_of head.now) s.words) states.now) }
{
    let labels = observed_labels(alloc, head)?;
    for state in states {
        write_state(out, labels.as_slice(), state.words.as_slice())?;
    }
    Ok(())
}

/// Writes what follows the states: the verdict, the numbers of states, the condition and the observation.
fn write_judgement<A: Allocator>(
    out: &mut String<A>,
    alloc: A,
    head: &Head<A>,
    claim: Claim,
    counts: Counts,
) -> Result<(), AllocError>
    requires { MentionsLocationsBelow (length head.now.locs) (formula_of head.now.prop) }
    ensures { OnOk result (string_bytes out.new
        ≡ string_bytes out.old ++ judgement_lines (head_of head.now) claim counts.positive counts.negative) }
{
    let condition = write_condition(alloc, head)?;
    writeln!(
        out,
        "{}\nPositive: {} Negative: {}\nCondition {}",
        verdict_of(claim, head.quant, counts).word(),
        counts.positive,
        counts.negative,
        condition.as_str()
    )?;
    write_observation(out, head, claim, counts)
}

/// Writes the observation, and the line of the claim if the states may not be all.
fn write_observation<A: Allocator>(
    out: &mut String<A>,
    head: &Head<A>,
    claim: Claim,
    counts: Counts,
) -> Result<(), AllocError>
    ensures { OnOk result (string_bytes out.new ≡ string_bytes out.old
        ++ (observation_line (head_of head.now) claim counts.positive counts.negative ++ claim_line claim)) }
{
    write!(
        out,
        "Observation {} {} {} {}\n{}",
        head.name.as_str(),
        observation_of(claim, counts).word(),
        counts.positive,
        counts.negative,
        claim.line()
    )
}
