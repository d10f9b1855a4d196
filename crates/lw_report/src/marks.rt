//! The list that `beyond marks` prints: a test's states, each after `+` if the proposition is true in it, and after `-`
//! otherwise.
ghost use Rattle.std.specs.Prelude.{◌≡◌, ◌≤◌, ◌++◌, map, IfOk, OnOk};
ghost use Rattle.std.specs.List.{flat_map};
ghost use Rattle.std.specs.String.{string_bytes};
ghost use Rattle.lw_base.specs.Heads.{head_of};
ghost use Rattle.lw_base.specs.Limits.{most_threads};
ghost use Rattle.lw_report.specs.Reports.{mark_text, marked_line, marked_list_text};
ghost use Rattle.lw_report.specs.States.{ListedState, projection_of};

use crate::line::{observed_labels, write_state};
use crate::states::{State, States};
use lw_base::{Head, Text};
use std::alloc::{AllocError, Allocator};

/// Renders the list of these states of a test with this head: a line for each, which begins with `+` if the
/// proposition is true in it, and with `-` otherwise. Fails only if memory runs out.
pub fn write_marks<A: Allocator + Copy>(
    alloc: A,
    head: &Head<A>,
    states: &States<A>,
) -> Result<Text<A>, AllocError>
    requires { head.now.threads ≤ most_threads }
    ensures { IfOk result (λ text. text ≡ marked_list_text (head_of head.now) (map projection_of states.now)) }
{
    let mut out = String::new(alloc);
    write_marked_states(&mut out, alloc, head, states.as_slice())?;
    Ok(Text::from(out))
}

/// Writes the lines of the states, each after its mark.
fn write_marked_states<A: Allocator + Copy>(
    out: &mut String<A>,
    alloc: A,
    head: &Head<A>,
    states: &[State<A>],
) -> Result<(), AllocError>
    requires { head.now.threads ≤ most_threads }
    ensures { OnOk result (string_bytes out.new ≡ string_bytes out.old
        ++ flat_map (λ (s : ListedState). marked_line (head_of head.now) (projection_of s)) states.now) }
{
    let labels = observed_labels(alloc, head)?;
    for state in states {
        out.push_str(mark(state.holds))?;
        write_state(out, labels.as_slice(), state.words.as_slice())?;
    }
    Ok(())
}

/// Returns the mark of a state, with a space after it, by whether the proposition holds in the state.
fn mark(holds: bool) -> &'static str
    ensures { result.now ≡ mark_text holds }
{
    if holds { "+ " } else { "- " }
}
