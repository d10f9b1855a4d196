//! The reduced pairs of the items of a path assignment: an item's preserved pair with the last statement before it, and
//! that with the last drain, of a drain or of an item that waits for drains. They are few, and have the same
//! transitive closure as all preserved pairs.
ghost use Rattle.std.specs.Prelude.{◌≡◌, ◌≤◌, ◌++◌, ◌||◌, [], if◌then◌else◌, length, IfOk, OnOk, option_copied};
ghost use Rattle.lw_orders.specs.Limits.{most_items};
ghost use Rattle.lw_paths.specs.Items as assignment_items;
ghost use Rattle.lw_paths.specs.Items.{needs_earlier_drains};
ghost use Rattle.lw_paths.specs.ReducedPairs.{none_before, edge_from, record_last, last_of_thread, reduced_from};

use crate::item::{Item, LastItems};
use crate::statement::needs_empty_buffer;
use lw_base::{Cpu, Sequence};
use lw_litmus::Statement;
use std::alloc::{AllocError, Allocator};

impl LastItems {
    /// Returns the last items before a thread's first item: none.
    fn none() -> Self
        ensures { result ≡ none_before }
    {
        LastItems {
            statement: None,
            drain: None,
        }
    }

    /// Returns the last items before an item of `thread`: these if the item before is of the same thread, none
    /// otherwise.
    fn of(self, thread: Cpu, before: Cpu) -> Self
        ensures { result ≡ last_of_thread before thread self }
    {
        if thread == before {
            self
        } else {
            LastItems::none()
        }
    }

    /// Records an item as the last statement, or as the last drain.
    fn with(self, is_drain: bool, index: u8) -> Self
        ensures { result ≡ record_last is_drain self index }
    {
        if is_drain {
            LastItems {
                drain: Some(index),
                ..self
            }
        } else {
            LastItems {
                statement: Some(index),
                ..self
            }
        }
    }
}

/// Returns the statement that an item executes, or whose entry it drains.
pub(crate) fn statement_of<S: Statement, B: Allocator>(
    program: &[Sequence<S, B>],
    item: Item,
) -> Option<&S>
    ensures { option_copied result ≡ assignment_items.statement_of S.language program.now item }
{
    program
        .get(item.thread.index())?
        .get(usize::from(item.position))
}

/// Returns whether an item must come after the last drain of its thread: a drain must, and a statement that needs an
/// empty buffer.
fn needs_earlier_drains<S: Statement, B: Allocator>(program: &[Sequence<S, B>], item: Item) -> bool
    ensures { result ≡ (item.is_drain || needs_earlier_drains S.language program.now item) }
{
    if item.is_drain {
        return true;
    }
    match statement_of(program, item) {
        Some(stmt) => needs_empty_buffer(stmt),
        None => false,
    }
}

/// Appends the pair of an item with one before it, if there is one.
fn push_edge<A: Allocator>(
    pairs: &mut Vec<(u8, u8), A>,
    before: Option<u8>,
    index: u8,
) -> Result<(), AllocError>
    ensures { OnOk result (pairs.new.items ≡ pairs.old.items ++ edge_from before index) }
{
    if let Some(before) = before {
        pairs.push((before, index))?;
    }
    Ok(())
}

/// Appends the pairs of an item with the last statement before it, and with the last drain if `is_after_drains` is
/// set.
fn push_preserved<A: Allocator>(
    pairs: &mut Vec<(u8, u8), A>,
    last: LastItems,
    is_after_drains: bool,
    index: u8,
) -> Result<(), AllocError>
    ensures { OnOk result (pairs.new.items ≡ pairs.old.items ++ edge_from last.statement index
        ++ (if is_after_drains then edge_from last.drain index else [])) }
{
    push_edge(pairs, last.statement, index)?;
    if is_after_drains {
        push_edge(pairs, last.drain, index)?;
    }
    Ok(())
}

/// Returns the reduced pairs of the items.
pub(crate) fn reduced_pairs<S: Statement, A: Allocator, B: Allocator>(
    alloc: A,
    program: &[Sequence<S, B>],
    items: &[Item],
) -> Result<Vec<(u8, u8), A>, AllocError>
    requires { length items.now ≤ most_items }
    ensures { IfOk result (λ v. v.items ≡ reduced_from S.language program.now 0 0 none_before items.now) }
{
    let mut pairs = Vec::with_capacity(alloc, 2 * items.len())?;
    let mut last = LastItems::none();
    let mut before = Cpu::all()[0];
    for (index, item) in items.iter().enumerate() {
        last = last.of(item.thread, before);
        before = item.thread;
        let is_after_drains = needs_earlier_drains(program, *item);
        push_preserved(&mut pairs, last, is_after_drains, index as u8)?;
        last = last.with(item.is_drain, index as u8);
    }
    Ok(pairs)
}
