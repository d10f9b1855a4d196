//! The items of a path assignment.
ghost use Rattle.std.specs.Prelude.{◌≡◌, ◌++◌, ℕ, List, take, OnOk, OnErr, option_copied};
ghost use Rattle.lw_paths.specs.Items as assignment_items;
ghost use Rattle.lw_paths.specs.Items.{items_at, path_items};
ghost use Rattle.lw_paths.specs.Views.{assignment_of};
ghost use Rattle.lw_paths.specs.declared.item.Item.{Item};

use crate::item::Item;
use crate::path::PathAssignment;
use crate::statement::drains;
use lw_base::{Cpu, Sequence};
use lw_litmus::Statement;
use std::alloc::{AllocError, Allocator};

/// Fills a list with the items of a path assignment, thread by thread, each along its path. If memory runs out, the
/// list has some of the first items.
pub(crate) fn fill_items<S: Statement, A: Allocator, B: Allocator>(
    program: &[Sequence<S, B>],
    assignment: &PathAssignment,
    items: &mut Vec<Item, A>,
) -> Result<(), AllocError>
    ensures ok { OnOk result (items.new.items ≡ assignment_items.items_of S.language program.now (assignment_of assignment.now)) }
    ensures err { OnErr result ((filled : ℕ) × (items.new.items ≡ take filled (assignment_items.items_of S.language program.now (assignment_of assignment.now)))) }
{
    items.clear();
    for (thread, path) in assignment.as_slice().iter().enumerate() {
        let Some(code) = program.get(thread) else {
            return Ok(());
        };
        let cpu = Cpu::new(thread as u8).unwrap();
        push_path(items, cpu, code, path.as_slice())?;
    }
    Ok(())
}

/// Appends the items of a thread, along its path. If memory runs out, the list has some of the first items.
fn push_path<S: Statement, A: Allocator, B: Allocator>(
    items: &mut Vec<Item, A>,
    thread: Cpu,
    code: &Sequence<S, B>,
    path: &[u8],
) -> Result<(), AllocError>
    ensures ok { OnOk result (items.new.items ≡ items.old.items ++ path_items S.language thread code.now path.now) }
    ensures err { OnErr result ((rest : List Item) × (items.new.items ++ rest ≡ items.old.items ++ path_items S.language thread code.now path.now)) }
{
    for position in path {
        push_statement(items, thread, *position, code.get(usize::from(*position)))?;
    }
    Ok(())
}

/// Appends a statement, and its drain if it has one. Appends nothing if there is no statement. If memory runs out, the list
/// may have the statement without its drain, or neither.
fn push_statement<S: Statement, A: Allocator>(
    items: &mut Vec<Item, A>,
    thread: Cpu,
    position: u8,
    stmt: Option<&S>,
) -> Result<(), AllocError>
    ensures ok { OnOk result (items.new.items ≡ items.old.items ++ items_at S.language thread position (option_copied stmt.entry)) }
    ensures err { OnErr result ((rest : List Item) × (items.new.items ++ rest ≡ items.old.items ++ items_at S.language thread position (option_copied stmt.entry))) }
{
    let Some(stmt) = stmt else {
        return Ok(());
    };
    items.push(Item {
        thread,
        position,
        is_drain: false,
    })?;
    if drains(stmt).is_some() {
        items.push(Item {
            thread,
            position,
            is_drain: true,
        })?;
    }
    Ok(())
}
