//! The conflicts of the items of a path assignment. Only items that access a location can conflict.
ghost use Rattle.std.specs.Prelude.{◌≡◌, ◌≤◌, ◌++◌, length, IfOk, OnOk};
ghost use Rattle.lw_orders.specs.Limits.{most_items};
ghost use Rattle.lw_paths.specs.inner.Accesses.{access_by, accesses_from, is_conflict, conflicts_with};
ghost use Rattle.lw_paths.specs.Items.{constraints_of, statement_of as statement_at_item};

use crate::item::Item;
use crate::preserved_order::statement_of;
use crate::statement::{accesses, drains};
use lw_base::{Loc, Sequence};
use lw_litmus::Statement;
use std::alloc::{AllocError, Allocator};

/// The access of an item to a location, with the item's index.
#[derive(Clone, Copy)]
pub(crate) struct Access {
    pub(crate) index: u8,
    pub(crate) loc: Loc,
    pub(crate) writes: bool,
}

impl Access {
    /// Returns whether both accesses are to one location, and at least one writes it.
    fn is_conflict(&self, other: &Access) -> bool
        ensures { result ≡ is_conflict self.now other.now }
    {
        self.loc == other.loc && (self.writes || other.writes)
    }

    /// Returns the pair of the items' indices.
    fn pair(&self, other: &Access) -> (u8, u8)
        ensures { result ≡ (self.now.index, other.now.index) }
    {
        (self.index, other.index)
    }
}

/// Returns the access of an item, if it accesses a location.
fn access_of<S: Statement, B: Allocator>(
    program: &[Sequence<S, B>],
    item: Item,
    index: u8,
) -> Option<Access>
    ensures { result ≡ access_by S.language index item.is_drain (statement_at_item S.language program.now item) }
{
    let stmt = statement_of(program, item)?;
    let loc = if item.is_drain {
        drains(stmt)
    } else {
        accesses(stmt)
    }?;
    Some(Access {
        index,
        loc,
        writes: item.is_drain || stmt.operation().writes(),
    })
}

/// Returns the accesses of the items, in their order.
fn accesses_of<S: Statement, A: Allocator, B: Allocator>(
    alloc: A,
    program: &[Sequence<S, B>],
    items: &[Item],
) -> Result<Vec<Access, A>, AllocError>
    requires { length items.now ≤ most_items }
    ensures { IfOk result (λ v. v.items ≡ accesses_from S.language program.now 0 items.now) }
{
    let mut accesses = Vec::with_capacity(alloc, items.len())?;
    for (index, item) in items.iter().enumerate() {
        if let Some(access) = access_of(program, *item, index as u8) {
            accesses.push(access)?;
        }
    }
    Ok(accesses)
}

/// Appends the conflicts of an access with later ones.
fn push_conflicts<A: Allocator>(
    pairs: &mut Vec<(u8, u8), A>,
    first: &Access,
    later: &[Access],
) -> Result<(), AllocError>
    ensures { OnOk result (pairs.new.items ≡ pairs.old.items ++ conflicts_with first.now later.now) }
{
    for second in later {
        if first.is_conflict(second) {
            let pair = first.pair(second);
            pairs.push(pair)?;
        }
    }
    Ok(())
}

/// Returns the conflicts of items, sorted.
pub fn conflicts_of<S: Statement, A: Allocator + Copy, B: Allocator>(
    alloc: A,
    program: &[Sequence<S, B>],
    items: &[Item],
) -> Result<Vec<(u8, u8), A>, AllocError>
    requires { length items.now ≤ most_items }
    ensures { IfOk result (λ v. v.items ≡ (constraints_of S.language program.now items.now).conflicts) }
{
    let accesses = accesses_of(alloc, program, items)?;
    let mut pairs = Vec::new(alloc);
    let mut later = accesses.as_slice();
    while let Some((first, rest)) = later.split_first() {
        push_conflicts(&mut pairs, first, rest)?;
        later = rest;
    }
    Ok(pairs)
}
