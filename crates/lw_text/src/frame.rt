//! The frame of a text: its head and its cells.
ghost use Rattle.std.specs.Prelude.{◌≡◌, ◌<◌, ◌≤◌, length, All, Some, slice_get};
ghost use Rattle.lw_base.specs.Heads.{head_of};
ghost use Rattle.lw_base.specs.Limits.{most_rows};
ghost use Rattle.lw_base.specs.WellFormed.{IsWellFormedHead};
ghost use Rattle.lw_base.specs.WellFormedProps.{IsWellFormedHead-prop};
ghost use Rattle.lw_text.specs.Places.{EndsBefore, height};

use crate::cell::Cell;
use lw_base::{Cpu, Head, Sequence};
use std::alloc::{Allocator, Global};

/// A test whose cells are not parsed yet: its head, and for each thread its cells, one in each row.
#[derive(Drop)]
pub struct Frame<'a, A: Allocator = Global> {
    pub head: Head<A>,
    /// A column of cells for each thread, from top to bottom.
    pub cells: Sequence<Sequence<Cell<'a, A>, A>, A>,
    /// The length of the text. No offset in the frame is greater.
    pub len: usize,
    pub ghost well_formed: { IsWellFormedHead (head_of head) } by { IsWellFormedHead-prop (head_of head) },
    pub ghost columns: { length cells ≡ head.threads },
    pub ghost even: { All (λ column. length column ≡ height cells) cells },
    pub ghost low: { height cells ≤ most_rows },
    pub ghost places: { All (λ column. All (EndsBefore len) column) cells },
}

impl<'a, A: Allocator> Frame<'a, A> {
    /// Borrows the test's head.
    pub fn head(&self) -> &Head<A>
        ensures { result.now ≡ self.now.head }
    {
        &self.head
    }

    /// Returns the thread's cells, from top to bottom.
    pub fn cells(&self, cpu: Cpu) -> &[Cell<'a, A>]
        requires { cpu < self.now.head.threads }
        ensures { slice_get self.now.cells cpu ≡ Some result.now }
    {
        self.cells.as_slice()[cpu.index()].as_slice()
    }
}
