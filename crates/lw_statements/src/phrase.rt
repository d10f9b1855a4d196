//! The tokens of a cell after its labels.
ghost use Rattle.std.specs.Prelude.{◌≡◌, ℕ, ◌≤◌, length, drop};
ghost use Rattle.lw_text.specs.Places.{EndsBefore};
ghost use Rattle.lw_statements.specs.inner.Tokens.{AllEndBefore};

use lw_text::{Cell, Token};
use std::alloc::Allocator;

/// The tokens of a cell after its labels, which are a statement's or none, and the offset of the `|` or `;` that ends the cell.
#[derive(Clone, Copy)]
pub(crate) struct Phrase<'t, 'a> {
    pub(crate) tokens: &'t [Token<'a>],
    pub(crate) end: usize,
}

impl<'t, 'a> Phrase<'t, 'a> {
    /// Returns the tokens of a cell after the first `start`, which are its labels.
    pub(crate) fn after_labels<A: Allocator>(cell: &'t Cell<'a, A>, start: usize) -> Phrase<'t, 'a>
        requires { start ≤ length cell.now.tokens }
        ensures tokens { result.tokens.now ≡ drop start cell.now.tokens }
        ensures end { result.end ≡ cell.now.end }
        ensures within { (len : ℕ) → EndsBefore len cell.now → AllEndBefore len result }
    {
        Phrase {
            tokens: &cell.tokens.as_slice()[start..],
            end: cell.end,
        }
    }
}
