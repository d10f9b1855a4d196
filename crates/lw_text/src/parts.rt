//! The parsed parts of a test, with locations resolved to their indices.
ghost use Rattle.std.specs.Prelude.{◌≡◌, ◌≤◌, length, All};
ghost use Rattle.lw_base.specs.Limits.{most_rows, most_threads};

use crate::block::Initializer;
use crate::rows::CellSequence;
use crate::site::Site;
use lw_base::{LocNames, Prop, Quant, Sequence};
use std::alloc::{Allocator, Global};

/// Everything except the cells.
#[derive(Drop)]
pub(crate) struct ParsedHead<A: Allocator = Global> {
    pub(crate) initializers: Sequence<Initializer, A>,
    pub(crate) threads: usize,
    pub(crate) locs: LocNames<A>,
    pub(crate) listed: Sequence<Site, A>,
    pub(crate) quant: Quant,
    pub(crate) prop: Prop<A>,
    ghost bounded: { threads ≤ most_threads },
}

/// The head, and the cells of the rows.
#[derive(Drop)]
pub(crate) struct ParsedBody<'a, A: Allocator = Global> {
    pub(crate) parts: ParsedHead<A>,
    pub(crate) rows: Sequence<CellSequence<'a, A>, A>,
    ghost some: { 1 ≤ parts.threads },
    ghost even: { All (λ row. length row ≡ parts.threads) rows },
    ghost low: { length rows ≤ most_rows },
}
