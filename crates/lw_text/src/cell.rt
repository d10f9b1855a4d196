//! A cell of a test: its tokens and its end.

use crate::token::Token;
use lw_base::Sequence;
use std::alloc::{Allocator, Global};

/// The tokens of a cell, and the offset of the `|` or `;` that ends it.
#[derive(Drop)]
pub struct Cell<'a, A: Allocator = Global> {
    pub tokens: Sequence<Token<'a>, A>,
    pub end: usize,
}
