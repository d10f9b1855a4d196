//! The final state of a run. A contract sees an outcome as a record of two lists.
ghost use Rattle.std.specs.Prelude.{◌≡◌};
ghost use Rattle.lw_base.specs.Outcomes.{FinalState, final_state_cmp};

use crate::indices::Word;
use crate::limits::REGISTERS;
use crate::sequence::Sequence;
use std::alloc::{Allocator, Global};
use std::marker::Model;

/// The final registers and memory of a run: six words for each thread, and one word for each location of the table.
/// Outcomes are ordered by their registers (the first thread's in order, then the next thread's), then by their
/// words, each lexicographically; a list comes before its extensions.
#[derive(Drop)]
#[derive_where(PartialEq, Eq, PartialOrd, Ord, Hash)]
pub struct Outcome<A: Allocator = Global> {
    pub regs: Sequence<[Word; REGISTERS], A>,
    pub words: Sequence<Word, A>,
}

impl<A: Allocator> Model for Outcome<A> {
    ghost use Rattle.lw_base.specs.Outcomes.{FinalState};

    ghost Value = { FinalState };

    ghost view = { λ o. record { regs = o.regs; words = o.words } };

    ghost inverse = { λ f. record { regs = f.regs; words = f.words } };
}

/// States that outcomes are compared by their registers, and by their words if the registers are equal.
pub fn registers_come_first<A: Allocator>()
    ensures { (left right : FinalState) → ⟦<Outcome<A> as Ord>⟧.cmp left right ≡ final_state_cmp left right }
{}
