//! The truth of a proposition in an outcome.
ghost use Rattle.std.specs.Prelude.{◌≡◌, length};
ghost use Rattle.lw_base.specs.Outcomes.{HasOutcomeShape};
ghost use Rattle.lw_base.specs.Propositions.{formula_of};
ghost use Rattle.lw_base.specs.WellFormed.{MentionsOnly};
ghost use Rattle.lw_report.specs.Truth.{is_true};

use lw_base::{Outcome, Prop};
use std::alloc::Allocator;

/// Returns whether a proposition is true in an outcome. Does not allocate.
pub fn holds<A: Allocator, B: Allocator>(prop: &Prop<A>, outcome: &Outcome<B>) -> bool
    // The proposition names only threads and locations of the outcome.
    requires prop { MentionsOnly (length outcome.now.regs) (length outcome.now.words) (formula_of prop.now) }
    requires outcome { HasOutcomeShape (length outcome.now.regs) (length outcome.now.words) outcome.now }
    ensures { result ≡ is_true (formula_of prop.now) outcome.now }
{
    match prop {
        Prop::Always => true,
        Prop::Never => false,
        Prop::RegIs(cpu, reg, word) => outcome.regs.as_slice()[cpu.index()][reg.index()] == *word,
        Prop::WordIs(loc, word) => outcome.words.as_slice()[loc.index()] == *word,
        Prop::Neg(part) => !holds(part, outcome),
        Prop::Both(left, right) => holds(left, outcome) && holds(right, outcome),
        Prop::Either(left, right) => holds(left, outcome) || holds(right, outcome),
    }
}
