//! Propositions over final states. A contract sees a proposition as a formula without boxes.
ghost use Rattle.std.specs.Prelude.{◌≡◌, IfOk};
ghost use Rattle.lw_base.specs.ConditionTexts.{is_or, is_binary};
ghost use Rattle.lw_base.specs.Propositions.{formula_of};

use crate::indices::{Cpu, Loc, Reg, Word};
use std::alloc::{AllocError, Allocator, Global};

/// A proposition over a final state, which a condition quantifies.
#[derive(Drop)]
pub enum Prop<A: Allocator = Global> {
    /// True in every state.
    Always,
    /// True in no state.
    Never,
    /// The thread's register has this word.
    RegIs(Cpu, Reg, Word),
    /// The location has this word.
    WordIs(Loc, Word),
    /// Negation.
    Neg(Box<Prop<A>, A>),
    /// Conjunction.
    Both(Box<Prop<A>, A>, Box<Prop<A>, A>),
    /// Disjunction.
    Either(Box<Prop<A>, A>, Box<Prop<A>, A>),
}

impl<A: Allocator + Copy> Prop<A> {
    /// Copies the proposition. Fails only if memory runs out.
    #[cycle(copies)]
    pub fn copy(&self, alloc: A) -> Result<Self, AllocError>
        ensures { IfOk result (λ p. formula_of p ≡ formula_of self.now) }
    {
        Ok(match self {
            Prop::Always => Prop::Always,
            Prop::Never => Prop::Never,
            Prop::RegIs(cpu, reg, word) => Prop::RegIs(*cpu, *reg, *word),
            Prop::WordIs(loc, word) => Prop::WordIs(*loc, *word),
            Prop::Neg(prop) => Prop::Neg(prop.boxed(alloc)?),
            Prop::Both(left, right) => Prop::Both(left.boxed(alloc)?, right.boxed(alloc)?),
            Prop::Either(left, right) => Prop::Either(left.boxed(alloc)?, right.boxed(alloc)?),
        })
    }

    /// Copies the proposition into a new box. Fails only if memory runs out.
    #[cycle(copies)]
    fn boxed(&self, alloc: A) -> Result<Box<Self, A>, AllocError>
        ensures { IfOk result (λ b. formula_of b.value ≡ formula_of self.now) }
    {
        Ok(Box::new(alloc, self.copy(alloc)?)?)
    }
}

impl<A: Allocator> Prop<A> {
    /// Returns whether the proposition is a disjunction.
    pub(crate) fn is_either(&self) -> bool
        ensures { result ≡ is_or (formula_of self.now) }
    {
        matches!(self, Prop::Either(_, _))
    }

    /// Returns whether the proposition is a conjunction or a disjunction.
    pub(crate) fn is_joined(&self) -> bool
        ensures { result ≡ is_binary (formula_of self.now) }
    {
        matches!(self, Prop::Both(_, _) | Prop::Either(_, _))
    }
}
