//! The state of the parser inside one pair of parentheses of a proposition, or outside all. A *part* of a proposition is an operand
//! of a connective: an atom, a negation, or a group in parentheses.
ghost use Rattle.std.specs.Prelude.{◌≡◌, option_map, IfOk, OnOk};
ghost use Rattle.lw_base.specs.Propositions.{formula_of};
ghost use Rattle.lw_text.specs.inner.ReaderStates.{group_of, new_group, with_not, with_and, with_or, ors_of, after_and, negations};

use lw_base::Prop;
use std::alloc::{AllocError, Allocator, Global};
use std::mem;

/// What a group has before the part that follows: the left operand of a `\/`, the left operand of a `/\`, each if there is one, and
/// the number of `~` before the part.
#[derive(Drop)]
pub(crate) struct OpenGroup<A: Allocator = Global> {
    left_of_or: Option<Prop<A>>,
    left_of_and: Option<Prop<A>>,
    nots: usize,
}

impl<A: Allocator> OpenGroup<A> {
    /// Creates the group that a `(` opens.
    pub(crate) fn new() -> Self
        ensures { group_of result ≡ new_group }
    {
        OpenGroup {
            left_of_or: None,
            left_of_and: None,
            nots: 0,
        }
    }

    /// Adds a `~` before the part that follows. Fails only if the count would overflow; memory runs out before that.
    pub(crate) fn negate(&mut self) -> Result<(), AllocError>
        ensures { OnOk result (group_of self.new ≡ with_not (group_of self.old)) }
    {
        let Some(nots) = self.nots.checked_add(1) else {
            return Err(AllocError);
        };
        self.nots = nots;
        Ok(())
    }
}

impl<A: Allocator + Copy> OpenGroup<A> {
    /// Adds a part and the `/\` after it.
    pub(crate) fn conjoin(&mut self, alloc: A, part: Prop<A>) -> Result<(), AllocError>
        ensures { OnOk result (group_of self.new ≡ with_and (group_of self.old) (formula_of part)) }
    {
        let conjuncts = conjoined(alloc, self.left_of_and.take(), self.nots, part)?;
        drop(self.left_of_and.replace(conjuncts));
        self.nots = 0;
        Ok(())
    }

    /// Adds a part and the `\/` after it.
    pub(crate) fn disjoin(&mut self, alloc: A, part: Prop<A>) -> Result<(), AllocError>
        ensures { OnOk result (group_of self.new ≡ with_or (group_of self.old) (formula_of part)) }
    {
        let group = mem::replace(self, OpenGroup::new());
        let whole = group.close(alloc, part)?;
        drop(self.left_of_or.replace(whole));
        Ok(())
    }

    /// Returns the proposition of the group, with this part as its last.
    pub(crate) fn close(self, alloc: A, part: Prop<A>) -> Result<Prop<A>, AllocError>
        ensures { IfOk result (λ p. formula_of p ≡ ors_of (group_of self) (formula_of part)) }
    {
        let OpenGroup {
            left_of_or,
            left_of_and,
            nots,
        } = self;
        match conjoined(alloc, left_of_and, nots, part) {
            Ok(conjuncts) => match left_of_or {
                None => Ok(conjuncts),
                Some(before) => {
                    let (left, right) = boxed(alloc, before, conjuncts)?;
                    Ok(Prop::Either(left, right))
                }
            },
            Err(error) => {
                drop(left_of_or);
                Err(error)
            }
        }
    }
}

/// Negates the part `nots` times, and joins the result to `before`, the left operand of a `/\`, if there is one.
fn conjoined<A: Allocator + Copy>(
    alloc: A,
    before: Option<Prop<A>>,
    nots: usize,
    part: Prop<A>,
) -> Result<Prop<A>, AllocError>
    ensures { IfOk result (λ p. formula_of p
        ≡ after_and (option_map formula_of before) (negations nots (formula_of part))) }
{
    let mut prop = part;
    for taken in 0..nots {
        match Box::new(alloc, prop) {
            Ok(inner) => prop = Prop::Neg(inner),
            Err(error) => {
                drop(before);
                return Err(AllocError::from(error));
            }
        }
    }
    match before {
        None => Ok(prop),
        Some(before) => {
            let (left, right) = boxed(alloc, before, prop)?;
            Ok(Prop::Both(left, right))
        }
    }
}

/// Moves two propositions into boxes.
fn boxed<A: Allocator + Copy>(
    alloc: A,
    left: Prop<A>,
    right: Prop<A>,
) -> Result<(Box<Prop<A>, A>, Box<Prop<A>, A>), AllocError>
    ensures { IfOk result (λ x. (x.0.value ≡ left) × (x.1.value ≡ right)) }
{
    let left = Box::new(alloc, left)?;
    let right = Box::new(alloc, right)?;
    Ok((left, right))
}
