//! The operator-precedence parser of propositions, with an explicit stack in place of recursion.
ghost use Rattle.std.specs.Prelude.{◌≡◌, ◌≢◌, not, [], map, reverse, is_some, Some, None, IfOk, MatchResult, if◌then◌else◌};
ghost use Rattle.lw_base.specs.Propositions.{formula_of};
ghost use Rattle.lw_text.specs.declared.fault.TextCause.TheVariants.{Memory};
ghost use Rattle.lw_text.specs.inner.Terminals.{terminal_of};
ghost use Rattle.lw_text.specs.inner.ReaderStates.{initial_reader_state, group_of, reader_state_in, state_of, next_state, state_result};

use crate::fault::Refusal;
use crate::open_group::OpenGroup;
use crate::terminal::Terminal;
use lw_base::Prop;
use std::alloc::{AllocError, Allocator, Global};
use std::mem;

/// The state of the parser: the last part, if a connective or a `)` must follow it, the state of the innermost group, and the states of the
/// groups around it. A contract sees it as a `ReaderState`, and states by `state_result` which proposition the terminals so far are.
#[derive(Drop)]
pub(crate) struct PropositionReader<A: Allocator + Copy = Global> {
    alloc: A,
    part: Option<Prop<A>>,
    group: OpenGroup<A>,
    outer: Vec<OpenGroup<A>, A>,
}

impl<A: Allocator + Copy> PropositionReader<A> {
    /// Creates a parser of no terminals. Does not allocate.
    pub(crate) fn new(alloc: A) -> Self
        ensures { state_of result ≡ initial_reader_state }
    {
        PropositionReader {
            alloc,
            part: None,
            group: OpenGroup::new(),
            outer: Vec::new(alloc),
        }
    }

    /// Returns whether the next terminal must be an atom, a `(` or a `~`. If not, it can be none of them.
    pub(crate) fn wants_part(&self) -> bool
        ensures { is_some self.now.part ≡ not result }
    {
        self.part.is_none()
    }

    /// Shifts the next terminal, and returns whether it is possible. If it is not, or if memory runs out, the parser
    /// must not be used again.
    pub(crate) fn take(&mut self, terminal: Terminal) -> Result<bool, AllocError>
        ensures { IfOk result (λ b. next_state (state_of self.old) (terminal_of terminal)
            ≡ (if b then Some (state_of self.new) else None)) }
    {
        match self.part.take() {
            None => self.before_part(terminal),
            Some(part) => self.after_part(part, terminal),
        }
    }

    /// Shifts a terminal at a place at which a part must begin, and returns whether it is possible there.
    fn before_part(&mut self, terminal: Terminal) -> Result<bool, AllocError>
        requires { self.old.part ≡ None }
        ensures { IfOk result (λ b. next_state (reader_state_in None (group_of self.old.group)
            (reverse (map group_of self.old.outer.items))) (terminal_of terminal)
            ≡ (if b then Some (state_of self.new) else None)) }
    {
        match terminal {
            Terminal::Open => {
                let group = mem::replace(&mut self.group, OpenGroup::new());
                self.outer.push(group)?;
                Ok(true)
            }
            Terminal::Negation => {
                self.group.negate()?;
                Ok(true)
            }
            Terminal::Atom(atom) => {
                drop(self.part.replace(atom.prop()));
                Ok(true)
            }
            Terminal::Close | Terminal::Conjunction | Terminal::Disjunction => Ok(false),
        }
    }

    /// Shifts a terminal after a part, which `take` has taken out of the state, and returns whether it is possible there.
    fn after_part(&mut self, part: Prop<A>, terminal: Terminal) -> Result<bool, AllocError>
        requires { self.old.part ≡ None }
        ensures { IfOk result (λ b. next_state (reader_state_in (Some (formula_of part)) (group_of self.old.group)
            (reverse (map group_of self.old.outer.items))) (terminal_of terminal)
            ≡ (if b then Some (state_of self.new) else None)) }
    {
        match terminal {
            Terminal::Conjunction => {
                self.group.conjoin(self.alloc, part)?;
                Ok(true)
            }
            Terminal::Disjunction => {
                self.group.disjoin(self.alloc, part)?;
                Ok(true)
            }
            Terminal::Close => {
                let Some(outer) = self.outer.pop() else {
                    drop(part);
                    return Ok(false);
                };
                let inner = mem::replace(&mut self.group, outer);
                let part = inner.close(self.alloc, part)?;
                drop(self.part.replace(part));
                Ok(true)
            }
            Terminal::Open | Terminal::Negation | Terminal::Atom(_) => {
                drop(part);
                Ok(false)
            }
        }
    }

    /// Returns the proposition, if the terminals so far are one, and the refusal `open` otherwise. The parser must not be used
    /// again.
    pub(crate) fn finish(&mut self, open: Refusal) -> Result<Prop<A>, Refusal>
        ensures { MatchResult result (λ prop. state_result (state_of self.old) ≡ Some (formula_of prop))
            (λ f. f.cause ≢ Memory → (state_result (state_of self.old) ≡ None) × (f.at ≡ open.at)) }
    {
        if !self.outer.is_empty() {
            return Err(open);
        }
        match self.part.take() {
            None => Err(open),
            Some(part) => {
                let group = mem::replace(&mut self.group, OpenGroup::new());
                Ok(group.close(self.alloc, part)?)
            }
        }
    }
}
