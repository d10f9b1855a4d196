//! The trait of runners, which run the items of a path assignment in one order after another; and a runner that keeps
//! no schedules.
ghost use Rattle.std.specs.Prelude.{◌≡◌, ◌<◌, ℕ, List, length, All, IfOk};
ghost use Rattle.lw_base.specs.Outcomes.{FinalState};
ghost use Rattle.lw_paths.specs.declared.item.Item.{Item};
ghost use Rattle.lw_finals.specs.inner.Collected.{RunResult};

use lw_base::Outcome;
use lw_paths::Item;
use std::alloc::{AllocError, Allocator};

/// A machine that runs the orders of a test's items. It allocates when it is created; a run does not allocate.
pub(crate) trait OrderRunner<A: Allocator> {
    /// What is kept for an outcome: a schedule, or nothing.
    type Kept: Drop;

    /// The type of tests.
    ghost Test: { Type 0 };

    /// The test.
    ghost test: { Self → Test };

    /// The relation between an order of items that follows its paths to a final state, and its outcome.
    ghost ends: { Test → List Item → List ℕ → FinalState → Type 0 };

    /// The relation between what is kept and its outcome: the schedule reaches the outcome, or some schedule does.
    ghost leads: { Test → Self.Kept → FinalState → Type 0 };

    /// The outcome of the last run, if that followed its paths; otherwise any.
    ghost end: { Self → FinalState };

    /// Runs an order of items from the initial state, and returns whether it follows its paths to a final state.
    fn run(&mut self, items: &[Item], order: &[u8]) -> bool
        requires { All (λ i. i < length items.now) order.now }
        ensures same { test self.new ≡ test self.old }
        ensures ends { RunResult (ends (test self.old) items.now order.now) result (end self.new) };

    /// Returns the outcome of the last run, if that followed its paths; otherwise any.
    fn last_outcome(&self) -> &Outcome<A>
        ensures { result.now ≡ end self.now };

    /// States that the outcome of the last run has something that is kept for it.
    fn has_kept(&self, items: &[Item], order: &[u8])
        requires within { All (λ i. i < length items.now) order.now }
        requires ran { ends (test self.now) items.now order.now (end self.now) }
        ensures { (kept : Self.Kept) × leads (test self.now) kept (end self.now) };

    /// Returns the outcome of the last run, with what is kept for it. Fails only if memory runs out.
    fn entry(&self, items: &[Item], order: &[u8]) -> Result<(Outcome<A>, Self::Kept), AllocError>
        requires within { All (λ i. i < length items.now) order.now }
        requires ran { ends (test self.now) items.now order.now (end self.now) }
        ensures outcome { IfOk result (λ e. e.0 ≡ end self.now) }
        ensures leads { IfOk result (λ e. leads (test self.now) e.1 e.0) };
}

/// Copies an outcome. Fails only if memory runs out.
pub(crate) fn copy_outcome<A: Allocator + Copy>(
    outcome: &Outcome<A>,
) -> Result<Outcome<A>, AllocError>
    ensures { IfOk result (λ o. o ≡ outcome.now) }
{
    Ok(Outcome {
        regs: outcome.regs.copy()?,
        words: outcome.words.copy()?,
    })
}

/// A runner that runs as another does, and keeps no schedules.
#[derive(Drop)]
pub(crate) struct OutcomeRunner<R> {
    runner: R,
}

impl<R> OutcomeRunner<R> {
    /// Creates a runner that runs as this one does.
    pub(crate) fn new(runner: R) -> Self
        ensures { result.runner ≡ runner }
    {
        OutcomeRunner { runner }
    }
}

impl<A: Allocator + Copy, R: OrderRunner<A>> OrderRunner<A> for OutcomeRunner<R> {
    type Kept = ();

    ghost Test = { R.Test };

    ghost test = { λ r. R.test r.runner };

    ghost ends = { R.ends };

    ghost leads = { λ t _ o. (kept : R.Kept) × R.leads t kept o };

    ghost end = { λ r. R.end r.runner };

    /// Runs an order of items as the other runner does.
    fn run(&mut self, items: &[Item], order: &[u8]) -> bool {
        self.runner.run(items, order)
    }

    /// Returns the outcome of the last run, if that followed its paths; otherwise any.
    fn last_outcome(&self) -> &Outcome<A> {
        self.runner.last_outcome()
    }

    /// States that some schedule reaches the outcome.
    fn has_kept(&self, items: &[Item], order: &[u8]) {
        self.runner.has_kept(items, order);
    }

    /// Returns a copy of the outcome of the last run.
    fn entry(&self, items: &[Item], order: &[u8]) -> Result<(Outcome<A>, ()), AllocError> {
        self.runner.has_kept(items, order);
        let outcome = copy_outcome(self.runner.last_outcome())?;
        Ok((outcome, ()))
    }
}
