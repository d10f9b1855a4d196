//! Laws of executions with times: an execution whose events have times, at which they are done and reach memory, satisfies
//! the axioms; and a candidate execution that satisfies them has such times. A law is a function without a result, whose
//! contract states the law.
ghost use Rattle.std.specs.Prelude.{ℕ};
ghost use Rattle.lw_axiomatic.specs.Axioms.{SatisfiesAxioms};
ghost use Rattle.lw_axiomatic.specs.Candidates.{IsCandidate};
ghost use Rattle.lw_axiomatic.specs.Executions.{Execution};
ghost use Rattle.lw_axiomatic.specs.Times.{HasTimes};
ghost use Rattle.lw_base.specs.Outcomes.{FinalState};
ghost use Rattle.lw_litmus.specs.Programs.{x86_language};
ghost use Rattle.lw_litmus.specs.Tests.{X86Test};

/// States that an execution with times satisfies the axioms.
pub fn timed_executions_satisfy_the_axioms()
    ensures { (test : X86Test) (x : Execution) → HasTimes test x → SatisfiesAxioms test x }
{}

/// States that a candidate execution that satisfies the axioms has times.
pub fn executions_have_times()
    ensures { (test : X86Test) (x : Execution) (o : FinalState) → IsCandidate x86_language test x o
        → SatisfiesAxioms test x → HasTimes test x }
{}
