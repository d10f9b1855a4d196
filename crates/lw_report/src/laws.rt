//! Laws of reports: a report is a function of the set of outcomes, which may be any predicate. A law is a function
//! without a result, whose contract states the law. A proof uses the law by calling the function.
ghost use Rattle.std.specs.Prelude.{◌≡◌, ◌↔◌, List, length};
ghost use Rattle.lw_base.specs.Types.{Bytes};
ghost use Rattle.lw_base.specs.Heads.{TestHead};
ghost use Rattle.lw_base.specs.Outcomes.{FinalState};
ghost use Rattle.lw_base.specs.WellFormed.{MentionsOnly};
ghost use Rattle.lw_report.specs.Judgement.{positive, negative, OkMeans};
ghost use Rattle.lw_report.specs.Observed.{observed_words};
ghost use Rattle.lw_report.specs.Reports.{IsReport};
ghost use Rattle.lw_report.specs.States.{ProjectedState, AreStatesOf};
ghost use Rattle.lw_report.specs.Truth.{is_true};
ghost use Rattle.lw_report.specs.declared.judgement.Claim.{Claim};

/// A set of outcomes, as a type.
pub trait OutcomeSet {
    ghost use Rattle.lw_base.specs.Outcomes.{FinalState};

    /// The outcomes that the set contains.
    ghost has: { FinalState → Type 0 };
}

/// States that outcomes with the same words of the observed names agree on the test's proposition.
pub fn outcomes_with_the_same_words_agree()
    ensures { (head : TestHead) (o p : FinalState) → MentionsOnly head.threads (length head.locs) head.proposition
        → observed_words head o ≡ observed_words head p → is_true head.proposition o ≡ is_true head.proposition p }
{}

/// States that the states, and with them their numbers, the verdict and the report, depend only on the set of
/// outcomes: if two sets have the same outcomes, they have the same states and the same report.
pub fn a_set_has_one_report<S: OutcomeSet, T: OutcomeSet>()
    ensures states { (head : TestHead) (states others : List ProjectedState) → ((o : FinalState) → S.has o ↔ T.has o)
        → AreStatesOf head S.has states → AreStatesOf head T.has others → states ≡ others }
    ensures report { (head : TestHead) (claim : Claim) (text other : Bytes) → ((o : FinalState) → S.has o ↔ T.has o)
        → IsReport head S.has claim text → IsReport head T.has claim other → text ≡ other }
{}

/// States, of the states of all outcomes of a set, that `Ok` means that some outcome satisfies the proposition for
/// `exists`, none for `~exists`, and all for `forall`.
pub fn exact_verdicts_are_of_all_outcomes<S: OutcomeSet>()
    ensures { (head : TestHead) (states : List ProjectedState) → AreStatesOf head S.has states
        → OkMeans head S.has (positive states) (negative states) }
{}
