//! The verdict on a test's condition, and the observation.
ghost use Rattle.std.specs.Prelude.{◌≡◌};
ghost use Rattle.lw_report.specs.Judgement as judgement;
ghost use Rattle.lw_report.specs.Reports.{kind_text, verdict_text, observation_text, claim_line};

use lw_base::Quant;

/// Whether a list of states is complete.
#[derive(Clone, Copy)]
pub enum Claim {
    /// The states are all.
    Exact,
    /// The states are reachable, and there may be others.
    Listed,
}

/// Whether a test's condition holds.
#[derive(Clone, Copy)]
pub enum Verdict {
    /// The condition holds.
    Ok,
    /// The condition does not hold.
    No,
    /// The listed states do not decide the condition.
    Unknown,
}

/// In how many of the states a test's proposition is true.
#[derive(Clone, Copy)]
pub enum Observation {
    /// In no state.
    Never,
    /// In some states, and not in others.
    Sometimes,
    /// In all states.
    Always,
    /// The listed states do not decide in how many.
    Unknown,
}

/// The numbers of states in which a test's proposition is true, and in which it is false.
#[derive(Clone, Copy)]
pub(crate) struct Counts {
    pub positive: usize,
    pub negative: usize,
}

/// Returns the verdict on a condition with this quantifier, from the numbers of states and the claim on these states.
pub(crate) fn verdict_of(claim: Claim, quant: Quant, counts: Counts) -> Verdict
    ensures { result ≡ judgement.verdict_of claim quant counts.positive counts.negative }
{
    match (claim, quant) {
        (Claim::Exact, Quant::Exists) if counts.positive == 0 => Verdict::No,
        (Claim::Exact, Quant::Exists) => Verdict::Ok,
        (Claim::Exact, Quant::NotExists) if counts.positive == 0 => Verdict::Ok,
        (Claim::Exact, Quant::NotExists) => Verdict::No,
        (Claim::Exact, Quant::Forall) if counts.negative == 0 => Verdict::Ok,
        (Claim::Exact, Quant::Forall) => Verdict::No,
        (Claim::Listed, Quant::Exists) if counts.positive == 0 => Verdict::Unknown,
        (Claim::Listed, Quant::Exists) => Verdict::Ok,
        (Claim::Listed, Quant::NotExists) if counts.positive == 0 => Verdict::Unknown,
        (Claim::Listed, Quant::NotExists) => Verdict::No,
        (Claim::Listed, Quant::Forall) if counts.negative == 0 => Verdict::Unknown,
        (Claim::Listed, Quant::Forall) => Verdict::No,
    }
}

/// Returns the observation, from the numbers of states and the claim on these states.
pub(crate) fn observation_of(claim: Claim, counts: Counts) -> Observation
    ensures { result ≡ judgement.observation_of claim counts.positive counts.negative }
{
    match (claim, counts.positive, counts.negative) {
        (Claim::Exact, 0, _) => Observation::Never,
        (Claim::Exact, _, 0) => Observation::Always,
        (Claim::Exact, _, _) => Observation::Sometimes,
        (Claim::Listed, 0, _) => Observation::Unknown,
        (Claim::Listed, _, 0) => Observation::Unknown,
        (Claim::Listed, _, _) => Observation::Sometimes,
    }
}

impl Claim {
    /// Returns the printed line of a claim, with its end; it is empty if the states are all.
    pub(crate) fn line(self) -> &'static str
        ensures { result.now ≡ claim_line self }
    {
        match self {
            Claim::Exact => "",
            Claim::Listed => "Listed, not claimed complete\n",
        }
    }
}

impl Verdict {
    /// Returns the printed word of a verdict.
    pub(crate) fn word(self) -> &'static str
        ensures { result.now ≡ verdict_text self }
    {
        match self {
            Verdict::Ok => "Ok",
            Verdict::No => "No",
            Verdict::Unknown => "Unknown",
        }
    }
}

impl Observation {
    /// Returns the printed word of an observation.
    pub(crate) fn word(self) -> &'static str
        ensures { result.now ≡ observation_text self }
    {
        match self {
            Observation::Never => "Never",
            Observation::Sometimes => "Sometimes",
            Observation::Always => "Always",
            Observation::Unknown => "Unknown",
        }
    }
}

/// Returns what the title of a report says of the condition: `Allowed`, `Forbidden` or `Required`.
pub(crate) fn kind_text(quant: Quant) -> &'static str
    ensures { result.now ≡ kind_text quant }
{
    match quant {
        Quant::Exists => "Allowed",
        Quant::NotExists => "Forbidden",
        Quant::Forall => "Required",
    }
}
