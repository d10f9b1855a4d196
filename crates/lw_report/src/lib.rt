//! Reports on a test's outcomes: the truth of its proposition in each, their states, the verdict on its condition,
//! the report, and the list of schedules. `specs/Reports.antt` defines the texts as functions of the set of outcomes.
//! This crate depends on lw_base, and on lw_outcome_map for the list of outcomes.
#![tactic(auto)]

mod judgement;
mod laws;
mod line;
mod marks;
mod projection;
mod report;
mod schedules;
mod states;
mod truth;

pub use judgement::{Claim, Observation, Verdict};
pub use laws::{
    OutcomeSet, a_set_has_one_report, exact_verdicts_are_of_all_outcomes,
    outcomes_with_the_same_words_agree,
};
pub use marks::write_marks;
pub use projection::{observed, project};
pub use report::{verdict, write_report};
pub use schedules::write_schedules;
pub use states::{State, States, states_of};
pub use truth::holds;
