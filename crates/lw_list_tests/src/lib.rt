//! Tests of complete lists and of the reports of them: worked lists, the limits, lists where memory is refused, and verdicts.
//!
//! It names the crates of the lists and of the reports, the crates that these use, and lw_test_reader. The folder `tables` has whole
//! reports and lists of schedules.
#![tactic(auto)]

#[cfg(test)]
mod judgements;
#[cfg(test)]
mod limits;
#[cfg(test)]
mod lists;
#[cfg(test)]
mod scarce;
