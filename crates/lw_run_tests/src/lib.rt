//! Tests of the runs of the workbench: worked examples of each run, runs between devices that give and take little and fail, where
//! memory is refused, and faults, words and statuses as values.
//!
//! It names lw_bench, the types of its calls' parameters and results, and lw_test_reader. The folder `tables` has more examples of
//! what the program writes of texts and schedules.
#![tactic(auto)]

#[cfg(test)]
mod commands;
#[cfg(test)]
mod devices;
#[cfg(test)]
mod runs;
#[cfg(test)]
mod scarce;
#[cfg(test)]
mod spelling;
#[cfg(test)]
mod worked;
