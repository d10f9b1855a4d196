//! Tests of values and texts: outcomes, names and registers, the reading of a head, of cells, of three classic tests and
//! of a spin lock, and a run of a source test.
#![tactic(auto)]

#[cfg(test)]
mod cells;
#[cfg(test)]
mod classics;
#[cfg(test)]
mod heads;
#[cfg(test)]
mod locks;
#[cfg(test)]
mod names;
#[cfg(test)]
mod programs;
#[cfg(test)]
mod runs;
#[cfg(test)]
mod scarce;
#[cfg(test)]
mod values;
