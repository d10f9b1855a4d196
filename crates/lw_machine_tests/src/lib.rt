//! Tests of memories and machines: flat memory, caches of both protocols, the x86-TSO machine over each of them, and
//! the compiler.
//! This crate depends on the memory systems, the machine and the compiler, and on the readers of tests in
//! lw_test_reader.
#![tactic(auto)]

#[cfg(test)]
mod caches;
#[cfg(test)]
mod compiler;
#[cfg(test)]
mod machines;
#[cfg(test)]
mod memories;
#[cfg(test)]
mod restarts;
#[cfg(test)]
mod scarce;
