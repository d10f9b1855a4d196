//! Tests of lists of any size: the words of a command line, worked answers by orders and by a search, budgets, and lists where memory is
//! refused. Whole reports are in the folders `examples` and `bench`, where tools/gate/check_beyond.py compares them.
#![tactic(auto)]

#[cfg(test)]
mod answers;
#[cfg(test)]
mod commands;
#[cfg(test)]
mod scarce;
