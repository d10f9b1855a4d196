//! Tests of the orders of items: worked orders, the limits, the sequence of orders compared with a plain
//! implementation, and orders while memory is refused.
#![tactic(auto)]

#[cfg(test)]
mod orders;
#[cfg(test)]
mod plain;
