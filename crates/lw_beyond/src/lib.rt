//! Complete lists of tests of any size. Within the limits of lists they are made by lw_finals's enumeration of orders, past them by
//! lw_search's search of the machine's states, within a budget.
//! `answer_request` renders the output (a report, states with schedules, or marked states), and says how the list was made. The program
//! `beyond` calls it; the program `lw` does not depend on this crate.
#![tactic(auto)]

mod answers;
mod command;
mod fault;
mod kinds;
mod lists;

pub use answers::{Answer, answer_request};
pub use command::{Command, command_of, usage_line};
pub use fault::{BeyondFault, fault_line, status_of};
pub use lists::{Method, Output, Request};
