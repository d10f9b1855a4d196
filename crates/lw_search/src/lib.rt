//! The complete list of a test of any size, found by a search of the states of the x86-TSO machine, within a budget of states.
//!
//! How a list is made:
//! 1. `search`: breadth first, each state is visited once, and each step and drain that is enabled there is taken.
//!    After that event all threads take invisible events until none is enabled.
//! 2. `invisible`: an event is invisible if no other thread, now or later, conflicts with its access (partial-order
//!    reduction). `accesses` is a quick test that most visible events fail.
//! 3. `states`, `tables` and `run`: a state is a key of five numbers: that of its memory, and that of the state of
//!    each thread; and it has the run that led there from the state before. `transitions`: what an event does to its thread and to memory
//!    is computed once for all states that have both.
//! 4. `collect`: each final state's outcome is listed once, with the schedule along the states before it. `observed`: for a report
//!    one outcome is kept for each list of words that the observed names have.
//!
//! Why nothing is missing: `laws`. An invisible event can be taken first in every run that ends, and the run gets no longer by it; so
//! each final state that some run reaches is reached from a visited state, by induction on the length of the run.
//!
//! A source test is searched as the program that it is compiled to. The program `lw` does not depend on this crate: `lw_finals` lists
//! by orders of conflicting items, and refuses a test with too many.
#![tactic(auto)]

mod accesses;
mod collect;
mod fault;
mod invisible;
mod laws;
mod list;
mod observed;
mod queue;
mod run;
mod search;
mod states;
mod tables;
mod thread_state;
mod transitions;

pub use fault::SearchFault;
pub use list::{
    Searched, SearchedOutcomes, reach_program, reach_program_states, reach_source,
    reach_source_states,
};
