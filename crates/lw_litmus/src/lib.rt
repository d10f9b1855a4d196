//! Litmus tests as values, in both languages: a head, and for each thread its statements or instructions. The crate
//! says what is always true of a test, what laws require of one, and which operation each statement executes; control
//! flow, accesses and conflicts are derived from the operation.
//! This crate depends only on lw_base: it parses no text and executes nothing. Crates above rely on one promise:
//! every `Source` and every `Program` is well-formed.
#![tactic(auto)]

mod instr;
mod laws;
mod limits;
mod operation;
mod program;
mod source;
mod statement;
mod stmt;

pub use instr::Instr;
pub use laws::well_formed_tests_are_well_scoped;
pub use limits::{MAX_INSTRUCTIONS, MAX_STATEMENTS, the_constants_are_the_limits};
pub use operation::{Guard, Operation};
pub use program::Program;
pub use source::Source;
pub use statement::Statement;
pub use stmt::Stmt;
