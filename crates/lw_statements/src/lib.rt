//! The cells of a test, in either language: a thread's labels, its statements, and its jumps.
//! A language describes the spelling of its statements by the trait `StatementReader`: in forms, each with a slot for
//! each token. One reader parses them all. The rules of labels, of the table of locations, which grows while cells
//! are read, and of jumps are stated here once.
//! This crate depends on lw_base, on the tests of lw_litmus, and on the frames of lw_text. docs/FORMAT.md defines
//! what is read. The languages rely on one promise: `read_test` returns a frame's test if and only if the frame has
//! one.
#![tactic(auto)]

mod column;
mod draft;
mod labels;
mod parts;
mod phrase;
mod read;
mod slot;
mod statement_parser;
mod statement_reader;
mod token;

pub use draft::Operands;
pub use parts::TestParts;
pub use read::{cells_have_one_fault, read_test};
pub use slot::Slot;
pub use statement_reader::StatementReader;
