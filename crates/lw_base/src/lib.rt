//! What all crates of the workbench share: indices of processors, locations and registers, words, outcomes, events
//! and schedules, names, conditions and the head of a test.
//! This crate depends only on std. It has values, and functions that parse or print one (a schedule, a condition, the
//! names of registers and causes). It executes nothing and parses no whole test. A contract sees each type as plain
//! data of `specs/`: a number, a list, or a record of lists. Lemmas that other crates cite are in `proofs/api/`.
#![tactic(auto)]

mod byte_kinds;
mod change;
mod condition;
mod event;
mod fault;
mod head;
mod indices;
mod limits;
mod location;
mod name;
mod operand;
mod outcome;
mod proposition;
mod register;
mod schedule;
mod sequence;
mod stop;
mod text;

pub use byte_kinds::{ByteKind, prefix_of_kind};
pub use change::Change;
pub use condition::write_condition;
pub use event::Event;
pub use fault::{CellCause, CellFault, ScheduleCause, ScheduleFault};
pub use head::{Arch, Head, Quant, Seen};
pub use indices::{Cpu, Loc, Reg, Word};
pub use limits::{
    MAX_LOCATIONS, MAX_NAME_BYTES, MAX_NODES, MAX_ROWS, MAX_TEST_NAME_BYTES, MAX_TEXT_BYTES,
    MAX_THREADS, REGISTERS, the_constants_are_the_limits,
};
pub use location::LocNames;
pub use name::{
    ascii_text, eq_ignore_ascii_case, is_blank, is_name, is_name_byte, is_name_shaped, is_numbered,
    is_unreserved_name,
};
pub use operand::Operand;
pub use outcome::{Outcome, registers_come_first};
pub use proposition::Prop;
pub use register::{reg_from_name, reg_name};
pub use schedule::{
    a_text_has_one_schedule, a_written_schedule_is_read_back, read_schedule, write_schedule,
};
pub use sequence::Sequence;
pub use stop::{End, Replay, Stop};
pub use text::Text;
