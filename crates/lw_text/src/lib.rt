//! Reading the bytes of a litmus test into tokens and a frame: the head of the test, and for each thread and row the
//! tokens of the cell. The crates of the languages parse the cells.
//! This crate depends on lw_base. docs/FORMAT.md defines the format.
#![tactic(auto)]

mod block;
mod body;
mod byte_prefix;
mod cell;
mod columns;
mod cursor;
mod fault;
mod frame;
mod head;
mod initial;
mod lexeme;
mod lexer;
mod listed;
mod notes;
mod open_group;
mod parts;
mod preamble;
mod proposition;
mod proposition_reader;
mod question;
mod read;
mod rows;
mod seen;
mod site;
mod terminal;
mod token;
mod token_kind;
mod token_stream;
mod trivia;

pub use cell::Cell;
pub use fault::{TextCause, TextFault};
pub use frame::Frame;
pub use read::{
    a_text_fails_at_one_place, a_text_has_its_cells_once, a_text_has_one_frame,
    a_text_with_a_frame_does_not_fail, heads_of_frames_are_well_formed, read_frame,
    tokens_are_slices,
};
pub use token::Token;
pub use token_kind::TokenKind;
