//! The workbench as a library for C and for WebAssembly: a function for each of the four commands, for films, and for lists of any size,
//! over memory that the caller lends.
//! A call takes memory to allocate from, the text, and a buffer for its result. No state is kept between calls.
//! The result is the exit status and the bytes that the program writes, a fault's line without its line end.
//! `include/lw.h` documents the functions for C.
#![tactic(auto)]

mod call_result;
mod exports;
mod films;
mod reached;
mod version;
