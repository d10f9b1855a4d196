//! What the crates of tests share: reading a text as a test, an allocator that refuses chosen requests, and making a value with it.
//!
//! It names the readers of both languages. No library and no program depends on it.
#![tactic(auto)]

mod refusing;
mod scarce;

use lw_base::Arch;
use lw_source::{Source, read_source};
use lw_text::read_frame;
use lw_x86::{Program, read_program};
pub use refusing::{Refusal, Refusing};
pub use scarce::{Made, MadeByAllocator, count_requests};
use std::alloc::Allocator;

/// Returns the source test that the text is, or `None` if the text is no source test or memory runs out.
pub fn source_of<A: Allocator + Copy>(alloc: A, text: &str) -> Option<Source<A>> {
    let frame = read_frame(alloc, text.as_bytes()).ok()?;
    match frame.head.arch {
        Arch::Source => read_source(alloc, frame).ok(),
        Arch::X86 => None,
    }
}

/// Returns the x86 test that the text is, or `None` if the text is no x86 test or memory runs out.
pub fn program_of<A: Allocator + Copy>(alloc: A, text: &str) -> Option<Program<A>> {
    let frame = read_frame(alloc, text.as_bytes()).ok()?;
    match frame.head.arch {
        Arch::Source => None,
        Arch::X86 => read_program(alloc, frame).ok(),
    }
}
