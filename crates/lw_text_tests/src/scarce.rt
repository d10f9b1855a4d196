//! Frames and tests that are read while memory is refused, each request in turn.
use lw_base::{Arch, CellCause, CellFault};
use lw_source::read_source;
use lw_test_reader::{Made, MadeByAllocator, Refusing, count_requests};
use lw_text::{Frame, TextCause, TextFault, read_frame};
use lw_x86::read_program;
use std::alloc::Allocator;

/// Store buffering, with labels.
const STORE_BUFFERING: &str =
    "SRC SB {x=5; 0:r1=7} P0|P1; x := 1 | y := 1; goto E | L: r0 := x; E: r0 := y |; locations [z] exists (0:r0=0 /\\ 1:r0=0)";

/// Store buffering in x86 instructions, with labels.
const X86_STORE_BUFFERING: &str =
    "X86 SB {x=5; 0:EBX=7} P0|P1; MOV [x],1 | MOV [y],1; JMP E | L: MOV EAX,[x]; E: MOV EAX,[y] |; locations [z] exists (0:EAX=0)";

/// Reads the frame of store buffering.
struct ReadFrame;

/// Returns whether a frame has two threads and two locations.
fn is_whole<A: Allocator>(frame: &Frame<A>) -> bool {
    frame.head.threads == 2 && frame.head.locs.len() == 2
}

/// Returns `Refused` if a text was rejected because memory ran out, and `None` if for another cause.
fn refused_text(fault: TextFault) -> Option<Made> {
    if fault.cause == TextCause::Memory && fault.at == 0 {
        return Some(Made::Refused);
    }
    None
}

impl MadeByAllocator for ReadFrame {
    fn make<'a>(&self, _ample: &'a Refusing, scarce: &'a Refusing) -> Option<Made> {
        match read_frame(scarce, STORE_BUFFERING.as_bytes()) {
            Ok(frame) => is_whole(&frame).then_some(Made::Whole),
            Err(fault) => refused_text(fault),
        }
    }
}

/// Returns `Refused` if cells were rejected because memory ran out, and `None` if for another cause.
fn refused(fault: CellFault) -> Option<Made> {
    if fault.cause == CellCause::Memory && fault.at == 0 {
        return Some(Made::Refused);
    }
    None
}

/// Reads the source test of a frame while memory is refused, and compares it with the one of an equal frame, which is read with all
/// memory.
fn source_by<A: Allocator + Copy>(
    ample: A,
    scarce: A,
    frame: Frame<A>,
    equal: Frame<A>,
) -> Option<Made> {
    match (frame.head.arch, equal.head.arch) {
        (Arch::Source, Arch::Source) => {
            match (read_source(scarce, frame), read_source(ample, equal)) {
                (Ok(source), Ok(whole)) => (source.threads == whole.threads).then_some(Made::Whole),
                (Err(fault), Ok(_)) => refused(fault),
                (_, Err(_)) => None,
            }
        }
        _ => None,
    }
}

/// Reads the source test of store buffering.
struct ReadSource;

impl MadeByAllocator for ReadSource {
    fn make<'a>(&self, ample: &'a Refusing, scarce: &'a Refusing) -> Option<Made> {
        let text = STORE_BUFFERING.as_bytes();
        match (read_frame(ample, text), read_frame(ample, text)) {
            (Ok(frame), Ok(equal)) => source_by(ample, scarce, frame, equal),
            _ => None,
        }
    }
}

/// Reads the x86 test of a frame while memory is refused, and compares it with the one of an equal frame, which is read with all memory.
fn program_by<A: Allocator + Copy>(
    ample: A,
    scarce: A,
    frame: Frame<A>,
    equal: Frame<A>,
) -> Option<Made> {
    match (frame.head.arch, equal.head.arch) {
        (Arch::X86, Arch::X86) => {
            match (read_program(scarce, frame), read_program(ample, equal)) {
                (Ok(program), Ok(whole)) => {
                    (program.threads == whole.threads).then_some(Made::Whole)
                }
                (Err(fault), Ok(_)) => refused(fault),
                (_, Err(_)) => None,
            }
        }
        _ => None,
    }
}

/// Reads the x86 test of store buffering.
struct ReadProgram;

impl MadeByAllocator for ReadProgram {
    fn make<'a>(&self, ample: &'a Refusing, scarce: &'a Refusing) -> Option<Made> {
        let text = X86_STORE_BUFFERING.as_bytes();
        match (read_frame(ample, text), read_frame(ample, text)) {
            (Ok(frame), Ok(equal)) => program_by(ample, scarce, frame, equal),
            _ => None,
        }
    }
}

#[test]
fn readers_where_memory_is_refused(rt: HostRuntime) {
    let frames = count_requests(rt.alloc(), &ReadFrame);
    assert!(rt; matches!(frames, Some(number) if number > 0), "{frames:?}");
    let sources = count_requests(rt.alloc(), &ReadSource);
    assert!(rt;
        matches!(sources, Some(number) if number > 0),
        "{sources:?}"
    );
    let programs = count_requests(rt.alloc(), &ReadProgram);
    assert!(rt;
        matches!(programs, Some(number) if number > 0),
        "{programs:?}"
    );
}
