//! The runs of the workbench on store buffering, between devices.
ghost use Rattle.std.specs.Prelude.{◌≡◌, false};

use crate::devices::{Endless, Sheet, Tape};
use lw_base::End;
use lw_bench::{
    BenchFault, ByteReader, ByteWriter, FromRead, Protocol, Task, ToWrite, answer, carry_out,
    compile_text, replay_text, schedules_text, states,
};
use lw_text::{TextCause, TextFault};
use std::alloc::{Allocator, Global};
use std::io::ErrorKind;

/// Store buffering: each thread stores to its own location and loads the other's.
const STORE_BUFFERING: &str =
    "SRC SB\n{}\n P0 | P1 ;\n x := 1 | y := 1 ;\n r0 := y | r0 := x ;\nexists (0:r0=0 /\\ 1:r0=0)\n";

/// The page of the replay of store buffering by `P0 P0 P1 P1`.
const STORE_BUFFERING_PAGE: &str =
    "Test SB\nSteps 4\nEnd Final\nP0 at 2 r0=0 r1=0 r2=0 r3=0 r4=0 r5=0\nP1 at 2 r0=1 r1=0 r2=0 r3=0 r4=0 r5=0\nMemory x=1 y=1\n";

/// The report of store buffering.
const STORE_BUFFERING_REPORT: &str =
    "Test SB Allowed\nStates 3\n0:r0=0; 1:r0=1;\n0:r0=1; 1:r0=0;\n0:r0=1; 1:r0=1;\nNo\nPositive: 0 Negative: 3\nCondition exists (0:r0=0 /\\ 1:r0=0)\nObservation SB Never 0 3\n";

/// The list of schedules of store buffering.
const STORE_BUFFERING_SCHEDULES: &str =
    "Test SB\nStates 3\n0:r0=0; 1:r0=1;\n P0 D0 P0 P0 P1 D1 P1 P1\n0:r0=1; 1:r0=0;\n P1 D1 P1 P1 P0 D0 P0 P0\n0:r0=1; 1:r0=1;\n P0 D0 P1 D1 P0 P0 P1 P1\n";

/// Store buffering in x86 instructions.
const X86_STORE_BUFFERING: &str =
    "X86 SB\n{}\n P0 | P1 ;\n MOV [x],$1 | MOV [y],$1 ;\n MOV EAX,[y] | MOV EAX,[x] ;\nexists (0:EAX=0 /\\ 1:EAX=0)\n";

/// The report of the x86 test.
const X86_STORE_BUFFERING_REPORT: &str =
    "Test SB Allowed\nStates 4\n0:EAX=0; 1:EAX=0;\n0:EAX=0; 1:EAX=1;\n0:EAX=1; 1:EAX=0;\n0:EAX=1; 1:EAX=1;\nOk\nPositive: 1 Negative: 3\nCondition exists (0:EAX=0 /\\ 1:EAX=0)\nObservation SB Sometimes 1 3\n";

/// The list of schedules of the x86 test.
const X86_STORE_BUFFERING_SCHEDULES: &str =
    "Test SB\nStates 4\n0:EAX=0; 1:EAX=0;\n P0 P0 P1 D1 P1 D0\n0:EAX=0; 1:EAX=1;\n P0 D0 P0 P1 D1 P1\n0:EAX=1; 1:EAX=0;\n P0 P1 D1 P0 P1 D0\n0:EAX=1; 1:EAX=1;\n P0 D0 P1 D1 P0 P1\n";

/// The text of the compiled store buffering.
const STORE_BUFFERING_COMPILED: &str =
    "X86 SB\n{\n x=0;\n y=0;\n}\n P0 | P1 ;\n MOV [x],$1 | MOV [y],$1 ;\n MFENCE | MFENCE ;\n MOV EAX,[y] | MOV EAX,[x] ;\nexists (0:EAX=0 /\\ 1:EAX=0)\n";

/// The page of the x86 test's replay by `P0 P0 P1 P1 D0 D1`.
const X86_STORE_BUFFERING_PAGE: &str =
    "Test SB\nSteps 6\nEnd Final\nP0 at 2 EAX=0 EBX=0 ECX=0 EDX=0 ESI=0 EDI=0\nP0 buffer\nP0 lines x=M y=I\nP1 at 2 EAX=0 EBX=0 ECX=0 EDX=0 ESI=0 EDI=0\nP1 buffer\nP1 lines x=I y=M\nMemory x=0 y=0\nContent x=1 y=1\n";

/// Each task of store buffering, its text, and its output.
pub(crate) const RUNS: [(Task<'static>, &'static str, &'static str); 8] = [
    (Task::States, STORE_BUFFERING, STORE_BUFFERING_REPORT),
    (Task::Compile, STORE_BUFFERING, STORE_BUFFERING_COMPILED),
    (Task::Schedules, STORE_BUFFERING, STORE_BUFFERING_SCHEDULES),
    (
        Task::Replay("P0 P0 P1 P1", Protocol::Mesi),
        STORE_BUFFERING,
        STORE_BUFFERING_PAGE,
    ),
    (
        Task::States,
        X86_STORE_BUFFERING,
        X86_STORE_BUFFERING_REPORT,
    ),
    (
        Task::Compile,
        STORE_BUFFERING_COMPILED,
        STORE_BUFFERING_COMPILED,
    ),
    (
        Task::Schedules,
        X86_STORE_BUFFERING,
        X86_STORE_BUFFERING_SCHEDULES,
    ),
    (
        Task::Replay("P0 P0 P1 P1 D0 D1", Protocol::Mesi),
        X86_STORE_BUFFERING,
        X86_STORE_BUFFERING_PAGE,
    ),
];

/// What a task returned, the number of its reads, and the sheet that it wrote to.
#[derive(Drop)]
struct RunResult {
    result: Result<u8, BenchFault>,
    reads: usize,
    sheet: Sheet,
}

/// Carries out a task between a reader and a writer that transfer one byte in each call.
fn run_between(alloc: Global, task: Task<'_>, tape: Tape<'_>, sheet: Sheet) -> RunResult {
    let mut reader = FromRead::new(tape);
    let mut writer = ToWrite::new(sheet);
    let result = carry_out(alloc, task, &mut reader, &mut writer);
    RunResult {
        result,
        reads: reader.reader.calls,
        sheet: writer.writer,
    }
}

/// Everything is written byte by byte. The reader is not called again after it has returned the end of the input.
#[test]
fn byte_by_byte(rt: HostRuntime) {
    for (task, text, written) in RUNS {
        let run = run_between(rt.alloc(), task, Tape::new(text.as_bytes()), Sheet::new());
        assert!(rt; matches!(run.result, Ok(0)) && run.sheet.is(written));
        assert!(rt; run.reads == text.len().saturating_add(1) && run.sheet.calls == written.len());
    }
}

/// Carries out a task by the function that is named after it. A replay that does not end in a final state counts as a fault.
pub(crate) fn run_by_name<R: ByteReader, W: ByteWriter, A: Allocator + Copy>(
    alloc: A,
    task: Task<'_>,
    reader: &mut R,
    writer: &mut W,
) -> Result<(), BenchFault>
    requires reader { R.failed reader.old ≡ false }
    requires writer { W.failed writer.old ≡ false }
{
    match task {
        Task::States => states(alloc, reader, writer),
        Task::Compile => compile_text(alloc, reader, writer),
        Task::Schedules => schedules_text(alloc, reader, writer),
        Task::Replay(schedule, protocol) => {
            match replay_text(alloc, reader, schedule, protocol, writer)? {
                End::Final => Ok(()),
                End::NotFinal | End::Stopped(_) => Err(BenchFault::Read),
            }
        }
    }
}

/// The function that is named after a task writes what `carry_out` writes for it.
#[test]
fn runs_by_their_names(rt: HostRuntime) {
    for (task, text, written) in RUNS {
        let mut reader = FromRead::new(Tape::new(text.as_bytes()));
        let mut writer = ToWrite::new(Sheet::new());
        let is_done = run_by_name(rt.alloc(), task, &mut reader, &mut writer).is_ok();
        assert!(rt; is_done && writer.writer.is(written));
    }
}

/// Of a text in memory `answer` returns what `carry_out` writes.
#[test]
fn answers_in_memory(rt: HostRuntime) {
    for (task, text, written) in RUNS {
        let is_answered = match answer(rt.alloc(), task, text.as_bytes()) {
            Ok((made, status)) => status == 0 && made.as_str() == written,
            Err(_) => false,
        };
        assert!(rt; is_answered);
    }
}

/// Whichever read fails, with any error, the run returns the fault `Read`, writes nothing, and does not call the reader again.
#[test]
fn each_read_fails(rt: HostRuntime) {
    for (task, text, _) in RUNS {
        for failing in 1..text.len().saturating_add(2) {
            for error in [
                ErrorKind::Interrupted,
                ErrorKind::UnexpectedEof,
                ErrorKind::Other,
            ] {
                let tape = Tape::failing(text.as_bytes(), failing, error);
                let run = run_between(rt.alloc(), task, tape, Sheet::new());
                let is_reported = matches!(run.result, Err(BenchFault::Read));
                assert!(rt; is_reported && run.reads == failing && run.sheet.calls == 0);
            }
        }
    }
}

/// Whichever write fails, with an error or by writing nothing, the run returns the fault `Write`, and does not call the writer again.
#[test]
fn each_write_fails(rt: HostRuntime) {
    for (task, text, written) in RUNS {
        for failing in 1..written.len().saturating_add(1) {
            for error in [
                None,
                Some(ErrorKind::Interrupted),
                Some(ErrorKind::BrokenPipe),
            ] {
                let sheet = Sheet::failing(failing, error);
                let run = run_between(rt.alloc(), task, Tape::new(text.as_bytes()), sheet);
                let is_reported = matches!(run.result, Err(BenchFault::Write));
                assert!(rt; is_reported && run.sheet.calls == failing);
            }
        }
    }
}

/// Returns what a task returns for an input that never ends, and the numbers of its reads and writes.
fn run_endlessly(alloc: Global, task: Task<'_>) -> (Result<u8, BenchFault>, usize, usize) {
    let mut reader = FromRead::new(Endless { calls: 0 });
    let mut writer = ToWrite::new(Sheet::new());
    let result = carry_out(alloc, task, &mut reader, &mut writer);
    (result, reader.reader.calls, writer.writer.calls)
}

/// Of an input that never ends, whose bytes are not UTF-8, each run reads exactly 65,537 bytes, and writes nothing.
#[test]
fn endless_input(rt: HostRuntime) {
    for (task, _, _) in RUNS {
        let (result, reads, writes) = run_endlessly(rt.alloc(), task);
        let is_too_long = matches!(
            result,
            Err(BenchFault::Text(TextFault {
                at: 65536,
                cause: TextCause::TooLong
            }))
        );
        assert!(rt; is_too_long && reads == 65537 && writes == 0);
    }
}

/// Returns what a replay by a schedule returns, and the number of its writes.
fn replay_between(alloc: Global, text: &[u8], schedule: &str) -> (Result<u8, BenchFault>, usize) {
    let task = Task::Replay(schedule, Protocol::Mesi);
    let run = run_between(alloc, task, Tape::new(text), Sheet::new());
    (run.result, run.sheet.calls)
}

/// A text that is cut off is rejected as a text, at an offset in it, unless only the last line end is gone.
#[test]
fn prefixes(rt: HostRuntime) {
    let text = STORE_BUFFERING.as_bytes();
    for len in 0..86usize {
        let (front, _rest) = text.split_at(len);
        let (result, writes) = replay_between(rt.alloc(), front, "");
        assert!(rt;
            matches!(result, Err(BenchFault::Text(fault)) if fault.at <= len) && writes == 0
        );
    }
    let (front, _rest) = text.split_at(86);
    assert!(rt; matches!(replay_between(rt.alloc(), front, "").0, Ok(1)));
    assert!(rt; matches!(replay_between(rt.alloc(), text, "P0 P0 P1 P1").0, Ok(0)));
}
