//! The four commands as C functions.
ghost use Rattle.std.specs.Prelude.{◌≡◌, ◌⊎◌};
ghost use Rattle.std.specs.Str.{IsUtf8};
ghost use Rattle.lw_bench.specs.declared.command.Task.TheVariants as task;
ghost use Rattle.lw_bench.specs.declared.fault.BenchFault.TheVariants as fault;
ghost use Rattle.lw_bench.specs.Lists.{IsReachedOnMachine, IsReachedOverCaches};
ghost use Rattle.lw_bench.specs.Tasks.{IsTaskOutput, TaskFaultIsTrue};
ghost use Rattle.lw_bench.specs.FaultTruth.{ReplayFaultIsTrue};
ghost use Rattle.lw_library.specs.CallResults.{replay_protocol, IsReplayed, IsCallResult, ReturnsFaultLine};

use crate::call_result::{ANSWER, CallResult, write_fault, write_result};
use lw_arena::{Arena, Memory};
use lw_bench::{BenchFault, Protocol, Task, answer};

/// Writes the report of the test in `text` to the start of `room`, as `lw states` prints it, and the result of the call to `call_result`.
#[unsafe(no_mangle)]
pub extern "C" fn lw_states(
    memory: Memory,
    text: &[u8],
    room: &mut [u8],
    call_result: &mut CallResult,
)
    ensures call_result { IsCallResult (IsTaskOutput task.States) (TaskFaultIsTrue task.States) text.now call_result.new room.old room.new }
    ensures machine { IsReachedOnMachine text.now }
    ensures caches { IsReachedOverCaches text.now }
{
    *call_result = run(memory, Task::States, text, room);
}

/// Writes the test's final states, each with a schedule, to the start of `room`, as `lw schedules` prints them.
#[unsafe(no_mangle)]
pub extern "C" fn lw_schedules(
    memory: Memory,
    text: &[u8],
    room: &mut [u8],
    call_result: &mut CallResult,
)
    ensures call_result { IsCallResult (IsTaskOutput task.Schedules) (TaskFaultIsTrue task.Schedules) text.now call_result.new room.old room.new }
    ensures machine { IsReachedOnMachine text.now }
    ensures caches { IsReachedOverCaches text.now }
{
    *call_result = run(memory, Task::Schedules, text, room);
}

/// Writes the canonical text of the test to the start of `room`, as `lw compile` prints it. A source test is first compiled to x86.
#[unsafe(no_mangle)]
pub extern "C" fn lw_compile(
    memory: Memory,
    text: &[u8],
    room: &mut [u8],
    call_result: &mut CallResult,
)
    ensures call_result { IsCallResult (IsTaskOutput task.Compile) (TaskFaultIsTrue task.Compile) text.now call_result.new room.old room.new }
{
    *call_result = run(memory, Task::Compile, text, room);
}

/// Writes the page of the replay of `schedule` to the start of `room`, as `lw replay` prints it. An x86 test runs over MESI caches if
/// `protocol` is 0, and over MOESI caches otherwise. Fails with `Read` if the schedule is not UTF-8, as the program does, which cannot
/// read such a word.
#[unsafe(no_mangle)]
pub extern "C" fn lw_replay(
    memory: Memory,
    text: &[u8],
    schedule: &[u8],
    protocol: u32,
    room: &mut [u8],
    call_result: &mut CallResult,
)
    ensures call_result { IsUtf8 schedule.now
        → IsCallResult (IsReplayed schedule.now (replay_protocol protocol)) (ReplayFaultIsTrue schedule.now) text.now call_result.new room.old room.new }
    ensures no_utf8 { ¬ IsUtf8 schedule.now
        → ReturnsFaultLine fault.Read call_result.new room.old room.new ⊎ ReturnsFaultLine fault.Memory call_result.new room.old room.new }
{
    let protocol = protocol_of(protocol);
    *call_result = match std::str::from_utf8(schedule) {
        Ok(schedule) => run(memory, Task::Replay(schedule, protocol), text, room),
        Err(_) => write_fault(&Arena::new(memory), &BenchFault::Read, room),
    };
}

/// Returns MESI for 0, and MOESI for any other number.
pub(crate) fn protocol_of(number: u32) -> Protocol
    ensures { result ≡ replay_protocol number }
{
    if number == 0 {
        Protocol::Mesi
    } else {
        Protocol::Moesi
    }
}

/// Runs a task with an allocator over `memory`, and writes its output or a fault's line to the start of `room`.
fn run(memory: Memory, task: Task<'_>, text: &[u8], room: &mut [u8]) -> CallResult
    ensures call_result { IsCallResult (IsTaskOutput task.entry) (TaskFaultIsTrue task.entry) text.now result room.old room.new }
    ensures machine { IsReachedOnMachine text.now }
    ensures caches { IsReachedOverCaches text.now }
{
    let arena = Arena::new(memory);
    match answer(&arena, task, text) {
        Ok((made, status)) => write_result(ANSWER, status, made.as_str().as_bytes(), room),
        Err(fault) => write_fault(&arena, &fault, room),
    }
}
