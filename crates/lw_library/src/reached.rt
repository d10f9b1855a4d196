//! Lists of any size as C functions.
ghost use Rattle.std.specs.Prelude.{◌≡◌, ◌⊎◌};
ghost use Rattle.lw_bench.specs.declared.fault.BenchFault.TheVariants as bench;
ghost use Rattle.lw_beyond.specs.declared.fault.BeyondFault.TheVariants as beyond;
ghost use Rattle.lw_bench.specs.Lists.{IsReachedOnMachine, IsReachedOverCaches};
ghost use Rattle.lw_beyond.specs.declared.lists.Output.TheVariants as output;
ghost use Rattle.lw_library.specs.Reached.{request_of, IsReachResult, ReturnsFault};

use crate::call_result::{ANSWER, CallResult, FAULT, write_result};
use lw_arena::{Arena, Memory};
use lw_bench::{BenchFault, memory_line};
use lw_beyond::{BeyondFault, Output, Request, answer_request, fault_line, status_of};

/// Writes the report of a test of any size to the start of `room`, as `beyond --budget BUDGET states` prints it.
#[unsafe(no_mangle)]
pub extern "C" fn lw_reach_states(
    memory: Memory,
    text: &[u8],
    budget: usize,
    room: &mut [u8],
    call_result: &mut CallResult,
)
    ensures call_result { IsReachResult (request_of output.States budget) text.now call_result.new room.old room.new }
    ensures machine { IsReachedOnMachine text.now }
    ensures caches { IsReachedOverCaches text.now }
{
    *call_result = run_request(memory, &request_of(Output::States, budget), text, room);
}

/// Writes the final states of a test of any size, each with a schedule, to the start of `room`, as `beyond --budget BUDGET schedules`
/// prints them.
#[unsafe(no_mangle)]
pub extern "C" fn lw_reach_schedules(
    memory: Memory,
    text: &[u8],
    budget: usize,
    room: &mut [u8],
    call_result: &mut CallResult,
)
    ensures call_result { IsReachResult (request_of output.Schedules budget) text.now call_result.new room.old room.new }
    ensures machine { IsReachedOnMachine text.now }
    ensures caches { IsReachedOverCaches text.now }
{
    *call_result = run_request(memory, &request_of(Output::Schedules, budget), text, room);
}

/// Writes the final states of a test of any size, each marked by the truth of the proposition in it, to the start of `room`, as
/// `beyond --budget BUDGET marks` prints them.
#[unsafe(no_mangle)]
pub extern "C" fn lw_reach_marks(
    memory: Memory,
    text: &[u8],
    budget: usize,
    room: &mut [u8],
    call_result: &mut CallResult,
)
    ensures call_result { IsReachResult (request_of output.Marks budget) text.now call_result.new room.old room.new }
    ensures machine { IsReachedOnMachine text.now }
    ensures caches { IsReachedOverCaches text.now }
{
    *call_result = run_request(memory, &request_of(Output::Marks, budget), text, room);
}

/// Returns the request for an output within a budget.
fn request_of(output: Output, budget: usize) -> Request
    ensures { result ≡ request_of output budget }
{
    Request {
        output,
        search: false,
        budget,
    }
}

/// Answers a request with an allocator over `memory`, and writes the output or a fault's line to the start of `room`.
fn run_request(memory: Memory, request: &Request, text: &[u8], room: &mut [u8]) -> CallResult
    ensures call_result { IsReachResult request.now text.now result room.old room.new }
    ensures machine { IsReachedOnMachine text.now }
    ensures caches { IsReachedOverCaches text.now }
{
    let arena = Arena::new(memory);
    match answer_request(&arena, request, text) {
        Ok(answer) => write_result(ANSWER, 0, answer.text.as_str().as_bytes(), room),
        Err(fault) => refuse_request(&arena, &fault, room),
    }
}

/// Writes the line of a fault to the start of `room`. If memory runs out for the line, writes that of `Memory` instead.
fn refuse_request(arena: &Arena, fault: &BeyondFault, room: &mut [u8]) -> CallResult
    ensures { ReturnsFault fault.now result room.old room.new ⊎ ReturnsFault (beyond.Bench bench.Memory) result room.old room.new }
{
    match fault_line(arena, fault) {
        Ok(line) => write_result(FAULT, status_of(fault), line.as_bytes(), room),
        Err(_) => write_result(
            FAULT,
            status_of(&BeyondFault::Bench(BenchFault::Memory)),
            memory_line().as_bytes(),
            room,
        ),
    }
}
