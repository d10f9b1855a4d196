//! Films of replays as a C function.
ghost use Rattle.std.specs.Prelude.{◌≡◌, ◌⊎◌};
ghost use Rattle.std.specs.Str.{IsUtf8};
ghost use Rattle.lw_bench.specs.declared.fault.BenchFault.TheVariants as fault;
ghost use Rattle.lw_bench.specs.FaultTruth.{ReplayFaultIsTrue};
ghost use Rattle.lw_library.specs.CallResults.{replay_protocol, IsFilmed, IsCallResult, ReturnsFaultLine};

use crate::call_result::{ANSWER, CallResult, write_fault, write_result};
use crate::exports::protocol_of;
use lw_arena::{Arena, Memory};
use lw_bench::{BenchFault, Protocol, film};

/// Writes the pages of the replays of all prefixes of `schedule` to the start of `room`, the shortest first, each followed by an empty
/// line. Pages and failures are those of `lw_replay`.
#[unsafe(no_mangle)]
pub extern "C" fn lw_film(
    memory: Memory,
    text: &[u8],
    schedule: &[u8],
    protocol: u32,
    room: &mut [u8],
    call_result: &mut CallResult,
)
    ensures call_result { IsUtf8 schedule.now
        → IsCallResult (IsFilmed schedule.now (replay_protocol protocol)) (ReplayFaultIsTrue schedule.now) text.now call_result.new room.old room.new }
    ensures no_utf8 { ¬ IsUtf8 schedule.now
        → ReturnsFaultLine fault.Read call_result.new room.old room.new ⊎ ReturnsFaultLine fault.Memory call_result.new room.old room.new }
{
    let protocol = protocol_of(protocol);
    *call_result = match std::str::from_utf8(schedule) {
        Ok(schedule) => run_film(memory, schedule, protocol, text, room),
        Err(_) => write_fault(&Arena::new(memory), &BenchFault::Read, room),
    };
}

/// Renders a film with an allocator over `memory`, and writes it or a fault's line to the start of `room`.
fn run_film(
    memory: Memory,
    schedule: &str,
    protocol: Protocol,
    text: &[u8],
    room: &mut [u8],
) -> CallResult
    ensures { IsCallResult (IsFilmed schedule.now protocol) (ReplayFaultIsTrue schedule.now) text.now result room.old room.new }
{
    let arena = Arena::new(memory);
    match film(&arena, text, schedule, protocol) {
        Ok(film) => write_result(ANSWER, 0, film.as_str().as_bytes(), room),
        Err(fault) => write_fault(&arena, &fault, room),
    }
}
