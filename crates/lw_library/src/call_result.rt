//! The result of a call, and the functions that copy it into the caller's buffer.
ghost use Rattle.std.specs.Prelude.{◌≡◌, ◌⊎◌};
ghost use Rattle.lw_bench.specs.declared.fault.BenchFault.TheVariants.{Memory};
ghost use Rattle.lw_library.specs.CallResults.{ReturnsBytes, ReturnsFaultLine};

use lw_arena::Arena;
use lw_bench::{BenchFault, fault_line, memory_line, status_of};

/// The kind of a result whose bytes are an answer.
pub(crate) const ANSWER: u32 = 0;

/// The kind of a result whose bytes are the line of a fault.
pub(crate) const FAULT: u32 = 1;

/// The kind of a result whose bytes do not fit.
const TOO_SMALL: u32 = 2;

/// The result of a call. If the bytes fit, they are at the start of the buffer.
#[repr(C)]
#[derive(Clone, Copy)]
pub struct CallResult {
    /// The exit status.
    pub status: u32,
    /// 0 for an answer, 1 for a fault's line, 2 if the bytes do not fit.
    pub kind: u32,
    /// The number of the bytes.
    pub length: usize,
}

/// Copies the bytes to the start of the buffer, and returns their number with the kind and the status. If the bytes do not fit, leaves the
/// buffer unchanged, and returns `TOO_SMALL` as the kind.
pub(crate) fn write_result(kind: u32, status: u8, bytes: &[u8], room: &mut [u8]) -> CallResult
    ensures bytes { ReturnsBytes kind bytes.now result room.old room.new }
    ensures status { result.status ≡ status }
{
    let call_result = CallResult {
        status: u32::from(status),
        kind,
        length: bytes.len(),
    };
    if room.len() < bytes.len() {
        return CallResult {
            kind: TOO_SMALL,
            ..call_result
        };
    }
    room[..bytes.len()].copy_from_slice(bytes);
    call_result
}

/// Writes the line of a fault to the start of `room`. If memory runs out for the line, writes that of `Memory` instead.
pub(crate) fn write_fault(arena: &Arena, fault: &BenchFault, room: &mut [u8]) -> CallResult
    ensures { ReturnsFaultLine fault.now result room.old room.new ⊎ ReturnsFaultLine Memory result room.old room.new }
{
    match fault_line(arena, fault) {
        Ok(line) => write_result(FAULT, status_of(fault), line.as_bytes(), room),
        Err(_) => write_result(
            FAULT,
            status_of(&BenchFault::Memory),
            memory_line().as_bytes(),
            room,
        ),
    }
}
