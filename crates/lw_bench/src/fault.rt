//! Why a run of the workbench is rejected, and the printed line of each fault.
ghost use Rattle.std.specs.Prelude.{◌≡◌, ◌⊎◌, IfOk};
ghost use Rattle.std.specs.String.{string_bytes};
ghost use Rattle.lw_bench.specs.declared.fault.BenchFault.TheVariants as bench;
ghost use Rattle.lw_bench.specs.Faults as faults;
ghost use Rattle.lw_bench.specs.Faults.{text_run_fault, cell_run_fault, schedule_run_fault, limit_run_fault, placed_text, fault_text, usage_text};

use lw_base::{CellCause, CellFault, End, ScheduleCause, ScheduleFault};
use lw_paths::ListFault;
use lw_text::{TextCause, TextFault};
use std::alloc::{AllocError, AllocFailed, Allocator};
use std::io;

/// Why a run is rejected. `Memory` is reported wherever memory ran out.
#[derive(Clone, Copy)]
pub enum BenchFault {
    /// The text is not in the format.
    Text(TextFault),
    /// A cell of the text is not in the language of its test.
    Cell(CellFault),
    /// The schedule is not one of the test.
    Schedule(ScheduleFault),
    /// The test exceeds a limit of lists.
    Limit(ListFault),
    /// Memory ran out.
    Memory,
    /// The reader failed.
    Read,
    /// The writer failed.
    Write,
}

impl From<AllocError> for BenchFault {
    ghost from_gives = { λ _ f. f ≡ bench.Memory };

    /// Converts a refused allocation.
    fn from(_error: AllocError) -> BenchFault {
        BenchFault::Memory
    }
}

impl<T: Drop> From<AllocFailed<T>> for BenchFault {
    ghost from_gives = { λ _ f. f ≡ bench.Memory };

    /// Converts a value that could not be moved into memory.
    fn from(_error: AllocFailed<T>) -> BenchFault {
        BenchFault::Memory
    }
}

impl From<TextFault> for BenchFault {
    ghost from_gives = { λ e f. f ≡ text_run_fault e };

    /// Converts a text's fault, which may be that memory ran out.
    fn from(fault: TextFault) -> BenchFault {
        if fault.cause == TextCause::Memory {
            return BenchFault::Memory;
        }
        BenchFault::Text(fault)
    }
}

impl From<CellFault> for BenchFault {
    ghost from_gives = { λ e f. f ≡ cell_run_fault e };

    /// Converts a cell's fault, which may be that memory ran out.
    fn from(fault: CellFault) -> BenchFault {
        if fault.cause == CellCause::Memory {
            return BenchFault::Memory;
        }
        BenchFault::Cell(fault)
    }
}

impl From<ScheduleFault> for BenchFault {
    ghost from_gives = { λ e f. f ≡ schedule_run_fault e };

    /// Converts a schedule's fault, which may be that memory ran out.
    fn from(fault: ScheduleFault) -> BenchFault {
        if fault.cause == ScheduleCause::Memory {
            return BenchFault::Memory;
        }
        BenchFault::Schedule(fault)
    }
}

impl From<ListFault> for BenchFault {
    ghost from_gives = { λ e f. f ≡ limit_run_fault e };

    /// Converts an exceeded limit, or memory that ran out.
    fn from(fault: ListFault) -> BenchFault {
        match fault {
            ListFault::Memory => BenchFault::Memory,
            limit => BenchFault::Limit(limit),
        }
    }
}

impl From<io::Error> for BenchFault {
    ghost from_gives = { λ _ f. (f ≡ bench.Memory) ⊎ (f ≡ bench.Read) };

    /// Converts a failure to read the words of a command line: memory ran out, or a device failed.
    fn from(error: io::Error) -> BenchFault {
        if error.kind() == io::ErrorKind::OutOfMemory {
            return BenchFault::Memory;
        }
        BenchFault::Read
    }
}

/// Renders the line of a fault, without a line end. Fails only if memory runs out.
pub fn fault_line<A: Allocator + Copy>(
    alloc: A,
    fault: &BenchFault,
) -> Result<String<A>, AllocError>
    ensures { IfOk result (λ line. string_bytes line ≡ fault_text fault.now) }
{
    match fault {
        BenchFault::Text(text) => {
            let cause = text.cause;
            placed_line(alloc, "text", cause.code(), cause.name(), text.at)
        }
        BenchFault::Cell(cell) => {
            let cause = cell.cause;
            placed_line(alloc, "cell", cause.code(), cause.name(), cell.at)
        }
        BenchFault::Schedule(schedule) => {
            let cause = schedule.cause;
            placed_line(alloc, "schedule", cause.code(), cause.name(), schedule.at)
        }
        BenchFault::Limit(limit) => {
            format!(in alloc; "lw: limit {} {}", limit.code(), limit.name())
        }
        BenchFault::Memory => String::from_str(alloc, memory_line()),
        BenchFault::Read => String::from_str(alloc, "lw: read failed"),
        BenchFault::Write => String::from_str(alloc, "lw: write failed"),
    }
}

/// Renders the line of a fault of this kind, with the code and the name of its cause, and the offset.
fn placed_line<A: Allocator>(
    alloc: A,
    kind: &str,
    code: u8,
    name: &str,
    place: usize,
) -> Result<String<A>, AllocError>
    ensures { IfOk result (λ line. string_bytes line ≡ placed_text kind.now code name.now place) }
{
    format!(in alloc; "lw: {} {} {} at {}", kind, code, name, place)
}

/// Returns the exit status of a fault: 1 if the text, a cell or the schedule is rejected, 3 if a limit is exceeded,
/// and 4 for memory and devices.
pub fn status_of(fault: &BenchFault) -> u8
    ensures { result ≡ faults.status fault.now }
{
    match fault {
        BenchFault::Text(_) | BenchFault::Cell(_) | BenchFault::Schedule(_) => 1,
        BenchFault::Limit(_) => 3,
        BenchFault::Memory | BenchFault::Read | BenchFault::Write => 4,
    }
}

/// Returns the exit status of a run that wrote its output.
pub fn success_status() -> u8
    ensures { result ≡ faults.success_status }
{
    0
}

/// Returns the out-of-memory message as a constant, since no memory may be left to render one.
pub fn memory_line() -> &'static str
    ensures { result.now ≡ fault_text bench.Memory }
{
    "lw: memory"
}

/// Returns the usage line.
pub fn usage_line() -> &'static str
    ensures { result.now ≡ usage_text }
{
    "usage: lw states | lw compile | lw schedules | lw replay SCHEDULE"
}

/// Returns the exit status of wrong arguments.
pub fn usage_status() -> u8
    ensures { result ≡ faults.usage_status }
{
    2
}

/// Returns the exit status of a replay: 0 if it ended in a final state, and 1 otherwise.
pub fn end_status(end: End) -> u8
    ensures { result ≡ faults.end_status end }
{
    match end {
        End::Final => 0,
        End::NotFinal | End::Stopped(_) => 1,
    }
}
