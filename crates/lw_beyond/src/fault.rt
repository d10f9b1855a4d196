//! The causes for which a request is rejected, each with its line and exit status.
ghost use Rattle.std.specs.Prelude.{◌≡◌, IfOk};
ghost use Rattle.std.specs.String.{string_bytes};
ghost use Rattle.lw_bench.specs.declared.fault.BenchFault.TheVariants as bench;
ghost use Rattle.lw_beyond.specs.declared.fault.BeyondFault.TheVariants as beyond;
ghost use Rattle.lw_beyond.specs.Faults.{fault_text, fault_status};

use lw_bench::BenchFault;
use std::alloc::{AllocError, Allocator};

/// The cause for which a request is rejected.
#[derive(Clone, Copy)]
pub enum BeyondFault {
    /// A fault that `lw` reports too: of the text or of a cell, memory that ran out, or a device that failed.
    Bench(BenchFault),
    /// A search that found more states than this budget.
    Budget(usize),
}

impl From<AllocError> for BeyondFault {
    ghost from_gives = { λ _ f. f ≡ beyond.Bench bench.Memory };

    /// Converts a refused allocation.
    fn from(_error: AllocError) -> BeyondFault {
        BeyondFault::Bench(BenchFault::Memory)
    }
}

impl From<BenchFault> for BeyondFault {
    ghost from_gives = { λ e f. f ≡ beyond.Bench e };

    /// Converts a fault of `lw`.
    fn from(fault: BenchFault) -> BeyondFault {
        BeyondFault::Bench(fault)
    }
}

/// Renders the line of a fault, without a line end: that of `lw`, or `beyond: budget` and the budget. Fails only if
/// memory runs out.
pub fn fault_line<A: Allocator + Copy>(
    alloc: A,
    fault: &BeyondFault,
) -> Result<String<A>, AllocError>
    ensures { IfOk result (λ line. string_bytes line ≡ fault_text fault.now) }
{
    match fault {
        BeyondFault::Bench(bench) => lw_bench::fault_line(alloc, bench),
        BeyondFault::Budget(budget) => format!(in alloc; "beyond: budget {}", budget),
    }
}

/// Returns the exit status of a fault: that of `lw`, or 3 for the budget, as for a limit.
pub fn status_of(fault: &BeyondFault) -> u8
    ensures { result ≡ fault_status fault.now }
{
    match fault {
        BeyondFault::Bench(bench) => lw_bench::status_of(bench),
        BeyondFault::Budget(_) => 3,
    }
}
