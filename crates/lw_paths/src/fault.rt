//! Why a test has no list.
ghost use Rattle.std.specs.Prelude.{◌≡◌};
ghost use Rattle.lw_paths.specs.Faults.{list_fault_code, list_fault_name};
ghost use Rattle.lw_paths.specs.declared.fault.ListFault.TheVariants.{Memory as OutOfMemory};

use std::alloc::{AllocError, AllocFailed};

/// Why the outcomes of a test are not listed.
#[derive(Clone, Copy)]
pub enum ListFault {
    /// Some path assignment has more than 128 items.
    TooManyItems,
    /// No path assignment has more than 128 items, and the orientations of the unordered conflicts of all path
    /// assignments are, added up, more than `lw_orders::MAX_ORDERS`.
    TooManyOrders,
    /// Memory ran out.
    Memory,
}

impl ListFault {
    /// Returns the printed code of the fault, 1 to 3.
    pub fn code(self) -> u8
        ensures { result ≡ list_fault_code self }
    {
        match self {
            ListFault::TooManyItems => 1,
            ListFault::TooManyOrders => 2,
            ListFault::Memory => 3,
        }
    }

    /// Returns the printed name of the fault.
    pub fn name(self) -> &'static str
        ensures { result.now ≡ list_fault_name self }
    {
        match self {
            ListFault::TooManyItems => "TooManyItems",
            ListFault::TooManyOrders => "TooManyOrders",
            ListFault::Memory => "Memory",
        }
    }
}

impl From<AllocError> for ListFault {
    ghost from_gives = { λ _ e. e ≡ OutOfMemory };

    /// Converts a refused allocation.
    fn from(_: AllocError) -> Self {
        ListFault::Memory
    }
}
