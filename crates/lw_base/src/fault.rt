//! Why a cell of a test, or a schedule, is rejected.
ghost use Rattle.std.specs.Prelude.{◌≡◌};
ghost use Rattle.lw_base.specs.Faults.{cell_cause_code, cell_cause_name, schedule_cause_code, schedule_cause_name};
ghost use Rattle.lw_base.specs.declared.fault.CellCause.TheVariants as cell;
ghost use Rattle.lw_base.specs.declared.fault.ScheduleCause.TheVariants as schedule;

use std::alloc::{AllocError, AllocFailed};

/// Why a cell is rejected.
#[derive(Clone, Copy, PartialEq, Eq)]
pub enum CellCause {
    /// A token that fits no statement or instruction at its position, or a cell that ends too early.
    Form,
    /// A register where none is allowed, or a name of a register that does not exist.
    Register,
    /// A jump to a label that the thread does not have.
    LabelMissing,
    /// A label that the thread has already.
    LabelTwice,
    /// A jump to a label at or before the jump.
    Backward,
    /// A ninth location, a 17th statement or a 33rd instruction.
    TooMany,
    /// Memory ran out.
    Memory,
}

impl CellCause {
    /// Returns the printed code of the cause, 1 to 7.
    pub fn code(self) -> u8
        ensures { result ≡ cell_cause_code self }
    {
        match self {
            CellCause::Form => 1,
            CellCause::Register => 2,
            CellCause::LabelMissing => 3,
            CellCause::LabelTwice => 4,
            CellCause::Backward => 5,
            CellCause::TooMany => 6,
            CellCause::Memory => 7,
        }
    }

    /// Returns the printed name of the cause.
    pub fn name(self) -> &'static str
        ensures { result.now ≡ cell_cause_name self }
    {
        match self {
            CellCause::Form => "Form",
            CellCause::Register => "Register",
            CellCause::LabelMissing => "LabelMissing",
            CellCause::LabelTwice => "LabelTwice",
            CellCause::Backward => "Backward",
            CellCause::TooMany => "TooMany",
            CellCause::Memory => "Memory",
        }
    }
}

/// A rejected cell: the cause, and the offset of the byte at which it was found in the test's text. If memory ran
/// out, the offset is 0 and means nothing.
#[derive(Clone, Copy)]
pub struct CellFault {
    pub at: usize,
    pub cause: CellCause,
    pub ghost memory: { cause ≡ cell.Memory → at ≡ 0 },
}

impl From<AllocError> for CellFault {
    ghost from_gives = { λ _ f. (f.at ≡ 0) × (f.cause ≡ cell.Memory) };

    /// Converts a refused allocation. The offset is 0 and means nothing.
    fn from(_error: AllocError) -> CellFault {
        CellFault {
            at: 0,
            cause: CellCause::Memory,
        }
    }
}

impl<T: Drop> From<AllocFailed<T>> for CellFault {
    ghost from_gives = { λ _ f. (f.at ≡ 0) × (f.cause ≡ cell.Memory) };

    /// Converts a value that could not be moved into memory. The offset is 0 and means nothing.
    fn from(_error: AllocFailed<T>) -> CellFault {
        CellFault {
            at: 0,
            cause: CellCause::Memory,
        }
    }
}

/// Why a schedule is rejected.
#[derive(Clone, Copy, PartialEq, Eq)]
pub enum ScheduleCause {
    /// A piece between blanks that does not have the shape of an event.
    Word,
    /// A number that no processor has.
    Cpu,
    /// A name that no location of the test has.
    Location,
    /// Memory ran out.
    Memory,
}

impl ScheduleCause {
    /// Returns the printed code of the cause, 1 to 4.
    pub fn code(self) -> u8
        ensures { result ≡ schedule_cause_code self }
    {
        match self {
            ScheduleCause::Word => 1,
            ScheduleCause::Cpu => 2,
            ScheduleCause::Location => 3,
            ScheduleCause::Memory => 4,
        }
    }

    /// Returns the printed name of the cause.
    pub fn name(self) -> &'static str
        ensures { result.now ≡ schedule_cause_name self }
    {
        match self {
            ScheduleCause::Word => "Word",
            ScheduleCause::Cpu => "Cpu",
            ScheduleCause::Location => "Location",
            ScheduleCause::Memory => "Memory",
        }
    }
}

/// A rejected schedule: the cause, and the offset at which the first faulty piece begins. If memory ran out, the
/// offset is 0 and means nothing.
#[derive(Clone, Copy)]
pub struct ScheduleFault {
    pub at: usize,
    pub cause: ScheduleCause,
    pub ghost memory: { cause ≡ schedule.Memory → at ≡ 0 },
}

impl<T: Drop> From<AllocFailed<T>> for ScheduleFault {
    ghost from_gives = { λ _ f. (f.at ≡ 0) × (f.cause ≡ schedule.Memory) };

    /// Converts a value that could not be moved into memory. The offset is 0 and means nothing.
    fn from(_error: AllocFailed<T>) -> ScheduleFault {
        ScheduleFault {
            at: 0,
            cause: ScheduleCause::Memory,
        }
    }
}
