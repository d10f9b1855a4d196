//! The operations of statements and instructions, in either language.
ghost use Rattle.std.specs.Prelude.{◌≡◌};
ghost use Rattle.lw_litmus.specs.Operations as operations;

use lw_base::{Change, Loc, Operand, REGISTERS, Reg, Word};

/// The operation of a statement or an instruction. Control flow, accesses and conflicts are derived from it.
#[derive(Clone, Copy)]
pub enum Operation {
    /// Sets the register to the value.
    Set { dst: Reg, val: Operand },
    /// Sets the register to the sum, modulo 2^32. In x86 the zero flag is set if the sum is 0.
    Sum { dst: Reg, left: Reg, right: Operand },
    /// Sets the zero flag if the register has the value, and clears it otherwise.
    Compare { reg: Reg, val: Operand },
    /// Stores the value to the location; in x86 through the store buffer.
    Store { loc: Loc, val: Operand },
    /// Loads the location's word into the register.
    Load { dst: Reg, loc: Loc },
    /// Atomically loads the location's word into `dst` and stores the word that `src` had. In x86 this needs an empty
    /// store buffer.
    Swap { dst: Reg, loc: Loc, src: Reg },
    /// Atomically loads the location's word into the register, if there is one, and adds the value to the location,
    /// modulo 2^32. In x86 this needs an empty store buffer, and the zero flag is set if the sum is 0. (All statements and
    /// instructions of today have the register.)
    FetchAdd(Option<Reg>, Loc, Operand),
    /// Needs an empty store buffer, and does nothing else.
    Fence,
    /// Jumps if the guard holds.
    Branch { guard: Guard, to: usize },
}

/// The condition under which a branch jumps.
#[derive(Clone, Copy)]
pub enum Guard {
    Always,
    /// The register has the word.
    Equal { reg: Reg, num: Word },
    /// The register has another word.
    NotEqual { reg: Reg, num: Word },
    /// The zero flag is set.
    Zero,
    /// The zero flag is clear.
    NotZero,
}

impl Guard {
    /// Returns whether the guard holds, for these registers and this zero flag.
    pub fn holds(&self, regs: &[Word; REGISTERS], zero_flag: bool) -> bool
        ensures { result ≡ operations.guard_holds self.now regs.now zero_flag }
    {
        match self {
            Guard::Always => true,
            Guard::Equal { reg, num } => regs[reg.index()] == *num,
            Guard::NotEqual { reg, num } => regs[reg.index()] != *num,
            Guard::Zero => zero_flag,
            Guard::NotZero => !zero_flag,
        }
    }
}

impl Operation {
    /// Returns the location that the operation reads or writes, if it accesses one.
    pub fn location(&self) -> Option<Loc>
        ensures { result ≡ operations.location_of self.now }
    {
        match self {
            Operation::Store { loc, .. } | Operation::Load { loc, .. } => Some(*loc),
            Operation::Swap { loc, .. } | Operation::FetchAdd(_, loc, _) => Some(*loc),
            _ => None,
        }
    }

    /// Returns how the operation changes its location's word, for these registers. Returns `None` if it does not
    /// write.
    pub fn change(&self, regs: &[Word; REGISTERS]) -> Option<Change>
        ensures { result ≡ operations.written_change self.now regs.now }
    {
        match self {
            Operation::Store { val, .. } => Some(Change::Put(val.value(regs))),
            Operation::Swap { src, .. } => Some(Change::Put(regs[src.index()])),
            Operation::FetchAdd(_, _, val) => Some(Change::Add(val.value(regs))),
            _ => None,
        }
    }

    /// Returns whether the operation is a plain store, which x86 puts into the store buffer.
    pub fn is_store(&self) -> bool
        ensures { result ≡ operations.is_store self.now }
    {
        matches!(self, Operation::Store { .. })
    }

    /// Returns whether the operation is an atomic read-modify-write.
    pub fn is_locked(&self) -> bool
        ensures { result ≡ operations.is_locked self.now }
    {
        matches!(self, Operation::Swap { .. } | Operation::FetchAdd(..))
    }

    /// Returns whether the operation writes its location.
    pub fn writes(&self) -> bool
        ensures { result ≡ operations.writes self.now }
    {
        self.is_store() || self.is_locked()
    }

    /// Returns whether x86 executes the operation only if the store buffer is empty.
    pub fn needs_empty_buffer(&self) -> bool
        ensures { result ≡ operations.needs_empty_buffer self.now }
    {
        matches!(self, Operation::Fence) || self.is_locked()
    }

    /// Returns the target of a branch. Returns `None` for any other operation.
    pub fn target(&self) -> Option<usize>
        ensures { result ≡ operations.branch_target self.now }
    {
        match self {
            Operation::Branch { to, .. } => Some(*to),
            _ => None,
        }
    }

    /// Returns whether control can pass to the next statement: always, except after an unconditional branch.
    pub fn falls_through(&self) -> bool
        ensures { result ≡ operations.falls_through self.now }
    {
        !matches!(
            self,
            Operation::Branch {
                guard: Guard::Always,
                ..
            }
        )
    }
}
