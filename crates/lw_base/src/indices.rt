//! Indices of processors, locations and registers, and words. A contract sees each as its number.
ghost use Rattle.std.specs.Prelude.{◌≡◌, ℕ, ◌<◌};
ghost use Rattle.std.specs.List.{range_with_len};
ghost use Rattle.std.specs.Option.{SomeIff};
ghost use Rattle.lw_base.specs.Characters.{digit};
ghost use Rattle.lw_base.specs.Limits.{most_threads, most_locations, registers};

use crate::limits::{MAX_LOCATIONS, MAX_THREADS, REGISTERS};
use std::marker::Model;

/// The content of a register or a location: an unsigned 32-bit word.
pub type Word = u32;

/// The index of a processor and of the thread that it runs, below `MAX_THREADS`.
#[derive(Clone, Copy, PartialEq, Eq)]
pub struct Cpu(u8);

impl Model for Cpu {
    ghost use Rattle.std.specs.Prelude.{ℕ, ◌<◌};
    ghost use Rattle.lw_base.specs.Limits.{most_threads};

    ghost Value = { ℕ };

    ghost view = { λ c. c.0 };

    ghost invariant = { λ c. c.0 < most_threads };

    ghost inverse = { λ n. record { 0 = n } };
}

impl Cpu {
    /// Returns all processors, in ascending order.
    pub fn all() -> [Cpu; MAX_THREADS]
        ensures { result ≡ range_with_len 0 most_threads }
    {
        [Cpu(0), Cpu(1), Cpu(2), Cpu(3)]
    }

    /// Returns the processor with this index, or `None` if the index is not below `MAX_THREADS`.
    pub fn new(number: u8) -> Option<Self>
        ensures { SomeIff result (number < most_threads) number }
    {
        if usize::from(number) < MAX_THREADS {
            Some(Cpu(number))
        } else {
            None
        }
    }

    /// Returns the processor's index.
    pub fn index(self) -> usize
        ensures value { result ≡ self }
        ensures below { result < most_threads }
    {
        usize::from(self.0)
    }

    /// Returns the processor's index as a decimal digit.
    pub fn digit(self) -> char
        ensures { result ≡ digit self }
    {
        char::from(b'0' + self.0)
    }
}

/// The index of a location in the table of names, 0 to 7.
#[derive(Clone, Copy, PartialEq, Eq)]
pub struct Loc(u8);

impl Model for Loc {
    ghost use Rattle.std.specs.Prelude.{ℕ, ◌<◌};
    ghost use Rattle.lw_base.specs.Limits.{most_locations};

    ghost Value = { ℕ };

    ghost view = { λ l. l.0 };

    ghost invariant = { λ l. l.0 < most_locations };

    ghost inverse = { λ n. record { 0 = n } };
}

impl Loc {
    /// Returns all locations, in ascending order.
    pub fn all() -> [Loc; MAX_LOCATIONS]
        ensures { result ≡ range_with_len 0 most_locations }
    {
        [
            Loc(0),
            Loc(1),
            Loc(2),
            Loc(3),
            Loc(4),
            Loc(5),
            Loc(6),
            Loc(7),
        ]
    }

    /// Returns the location with this index, or `None` if the index is not below `MAX_LOCATIONS`.
    pub fn new(number: u8) -> Option<Self>
        ensures { SomeIff result (number < most_locations) number }
    {
        if usize::from(number) < MAX_LOCATIONS {
            Some(Loc(number))
        } else {
            None
        }
    }

    /// Returns the location's index.
    pub fn index(self) -> usize
        ensures value { result ≡ self }
        ensures below { result < most_locations }
    {
        usize::from(self.0)
    }
}

/// The index of a register of a thread, 0 to 5.
#[derive(Clone, Copy, PartialEq, Eq)]
pub struct Reg(u8);

impl Model for Reg {
    ghost use Rattle.std.specs.Prelude.{ℕ, ◌<◌};
    ghost use Rattle.lw_base.specs.Limits.{registers};

    ghost Value = { ℕ };

    ghost view = { λ r. r.0 };

    ghost invariant = { λ r. r.0 < registers };

    ghost inverse = { λ n. record { 0 = n } };
}

impl Reg {
    /// Returns all registers, in ascending order.
    pub fn all() -> [Reg; REGISTERS]
        ensures { result ≡ range_with_len 0 registers }
    {
        [Reg(0), Reg(1), Reg(2), Reg(3), Reg(4), Reg(5)]
    }

    /// Returns the register with this index, or `None` if the index is not below `REGISTERS`.
    pub fn new(number: u8) -> Option<Self>
        ensures { SomeIff result (number < registers) number }
    {
        if usize::from(number) < REGISTERS {
            Some(Reg(number))
        } else {
            None
        }
    }

    /// Returns the register's index.
    pub fn index(self) -> usize
        ensures value { result ≡ self }
        ensures below { result < registers }
    {
        usize::from(self.0)
    }
}
