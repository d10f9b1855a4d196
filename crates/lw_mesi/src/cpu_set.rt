//! Sets of processors, as the bits of a byte.
ghost use Rattle.std.specs.Prelude.{◌≡◌, ◌↔◌, ◌<◌, IsTrue, false, true, slice_index_or, slice_set};
ghost use Rattle.lw_mesi.specs.inner.EachIndex.{empty_cpu_set};

use lw_base::Cpu;
use std::marker::Model;

/// A set of processors. A contract sees for each processor, by its index, whether it is in the set.
#[derive(Drop)]
pub(crate) struct CpuSet(u8);

impl Model for CpuSet {
    ghost use Rattle.std.specs.Prelude.{List, Bool, ◌<◌, ◌^◌};
    ghost use Rattle.lw_base.specs.Limits.{most_threads};
    ghost use Rattle.lw_mesi.specs.inner.EachIndex.{cpu_set_of_bits};

    ghost Value = { List Bool };

    ghost view = { λ s. cpu_set_of_bits s.0 };

    ghost invariant = { λ s. s.0 < 2 ^ most_threads };
}

impl CpuSet {
    /// Creates an empty set.
    pub(crate) fn new() -> Self
        ensures { result ≡ empty_cpu_set }
    {
        CpuSet(0)
    }

    /// Returns whether the set is empty.
    pub(crate) fn is_empty(&self) -> bool
        ensures { IsTrue result ↔ (self.now ≡ empty_cpu_set) }
    {
        self.0 == 0
    }

    /// Returns whether a processor is in the set.
    pub(crate) fn contains(&self, cpu: Cpu) -> bool
        ensures { result ≡ slice_index_or self.now cpu false }
    {
        (self.0 >> cpu.index()) & 1 == 1
    }

    /// Inserts a processor.
    pub(crate) fn insert(&mut self, cpu: Cpu)
        ensures { self.new ≡ slice_set self.old cpu true }
    {
        self.0 |= 1 << cpu.index();
    }

    /// Removes a processor.
    pub(crate) fn remove(&mut self, cpu: Cpu)
        ensures { self.new ≡ slice_set self.old cpu false }
    {
        self.0 &= !(1 << cpu.index());
    }
}
