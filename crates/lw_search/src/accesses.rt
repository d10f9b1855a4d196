//! What threads may still access, as sets of the accesses that conflict with theirs.
ghost use Rattle.std.specs.Prelude.{◌≡◌, ◌≢◌, ◌<◌, ◌||◌, ℕ, Bool, List, true, Some, length, slice_get};
ghost use Rattle.lw_base.specs.Limits.{most_locations};
ghost use Rattle.lw_litmus.specs.declared.instr.Instr.{Instr};
ghost use Rattle.lw_litmus.specs.Operations.{location_of, writes};
ghost use Rattle.lw_litmus.specs.Programs.{x86_operation};
ghost use Rattle.lw_search.specs.inner.Accesses.{access_bit, Lacks, HasConflictsBetween, HasConflictsOf, HasConflictsOfOthers};
ghost use Rattle.lw_search.specs.inner.Accesses.{DescribeThread, DescribeState};
ghost use Rattle.lw_search.specs.inner.StateKeys.{State};

use crate::invisible::{access_of, drain_access_of};
use crate::search::instr_at;
use crate::thread_state::{ThreadState, needs_empty_buffer};
use lw_base::{Cpu, Word};
use lw_litmus::{Instr, Program, Statement};
use std::alloc::Allocator;
use std::marker::Model;

/// A set of accesses: those that conflict with some events, such as all that the other threads may still execute. Each access is of a
/// location, which it reads or writes. Contracts see the bits of a number.
#[derive(Clone, Copy)]
pub(crate) struct Conflicts {
    /// Bit x: a read of location x. Bit 8 + x: a write of it. Bit 16, which is always set, conflicts with events that are not enabled.
    bits: u32,
}

impl Model for Conflicts {
    ghost use Rattle.std.specs.Prelude.{ℕ};

    ghost Value = { ℕ };

    ghost view = { λ c. c.bits };

    ghost inverse = { λ n. record { bits = n } };
}

/// The number of locations that a set has bits for.
const LOCATIONS: u8 = 8;

/// The bit of an event that is not enabled.
const NOT_ENABLED: u32 = 0x1_0000;

/// Returns the position of the bit for the access of a location that writes it (`written`), or reads it.
fn bit_of(loc: u8, written: bool) -> u32
    ensures { result ≡ access_bit loc written }
{
    if written {
        u32::from(loc) + 8
    } else {
        u32::from(loc)
    }
}

impl Conflicts {
    /// No access: of the bits only that of events that are not enabled is set.
    pub(crate) const NONE: Conflicts = Conflicts { bits: NOT_ENABLED };

    /// Returns the set with an access of a location that writes it (`written`), or reads it.
    fn with(self, loc: u8, written: bool) -> Conflicts
        requires { loc < most_locations }
        ensures others { (x : ℕ) (w : Bool) → Lacks result x w → Lacks self x w }
        ensures added { Lacks result loc written → ⊥ }
    {
        Conflicts {
            bits: self.bits | 1 << bit_of(loc, written),
        }
    }

    /// Returns the set with the accesses of a location that conflict with one that writes it, or reads it. A location without bits adds
    /// nothing. The contract allows more accesses, with which fewer events are known to be invisible.
    fn with_conflicts(self, loc: u8, written: bool) -> Conflicts
        ensures others { (x : ℕ) (w : Bool) → Lacks result x w → Lacks self x w }
        ensures added { (x : ℕ) (w : Bool) → x < most_locations → Lacks result x w → (loc ≡ x) → (w || written) ≡ true → ⊥ }
    {
        if LOCATIONS <= loc {
            return self;
        }
        let writes = self.with(loc, true);
        if written {
            writes.with(loc, false)
        } else {
            writes
        }
    }

    /// Returns the set with the accesses that conflict with an instruction. It looks at the instruction itself, and makes no operation of
    /// it.
    fn with_instr(self, instr: &Instr) -> Conflicts
        ensures others { (x : ℕ) (w : Bool) → Lacks result x w → Lacks self x w }
        ensures added { (x : ℕ) (w : Bool) → x < most_locations → Lacks result x w
            → location_of (x86_operation instr.now) ≡ Some x → (w || writes (x86_operation instr.now)) ≡ true → ⊥ }
    {
        match instr {
            Instr::Store { loc, .. } => self.with_conflicts(loc.index() as u8, true),
            Instr::Xchg { loc, .. } => self.with_conflicts(loc.index() as u8, true),
            Instr::Xadd { loc, .. } => self.with_conflicts(loc.index() as u8, true),
            Instr::Load { loc, .. } => self.with_conflicts(loc.index() as u8, false),
            _ => self,
        }
    }

    /// Returns the set with the accesses that conflict with the drains of a store buffer.
    fn with_drains(self, entries: &[(u8, Word)]) -> Conflicts
        ensures others { (x : ℕ) (w : Bool) → Lacks result x w → Lacks self x w }
        ensures added { (x : ℕ) (w : Bool) → x < most_locations → Lacks result x w
            → (k : ℕ) (entry : ℕ × ℕ) → slice_get entries.now k ≡ Some entry → entry.0 ≢ x }
    {
        let mut conflicts = self;
        for index in 0..entries.len() {
            conflicts = conflicts.with_conflicts(entries[index].0, true);
        }
        conflicts
    }

    /// Returns the accesses that conflict with the instructions of a code at or after a position.
    fn from_position(code: &[Instr], position: usize) -> Conflicts
        ensures { HasConflictsBetween code.now position (length code.now) result }
    {
        let mut conflicts = Conflicts::NONE;
        for index in position..code.len() {
            conflicts = conflicts.with_instr(&code[index]);
        }
        conflicts
    }

    /// Returns the accesses that conflict with the events of a thread, now or later.
    fn of<A: Allocator>(thread: &ThreadState<A>, code: &[Instr]) -> Conflicts
        ensures { HasConflictsOf code.now thread.now result }
    {
        Conflicts::from_position(code, thread.position).with_drains(thread.buffer.as_slice())
    }

    /// Returns the accesses of both sets.
    fn union(self, other: Conflicts) -> Conflicts
        ensures { (x : ℕ) (w : Bool) → Lacks result x w → Lacks self x w × Lacks other x w }
    {
        Conflicts {
            bits: self.bits | other.bits,
        }
    }

    /// Returns whether the set lacks the access of a location that writes it (`written`), or reads it. The contract promises nothing of
    /// `false`, which is also the result for a location that the set has no bits for.
    pub(crate) fn lacks(self, loc: u8, written: bool) -> bool
        ensures { result ≡ true → (loc < most_locations) × Lacks self loc written }
    {
        loc < LOCATIONS && self.bits & 1 << bit_of(loc, written) == 0
    }

    /// Returns whether both are the same set. The contract promises nothing of `false`.
    pub(crate) fn is_same(self, other: Conflicts) -> bool
        ensures { result ≡ true → self ≡ other }
    {
        self.bits == other.bits
    }

    /// Returns the bits of the set. Different sets have different bits.
    pub(crate) fn bits(self) -> u32 {
        self.bits
    }
}

/// The access of an event, as the bit that `Conflicts` has for this access. No bit is set if the event accesses no memory; `NOT_ENABLED` is
/// set if the event is not enabled. No contract depends on the bits.
#[derive(Clone, Copy)]
struct EventAccess {
    bits: u32,
}

impl EventAccess {
    /// An event that is not enabled.
    const NOT_ENABLED: EventAccess = EventAccess { bits: NOT_ENABLED };

    /// Returns the access of an event that is enabled, or no bit if the event accesses no memory (`None`).
    fn new(access: Option<(u8, bool)>) -> EventAccess {
        let bits = match access {
            Some((loc, written)) => 1_u32.wrapping_shl(bit_of(loc, written)),
            None => 0,
        };
        EventAccess { bits }
    }

    /// Returns whether the event is enabled, and its access, if it has one, is none of these.
    fn avoids(self, conflicts: Conflicts) -> bool {
        self.bits & conflicts.bits == 0
    }
}

/// What a thread in some state may access, by the events that are enabled, and now or later.
#[derive(Clone, Copy)]
pub(crate) struct Outlook {
    /// The access of the thread's next step.
    step: EventAccess,
    /// The access of the drain of the thread's oldest entry.
    drain: EventAccess,
    /// The accesses that conflict with an event of the thread, now or later.
    pub(crate) conflicts: Conflicts,
}

impl Outlook {
    /// A thread that has no event.
    pub(crate) const NONE: Outlook = Outlook {
        step: EventAccess::NOT_ENABLED,
        drain: EventAccess::NOT_ENABLED,
        conflicts: Conflicts::NONE,
    };

    /// Returns what a thread in some state may access.
    fn new<A: Allocator>(thread: &ThreadState<A>, code: &[Instr]) -> Outlook
        ensures { HasConflictsOf code.now thread.now result.conflicts }
    {
        Outlook {
            step: step_access(thread, code),
            drain: drain_access(thread),
            conflicts: Conflicts::of(thread, code),
        }
    }

    /// Returns whether the thread may have an invisible event that is enabled, given the conflicts of the other threads. No contract
    /// depends on the answer.
    fn may_settle(&self, conflicts: Conflicts) -> bool {
        self.step.avoids(conflicts) || self.drain.avoids(conflicts)
    }
}

/// Returns the access of a thread's next step.
fn step_access<A: Allocator>(thread: &ThreadState<A>, code: &[Instr]) -> EventAccess {
    let Some(instr) = instr_at(code, thread.position) else {
        return EventAccess::NOT_ENABLED;
    };
    if needs_empty_buffer(instr.operation()) && !thread.buffer.is_empty() {
        return EventAccess::NOT_ENABLED;
    }
    EventAccess::new(access_of(instr.operation()))
}

/// Returns the access of a thread's drain.
fn drain_access<A: Allocator>(thread: &ThreadState<A>) -> EventAccess {
    match drain_access_of(thread) {
        Some(access) => EventAccess::new(Some(access)),
        None => EventAccess::NOT_ENABLED,
    }
}

/// The outlook of each thread of a state.
#[derive(Clone, Copy)]
pub(crate) struct Outlooks {
    /// The outlook at the index of each thread; `Outlook::NONE` for a thread that the program lacks.
    pub(crate) threads: [Outlook; 4],
}

/// Returns what a thread in this state may access, for each thread of a program. (Threads in the same state have one row of a table,
/// which does not say whose state it is.)
pub(crate) fn outlooks_of<A: Allocator>(program: &Program<A>, thread: &ThreadState<A>) -> Outlooks
    ensures { DescribeThread program.now.threads thread.now result.threads }
{
    let mut threads = [Outlook::NONE; 4];
    for (index, code) in program.threads.as_slice().iter().enumerate() {
        threads[index] = Outlook::new(thread, code.as_slice());
    }
    Outlooks { threads }
}

impl Outlooks {
    /// Threads that have no event.
    pub(crate) const NONE: Outlooks = Outlooks {
        threads: [Outlook::NONE; 4],
    };

    /// Returns the accesses that conflict with the events, now or later, of all threads except one.
    pub(crate) fn conflicts_with_others(&self, cpu: Cpu) -> Conflicts
        ensures { (program : List (List Instr)) (s : State) → DescribeState program s self.now.threads → HasConflictsOfOthers program s cpu result }
    {
        let mut conflicts = Conflicts::NONE;
        for (index, outlook) in self.threads.iter().enumerate() {
            if index != cpu.index() {
                conflicts = conflicts.union(outlook.conflicts);
            }
        }
        conflicts
    }

    /// Returns the outlooks with another one of a thread.
    pub(crate) fn with(&self, cpu: Cpu, outlook: &Outlook) -> Outlooks {
        let mut next = *self;
        next.threads[cpu.index()] = *outlook;
        next
    }

    /// Returns whether the accesses that conflict with a thread are those of another outlook of the thread. No contract depends on the
    /// answer: `false` costs another look at the threads.
    pub(crate) fn has_same_conflicts(&self, cpu: Cpu, outlook: &Outlook) -> bool {
        self.threads[cpu.index()]
            .conflicts
            .is_same(outlook.conflicts)
    }

    /// Returns whether a thread may have an invisible event that is enabled. No contract depends on the answer.
    pub(crate) fn may_settle(&self, cpu: Cpu) -> bool {
        self.threads[cpu.index()].may_settle(self.conflicts_with_others(cpu))
    }

    /// Returns whether some thread may have an invisible event that is enabled. No contract depends on the answer.
    pub(crate) fn some_may_settle(&self) -> bool {
        let [a, b, c, d] = &self.threads;
        let first = a.conflicts.union(b.conflicts);
        let last = c.conflicts.union(d.conflicts);
        a.may_settle(b.conflicts.union(last))
            || b.may_settle(a.conflicts.union(last))
            || c.may_settle(first.union(d.conflicts))
            || d.may_settle(first.union(c.conflicts))
    }
}
