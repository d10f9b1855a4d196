//! Runs: the events that lead from one state to another, as queues that can be hashed.
ghost use Rattle.std.specs.Prelude.{◌≡◌, true, false};
ghost use Rattle.lw_search.specs.inner.StateKeys.{event_of};

use crate::queue::Queue;
use lw_base::{Cpu, Event};
use std::marker::Model;

/// An event of a run: the step or the drain of a thread.
#[derive(Clone, Copy, PartialEq, Eq, Hash)]
pub(crate) struct RunEvent {
    thread: u8,
    is_drain: bool,
}

impl Model for RunEvent {
    ghost use Rattle.std.specs.Prelude.{ℕ, Bool, ◌<◌};
    ghost use Rattle.lw_base.specs.Limits.{most_threads};

    ghost Value = { ℕ × Bool };

    ghost view = { λ r. (r.thread, r.is_drain) };

    ghost invariant = { λ r. r.thread < most_threads };

    ghost inverse = { λ r. record { thread = r.0; is_drain = r.1 } };
}

/// The events of a run, in their order.
pub(crate) type Run<A> = Queue<RunEvent, A>;

impl RunEvent {
    /// Returns the event of a thread's step.
    pub(crate) fn step(cpu: Cpu) -> Self
        ensures { result ≡ (cpu, false) }
    {
        RunEvent {
            thread: cpu.index() as u8,
            is_drain: false,
        }
    }

    /// Returns the event of a thread's drain.
    pub(crate) fn drain(cpu: Cpu) -> Self
        ensures { result ≡ (cpu, true) }
    {
        RunEvent {
            thread: cpu.index() as u8,
            is_drain: true,
        }
    }

    /// Returns the event's number, which is below 8. Different events have different numbers.
    pub(crate) fn code(self) -> u32 {
        u32::from(self.thread).wrapping_shl(1) | u32::from(self.is_drain)
    }

    /// Returns whether the event is a drain.
    pub(crate) fn is_drain(self) -> bool
        ensures { result ≡ self.1 }
    {
        self.is_drain
    }

    /// Returns the event.
    pub(crate) fn event(self) -> Event
        ensures { result ≡ event_of self }
    {
        let cpu = Cpu::all()[usize::from(self.thread)];
        if self.is_drain {
            Event::Drain(cpu)
        } else {
            Event::Step(cpu)
        }
    }
}
