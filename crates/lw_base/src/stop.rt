//! Why an event is rejected, and how a replay ends.
ghost use Rattle.std.specs.Prelude.{◌≡◌};
ghost use Rattle.lw_base.specs.Stops.{stop_code, stop_name};

/// Why an event of a schedule is not possible. A rejected event changes nothing.
#[derive(Clone, Copy, PartialEq, Eq)]
pub enum Stop {
    /// The test has no such thread.
    NoCpu,
    /// The test has no such location.
    NoLocation,
    /// The thread has terminated.
    Ended,
    /// A fence needs an empty store buffer.
    FenceWaits,
    /// A locked instruction needs an empty store buffer.
    SwapWaits,
    /// The store buffer has no entry to drain.
    BufferEmpty,
    /// The processor's cache does not hold the line.
    NotHeld,
    /// Memory ran out for an entry of the store buffer. This does not happen: the buffer's capacity is allocated at
    /// the start.
    Memory,
}

impl Stop {
    /// Returns the printed code of the cause, 1 to 8.
    pub fn code(self) -> u8
        ensures { result ≡ stop_code self }
    {
        match self {
            Stop::NoCpu => 1,
            Stop::NoLocation => 2,
            Stop::Ended => 3,
            Stop::FenceWaits => 4,
            Stop::SwapWaits => 5,
            Stop::BufferEmpty => 6,
            Stop::NotHeld => 7,
            Stop::Memory => 8,
        }
    }

    /// Returns the printed name of the cause.
    pub fn name(self) -> &'static str
        ensures { result.now ≡ stop_name self }
    {
        match self {
            Stop::NoCpu => "NoCpu",
            Stop::NoLocation => "NoLocation",
            Stop::Ended => "Ended",
            Stop::FenceWaits => "FenceWaits",
            Stop::SwapWaits => "SwapWaits",
            Stop::BufferEmpty => "BufferEmpty",
            Stop::NotHeld => "NotHeld",
            Stop::Memory => "Memory",
        }
    }
}

/// How a replay ended.
#[derive(Clone, Copy, PartialEq, Eq)]
pub enum End {
    /// All events were carried out, and the state is final.
    Final,
    /// All events were carried out, and the state is not final.
    NotFinal,
    /// An event was rejected.
    Stopped(Stop),
}

/// The result of a replay.
#[derive(Clone, Copy)]
pub struct Replay {
    /// The number of events carried out. If the replay stopped, this is the index of the rejected event.
    pub done: usize,
    /// How the replay ended.
    pub end: End,
}
