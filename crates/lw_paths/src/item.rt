//! Items: what the orders of a test are orders of.

use lw_base::Cpu;

/// A statement on a thread's path, or the drain of the entry that it enqueued.
#[derive(Clone, Copy)]
pub struct Item {
    pub thread: Cpu,
    pub position: u8,
    pub is_drain: bool,
}

/// The index of the last statement and of the last drain among the items of a thread before some item.
#[derive(Clone, Copy)]
pub(crate) struct LastItems {
    pub(crate) statement: Option<u8>,
    pub(crate) drain: Option<u8>,
}
