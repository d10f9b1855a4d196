//! Why a search gives no list.
ghost use Rattle.std.specs.Prelude.{◌≡◌};
ghost use Rattle.lw_search.specs.declared.fault.SearchFault.TheVariants as fault;

use std::alloc::AllocError;

/// Why a search gives no list.
#[derive(Clone, Copy, PartialEq, Eq, Drop)]
pub enum SearchFault {
    /// The allocator refused memory, or a table of the search would get more than 2^32 rows.
    Memory,
    /// The machine has more states than the budget.
    Budget,
}

impl From<AllocError> for SearchFault {
    ghost from_gives = { λ _ f. f ≡ fault.Memory };

    /// Returns `Memory`.
    fn from(_error: AllocError) -> Self {
        SearchFault::Memory
    }
}
