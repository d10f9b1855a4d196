//! The maximum numbers of items and orders.
ghost use Rattle.std.specs.Prelude.{◌≡◌};
ghost use Rattle.lw_orders.specs.Limits.{most_items, most_unordered, most_orders};

/// The maximum number of items.
pub const MAX_ITEMS: usize = 128;

/// The maximum number of unordered conflicts.
pub const MAX_UNORDERED: usize = 20;

/// The maximum number of orders: each unordered conflict has two orientations.
pub const MAX_ORDERS: u64 = 1 << MAX_UNORDERED;

/// States that each constant is the number that the definitions name.
pub fn the_constants_are_the_limits()
    ensures items { MAX_ITEMS ≡ most_items }
    ensures unordered_conflicts { MAX_UNORDERED ≡ most_unordered }
    ensures orders { MAX_ORDERS ≡ most_orders }
{}
