//! Worked orders, the limits, and the sequence of orders compared with a plain implementation.
ghost use Rattle.std.specs.Prelude.{◌≡◌, IfOk};
ghost use Rattle.lw_orders.specs.Order.{IsWellFormed};

use crate::plain::plain_orders;
use lw_orders::{Items, Orders, count};
use lw_test_reader::{Made, MadeByAllocator, Refusing, count_requests};
use std::alloc::{AllocError, Global};
use std::test::Fail;

/// Creates the items of these pairs.
fn items_of(
    alloc: Global,
    len: usize,
    preserved: &[(u8, u8)],
    conflicts: &[(u8, u8)],
) -> Result<Items, AllocError>
    requires { IsWellFormed (record { len = len; preserved = preserved.now; conflicts = conflicts.now }) }
    ensures { IfOk result (λ r. r ≡ record { len = len; preserved = preserved.now; conflicts = conflicts.now }) }
{
    let preserved = preserved.to_vec(alloc)?;
    let conflicts = conflicts.to_vec(alloc)?;
    Ok(Items::new(len, preserved, conflicts))
}

/// Returns all orders of the items in sequence, concatenated.
fn all_orders(alloc: Global, items: &Items) -> Result<Vec<u8>, AllocError> {
    let mut given = Vec::new(alloc);
    if let Some(orders) = Orders::new(alloc, items)? {
        for order in orders {
            given.extend_from_slice(order.as_slice())?;
        }
    }
    Ok(given)
}

/// Returns whether the items have this number of orientations, and these orders.
fn have_orders(
    alloc: Global,
    items: &Items,
    orientations: u64,
    wanted: &[u8],
) -> Result<bool, AllocError> {
    let has_orientations = count(alloc, items)? == Some(orientations);
    let orders = all_orders(alloc, items)?;
    Ok(has_orientations && orders.as_slice() == wanted)
}

#[test]
fn two_threads_of_two_items(rt: HostRuntime) -> Result<(), Fail> {
    let items = items_of(rt.alloc(), 4, &[(0, 1), (2, 3)], &[(0, 3), (1, 2)])?;
    let wanted = [0, 1, 2, 3, 0, 2, 1, 3, 2, 3, 0, 1];
    assert!(rt; have_orders(rt.alloc(), &items, 4, &wanted)?);
    Ok(())
}

#[test]
fn three_items_in_all_orders(rt: HostRuntime) -> Result<(), Fail> {
    let items = items_of(rt.alloc(), 3, &[], &[(0, 1), (0, 2), (1, 2)])?;
    let wanted = [0, 1, 2, 0, 2, 1, 2, 0, 1, 1, 0, 2, 1, 2, 0, 2, 1, 0];
    assert!(rt; have_orders(rt.alloc(), &items, 8, &wanted)?);
    Ok(())
}

#[test]
fn a_preserved_pair_decides_its_conflict(rt: HostRuntime) -> Result<(), Fail> {
    let items = items_of(rt.alloc(), 2, &[(0, 1)], &[(0, 1)])?;
    assert!(rt; have_orders(rt.alloc(), &items, 1, &[0, 1])?);
    Ok(())
}

/// Returns the number of orientations tried up to each order, and in total.
fn tries_of(alloc: Global, items: &Items) -> Result<Vec<u64>, AllocError> {
    let mut tries = Vec::new(alloc);
    if let Some(mut orders) = Orders::new(alloc, items)? {
        for _ in 0..4u32 {
            let _order = orders.next();
            tries.push(orders.tries())?;
        }
    }
    Ok(tries)
}

/// Two threads of two items have three orders, and the fourth call returns none.
#[test]
fn each_orientation_tried_is_counted(rt: HostRuntime) -> Result<(), Fail> {
    let items = items_of(rt.alloc(), 4, &[(0, 1), (2, 3)], &[(0, 3), (1, 2)])?;
    assert!(rt; tries_of(rt.alloc(), &items)?.as_slice() == [2, 3, 6, 6].as_slice());
    Ok(())
}

/// No items have one order, the empty one.
#[test]
fn no_items_have_the_empty_order(rt: HostRuntime) -> Result<(), Fail> {
    let none = items_of(rt.alloc(), 0, &[], &[])?;
    let number = count(rt.alloc(), &none)?;
    let given = match Orders::new(rt.alloc(), &none)? {
        Some(mut orders) => (orders.next().is_some(), orders.next().is_some()),
        None => (false, false),
    };
    assert!(rt; number == Some(1) && given == (true, false));
    Ok(())
}

/// One thread stores five times to a location, and another four times to the same.
#[test]
fn twenty_unordered_conflicts_are_counted(rt: HostRuntime) -> Result<(), Fail> {
    let items = items_of(
        rt.alloc(),
        9,
        &[(0, 1), (1, 2), (2, 3), (3, 4), (5, 6), (6, 7), (7, 8)],
        &[
            (0, 5),
            (0, 6),
            (0, 7),
            (0, 8),
            (1, 5),
            (1, 6),
            (1, 7),
            (1, 8),
            (2, 5),
            (2, 6),
            (2, 7),
            (2, 8),
            (3, 5),
            (3, 6),
            (3, 7),
            (3, 8),
            (4, 5),
            (4, 6),
            (4, 7),
            (4, 8),
        ],
    )?;
    let number = count(rt.alloc(), &items)?;
    let orders = all_orders(rt.alloc(), &items)?;
    assert!(rt; number == Some(1_048_576) && orders.len() == 126 * 9);
    Ok(())
}

/// One thread stores seven times to a location, and another three times to the same.
#[test]
fn twenty_one_unordered_conflicts_are_too_many(rt: HostRuntime) -> Result<(), Fail> {
    let items = items_of(
        rt.alloc(),
        10,
        &[
            (0, 1),
            (1, 2),
            (2, 3),
            (3, 4),
            (4, 5),
            (5, 6),
            (7, 8),
            (8, 9),
        ],
        &[
            (0, 7),
            (0, 8),
            (0, 9),
            (1, 7),
            (1, 8),
            (1, 9),
            (2, 7),
            (2, 8),
            (2, 9),
            (3, 7),
            (3, 8),
            (3, 9),
            (4, 7),
            (4, 8),
            (4, 9),
            (5, 7),
            (5, 8),
            (5, 9),
            (6, 7),
            (6, 8),
            (6, 9),
        ],
    )?;
    let has_none = Orders::new(rt.alloc(), &items)?.is_none();
    assert!(rt; has_none && count(rt.alloc(), &items)?.is_none());
    Ok(())
}

/// The maximum number of items, with one unordered conflict, has two orders.
#[test]
fn most_items(rt: HostRuntime) -> Result<(), Fail> {
    let items = items_of(rt.alloc(), 128, &[(126, 127)], &[(0, 127)])?;
    let orders = all_orders(rt.alloc(), &items)?;
    let (first, second) = orders.as_slice().split_at(orders.len().min(128));
    assert!(rt; first.iter().copied().eq(0..128) && matches!(second, [1, 2, .., 127, 0]));
    Ok(())
}

/// Returns the total number of items in all orders if they are those of the plain implementation, and 0 otherwise.
fn length_if_as_plain(
    alloc: Global,
    len: u8,
    preserved: &[(u8, u8)],
    conflicts: &[(u8, u8)],
) -> Result<usize, AllocError>
    requires { IsWellFormed (record { len = len; preserved = preserved.now; conflicts = conflicts.now }) }
{
    let items = items_of(alloc, usize::from(len), preserved, conflicts)?;
    let orders = all_orders(alloc, &items)?;
    let plain = plain_orders(alloc, len, preserved, conflicts)?;
    Ok(if orders == plain { orders.len() } else { 0 })
}

/// Store buffering as sources: each of two threads stores to its own location, and then loads the other's.
#[test]
fn store_buffering_has_the_plain_orders(rt: HostRuntime) -> Result<(), Fail> {
    assert!(rt; length_if_as_plain(rt.alloc(), 4, &[(0, 1), (2, 3)], &[(0, 3), (1, 2)])? == 3 * 4);
    Ok(())
}

/// Store buffering on processors: the items of a thread are its store, the store's drain and its load. A store comes
/// before its drain and its load, and each drain conflicts with the other thread's load.
#[test]
fn drained_store_buffering_has_the_plain_orders(rt: HostRuntime) -> Result<(), Fail> {
    let preserved = [(0, 1), (0, 2), (3, 4), (3, 5)];
    assert!(rt; length_if_as_plain(rt.alloc(), 6, &preserved, &[(1, 5), (2, 4)])? == 4 * 6);
    Ok(())
}

/// Two threads that each store to both locations, in opposite sequence. The items of a thread are its first store and
/// that one's drain, its second store and that one's drain; the drains are in sequence too.
#[test]
fn crossed_stores_have_the_plain_orders(rt: HostRuntime) -> Result<(), Fail> {
    let preserved = [
        (0, 1),
        (0, 2),
        (1, 3),
        (2, 3),
        (4, 5),
        (4, 6),
        (5, 7),
        (6, 7),
    ];
    assert!(rt; length_if_as_plain(rt.alloc(), 8, &preserved, &[(1, 7), (3, 5)])? == 3 * 8);
    Ok(())
}

/// Each of two threads stores to its own location and loads that, and then the other's. The items of a thread are its
/// store, the drain and the two loads; a drain conflicts with the loads of its location by both threads.
#[test]
fn own_stores_first_have_the_plain_orders(rt: HostRuntime) -> Result<(), Fail> {
    let preserved = [(0, 1), (0, 2), (2, 3), (4, 5), (4, 6), (6, 7)];
    let conflicts = [(1, 2), (1, 7), (3, 5), (5, 6)];
    assert!(rt; length_if_as_plain(rt.alloc(), 8, &preserved, &conflicts)? == 15 * 8);
    Ok(())
}

/// Store buffering where each thread may jump over a fence. The first doesn't: its items are its store, the drain, a
/// comparison, the branch, the fence, for which the drain must be done, and the load (0 to 5). The second does: its
/// store, the drain, the comparison, the branch and the load (6 to 10).
#[test]
fn a_fence_jumped_over_has_the_plain_orders(rt: HostRuntime) -> Result<(), Fail> {
    let given = length_if_as_plain(
        rt.alloc(),
        11,
        &[
            (0, 1),
            (0, 2),
            (1, 4),
            (2, 3),
            (3, 4),
            (4, 5),
            (6, 7),
            (6, 8),
            (8, 9),
            (9, 10),
        ],
        &[(1, 10), (5, 7)],
    )?;
    assert!(rt; given == 4 * 11);
    Ok(())
}

/// Twenty pairs of items, each with a conflict of its own.
const DISJOINT_PAIRS: [(u8, u8); 20] = [
    (0, 1),
    (2, 3),
    (4, 5),
    (6, 7),
    (8, 9),
    (10, 11),
    (12, 13),
    (14, 15),
    (16, 17),
    (18, 19),
    (20, 21),
    (22, 23),
    (24, 25),
    (26, 27),
    (28, 29),
    (30, 31),
    (32, 33),
    (34, 35),
    (36, 37),
    (38, 39),
];

/// Returns the number of orders, and the number of orientations that are tried for them.
fn count_orders_and_tries(alloc: Global, items: &Items) -> Result<(u32, u64), AllocError> {
    let Some(mut orders) = Orders::new(alloc, items)? else {
        return Ok((0, 0));
    };
    let mut given = 0u32;
    for _ in 0..1_048_577u32 {
        if orders.next().is_some() {
            given = given.saturating_add(1);
        }
    }
    Ok((given, orders.tries()))
}

/// The maximum number of orders is enumerated with fewer than 2^21 tries.
#[test]
fn the_most_orders_take_few_tries(rt: HostRuntime) -> Result<(), Fail> {
    let items = items_of(rt.alloc(), 40, &[], &DISJOINT_PAIRS)?;
    let (given, tried) = count_orders_and_tries(rt.alloc(), &items)?;
    assert!(rt; given == 1_048_576 && tried < 2_097_152, "{given} {tried}");
    Ok(())
}

/// Creates the iterator over the orders of these items.
#[derive(Clone, Copy)]
struct OrdersOf<'i> {
    items: &'i Items,
}

/// Returns whether the iterator returns the orders of store buffering as sources, and none after them.
fn returns_all_orders(orders: &mut Orders<&Refusing>) -> bool {
    for wanted in [[0, 1, 2, 3], [0, 2, 1, 3], [2, 3, 0, 1]] {
        match orders.next() {
            Some(order) if order.as_slice() == wanted.as_slice() => {}
            _ => return false,
        }
    }
    orders.next().is_none()
}

impl MadeByAllocator for OrdersOf<'_> {
    fn make<'a>(&self, _ample: &'a Refusing, scarce: &'a Refusing) -> Option<Made> {
        match Orders::new(scarce, self.items) {
            Ok(orders) => returns_all_orders(&mut orders?).then_some(Made::Whole),
            Err(AllocError) => Some(Made::Refused),
        }
    }
}

/// Memory for the iterator is refused, each request in turn. It allocates nothing to return its orders.
#[test]
fn orders_where_memory_is_refused(rt: HostRuntime) -> Result<(), Fail> {
    let items = items_of(rt.alloc(), 4, &[(0, 1), (2, 3)], &[(0, 3), (1, 2)])?;
    let refused = count_requests(rt.alloc(), &OrdersOf { items: &items });
    assert!(rt;
        matches!(refused, Some(number) if number > 0),
        "{refused:?}"
    );
    Ok(())
}
