//! A plain implementation of the orders: it counts from 0, takes each bit as the orientation of a conflict, and
//! returns the order of each number's graph, if that is acyclic.
use std::alloc::{AllocError, Global};

/// Returns whether a path along the pairs leads from an item to another. Each round follows each pair once.
fn leads(alloc: Global, pairs: &[(u8, u8)], from: u8, to: u8) -> Result<bool, AllocError> {
    let mut reached = Vec::new(alloc);
    reached.push(from)?;
    for _ in pairs {
        for (first, second) in pairs {
            if reached.contains(first) && !reached.contains(second) {
                reached.push(*second)?;
            }
        }
    }
    Ok(reached.contains(&to))
}

/// Returns the conflicts whose second item no path of preserved pairs reaches from the first.
fn unordered_conflicts_of(
    alloc: Global,
    preserved: &[(u8, u8)],
    conflicts: &[(u8, u8)],
) -> Result<Vec<(u8, u8)>, AllocError> {
    let mut unordered = Vec::new(alloc);
    for (first, second) in conflicts {
        if !leads(alloc, preserved, *first, *second)? {
            unordered.push((*first, *second))?;
        }
    }
    Ok(unordered)
}

/// Appends the unordered pairs, reversed if their bit of the number is 1. The first pair has the highest bit.
fn push_oriented(
    pairs: &mut Vec<(u8, u8)>,
    unordered: &[(u8, u8)],
    number: u32,
) -> Result<(), AllocError> {
    let mut bits = number;
    for (first, second) in unordered.iter().rev() {
        if bits % 2 == 0 {
            pairs.push((*first, *second))?;
        } else {
            pairs.push((*second, *first))?;
        }
        bits /= 2;
    }
    Ok(())
}

/// Returns the lowest item that is not taken and whose predecessors all are.
fn minimal_item(len: u8, pairs: &[(u8, u8)], taken: &[u8]) -> Option<u8> {
    (0..len).find(|item| {
        !taken.contains(item)
            && pairs
                .iter()
                .all(|(first, second)| second != item || taken.contains(first))
    })
}

/// Returns the order that takes a minimal item at each turn, or `None` on a cycle.
fn plain_order(alloc: Global, len: u8, pairs: &[(u8, u8)]) -> Result<Option<Vec<u8>>, AllocError> {
    let mut taken = Vec::new(alloc);
    for _ in 0..len {
        match minimal_item(len, pairs, taken.as_slice()) {
            Some(item) => taken.push(item)?,
            None => return Ok(None),
        }
    }
    Ok(Some(taken))
}

/// Returns the order of the preserved pairs and of the unordered ones, oriented by the number.
fn order_of_number(
    alloc: Global,
    len: u8,
    preserved: &[(u8, u8)],
    unordered: &[(u8, u8)],
    number: u32,
) -> Result<Option<Vec<u8>>, AllocError> {
    let mut pairs = preserved.to_vec(alloc)?;
    push_oriented(&mut pairs, unordered, number)?;
    plain_order(alloc, len, pairs.as_slice())
}

/// Returns all orders in sequence, concatenated, of at most ten unordered pairs.
pub(crate) fn plain_orders(
    alloc: Global,
    len: u8,
    preserved: &[(u8, u8)],
    conflicts: &[(u8, u8)],
) -> Result<Vec<u8>, AllocError> {
    let unordered = unordered_conflicts_of(alloc, preserved, conflicts)?;
    let mut orders = Vec::new(alloc);
    for number in 0..1024u32 {
        if number >> unordered.len().min(10) == 0
            && let Some(order) = order_of_number(
                alloc,
                len,
                preserved,
                unordered.as_slice(),
                number,
            )?
        {
            orders.extend_from_slice(order.as_slice())?;
        }
    }
    Ok(orders)
}
