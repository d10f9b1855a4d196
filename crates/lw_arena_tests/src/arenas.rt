//! Arenas over a few thousand bytes, which a test takes from the heap.
use lw_arena::{Arena, Memory};
use std::alloc::{AllocError, Global};
use std::collections::BTreeMap;
use std::test::Fail;

/// Returns an arena over `size` bytes.
fn arena_of(alloc: Global, size: usize) -> Result<Arena, AllocError> {
    match Memory::kept(&alloc, size) {
        Some(memory) => Ok(Arena::new(memory)),
        None => Err(AllocError),
    }
}

/// Returns how many of the sizes are allocated, each after the block before was freed.
fn count_allocations(arena: &Arena, sizes: &[usize]) -> u32 {
    let mut given = 0u32;
    for size in sizes {
        if Vec::<u8, &Arena>::with_capacity(arena, *size).is_ok() {
            given = given.saturating_add(1);
        }
    }
    given
}

#[test]
fn a_block_that_is_given_back_is_used_again(rt: HostRuntime) -> Result<(), Fail> {
    let arena = arena_of(rt.alloc(), 4096)?;
    assert_eq!(rt; count_allocations(&arena, &[1000; 100]), 100);
    assert_eq!(rt;
        count_allocations(&arena, &[1025, 2048, 1025, 1024, 513]),
        5
    );
    // 1024 and 2048 bytes are cut off, and what is left is no more than a third block of 1024.
    assert_eq!(rt; count_allocations(&arena, &[4096, 2049, 512, 300, 512]), 3);
    Ok(())
}

#[test]
fn what_does_not_fit_is_refused(rt: HostRuntime) -> Result<(), Fail> {
    let empty = arena_of(rt.alloc(), 15)?;
    assert_eq!(rt; count_allocations(&empty, &[1, 16, 1 << 20]), 0);
    let small = arena_of(rt.alloc(), 31)?;
    assert_eq!(rt; count_allocations(&small, &[16, 17, 1]), 2);
    let whole = arena_of(rt.alloc(), 1 << 12)?;
    let all: Vec<u8, &Arena> = Vec::with_capacity(&whole, 1 << 12)?;
    assert_eq!(rt; count_allocations(&whole, &[1]), 0);
    drop(all);
    assert_eq!(rt; count_allocations(&whole, &[1, 4000]), 1);
    Ok(())
}

#[test]
fn it_serves_collections(rt: HostRuntime) -> Result<(), Fail> {
    let arena = arena_of(rt.alloc(), 1 << 14)?;
    for round in 0..20u64 {
        let mut squares = Vec::new(&arena);
        let mut boxes = BTreeMap::new(&arena);
        for n in 0..40u64 {
            squares.push(n * n)?;
            boxes.insert(n, Box::new(&arena, round)?)?;
        }
        assert_eq!(rt;
            (
                squares.first().copied(),
                squares.last().copied(),
                boxes.len()
            ),
            (Some(0), Some(1521), 40)
        );
    }
    Ok(())
}
