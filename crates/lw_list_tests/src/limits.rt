//! Tests that exceed the limits of lists, with the causes as values.
use lw_finals::{list_source, list_x86};
use lw_paths::ListFault;
use lw_test_reader::{program_of, source_of};
use std::alloc::Global;
use std::test::Fail;

/// Returns why a source test has no list.
fn source_fault_of(alloc: Global, text: &str) -> Option<ListFault> {
    let source = source_of(alloc, text)?;
    list_source(alloc, &source).err()
}

/// Returns why an x86 test has no list.
fn x86_fault_of(alloc: Global, text: &str) -> Option<ListFault> {
    let program = program_of(alloc, text)?;
    list_x86(alloc, &program).err()
}

/// Seven stores against three: 2^21 orientations of their conflicts.
const SEVEN_AGAINST_THREE: &str =
    "SRC A {} P0|P1; x := 1 | x := 8; x := 2 | x := 9; x := 3 | x := 10; x := 4 |; x := 5 |; x := 6 |; x := 7 |; exists (true)";

/// Seven stores against three, in x86 instructions.
const X86_SEVEN_AGAINST_THREE: &str =
    "X86 A {} P0|P1; MOV [x],$1 | MOV [x],$8; MOV [x],$2 | MOV [x],$9; MOV [x],$3 | MOV [x],$10; MOV [x],$4 |; MOV [x],$5 |; MOV [x],$6 |; MOV [x],$7 |; exists (true)";

#[test]
fn too_many_orders(rt: HostRuntime) {
    let faults = (
        source_fault_of(rt.alloc(), SEVEN_AGAINST_THREE),
        x86_fault_of(rt.alloc(), X86_SEVEN_AGAINST_THREE),
    );
    assert!(rt;
        matches!(
            faults,
            (
                Some(ListFault::TooManyOrders),
                Some(ListFault::TooManyOrders)
            )
        )
    );
}

/// Threads with the maximum number of stores, each to a location of its own, and a load by another thread.
#[test]
fn too_many_items(rt: HostRuntime) -> Result<(), Fail> {
    let rows = " | MOV [x],$1 | MOV [y],$1 ;".repeat(rt.alloc(), 31)?;
    let text = format!(in rt.alloc();
        "X86 A {{}} P0|P1|P2; MOV EAX,[z] | MOV [x],$1 | MOV [y],$1; {rows} exists (true)"
    )?;
    let fault = x86_fault_of(rt.alloc(), text.as_str());
    assert!(rt; matches!(fault, Some(ListFault::TooManyItems)));
    Ok(())
}
