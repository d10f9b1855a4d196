//! The condition of a test, as it is parsed and printed.
use lw_base::write_condition;
use lw_text::{Frame, read_frame};
use std::alloc::Global;

/// Tests, and after ` => ` the printed form of their conditions, which has parentheses only where they are needed.
const CONDITIONS: &str = "
SRC A {} P0|P1; exists ((x=1 \\/ y=1) /\\ not (z=1 /\\ x=2)) => exists ((x=1 \\/ y=1) /\\ ~(z=1 /\\ x=2))
SRC A {} P0|P1; forall ((x=1 \\/ y=1) \\/ z=1) => forall (x=1 \\/ y=1 \\/ z=1)
SRC A {} P0|P1; ~exists (x=1 \\/ (y=1 \\/ z=1)) => ~exists (x=1 \\/ (y=1 \\/ z=1))
SRC A {} P0|P1; exists ~~[x]=1 => exists (~~x=1)
SRC A {} P0|P1; exists (true) => exists (true)
SRC A {} P0|P1; forall not false => forall (~false)
SRC A {} P0|P1; exists (x=1 /\\ (y=0x10 /\\ 0:r5=007)) => exists (x=1 /\\ (y=16 /\\ 0:r5=7))
SRC A {} P0|P1; exists ((x=1 /\\ y=1) /\\ z=1) => exists (x=1 /\\ y=1 /\\ z=1)
SRC A {} P0|P1; exists (x=1 /\\ y=1 \\/ z=1) => exists (x=1 /\\ y=1 \\/ z=1)
SRC A {} P0|P1; ~exists (((0:r0=4294967295))) => ~exists (0:r0=4294967295)
SRC A {} P0|P1; exists true => exists (true)
SRC A {} P0|P1; exists ((false)) => exists (false)
SRC A {} P0|P1; ~ exists (true) => ~exists (true)
SRC A {} P0|P1; forall (true) => forall (true)
SRC A {} P0|P1; exists [y]=0x7 => exists (y=7)
SRC A {} P0|P1; exists 1:r5=7 => exists (1:r5=7)
SRC A {} P0|P1; exists not ~true => exists (~~true)
SRC A {} P0|P1; exists (true \\/ false /\\ x=1) => exists (true \\/ false /\\ x=1)
SRC A {} P0|P1; exists (true /\\ false \\/ x=1) => exists (true /\\ false \\/ x=1)
SRC A {} P0|P1; exists ((true \\/ false) /\\ x=1) => exists ((true \\/ false) /\\ x=1)
SRC A {} P0|P1; exists (true /\\ (false /\\ x=1)) => exists (true /\\ (false /\\ x=1))
SRC A {} P0|P1; exists (x=1 /\\ y=2 /\\ z=3) => exists (x=1 /\\ y=2 /\\ z=3)
SRC A {} P0|P1; exists (x=1 \\/ y=2 \\/ z=3) => exists (x=1 \\/ y=2 \\/ z=3)
SRC A {} P0|P1; exists (~true /\\ not false \\/ not (true /\\ false)) => exists (~true /\\ ~false \\/ ~(true /\\ false))
";

/// Returns whether the condition of a frame is printed like this.
fn is_printed(alloc: Global, frame: &Frame<'_>, printed: &str) -> bool {
    match write_condition(alloc, frame.head()) {
        Ok(text) => text.as_str() == printed,
        Err(_) => false,
    }
}

/// Returns whether a text has a frame whose condition is printed like this.
fn has_condition(alloc: Global, text: &str, printed: &str) -> bool {
    match read_frame(alloc, text.as_bytes()) {
        Ok(frame) => is_printed(alloc, &frame, printed),
        Err(_) => false,
    }
}

#[test]
fn conditions(rt: HostRuntime) {
    for line in CONDITIONS.split('\n') {
        let holds = match line.split_once(" => ") {
            Some((text, printed)) => has_condition(rt.alloc(), text, printed),
            None => line.is_empty(),
        };
        assert!(rt; holds, "{line}");
    }
}
