//! The cells of a frame, with the offsets of their tokens and of their ends.
use lw_base::Cpu;
use lw_text::{Cell, Frame, Token, read_frame};

/// Two threads of two rows. One cell of each thread is empty.
const TWO_ROWS: &str = "SRC A {} P0|P1; L: x := 1 | ; | r0 := y; exists (true)";

/// Returns whether a token is as spelled: its text, `@`, and its offset.
fn is_token(token: &Token<'_>, spelled: &str) -> Option<bool> {
    let (text, place) = spelled.split_once('@')?;
    Some(token.text == text && token.at == place.parse::<usize>().ok()?)
}

/// Returns whether a cell has the spelled tokens, which are separated by blanks.
fn has_tokens(cell: &Cell<'_>, spelled: &str) -> bool {
    let tokens = cell.tokens.as_slice();
    for (token, word) in tokens.iter().zip(spelled.split(' ')) {
        if is_token(token, word) != Some(true) {
            return false;
        }
    }
    tokens.len() == spelled.split(' ').count()
}

/// Returns whether two cells are there, the first with the spelled tokens and the second empty, with these ends.
fn are_cells(
    filled: Option<&Cell<'_>>,
    empty: Option<&Cell<'_>>,
    spelled: &str,
    ends: [usize; 2],
) -> bool {
    match (filled, empty) {
        (Some(filled), Some(empty)) => {
            has_tokens(filled, spelled)
                && empty.tokens.is_empty()
                && [filled.end, empty.end] == ends
        }
        _ => false,
    }
}

/// Returns whether a frame has the cells of `TWO_ROWS`.
fn has_two_rows(frame: &Frame<'_>) -> bool {
    let [p0, p1, ..] = Cpu::all();
    if frame.head().threads != 2 {
        return false;
    }
    let (first, second) = (frame.cells(p0), frame.cells(p1));
    first.len() == 2
        && second.len() == 2
        && are_cells(
            first.get(0),
            first.get(1),
            "L@16 :@17 x@19 :=@21 1@24",
            [26, 30],
        )
        && are_cells(second.get(1), second.get(0), "r0@32 :=@35 y@38", [39, 28])
}

#[test]
fn cells_of_a_frame(rt: HostRuntime) {
    let has_two_rows = match read_frame(rt.alloc(), TWO_ROWS.as_bytes()) {
        Ok(frame) => has_two_rows(&frame),
        Err(_) => false,
    };
    assert!(rt; has_two_rows);
}
