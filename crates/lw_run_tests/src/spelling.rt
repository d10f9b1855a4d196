//! How tables spell texts: `$` is a line end, `@` the dollar sign, and `<3 ab>` is `ababab`.
use lw_base::Word;
use std::alloc::{AllocError, Global};

/// Returns the text that these words of a table spell.
pub(crate) fn spelled(alloc: Global, words: &str) -> Result<String, AllocError> {
    let mut text = String::new(alloc);
    push_spelled(&mut text, words)?;
    let lines = text.as_str().replace(alloc, '$', "\n")?;
    lines.as_str().replace(alloc, '@', "$")
}

/// Appends words of a table, with their repetitions expanded.
fn push_spelled(text: &mut String, words: &str) -> Result<(), AllocError> {
    let mut pieces = words.split('<');
    text.push_str(pieces.next().unwrap_or(""))?;
    for piece in pieces {
        let (repeated, rest) = piece.split_once('>').unwrap_or((piece, ""));
        push_repeated(text, repeated)?;
        text.push_str(rest)?;
    }
    Ok(())
}

/// Appends the words after a number and a blank, this number of times.
fn push_repeated(text: &mut String, words: &str) -> Result<(), AllocError> {
    let (count, repeated) = words.split_once(' ').unwrap_or((words, ""));
    for _ in 0..count.parse::<Word>().unwrap_or(0) {
        text.push_str(repeated)?;
    }
    Ok(())
}
