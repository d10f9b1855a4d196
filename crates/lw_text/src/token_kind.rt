//! The kinds of tokens.

use lw_base::Word;

/// The kind of a token: a name, a number with its value, or a symbol.
#[derive(Clone, Copy)]
pub enum TokenKind {
    Name,
    Number(Word),
    Symbol,
}
