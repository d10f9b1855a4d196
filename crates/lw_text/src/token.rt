//! Tokens: their offset, their bytes and their kind.
ghost use Rattle.std.specs.Prelude.{MatchOption};
ghost use Rattle.lw_base.specs.NoParse.{HoldsOfNothing};
ghost use Rattle.lw_text.specs.Tokens.{IsNumber};
ghost use Rattle.lw_text.specs.TokenKinds.{IsOfKind};
ghost use Rattle.lw_text.specs.laws.TokenKindProps.{IsOfKind-prop};

use crate::token_kind::TokenKind;
use lw_base::Word;

/// A token: the offset of its first byte in the text, its bytes, and its kind.
#[derive(Clone, Copy)]
pub struct Token<'a> {
    pub at: usize,
    pub text: &'a str,
    pub kind: TokenKind,
    pub ghost of_kind: { IsOfKind kind text.now } by { IsOfKind-prop kind text.now },
}

impl<'a> Token<'a> {
    /// Returns the value of a token that is a number, decimal or hexadecimal after `0x`, or `None` if it is none.
    pub fn number(&self) -> Option<Word>
        ensures { MatchOption result (HoldsOfNothing (IsNumber self.now.text.now)) (IsNumber self.now.text.now) }
    {
        match self.kind {
            TokenKind::Name => None,
            TokenKind::Number(number) => Some(number),
            TokenKind::Symbol => None,
        }
    }
}
