//! The lexer, which splits a text into tokens.
ghost use Rattle.std.specs.Prelude.{◌≡◌, ◌+◌, ◌≤◌, [], length, MatchResult, MatchOption};
ghost use Rattle.lw_base.specs.Types.{Bytes};

use crate::fault::{Fault, TextCause};
use crate::lexeme::{Lexeme, token};
use crate::token::Token;
use crate::trivia::after_trivia;

/// A lexer, which scans a text from left to right: the whole text, and the suffix that is not scanned yet.
#[derive(Drop)]
pub(crate) struct Lexer<'a> {
    pub(crate) text: &'a [u8],
    pub(crate) rest: &'a [u8],
    ghost within: { length rest.now ≤ length text.now },
}

impl<'a> Lexer<'a> {
    ghost use Rattle.lw_text.specs.Tokens.{Trivia, IsFirstToken};
    ghost use Rattle.lw_text.specs.TextFailures.{FailsInFirstToken};
    ghost use Rattle.lw_text.specs.Views.{FailsFrom};

    /// Creates a lexer at the start of a text.
    pub(crate) fn new(text: &'a [u8]) -> Lexer<'a>
        ensures text { result.text.now ≡ text.now }
        ensures rest { result.rest.now ≡ text.now }
    {
        Lexer { text, rest: text }
    }

    /// Scans the next token, or returns `None` if only blanks and comments are left. Fails at the end of the text if a comment
    /// is not closed, and where no token begins.
    pub(crate) fn next(&mut self) -> Result<Option<Token<'a>>, Fault>
        ensures reads { MatchResult result
            (λ o. MatchOption o (Trivia self.old.rest.now []) (λ t. IsFirstToken self.old.rest.now t.text.now self.new.rest.now
            × (t.at + length t.text.now + length self.new.rest.now ≡ length self.old.text.now)))
            (λ f. (Trivia self.old.rest.now [] → ⊥) × ((t rest : Bytes) → IsFirstToken self.old.rest.now t rest → ⊥)
            × (f.at ≤ length self.old.text.now)
            × FailsFrom (length self.old.text.now) self.old.rest.now FailsInFirstToken f.at f.cause) }
        ensures same { self.new.text.now ≡ self.old.text.now }
    {
        let Some(start) = after_trivia(self.rest) else {
            return Err(Fault {
                at: self.text.len(),
                cause: TextCause::Unterminated,
            });
        };
        let at = self.text.len() - start.len();
        if start.is_empty() {
            return Ok(None);
        }
        match token(start) {
            Ok(Lexeme { text, kind, rest }) => {
                self.rest = rest;
                Ok(Some(Token { at, text, kind }))
            }
            Err(cause) => Err(Fault { at, cause }),
        }
    }
}
