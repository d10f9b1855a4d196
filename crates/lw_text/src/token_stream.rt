//! The token stream of a text: all tokens after its preamble, up to the first lexical fault.
ghost use Rattle.std.specs.Prelude.{◌≡◌, ◌≢◌, ◌≤◌, length, None, All, IfOk, IfSome, IfNone, MatchOption};
ghost use Rattle.lw_base.specs.NoParse.{HoldsOfNothing};
ghost use Rattle.lw_text.specs.Tokens.{Tokens};
ghost use Rattle.lw_text.specs.PlacedTokens.{PlacedTokens};
ghost use Rattle.lw_text.specs.inner.Parsed.{StopsAt};
ghost use Rattle.lw_text.specs.Places.{with_spans};
ghost use Rattle.lw_text.specs.declared.fault.TextCause.TheVariants.{Memory, Unterminated};

use crate::fault::{Fault, Refusal, TextCause};
use crate::lexer::Lexer;
use crate::token::Token;
use lw_base::Sequence;
use std::alloc::{AllocError, Allocator, Global};

/// The tokens before the first lexical fault, and that fault.
#[derive(Drop)]
pub(crate) struct TokenStream<'a, A: Allocator = Global> {
    pub(crate) tokens: Sequence<Token<'a>, A>,
    pub(crate) fault: Option<Fault>,
}

impl<'a, A: Allocator> TokenStream<'a, A> {
    /// Returns the fault that a refusal of the parser means, in a text of length `len`. If the tokens ended too
    /// early, it is the lexical fault that ends them, or the text's end.
    pub(crate) fn fault_of(&self, refusal: Refusal, len: usize) -> Fault
        requires place { refusal.cause ≢ Memory → IfSome refusal.at (λ at. at ≤ len) }
        requires fault { IfSome self.now.fault (λ f. f.at ≤ len) }
        ensures memory { refusal.cause ≡ Memory → result.cause ≡ Memory }
        ensures place { result.at ≤ len }
        ensures token { refusal.cause ≢ Memory → IfSome refusal.at (λ at. (result.at ≡ at) × (result.cause ≡ refusal.cause)) }
        ensures end { refusal.cause ≢ Memory → IfNone refusal.at (MatchOption self.now.fault ((result.at ≡ len)
            × (result.cause ≡ Unterminated)) (λ f. (result.at ≡ f.at) × (result.cause ≡ f.cause))) }
    {
        if matches!(refusal.cause, TextCause::Memory) {
            return Fault {
                at: 0,
                cause: TextCause::Memory,
            };
        }
        if let Some(at) = refusal.at {
            return Fault {
                at,
                cause: refusal.cause,
            };
        }
        match self.fault {
            Some(fault) => fault,
            None => Fault {
                at: len,
                cause: TextCause::Unterminated,
            },
        }
    }

    /// Scans the rest of a text, up to the first lexical fault, which becomes part of the result. Fails only if memory runs out.
    pub(crate) fn read(alloc: A, mut lexer: Lexer<'a>) -> Result<Self, AllocError>
        ensures { IfOk result (λ r. MatchOption r.fault
            (PlacedTokens (length lexer.entry.text.now) lexer.entry.rest.now (with_spans r.tokens))
            (λ f. HoldsOfNothing (Tokens lexer.entry.rest.now) × (f.at ≤ length lexer.entry.text.now)
            × StopsAt (length lexer.entry.text.now) lexer.entry.rest.now (with_spans r.tokens) f.at f.cause)
            × All (λ t. t.at ≤ length lexer.entry.text.now) r.tokens) }
    {
        let mut tokens = Sequence::new(alloc);
        'tokens: loop {
            match lexer.next() {
                Ok(Some(token)) => tokens.push(token)?,
                Ok(None) => {
                    return Ok(TokenStream {
                        tokens,
                        fault: None,
                    });
                }
                Err(fault) => {
                    return Ok(TokenStream {
                        tokens,
                        fault: Some(fault),
                    });
                }
            }
        }
    }
}
