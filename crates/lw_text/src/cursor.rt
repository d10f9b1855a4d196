//! The cursor of the parser.
ghost use Rattle.std.specs.Prelude.{◌≡◌, ◌≤◌, ◌<◌, ◌+◌, true, false, if◌then◌else◌, [], ◌∷◌, length, drop, None, MatchOption, MatchResult, OnOk, OnErr, IfOk, IfErr};
ghost use Rattle.lw_base.specs.Types.{TokenList};
ghost use Rattle.lw_text.specs.Causes.{IsParserCause};
ghost use Rattle.lw_text.specs.Conditions.{begins_token};
ghost use Rattle.lw_text.specs.Failures.{FailsBefore};
ghost use Rattle.lw_text.specs.Spans.{token_texts};

use crate::fault::{Refusal, TextCause};
use crate::token::Token;

/// A list of tokens, of which those before `next` have been parsed.
#[derive(Drop)]
pub(crate) struct Cursor<'t, 'a> {
    pub(crate) tokens: &'t [Token<'a>],
    pub(crate) next: usize,
    ghost within: { next ≤ length tokens.now },
}

impl<'t, 'a> Cursor<'t, 'a> {
    ghost use Rattle.lw_text.specs.Views.{remaining, remaining_texts, AdvancesTo, BeginsAt, Fails};

    /// Creates a cursor before all of these tokens.
    pub(crate) fn new(tokens: &'t [Token<'a>]) -> Cursor<'t, 'a>
        ensures { remaining result ≡ tokens.now }
    {
        Cursor { tokens, next: 0 }
    }

    /// Returns the refusal of the next token for this cause. At the end it has no offset.
    pub(crate) fn refusal(&self, cause: TextCause) -> Refusal
        requires { IsParserCause cause }
        ensures place { BeginsAt (remaining self.now) result.at }
        ensures cause { result.cause ≡ cause }
    {
        Refusal {
            at: self.place(),
            cause,
        }
    }

    /// Returns the offset of the next token, or `None` at the end.
    pub(crate) fn place(&self) -> Option<usize>
        ensures { BeginsAt (remaining self.now) result }
    {
        match self.peek() {
            Some(token) => Some(token.at),
            None => None,
        }
    }

    /// Returns the next token without advancing, or `None` at the end.
    pub(crate) fn peek(&self) -> Option<Token<'a>>
        ensures { MatchOption result (remaining_texts self.now ≡ []) (λ t. (self.now.next < length self.now.tokens.now)
            × (remaining self.now ≡ t ∷ drop (self.now.next + 1) self.now.tokens.now)
            × (remaining_texts self.now ≡ t.text.now ∷ token_texts (drop (self.now.next + 1) self.now.tokens.now))) }
    {
        match self.tokens.get(self.next) {
            Some(token) => Some(*token),
            None => None,
        }
    }

    /// Advances past the next token and returns it. Fails at the end.
    pub(crate) fn take(&mut self) -> Result<Token<'a>, Refusal>
        ensures token { IfOk result (λ t. remaining self.old ≡ t ∷ remaining self.new) }
        ensures ok { IfOk result (λ t. remaining_texts self.old ≡ t.text.now ∷ remaining_texts self.new) }
        ensures err { OnErr result (remaining_texts self.old ≡ []) }
        ensures fails { IfErr result (λ f. (remaining self.old ≡ []) × (f.at ≡ None)) }
    {
        match self.peek() {
            Some(token) => {
                self.next += 1;
                Ok(token)
            }
            None => Err(self.refusal(TextCause::Unterminated)),
        }
    }

    /// Advances past the next token if it is this text. Otherwise fails at this token with the cause.
    pub(crate) fn expect(&mut self, text: &str, cause: TextCause) -> Result<(), Refusal>
        requires { IsParserCause cause }
        ensures ok { OnOk result (remaining_texts self.old ≡ text.now ∷ remaining_texts self.new) }
        ensures err { OnErr result ((rest : TokenList) → remaining_texts self.old ≡ text.now ∷ rest → ⊥) }
        ensures advances { OnOk result (AdvancesTo self.old self.new) }
        ensures fails { IfErr result (Fails self.old (FailsBefore (text.now ∷ []) cause)) }
    {
        if self.accept(text) {
            return Ok(());
        }
        Err(self.refusal(cause))
    }

    /// Returns whether the next token is this text.
    pub(crate) fn is_next(&self, text: &str) -> bool
        ensures { result ≡ begins_token text.now (remaining_texts self.now) }
    {
        match self.peek() {
            Some(token) => token.text == text,
            None => false,
        }
    }

    /// Advances past the next token if it is this text, and returns whether it was.
    pub(crate) fn accept(&mut self, text: &str) -> bool
        ensures taken { result ≡ true → remaining_texts self.old ≡ text.now ∷ remaining_texts self.new }
        ensures other { result ≡ false → begins_token text.now (remaining_texts self.old) ≡ false }
        ensures kept { result ≡ false → self.new ≡ self.old }
        ensures advances { AdvancesTo self.old self.new }
    {
        if self.is_next(text) {
            self.next += 1;
            return true;
        }
        false
    }

    /// Advances past the next token if it is one of two texts, and returns whether it was the first. Otherwise fails at this
    /// token with the cause.
    pub(crate) fn expect_either(
        &mut self,
        first: &str,
        second: &str,
        cause: TextCause,
    ) -> Result<bool, Refusal>
        requires { IsParserCause cause }
        ensures { MatchResult result
            (λ b. (remaining_texts self.old ≡ (if b then first.now else second.now) ∷ remaining_texts self.new) × AdvancesTo self.old self.new)
            (λ f. ((rest : TokenList) → remaining_texts self.old ≡ first.now ∷ rest → ⊥)
            × ((rest : TokenList) → remaining_texts self.old ≡ second.now ∷ rest → ⊥)
            × Fails self.old (FailsBefore (first.now ∷ second.now ∷ []) cause) f) }
    {
        if self.accept(first) {
            return Ok(true);
        }
        if self.accept(second) {
            return Ok(false);
        }
        Err(self.refusal(cause))
    }
}
