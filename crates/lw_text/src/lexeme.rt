//! The tokens: names, numbers and symbols.
ghost use Rattle.std.specs.Prelude.{◌≡◌, ◌≢◌, ℕ, ◌<◌, ◌≤◌, ◌^◌, if◌then◌else◌, [], ◌∷◌, ◌++◌, IfSome, IfNone, IfOk, IfErr, OnErr, MatchOption, true, false, IsTrue, ◌↔◌};
ghost use Rattle.std.specs.List.{AllByRecursion};
ghost use Rattle.lw_base.specs.Characters.{is_name_byte};
ghost use Rattle.lw_base.specs.NoParse.{HoldsOfNothing};
ghost use Rattle.lw_base.specs.Types.{Bytes};
ghost use Rattle.lw_text.specs.declared.fault.TextCause.TheVariants.{Memory, Number, Name};
ghost use Rattle.std.specs.Char.{is_ascii_digit};
ghost use Rattle.lw_text.specs.TextFailures.{FailsInToken};
ghost use Rattle.lw_text.specs.Causes.{IsParserCause};
ghost use Rattle.lw_text.specs.Tokens.{opens_comment, Digits, IsNumber, IsNameOrNumber, IsToken};
ghost use Rattle.lw_text.specs.TokenKinds.{IsOfKind};
ghost use Rattle.lw_text.specs.Tokens as symbols;

use crate::byte_prefix::{split, strip_two_bytes};
use crate::fault::TextCause;
use crate::token_kind::TokenKind;
use lw_base::{ByteKind, MAX_NAME_BYTES, Word, ascii_text, is_name_byte, prefix_of_kind};

/// Returns the value of digits in a base, 0 if there are none. Returns `None` if a byte is no digit of this base, or the value
/// is no word.
fn digits(base: u32, digits: &[u8]) -> Option<Word>
    requires low { 2 ≤ base }
    requires high { base ≤ 16 }
    ensures found { IfSome result (λ n. Digits base 0 digits.now n) }
    ensures none { IfNone result ((n : ℕ) → n < 2 ^ 32 → Digits base 0 digits.now n → ⊥) }
{
    let mut n: u64 = 0;
    let mut rest = digits;
    while let Some((first, next)) = split(rest) {
        let digit = char::from(first).to_digit(base)?;
        n = n * u64::from(base) + u64::from(digit);
        if n > u64::from(Word::MAX) {
            return None;
        }
        rest = next;
    }
    Some(n as Word)
}

/// Returns the value of a text that is a number, decimal or hexadecimal after `0x`, or `None` if it is none.
fn number(text: &str) -> Option<Word>
    ensures { MatchOption result (HoldsOfNothing (IsNumber text.now)) (IsNumber text.now) }
{
    let bytes = text.as_bytes();
    if bytes.is_empty() {
        return None;
    }
    match strip_two_bytes(bytes, b'0', b'x') {
        Some([]) => None,
        Some(hex) => digits(16, hex),
        None => digits(10, bytes),
    }
}

/// Returns whether two bytes are a symbol.
fn is_pair(first: u8, second: u8) -> bool
    ensures { result ≡ symbols.is_two_byte_symbol first second }
{
    matches!(
        (first, second),
        (b':', b'=') | (b'!', b'=') | (b'/', b'\\') | (b'\\', b'/')
    )
}

/// Returns whether a byte is a symbol.
fn is_single(byte: u8) -> bool
    ensures { result ≡ symbols.is_one_byte_symbol byte }
{
    b"{}[]()|;:,$=+~".contains(&byte)
}

/// Returns whether the text begins with a symbol of two bytes.
fn begins_long(bytes: &[u8]) -> bool
    ensures { IsTrue result ↔ ((b c : ℕ) × (rest : Bytes) × (bytes.now ≡ b ∷ c ∷ rest)
        × (symbols.is_two_byte_symbol b c ≡ true)) }
{
    match bytes {
        [first, second, ..] => is_pair(*first, *second),
        _ => false,
    }
}

/// Returns whether the first byte, `first`, is a symbol and not the start of a comment. The caller has tested that the text begins
/// with no symbol of two bytes.
fn begins_short(bytes: &[u8], first: u8) -> bool
    ensures { IsTrue result ↔ ((symbols.is_one_byte_symbol first ≡ true)
        × (opens_comment bytes.now ≡ false)) }
{
    is_single(first) && strip_two_bytes(bytes, b'(', b'*').is_none()
}

/// Returns the kind of a run of letters, digits and `_`: a name or a number. Returns `None` if it is neither.
fn kind_of_run(run: &str) -> Option<TokenKind>
    requires { AllByRecursion (λ b. is_name_byte b ≡ true) run.now }
    ensures { MatchOption result (IsNameOrNumber run.now → ⊥) (λ kind. IsNameOrNumber run.now × IsOfKind kind run.now) }
{
    let Some((first, _)) = split(run.as_bytes()) else {
        return None;
    };
    if first.is_ascii_digit() {
        return match number(run) {
            Some(number) => Some(TokenKind::Number(number)),
            None => None,
        };
    }
    if run.len() <= MAX_NAME_BYTES {
        return Some(TokenKind::Name);
    }
    None
}

/// Returns the cause of a run that is neither a name nor a number and begins with this byte.
fn fault_of_run(first: u8) -> TextCause
    ensures reader { (result ≢ Memory) × IsParserCause result }
    ensures cause { result ≡ (if is_ascii_digit first then Number else Name) }
{
    if first.is_ascii_digit() {
        TextCause::Number
    } else {
        TextCause::Name
    }
}

/// The first token of a text, its kind, and the rest of the text.
pub(crate) struct Lexeme<'a> {
    pub(crate) text: &'a str,
    pub(crate) kind: TokenKind,
    pub(crate) rest: &'a [u8],
}

/// Scans the first token of a text. Returns a cause if none begins there; the one of an empty text means nothing, since the lexer
/// scans none.
pub(crate) fn token(bytes: &[u8]) -> Result<Lexeme<'_>, TextCause>
    ensures found { IfOk result (λ x. (bytes.now ≡ x.text.now ++ x.rest.now) × IsToken x.text.now x.rest.now
        × IsOfKind x.kind x.text.now) }
    ensures none { OnErr result ((t rest : Bytes) → bytes.now ≡ t ++ rest → IsToken t rest → ⊥) }
    ensures cause { IfErr result (λ cause. (cause ≢ Memory) × IsParserCause cause) }
    ensures fails { IfErr result (λ cause. bytes.now ≢ [] → FailsInToken bytes.now cause) }
{
    let Some((first, _)) = split(bytes) else {
        return Err(TextCause::Unterminated);
    };
    if is_name_byte(first) {
        let (run, rest) = prefix_of_kind(bytes, ByteKind::NameByte);
        let text = ascii_text(run);
        let Some(kind) = kind_of_run(text) else {
            return Err(fault_of_run(first));
        };
        return Ok(Lexeme { text, kind, rest });
    }
    if begins_long(bytes) {
        let (symbol, rest) = bytes.split_at(2);
        return Ok(Lexeme {
            text: ascii_text(symbol),
            kind: TokenKind::Symbol,
            rest,
        });
    }
    if begins_short(bytes, first) {
        let (symbol, rest) = bytes.split_at(1);
        return Ok(Lexeme {
            text: ascii_text(symbol),
            kind: TokenKind::Symbol,
            rest,
        });
    }
    Err(TextCause::Unexpected)
}
