//! The trivia between tokens: blanks and comments.
ghost use Rattle.std.specs.Prelude.{◌≡◌, IfSome, IfNone, false};
ghost use Rattle.lw_base.specs.NoParse.{HoldsOfNothing};
ghost use Rattle.lw_base.specs.Types.{Bytes};
ghost use Rattle.lw_text.specs.Tokens.{Comment, Trivia, begins_trivia};

use crate::byte_prefix::{split, strip_two_bytes};
use lw_base::{ByteKind, prefix_of_kind};

/// Skips a comment whose `(*` was skipped before. Returns the rest, or `None` if the comment is not closed.
fn after_comment(bytes: &[u8]) -> Option<&[u8]>
    ensures found { IfSome result (λ rest. Comment bytes.now rest.now) }
    ensures none { IfNone result (HoldsOfNothing (Comment bytes.now)) }
{
    let mut depth = 0usize;
    let mut rest = bytes;
    while let Some((_, next)) = split(rest) {
        if let Some(after) = strip_two_bytes(rest, b'(', b'*') {
            depth += 1;
            rest = after;
        } else if let Some(after) = strip_two_bytes(rest, b'*', b')') {
            if depth == 0 {
                return Some(after);
            }
            depth -= 1;
            rest = after;
        } else {
            rest = next;
        }
    }
    None
}

/// Skips the blanks and comments at the start. Returns the rest, or `None` if a comment is not closed.
pub(crate) fn after_trivia(bytes: &[u8]) -> Option<&[u8]>
    ensures found { IfSome result (λ rest. Trivia bytes.now rest.now) }
    ensures stops { IfSome result (λ rest. begins_trivia rest.now ≡ false) }
    ensures none { IfNone result ((rest : Bytes) → begins_trivia rest ≡ false
        → Trivia bytes.now rest → ⊥) }
{
    let mut rest = prefix_of_kind(bytes, ByteKind::Blank).1;
    while let Some(inner) = strip_two_bytes(rest, b'(', b'*') {
        rest = prefix_of_kind(after_comment(inner)?, ByteKind::Blank).1;
    }
    Some(rest)
}
