//! Stripping one or two bytes from the start of a text.
ghost use Rattle.std.specs.Prelude.{◌≡◌, ◌==◌, [], ◌∷◌, MatchOption, false};
ghost use Rattle.lw_base.specs.Characters.{first_byte_is};
ghost use Rattle.lw_text.specs.Tokens.{begins_pair};

/// Splits a text after its first byte. Returns `None` if it is empty.
pub(crate) fn split(bytes: &[u8]) -> Option<(u8, &[u8])>
    ensures { MatchOption result (bytes.now ≡ []) (λ p. bytes.now ≡ p.0 ∷ p.1.now) }
{
    match bytes {
        [first, rest @ ..] => Some((*first, rest)),
        [] => None,
    }
}

/// Returns the text after this byte, or `None` if it begins with another.
pub(crate) fn strip_byte(bytes: &[u8], byte: u8) -> Option<&[u8]>
    ensures { MatchOption result (first_byte_is (λ b. b == byte) bytes.now ≡ false)
        (λ rest. bytes.now ≡ byte ∷ rest.now) }
{
    match bytes {
        [first, rest @ ..] if *first == byte => Some(rest),
        _ => None,
    }
}

/// Returns the text after these two bytes, or `None` if it begins with others.
pub(crate) fn strip_two_bytes(bytes: &[u8], first: u8, second: u8) -> Option<&[u8]>
    ensures { MatchOption result (begins_pair first second bytes.now ≡ false)
        (λ rest. bytes.now ≡ first ∷ second ∷ rest.now) }
{
    match bytes {
        [a, b, rest @ ..] if *a == first && *b == second => Some(rest),
        _ => None,
    }
}
