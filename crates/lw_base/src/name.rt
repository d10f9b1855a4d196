//! The bytes of a text, and the names of locations and labels.
ghost use Rattle.std.specs.Prelude.{◌≡◌, ◌↔◌, IsTrue, true, map};
ghost use Rattle.std.specs.Str.{IsAscii, bytes_eq};
ghost use Rattle.std.specs.Char.{to_ascii_lowercase, is_ascii_digit};
ghost use Rattle.std.specs.List.{list_any, list_all, AllByRecursion};
ghost use Rattle.lw_base.specs.Characters as characters;
ghost use Rattle.lw_base.specs.Names.{IsNameShaped, IsName, IsUnreservedName, keywords, x86_registers};
ghost use Rattle.lw_base.specs.Names as names;

use crate::limits::MAX_NAME_BYTES;
use std::str;

/// Returns whether the byte is a space, a tab, a line feed or a carriage return.
pub fn is_blank(byte: u8) -> bool
    ensures { result ≡ characters.is_blank byte }
{
    b" \t\n\r".contains(&byte)
}

/// Returns whether the byte is a letter, a digit or `_`.
pub fn is_name_byte(byte: u8) -> bool
    ensures { result ≡ characters.is_name_byte byte }
{
    byte.is_ascii_alphanumeric() || byte == b'_'
}

/// Returns whether the bytes are a letter or `_`, followed by letters, digits and `_`.
pub fn is_name_shaped(bytes: &[u8]) -> bool
    ensures { IsTrue result ↔ IsNameShaped bytes.now }
{
    match bytes.first() {
        None => false,
        Some(first) if first.is_ascii_digit() => false,
        Some(_) => are_name_bytes(bytes),
    }
}

/// Returns whether all bytes are letters, digits or `_`.
fn are_name_bytes(bytes: &[u8]) -> bool
    ensures { IsTrue result ↔ AllByRecursion (λ b. characters.is_name_byte b ≡ true) bytes.now }
{
    bytes.iter().all(|byte| is_name_byte(*byte))
}

/// Returns whether the text is a name: name-shaped, and at most 32 bytes long.
pub fn is_name(text: &str) -> bool
    ensures { IsTrue result ↔ IsName text.now }
{
    text.len() <= MAX_NAME_BYTES && is_name_shaped(text.as_bytes())
}

/// Returns whether the text can name a location or a label: it is a name and not reserved.
pub fn is_unreserved_name(text: &str) -> bool
    ensures { IsTrue result ↔ IsUnreservedName text.now }
{
    is_name(text) && !is_reserved(text)
}

/// Views bytes below 128 as a text.
pub fn ascii_text(bytes: &[u8]) -> &str
    requires { IsAscii bytes.now }
    ensures { result.now ≡ bytes.now }
{
    // Bytes below 128 are valid UTF-8, so they are not validated again.
    unsafe { str::from_utf8_unchecked(bytes) }
}

/// Returns whether two texts are equal if the case of letters is ignored.
pub fn eq_ignore_ascii_case(text: &str, other: &str) -> bool
    ensures { result ≡ bytes_eq (map to_ascii_lowercase text.now) (map to_ascii_lowercase other.now) }
{
    text.eq_ignore_ascii_case(other)
}

/// Returns whether a text is reserved, so that it names no location or label: `r` and digits, a keyword, or an x86
/// register.
fn is_reserved(text: &str) -> bool
    ensures { result ≡ names.is_reserved text.now }
{
    is_numbered(text.as_bytes()) || is_keyword(text) || is_x86_register(text)
}

/// Returns whether the bytes are `r`, followed by at least one digit and nothing else: a name like those of source registers.
pub fn is_numbered(bytes: &[u8]) -> bool
    ensures { result ≡ names.is_numbered_register bytes.now }
{
    let Some((first, rest)) = bytes.split_first() else {
        return false;
    };
    *first == b'r' && are_digits(rest)
}

/// Returns whether the bytes are digits, at least one.
pub(crate) fn are_digits(bytes: &[u8]) -> bool
    ensures { result ≡ names.are_digits bytes.now }
{
    !bytes.is_empty() && are_all_digits(bytes)
}

/// Returns whether all bytes are decimal digits.
fn are_all_digits(bytes: &[u8]) -> bool
    ensures { result ≡ list_all is_ascii_digit bytes.now }
{
    bytes.iter().all(|byte| byte.is_ascii_digit())
}

/// Returns whether two texts are equal. Its contract states the comparison that `is_reserved` is defined by.
fn is_same(text: &str, other: &str) -> bool
    ensures { result ≡ bytes_eq text.now other.now }
{
    text == other
}

/// Returns whether a text is a keyword of the test format or of the source language.
fn is_keyword(text: &str) -> bool
    ensures { result ≡ list_any (λ k. bytes_eq text.now k) keywords }
{
    is_same(text, "if")
        || is_same(text, "goto")
        || is_same(text, "swap")
        || is_same(text, "fetchadd")
        || is_same(text, "exists")
        || is_same(text, "forall")
        || is_same(text, "locations")
        || is_same(text, "filter")
        || is_same(text, "true")
        || is_same(text, "false")
        || is_same(text, "not")
}

/// Returns whether a text names an x86 register, in any case.
fn is_x86_register(text: &str) -> bool
    ensures { result ≡ list_any (λ r. bytes_eq (map to_ascii_lowercase text.now) r) x86_registers }
{
    eq_ignore_ascii_case(text, "eax")
        || eq_ignore_ascii_case(text, "ebx")
        || eq_ignore_ascii_case(text, "ecx")
        || eq_ignore_ascii_case(text, "edx")
        || eq_ignore_ascii_case(text, "esi")
        || eq_ignore_ascii_case(text, "edi")
        || eq_ignore_ascii_case(text, "ebp")
        || eq_ignore_ascii_case(text, "esp")
}
