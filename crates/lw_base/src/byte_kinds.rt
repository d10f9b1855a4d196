//! Splitting a text after the longest prefix of bytes of one kind.
ghost use Rattle.std.specs.Prelude.{◌≡◌, ◌++◌, false, true};
ghost use Rattle.std.specs.List.{AllByRecursion};
ghost use Rattle.lw_base.specs.Characters.{first_byte_is};
ghost use Rattle.lw_base.specs.inner.Kinds.{is_of_kind};

use crate::name::{is_blank, is_name_byte};

/// A kind of bytes, by which a text is split.
#[derive(Clone, Copy)]
pub enum ByteKind {
    /// Spaces, tabs, line feeds and carriage returns.
    Blank,
    /// Every byte that is not blank.
    NotBlank,
    /// Letters, digits and `_`.
    NameByte,
    /// The bytes of a note's key: letters, digits, `_` and `-`.
    Key,
    /// Spaces and tabs.
    Space,
    /// Every byte except this one.
    Not(u8),
}

impl ByteKind {
    /// Returns whether the byte is of this kind.
    pub fn contains(self, byte: u8) -> bool
        ensures { result ≡ is_of_kind self byte }
    {
        match self {
            ByteKind::Blank => is_blank(byte),
            ByteKind::NotBlank => !is_blank(byte),
            ByteKind::NameByte => is_name_byte(byte),
            ByteKind::Key => is_name_byte(byte) || byte == b'-',
            ByteKind::Space => byte == b' ' || byte == b'\t',
            ByteKind::Not(other) => byte != other,
        }
    }
}

/// Splits a text after its longest prefix of bytes of a kind. Returns the prefix and the rest.
pub fn prefix_of_kind(bytes: &[u8], kind: ByteKind) -> (&[u8], &[u8])
    ensures parts { bytes.now ≡ result.0.now ++ result.1.now }
    ensures bytes_pass { AllByRecursion (λ b. is_of_kind kind b ≡ true) result.0.now }
    ensures longest { first_byte_is (is_of_kind kind) result.1.now ≡ false }
{
    let count = bytes
        .iter()
        .take_while(|byte| kind.contains(**byte))
        .count();
    bytes.split_at(count)
}
