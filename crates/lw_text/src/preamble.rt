//! The preamble of a test: the keyword of its language, its name, and notes up to the `{`.
ghost use Rattle.std.specs.Prelude.{◌≡◌, ◌≤◌, ◌↔◌, length, IsTrue, MatchResult, MatchOption};
ghost use Rattle.lw_base.specs.NoParse.{HoldsOfNothing, ParsesNothing};
ghost use Rattle.lw_base.specs.Names.{IsTestName};
ghost use Rattle.lw_base.specs.Languages.{arch_keyword};
ghost use Rattle.lw_text.specs.Preambles.{ParsesTestName};
ghost use Rattle.lw_text.specs.Preambles as wanted;
ghost use Rattle.lw_text.specs.TextFailures.{FailsInPreamble, FailsInTestName};
ghost use Rattle.lw_text.specs.Views.{FailsFrom};

use crate::fault::{Fault, TextCause};
use crate::lexer::Lexer;
use lw_base::{Arch, ByteKind, MAX_TEST_NAME_BYTES, ascii_text, prefix_of_kind};

/// The keyword and the name of a preamble.
#[derive(Clone, Copy)]
pub(crate) struct Preamble<'a> {
    pub(crate) arch: Arch,
    pub(crate) name: &'a str,
}

impl<'a> Lexer<'a> {
    /// Parses the keyword of a language, the blanks after it, the test's name, and the notes up to a `{`.
    pub(crate) fn parse_preamble(&mut self) -> Result<Preamble<'a>, Fault>
        ensures reads { MatchResult result (λ h. wanted.Preamble self.old.rest.now h.arch h.name.now self.new.rest.now)
            (λ f. ((arch : Arch) → ParsesNothing (wanted.Preamble self.old.rest.now arch)) × (f.at ≤ length self.old.text.now)
            × FailsFrom (length self.old.text.now) self.old.rest.now FailsInPreamble f.at f.cause) }
        ensures same { self.new.text.now ≡ self.old.text.now }
    {
        let Some(token) = self.next()? else {
            return Err(Fault {
                at: self.text.len(),
                cause: TextCause::Unterminated,
            });
        };
        let Some(arch) = arch_from_keyword(token.text) else {
            return Err(Fault {
                at: token.at,
                cause: TextCause::Unexpected,
            });
        };
        let name = self.parse_test_name()?;
        match self.skip_notes() {
            Ok(()) => Ok(Preamble { arch, name }),
            Err(fault) => Err(fault),
        }
    }

    /// Parses the blanks after the keyword, and the test's name.
    fn parse_test_name(&mut self) -> Result<&'a str, Fault>
        ensures reads { MatchResult result (λ name. ParsesTestName self.old.rest.now name.now self.new.rest.now)
            (λ f. ParsesNothing (ParsesTestName self.old.rest.now) × (f.at ≤ length self.old.text.now)
            × FailsFrom (length self.old.text.now) self.old.rest.now FailsInTestName f.at f.cause) }
        ensures same { self.new.text.now ≡ self.old.text.now }
    {
        let (space, after) = prefix_of_kind(self.rest, ByteKind::Blank);
        let (name, rest) = prefix_of_kind(after, ByteKind::NotBlank);
        if name.is_empty() {
            return Err(Fault {
                at: self.text.len(),
                cause: TextCause::Unterminated,
            });
        }
        let at = self.text.len() - after.len();
        if space.is_empty() {
            return Err(Fault {
                at,
                cause: TextCause::Unexpected,
            });
        }
        if !is_test_name(name) {
            return Err(Fault {
                at,
                cause: TextCause::Name,
            });
        }
        self.rest = rest;
        Ok(ascii_text(name))
    }
}

/// Returns the language with this keyword, if there is one.
fn arch_from_keyword(keyword: &str) -> Option<Arch>
    ensures { MatchOption result (HoldsOfNothing (λ arch. arch_keyword arch ≡ keyword.now))
        (λ arch. arch_keyword arch ≡ keyword.now) }
{
    match keyword {
        "SRC" => Some(Arch::Source),
        "X86" => Some(Arch::X86),
        _ => None,
    }
}

/// Returns whether the bytes can name a test.
fn is_test_name(name: &[u8]) -> bool
    ensures { IsTrue result ↔ IsTestName name.now }
{
    if name.len() > MAX_TEST_NAME_BYTES {
        return false;
    }
    for byte in name {
        if !byte.is_ascii_graphic() {
            return false;
        }
    }
    !name.is_empty()
}
