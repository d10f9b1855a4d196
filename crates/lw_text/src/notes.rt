//! The notes on a test, which lie between its name and its `{` and are skipped. They are quoted texts, and lines
//! `Key=value`.
//! Each function returns the rest after what it skips, or, as an error, the rest from the fault on, which is empty if
//! the text ends too early.
ghost use Rattle.std.specs.Prelude.{◌≡◌, ◌≢◌, ◌≤◌, length, MatchResult};
ghost use Rattle.lw_base.specs.NoParse.{HoldsOfNothing};
ghost use Rattle.lw_text.specs.declared.fault.TextCause.TheVariants.{Memory};
ghost use Rattle.lw_text.specs.Causes.{IsParserCause};
ghost use Rattle.lw_text.specs.Preambles.{KeyLine, Note, Notes};
ghost use Rattle.lw_text.specs.TextFailures.{FailsInKeyLine, FailsInNote, FailsInNotes, IsNoteCause};
ghost use Rattle.lw_text.specs.Views.{FailsFrom};

use crate::byte_prefix::{split, strip_byte};
use crate::fault::{Fault, TextCause};
use crate::lexer::Lexer;
use crate::trivia::after_trivia;
use lw_base::{ByteKind, prefix_of_kind};

/// Skips a line `Key=value`, up to the line's end.
fn after_key_line(bytes: &[u8]) -> Result<&[u8], &[u8]>
    ensures { MatchResult result (λ rest. KeyLine bytes.now rest.now)
        (λ left. HoldsOfNothing (KeyLine bytes.now) × (length left.now ≤ length bytes.now) × FailsInKeyLine bytes.now left.now) }
{
    let (key, rest) = prefix_of_kind(bytes, ByteKind::Key);
    if key.is_empty() {
        return Err(bytes);
    }
    let (_, rest) = prefix_of_kind(rest, ByteKind::Space);
    match strip_byte(rest, b'=') {
        Some(value) => Ok(prefix_of_kind(value, ByteKind::Not(b'\n')).1),
        None => Err(rest),
    }
}

/// Skips a note: a quoted text or a line `Key=value`.
fn after_note(bytes: &[u8]) -> Result<&[u8], &[u8]>
    ensures { MatchResult result (λ rest. Note bytes.now rest.now)
        (λ left. HoldsOfNothing (Note bytes.now) × (length left.now ≤ length bytes.now) × FailsInNote bytes.now left.now) }
{
    let Some(inside) = strip_byte(bytes, b'"') else {
        return after_key_line(bytes);
    };
    let (_, rest) = prefix_of_kind(inside, ByteKind::Not(b'"'));
    match split(rest) {
        Some((_, after)) => Ok(after),
        None => Err(rest),
    }
}

/// Skips the notes, up to the `{`.
fn after_notes(bytes: &[u8]) -> Result<&[u8], &[u8]>
    ensures { MatchResult result (λ rest. Notes bytes.now rest.now)
        (λ left. HoldsOfNothing (Notes bytes.now) × (length left.now ≤ length bytes.now) × FailsInNotes left.now bytes.now) }
{
    let mut rest = bytes;
    'notes: loop {
        let Some(start) = after_trivia(rest) else {
            return Err(&[]);
        };
        match strip_byte(start, b'{') {
            Some(_) => return Ok(start),
            None => rest = after_note(start)?,
        }
    }
}

impl<'a> Lexer<'a> {
    /// Skips the notes, up to the `{`.
    pub(crate) fn skip_notes(&mut self) -> Result<(), Fault>
        ensures reads { MatchResult result (λ _. Notes self.old.rest.now self.new.rest.now)
            (λ f. HoldsOfNothing (Notes self.old.rest.now) × (f.at ≤ length self.old.text.now)
            × FailsFrom (length self.old.text.now) self.old.rest.now
            (λ text rest cause. FailsInNotes rest text × IsNoteCause rest cause) f.at f.cause) }
        ensures same { self.new.text.now ≡ self.old.text.now }
    {
        match after_notes(self.rest) {
            Ok(rest) => {
                self.rest = rest;
                Ok(())
            }
            Err(left) => Err(Fault {
                at: self.text.len() - left.len(),
                cause: note_cause(left),
            }),
        }
    }
}

/// Returns the cause of a fault in the notes, from the rest of the text at the fault.
fn note_cause(left: &[u8]) -> TextCause
    ensures reader { (result ≢ Memory) × IsParserCause result }
    ensures cause { IsNoteCause left.now result }
{
    if left.is_empty() {
        TextCause::Unterminated
    } else {
        TextCause::Unexpected
    }
}
