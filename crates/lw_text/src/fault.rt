//! Why a text is rejected, and where.
ghost use Rattle.std.specs.Prelude.{◌≡◌, None};
ghost use Rattle.lw_text.specs.Causes.{text_cause_code, text_cause_name, IsParserCause};
ghost use Rattle.lw_text.specs.declared.fault.TextCause.TheVariants as text;

use std::alloc::{AllocError, AllocFailed};

/// Why a text is rejected.
#[derive(Clone, Copy, PartialEq, Eq)]
pub enum TextCause {
    /// The text is not UTF-8 from this offset on.
    NotUtf8,
    /// The text has more than 65,536 bytes.
    TooLong,
    /// The text ends where more is needed.
    Unterminated,
    /// A byte that begins no token, or a token that fits nothing at its position.
    Unexpected,
    /// A number above 4294967295, one followed at once by a letter or `_`, or `0x` without digits.
    Number,
    /// A name longer than 32 bytes, a test name that is longer than 128 bytes or has other than printable ASCII
    /// bytes, a token that names no location or register, or a thread that does not exist.
    Name,
    /// A row with too few or too many cells.
    Ragged,
    /// A fifth thread.
    TooManyThreads,
    /// A 65th row.
    TooManyRows,
    /// A ninth location.
    TooManyLocations,
    /// A token that fits nothing in the condition or after it, or the 257th node of the condition.
    Condition,
    /// Memory ran out.
    Memory,
}

impl TextCause {
    /// Returns the printed code of the cause, 1 to 12.
    pub fn code(self) -> u8
        ensures { result ≡ text_cause_code self }
    {
        match self {
            TextCause::NotUtf8 => 1,
            TextCause::TooLong => 2,
            TextCause::Unterminated => 3,
            TextCause::Unexpected => 4,
            TextCause::Number => 5,
            TextCause::Name => 6,
            TextCause::Ragged => 7,
            TextCause::TooManyThreads => 8,
            TextCause::TooManyRows => 9,
            TextCause::TooManyLocations => 10,
            TextCause::Condition => 11,
            TextCause::Memory => 12,
        }
    }

    /// Returns the printed name of the cause.
    pub fn name(self) -> &'static str
        ensures { result.now ≡ text_cause_name self }
    {
        match self {
            TextCause::NotUtf8 => "NotUtf8",
            TextCause::TooLong => "TooLong",
            TextCause::Unterminated => "Unterminated",
            TextCause::Unexpected => "Unexpected",
            TextCause::Number => "Number",
            TextCause::Name => "Name",
            TextCause::Ragged => "Ragged",
            TextCause::TooManyThreads => "TooManyThreads",
            TextCause::TooManyRows => "TooManyRows",
            TextCause::TooManyLocations => "TooManyLocations",
            TextCause::Condition => "Condition",
            TextCause::Memory => "Memory",
        }
    }
}

/// A rejected text: the cause, and the offset of the byte at which it was found. If memory ran out, the offset is 0
/// and means nothing.
#[derive(Clone, Copy)]
pub struct TextFault {
    pub at: usize,
    pub cause: TextCause,
}

/// A fault found by the lexer or the parser: the offset of its byte in the text, and its cause. If memory ran out, the offset is 0
/// and means nothing.
#[derive(Clone, Copy)]
pub(crate) struct Fault {
    pub(crate) at: usize,
    pub(crate) cause: TextCause,
    ghost memory: { cause ≡ text.Memory → at ≡ 0 },
    ghost reader: { IsParserCause cause },
}

impl From<AllocError> for Fault {
    ghost from_gives = { λ _ f. (f.at ≡ 0) × (f.cause ≡ text.Memory) };

    /// Converts a refused allocation, with offset 0.
    fn from(_error: AllocError) -> Fault {
        Fault {
            at: 0,
            cause: TextCause::Memory,
        }
    }
}

/// The offset of the token that the parser rejects, and why. If the tokens ended too early, there is no offset, and
/// the cause means nothing. If memory ran out, there is no offset either, and the cause is `Memory`.
#[derive(Clone, Copy)]
pub(crate) struct Refusal {
    pub(crate) at: Option<usize>,
    pub(crate) cause: TextCause,
    ghost reader: { IsParserCause cause },
}

impl From<AllocError> for Refusal {
    ghost from_gives = { λ _ r. (r.at ≡ None) × (r.cause ≡ text.Memory) };

    /// Converts a refused allocation to a refusal without an offset.
    fn from(_error: AllocError) -> Refusal {
        Refusal {
            at: None,
            cause: TextCause::Memory,
        }
    }
}

impl<T: Drop> From<AllocFailed<T>> for Refusal {
    ghost from_gives = { λ _ r. (r.at ≡ None) × (r.cause ≡ text.Memory) };

    /// Converts a value that could not be moved into memory to a refusal without an offset.
    fn from(_error: AllocFailed<T>) -> Refusal {
        Refusal {
            at: None,
            cause: TextCause::Memory,
        }
    }
}

impl From<Fault> for TextFault {
    ghost from_gives = { λ f t. (t.at ≡ f.at) × (t.cause ≡ f.cause) × IsParserCause f.cause };

    /// Converts a fault of the lexer or the parser to one of the text.
    fn from(fault: Fault) -> TextFault {
        TextFault {
            at: fault.at,
            cause: fault.cause,
        }
    }
}
