//! Reading a text's frame, and the laws of frames.
//! A law is a function without a result, whose contract states the law. A proof uses the law by calling the function.
ghost use Rattle.std.specs.Prelude.{ℕ, ◌≡◌, ◌≢◌, ◌<◌, ◌≤◌, List, length, Err, MatchResult, IfOk, IfErr};
ghost use Rattle.std.specs.Str.{IsUtf8, IsValidUpTo};
ghost use Rattle.std.specs.Str.Lossy.{utf8_valid_len};
ghost use Rattle.lw_base.specs.Limits.{most_text_bytes};
ghost use Rattle.lw_base.specs.NoParse.{HoldsOfNothingOrOutOfMemory};
ghost use Rattle.lw_base.specs.Types.{Bytes};
ghost use Rattle.lw_base.specs.WellFormed.{IsWellFormedHead};
ghost use Rattle.lw_text.specs.Frames.{TestFrame, HasFrame};
ghost use Rattle.lw_text.specs.Views.{frame_of};
ghost use Rattle.lw_text.specs.Places.{placed_cells};
ghost use Rattle.lw_text.specs.PlacedCells.{PlacedCell, HasCells};
ghost use Rattle.lw_text.specs.Spans.{Spans};
ghost use Rattle.lw_text.specs.TextFailures.{FailsAt};

use crate::fault::{Fault, TextCause, TextFault};
use crate::frame::Frame;
use crate::lexer::Lexer;
use crate::token_stream::TokenStream;
use lw_base::MAX_TEXT_BYTES;
use std::alloc::Allocator;
use std::str;

/// Reads the frame of a text.
pub fn read_frame<'a, A: Allocator + Copy>(
    alloc: A,
    text: &'a [u8],
) -> Result<Frame<'a, A>, TextFault>
    // The result is the text's frame. If reading fails, the text has no frame, or memory ran out.
    ensures found { IfOk result (λ f. HasFrame text.now (frame_of f)) }
    ensures fault { IfErr result (λ f. HoldsOfNothingOrOutOfMemory TextCause.Memory f.cause (HasFrame text.now)) }

    // The cells consist of the text's tokens, each with its offset, and a fault's offset is within the text.
    ensures cells { IfOk result (λ f. HasCells text.now (placed_cells f.cells)) }
    ensures len { IfOk result (λ f. f.len ≡ length text.now) }
    ensures place { IfErr result (λ f. f.at ≤ length text.now) }

    // If memory ran out, the offset is 0.
    ensures memory { IfErr result (λ f. f.cause ≡ TextCause.Memory → f.at ≡ 0) }

    // A text that is too long is rejected as such, and one that is not UTF-8 after its longest valid prefix.
    ensures too_long { most_text_bytes < length text.now → result
        ≡ Err (record { at = most_text_bytes; cause = TextCause.TooLong }) }
    ensures only_too_long { IfErr result (λ f. f.cause ≡ TextCause.TooLong
        → most_text_bytes < length text.now) }
    ensures not_utf8 { length text.now ≤ most_text_bytes → ¬ IsUtf8 text.now → result
        ≡ Err (record { at = utf8_valid_len text.now; cause = TextCause.NotUtf8 }) }
    ensures only_not_utf8 { IfErr result (λ f. f.cause ≡ TextCause.NotUtf8
        → (length text.now ≤ most_text_bytes) × (¬ IsUtf8 text.now) × IsValidUpTo text.now f.at) }
    // Any other fault is at the byte at which the text first fails to be a frame's, for the reason that its cause means.
    ensures fails { IfErr result (λ f. f.cause ≢ TextCause.TooLong → f.cause ≢ TextCause.NotUtf8 → f.cause ≢ TextCause.Memory
        → FailsAt text.now f.at f.cause) }
{
    if text.len() > MAX_TEXT_BYTES {
        return Err(TextFault {
            at: MAX_TEXT_BYTES,
            cause: TextCause::TooLong,
        });
    }
    if let Err(error) = str::from_utf8(text) {
        return Err(TextFault {
            at: error.valid_up_to(),
            cause: TextCause::NotUtf8,
        });
    }
    match read_text(alloc, text) {
        Ok(frame) => Ok(frame),
        Err(fault) => Err(TextFault::from(fault)),
    }
}

/// States that a text has at most one frame.
pub fn a_text_has_one_frame()
    ensures { (text : Bytes) (f g : TestFrame) → HasFrame text f → HasFrame text g → f ≡ g }
{}

/// States that a text fails to be a frame's at one byte at most, and for one cause.
pub fn a_text_fails_at_one_place()
    ensures { (text : Bytes) (at place : ℕ) (cause because : TextCause) → FailsAt text at cause → FailsAt text place because
        → (at ≡ place) × (cause ≡ because) }
{}

/// States that a text with a frame does not fail.
pub fn a_text_with_a_frame_does_not_fail()
    ensures { (text : Bytes) (at : ℕ) (cause : TextCause) (f : TestFrame) → FailsAt text at cause → HasFrame text f → ⊥ }
{}

/// States that a text has at most one list of cells with offsets.
pub fn a_text_has_its_cells_once()
    ensures { (text : Bytes) (c d : List (List PlacedCell)) → HasCells text c → HasCells text d → c ≡ d }
{}

/// States that the tokens of a text's cells are the slices of their spans, which are in order and do not overlap.
pub fn tokens_are_slices()
    ensures { (text : Bytes) (cells : List (List PlacedCell)) (has : HasCells text cells)
        → Spans text 0 has.tokens (length text) }
{}

/// States that the head of a text's frame is well-formed.
pub fn heads_of_frames_are_well_formed()
    ensures { (text : Bytes) (f : TestFrame) → HasFrame text f → IsWellFormedHead f.head }
{}

/// Reads the frame of a text that is short enough and UTF-8.
fn read_text<'a, A: Allocator + Copy>(alloc: A, text: &'a [u8]) -> Result<Frame<'a, A>, Fault>
    requires short { length text.now ≤ most_text_bytes }
    requires utf8 { IsUtf8 text.now }
    ensures { MatchResult result (λ f. HasFrame text.now (frame_of f)
        × HasCells text.now (placed_cells f.cells) × (f.len ≡ length text.now))
        (λ f. HoldsOfNothingOrOutOfMemory TextCause.Memory f.cause (HasFrame text.now) × (f.at ≤ length text.now)
        × (f.cause ≢ TextCause.Memory → FailsAt text.now f.at f.cause)) }
{
    let mut lexer = Lexer::new(text);
    let preamble = lexer.parse_preamble()?;
    let stream = TokenStream::read(alloc, lexer)?;
    let read = stream.body(alloc, preamble.arch, text.len());
    drop(stream);
    let body = read?;
    Ok(body.finish(alloc, preamble, text.len())?)
}
