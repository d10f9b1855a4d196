//! Parsing what follows a test's preamble.
ghost use Rattle.std.specs.Prelude.{◌≡◌, ◌≢◌, ◌≤◌, All, MatchResult, IfSome, IfNone, None};
ghost use Rattle.lw_text.specs.Frames.{ParsesNoTest};
ghost use Rattle.lw_text.specs.declared.fault.TextCause.TheVariants.{Memory};
ghost use Rattle.lw_text.specs.Spans.{token_texts};
ghost use Rattle.lw_text.specs.Places.{with_spans, placed_cells};
ghost use Rattle.lw_text.specs.PlacedCells.{HasRows};
ghost use Rattle.lw_text.specs.inner.Resolved.{HasSyntax};
ghost use Rattle.lw_text.specs.inner.Parsed.{StreamFails};

use crate::block::check_threads;
use crate::cursor::Cursor;
use crate::fault::{Fault, Refusal};
use crate::parts::{ParsedBody, ParsedHead};
use crate::token_stream::TokenStream;
use lw_base::{Arch, LocNames};
use std::alloc::Allocator;

impl<'t, 'a> Cursor<'t, 'a> {
    ghost use Rattle.lw_text.specs.Views.{remaining, remaining_texts, Fails};
    ghost use Rattle.lw_text.specs.Failures.{FailsInTest};

    /// Parses all tokens of a test after its preamble, its body: the initial block, the header, the rows and the question.
    pub(crate) fn parse_body<A: Allocator + Copy>(
        &mut self,
        alloc: A,
        arch: Arch,
    ) -> Result<ParsedBody<'a, A>, Refusal>
        ensures { MatchResult result (λ b. HasSyntax arch (remaining_texts self.old) b
            × HasRows arch (with_spans (remaining self.old)) b.parts.threads (placed_cells b.rows))
            (λ f. f.cause ≢ Memory → ParsesNoTest arch (remaining_texts self.old) × Fails self.old (FailsInTest arch) f) }
    {
        let mut locs = LocNames::new(alloc);
        let initializers = self.parse_block(alloc, arch, &mut locs)?;
        let threads = self.parse_header()?;
        check_threads(initializers.as_slice(), threads)?;
        let rows = self.parse_rows(alloc, threads)?;
        match self.parse_question(alloc, arch, threads, &mut locs) {
            Ok((listed, quant, prop)) => {
                let _len = locs.len();
                let parts = ParsedHead {
                    initializers,
                    threads,
                    locs,
                    listed,
                    quant,
                    prop,
                };
                Ok(ParsedBody { parts, rows })
            }
            Err(refusal) => Err(refusal),
        }
    }
}

impl<'a, A: Allocator + Copy> TokenStream<'a, A> {
    /// Parses these tokens, which are those of a text of length `len`. If a lexical fault ends them, parsing fails: at the
    /// token that the parser refuses, or else at this fault.
    pub(crate) fn body(&self, alloc: A, arch: Arch, len: usize) -> Result<ParsedBody<'a, A>, Fault>
        requires places { All (λ t. t.at ≤ len) self.now.tokens }
        requires fault { IfSome self.now.fault (λ f. f.at ≤ len) }
        ensures { MatchResult result (λ b. (self.now.fault ≡ None) × HasSyntax arch (token_texts self.now.tokens) b
            × HasRows arch (with_spans self.now.tokens) b.parts.threads (placed_cells b.rows))
            (λ f. (f.cause ≢ Memory → IfNone self.now.fault (ParsesNoTest arch (token_texts self.now.tokens))) × (f.at ≤ len)
            × (f.cause ≢ Memory → StreamFails arch len (with_spans self.now.tokens) self.now.fault f.at f.cause)) }
    {
        let mut cursor = Cursor::new(self.tokens.as_slice());
        match cursor.parse_body(alloc, arch) {
            Ok(body) => match self.fault {
                Some(fault) => {
                    drop(body);
                    Err(fault)
                }
                None => Ok(body),
            },
            Err(refusal) => Err(self.fault_of(refusal, len)),
        }
    }
}
