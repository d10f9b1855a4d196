//! Assembling the head and the frame of a test from its parsed parts.
ghost use Rattle.std.specs.Prelude.{◌≡◌, ◌++◌, length, map, filter, IfOk, All};
ghost use Rattle.std.specs.List.{range_with_len};
ghost use Rattle.lw_base.specs.Heads.{head_of};
ghost use Rattle.lw_base.specs.Names.{IsTestName};
ghost use Rattle.lw_base.specs.Types.{TokenList};
ghost use Rattle.lw_base.specs.SeenLists.{thread_registers, all_registers, locations};
ghost use Rattle.lw_text.specs.inner.Resolved.{resolved_head, word_at, is_listed, HasSyntax};
ghost use Rattle.lw_text.specs.Rows.{columns};
ghost use Rattle.lw_text.specs.Places.{EndsBefore};

use crate::columns::columns;
use crate::frame::Frame;
use crate::initial::{initial_registers, initial_words};
use crate::parts::{ParsedBody, ParsedHead};
use crate::preamble::Preamble;
use crate::seen::listed_in_order;
use lw_base::{Head, Seen, Sequence, Text, Word};
use std::alloc::{AllocError, Allocator, Global};

/// The parts of a head that are computed from the parsed parts. The others are moved into it.
#[derive(Drop)]
struct OwnParts<A: Allocator = Global> {
    name: Text<A>,
    init_regs: Sequence<[Word; 6], A>,
    init_words: Sequence<Word, A>,
    listed: Sequence<Seen, A>,
}

impl<A: Allocator + Copy> ParsedHead<A> {
    /// Assembles the head of a test with this preamble.
    pub(crate) fn head(self, alloc: A, preamble: Preamble<'_>) -> Result<Head<A>, AllocError>
        ensures { IfOk result (λ h. head_of h
            ≡ resolved_head preamble.entry.arch preamble.entry.name.now self) }
    {
        match self.own_parts(alloc, preamble.name) {
            Ok(made) => Ok(Head {
                name: made.name,
                arch: preamble.arch,
                threads: self.threads,
                locs: self.locs,
                init_regs: made.init_regs,
                init_words: made.init_words,
                listed: made.listed,
                quant: self.quant,
                prop: self.prop,
            }),
            Err(error) => {
                drop(self);
                Err(error)
            }
        }
    }

    /// Computes the parts of the head that are not moved into it: the name, the initial words, and the registers and locations
    /// that are listed.
    fn own_parts(&self, alloc: A, name: &str) -> Result<OwnParts<A>, AllocError>
        ensures { IfOk result (λ m. (m.name ≡ name.now)
            × (m.init_regs ≡ map (λ t. map (word_at self.now.initializers) (thread_registers t))
            (range_with_len 0 self.now.threads))
            × (m.init_words ≡ map (word_at self.now.initializers) (locations (length self.now.locs)))
            × (m.listed ≡ filter (is_listed self.now.listed)
            (all_registers self.now.threads ++ locations (length self.now.locs)))) }
    {
        let initializers = self.initializers.as_slice();
        let len = self.locs.len();
        let name = Text::from_str(alloc, name)?;
        let init_regs = initial_registers(alloc, initializers, self.threads)?;
        let init_words = initial_words(alloc, initializers, len)?;
        match listed_in_order(alloc, self.listed.as_slice(), self.threads, len) {
            Ok(listed) => Ok(OwnParts {
                name,
                init_regs,
                init_words,
                listed,
            }),
            Err(error) => Err(error),
        }
    }
}

impl<'a, A: Allocator + Copy> ParsedBody<'a, A> {
    /// Assembles the frame of a text with this preamble and this length.
    pub(crate) fn finish(
        self,
        alloc: A,
        preamble: Preamble<'_>,
        len: usize,
    ) -> Result<Frame<'a, A>, AllocError>
        requires within { All (λ row. All (EndsBefore len) row) self.rows }
        requires says { (ts : TokenList) × HasSyntax preamble.arch ts self }
        requires name { IsTestName preamble.name.now }
        ensures head { IfOk result (λ f. head_of f.head
            ≡ resolved_head preamble.entry.arch preamble.entry.name.now self.entry.parts) }
        ensures cells { IfOk result (λ f. f.cells
            ≡ columns self.entry.parts.threads self.entry.rows) }
        ensures len { IfOk result (λ f. f.len ≡ len) }
    {
        let ParsedBody { parts, rows } = self;
        match columns(alloc, parts.threads, rows) {
            Ok(cells) => match parts.head(alloc, preamble) {
                Ok(head) => Ok(Frame { head, cells, len }),
                Err(error) => Err(error),
            },
            Err(error) => {
                drop(parts);
                Err(error)
            }
        }
    }
}
