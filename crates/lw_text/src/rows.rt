//! The header and the rows of a test.
ghost use Rattle.std.specs.Prelude.{◌≡◌, ◌≢◌, ◌+◌, ◌<◌, true, false, None, [], ◌∷◌, ◌++◌, MatchResult};
ghost use Rattle.std.specs.List.{AllByRecursion};
ghost use Rattle.lw_base.specs.NoParse.{ParsesNothing};
ghost use Rattle.lw_text.specs.Failures.{FailsInHeader, FailsInRow, FailsInRows};
ghost use Rattle.lw_text.specs.Rows.{thread_name, Header, Row, Rows, begins_stop};
ghost use Rattle.lw_text.specs.declared.fault.TextCause.TheVariants.{Memory};
ghost use Rattle.lw_text.specs.inner.Parsed.{ParsedCell};
ghost use Rattle.lw_text.specs.Places.{cells_texts, all_texts, with_spans, placed_row, placed_cells};
ghost use Rattle.lw_text.specs.PlacedCells.{CellsFrom, RowsFrom};
ghost use Rattle.lw_text.specs.Rows as words;

use crate::cell::Cell;
use crate::cursor::Cursor;
use crate::fault::{Refusal, TextCause};
use crate::token::Token;
use lw_base::{MAX_ROWS, MAX_THREADS, Sequence};
use std::alloc::Allocator;

/// The cells of a row.
pub(crate) type CellSequence<'a, A> = Sequence<Cell<'a, A>, A>;

impl<'t, 'a> Cursor<'t, 'a> {
    ghost use Rattle.lw_text.specs.Views.{remaining, remaining_texts, AdvancesTo, Fails};

    /// Parses the header, the names of the threads, and returns how many there are.
    pub(crate) fn parse_header(&mut self) -> Result<usize, Refusal>
        ensures { MatchResult result (λ n. Header (remaining_texts self.old) n (remaining_texts self.new) × AdvancesTo self.old self.new)
            (λ f. ParsesNothing (Header (remaining_texts self.old))
            × Fails self.old (λ ts rest cause. FailsInHeader rest cause 0 ts) f) }
    {
        for thread in 0..MAX_THREADS {
            self.expect(thread_name(thread), TextCause::Unexpected)?;
            if self.expect_either(";", "|", TextCause::Unexpected)? {
                return Ok(thread + 1);
            }
        }
        if self.is_next(thread_name(MAX_THREADS)) {
            return Err(self.refusal(TextCause::TooManyThreads));
        }
        Err(self.refusal(TextCause::Unexpected))
    }

    /// Parses rows, up to a token that ends them, which stays the next one.
    pub(crate) fn parse_rows<A: Allocator + Copy>(
        &mut self,
        alloc: A,
        threads: usize,
    ) -> Result<Sequence<CellSequence<'a, A>, A>, Refusal>
        ensures { MatchResult result (λ v. Rows threads (remaining_texts self.old) (all_texts v) (remaining_texts self.new)
            × RowsFrom (with_spans (remaining self.old)) (placed_cells v) (with_spans (remaining self.new)) × AdvancesTo self.old self.new)
            (λ f. f.cause ≢ Memory → ParsesNothing (Rows threads (remaining_texts self.old))
            × Fails self.old (λ ts rest cause. FailsInRows threads rest cause 0 ts) f) }
    {
        let mut rows = Sequence::new(alloc);
        'rows: loop {
            if self.at_stop() {
                return Ok(rows);
            }
            if rows.len() == MAX_ROWS {
                return Err(self.refusal(TextCause::TooManyRows));
            }
            rows.push(self.parse_row(alloc, threads)?)?;
        }
    }

    /// Returns whether the next token ends the rows.
    fn at_stop(&self) -> bool
        ensures { result ≡ begins_stop (remaining_texts self.now) }
    {
        match self.peek() {
            Some(token) => is_stop(&token),
            None => false,
        }
    }

    /// Parses a row of `threads` cells, with its `;`. A row with another number of cells is refused at its `;`.
    fn parse_row<A: Allocator + Copy>(
        &mut self,
        alloc: A,
        threads: usize,
    ) -> Result<CellSequence<'a, A>, Refusal>
        ensures { MatchResult result (λ v. Row threads (remaining_texts self.old) (cells_texts v) (remaining_texts self.new)
            × CellsFrom (with_spans (remaining self.old)) (placed_row v) (with_spans (remaining self.new)) × AdvancesTo self.old self.new)
            (λ f. f.cause ≢ Memory → ParsesNothing (Row threads (remaining_texts self.old))
            × Fails self.old (FailsInRow threads) f) }
    {
        let mut cells = Sequence::new(alloc);
        'cells: loop {
            let mut tokens = Sequence::new(alloc);
            let mark = self.parse_cell(&mut tokens)?;
            cells.push(Cell {
                tokens,
                end: mark.at,
            })?;
            if mark.text == ";" {
                if cells.len() == threads {
                    return Ok(cells);
                }
                return Err(Refusal {
                    at: Some(mark.at),
                    cause: TextCause::Ragged,
                });
            }
        }
    }

    /// Appends tokens to an empty cell, up to a `|` or `;`, and returns this mark. Fails if no mark follows.
    fn parse_cell<A: Allocator>(
        &mut self,
        cell: &mut Sequence<Token<'a>, A>,
    ) -> Result<Token<'a>, Refusal>
        requires { cell.old ≡ [] }
        ensures { MatchResult result (ParsedCell self.old self.new cell.new)
            (λ f. f.cause ≢ Memory → AllByRecursion (λ t. words.ends_cell t ≡ false) (remaining_texts self.old) × (f.at ≡ None)) }
    {
        'cell: loop {
            let token = self.take()?;
            if ends_cell(&token) {
                return Ok(token);
            }
            cell.push(token)?;
        }
    }
}

/// Returns the name of the thread at an index below ten, as in `P0`.
fn thread_name(thread: usize) -> &'static str
    requires { thread < 10 }
    ensures { result.now ≡ thread_name thread }
{
    match thread {
        0 => "P0",
        1 => "P1",
        2 => "P2",
        3 => "P3",
        4 => "P4",
        5 => "P5",
        6 => "P6",
        7 => "P7",
        8 => "P8",
        _ => "P9",
    }
}

/// Returns whether a token ends a cell: a `|` or a `;`.
fn ends_cell(token: &Token) -> bool
    ensures { result ≡ words.ends_cell token.now.text.now }
{
    matches!(token.text, "|" | ";")
}

/// Returns whether a token ends the rows: it begins the list of names or the condition. So does `filter`, which herd has
/// before the condition: it is refused there, and not read as an instruction of another row.
fn is_stop(token: &Token) -> bool
    ensures { result ≡ words.is_stop token.now.text.now }
{
    matches!(
        token.text,
        "locations" | "exists" | "forall" | "filter" | "~"
    )
}
