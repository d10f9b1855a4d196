//! Reading a test of either language from its frame.
ghost use Rattle.std.specs.Prelude.{◌≡◌, ◌≢◌, List, ◌⊎◌, ◌≤◌, ◌-◌, ◌++◌, length, replicate, Ok, Err, MatchResult, IfOk, IfErr};
ghost use Rattle.lw_base.specs.NoParse.{HoldsOfNothingOrOutOfMemory};
ghost use Rattle.lw_base.specs.declared.fault.CellCause.TheVariants.{Memory};
ghost use Rattle.lw_base.specs.Names.{IsNameTable};
ghost use Rattle.lw_text.specs.Places.{all_texts, placed_cells};
ghost use Rattle.lw_text.specs.Views.{frame_of};
ghost use Rattle.lw_statements.specs.Grammars.{arch_of};
ghost use Rattle.lw_base.specs.Types.{NameTable};
ghost use Rattle.lw_base.specs.declared.fault.CellFault.{CellFault};
ghost use Rattle.lw_text.specs.Frames.{TestFrame};
ghost use Rattle.lw_text.specs.PlacedCells.{PlacedCell, texts_of_grid};
ghost use Rattle.lw_litmus.specs.Tests.{Test, test_of};
ghost use Rattle.lw_litmus.specs.WellFormed.{IsWellFormed};
ghost use Rattle.lw_statements.specs.Cells.{FrameHasTest};
ghost use Rattle.lw_statements.specs.Bindings.{IsSpelling};
ghost use Rattle.lw_statements.specs.Spellings.{grammar_of};
ghost use Rattle.lw_statements.specs.Faults.{CellFaultIsTrue};
ghost use Rattle.lw_statements.specs.inner.Reading.{ColumnsRead, ColumnsRefused};

use crate::column::{push, read_column};
use crate::parts::TestParts;
use crate::statement_reader::StatementReader;
use lw_base::{CellFault, Head, LocNames, Sequence, Word};
use lw_text::{Cell, Frame};
use std::alloc::{AllocFailed, Allocator};

/// Reads the test of a frame of the language, and takes over the frame's head.
/// Reads the threads in order, each from top to bottom, and fails at the first fault.
pub fn read_test<L: StatementReader, A: Allocator + Copy>(
    alloc: A,
    frame: Frame<'_, A>,
) -> Result<TestParts<L::Stmt, A>, CellFault>
    requires arch { frame.head.arch ≡ arch_of (grammar_of L.spelling) }
    requires lawful { IsSpelling L.spelling L.statement_of }
    // The result is the frame's test. If reading fails, the frame has no test, or memory ran out.
    ensures found { IfOk result (λ parts. FrameHasTest (grammar_of L.spelling) (frame_of frame.entry) (test_of parts.head parts.threads)) }
    ensures well_formed { IfOk result (λ parts. IsWellFormed (grammar_of L.spelling).language (test_of parts.head parts.threads)) }
    ensures fault { IfErr result (λ f. HoldsOfNothingOrOutOfMemory Memory f.cause (FrameHasTest (grammar_of L.spelling) (frame_of frame.entry))) }
    ensures place { IfErr result (λ f. f.at ≤ frame.entry.len) }
    ensures memory { IfErr result (λ f. f.cause ≡ Memory → f.at ≡ 0) }
    // What the cause says of the place is true.
    ensures cause { IfErr result (CellFaultIsTrue (grammar_of L.spelling) frame.entry.head.locs (placed_cells frame.entry.cells)) }
{
    let Frame {
        mut head,
        cells,
        ..
    } = frame;
    let threads = read_columns::<L, A>(alloc, cells.as_slice(), &mut head.locs);
    drop(cells);
    let threads = with_zeros(&mut head, threads);
    parts_of(head, threads)
}

/// States that, apart from a lack of memory, at most one fault of the same cells is true, and none of the cells of a test.
pub fn cells_have_one_fault<L: StatementReader>()
    requires lawful { IsSpelling L.spelling L.statement_of }
    ensures one_fault { (names : NameTable) (columns : List (List PlacedCell)) (f g : CellFault) → f.cause ≢ Memory → g.cause ≢ Memory
        → CellFaultIsTrue (grammar_of L.spelling) names columns f → CellFaultIsTrue (grammar_of L.spelling) names columns g → f ≡ g }
    ensures none { (frame : TestFrame) (columns : List (List PlacedCell)) (f : CellFault) (test : Test L.Stmt)
        → texts_of_grid columns ≡ frame.cells → FrameHasTest (grammar_of L.spelling) frame test → f.cause ≢ Memory
        → CellFaultIsTrue (grammar_of L.spelling) frame.head.locs columns f → ⊥ }
{}

/// Returns the head and the threads of a test. Fails if the threads could not be read.
fn parts_of<S: Drop, A: Allocator>(
    head: Head<A>,
    threads: Result<Sequence<Sequence<S, A>, A>, CellFault>,
) -> Result<TestParts<S, A>, CellFault>
    ensures { MatchResult result (λ parts. (parts.head ≡ head) × (threads ≡ Ok parts.threads)) (λ f. threads ≡ Err f) }
{
    match threads {
        Ok(threads) => Ok(TestParts { head, threads }),
        Err(fault) => {
            drop(head);
            Err(fault)
        }
    }
}

/// Appends a 0 to the head's initial words for each location that the threads have and the head has not, and returns the threads.
/// Fails if the threads could not be read, or memory runs out.
fn with_zeros<T: Drop, A: Allocator>(
    head: &mut Head<A>,
    threads: Result<T, CellFault>,
) -> Result<T, CellFault>
    ensures { MatchResult result
        (λ read. ((head.new ≡ record head.old { init_words = head.old.init_words ++ replicate (length head.old.locs - length head.old.init_words) 0 })
        × IsNameTable head.old.locs) × (threads ≡ Ok read))
        (λ f. (threads ≡ Err f) ⊎ ((f.at ≡ 0) × (f.cause ≡ Memory))) }
{
    let threads = threads?;
    let len = head.locs.len();
    pad_with_zeros(&mut head.init_words, len)?;
    Ok(threads)
}

/// Reads the statements of each thread. Inserts the names of their locations into the table.
fn read_columns<L: StatementReader, A: Allocator + Copy>(
    alloc: A,
    columns: &[Sequence<Cell<'_, A>, A>],
    locs: &mut LocNames<A>,
) -> Result<Sequence<Sequence<L::Stmt, A>, A>, CellFault>
    requires lawful { IsSpelling L.spelling L.statement_of }
    ensures { MatchResult result
        (λ threads. ColumnsRead (grammar_of L.spelling) (all_texts columns.now) locs.old threads locs.new)
        (ColumnsRefused (grammar_of L.spelling) locs.old columns.now) }
{
    let mut threads = Sequence::new(alloc);
    for column in columns {
        let stmts = read_column::<L, A>(alloc, column.as_slice(), locs)?;
        push(&mut threads, stmts)?;
    }
    Ok(threads)
}

/// Appends zeros to words, up to the length `len`. Appends none if there are as many already.
fn pad_with_zeros<A: Allocator>(
    words: &mut Sequence<Word, A>,
    len: usize,
) -> Result<(), AllocFailed<Word>>
    ensures { IfOk result (λ _. words.new ≡ words.old ++ replicate (len - length words.old) 0) }
{
    for _word in 0..len.saturating_sub(words.len()) {
        words.push(0)?;
    }
    Ok(())
}
