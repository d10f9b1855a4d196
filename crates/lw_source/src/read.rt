//! Reading a source test from its frame, and the laws of its texts.
//! A law is a function without a result, whose contract states the law. A proof uses the law by calling the function.
ghost use Rattle.std.specs.Prelude.{◌≡◌, ◌≢◌, ◌≤◌, List, IfOk, IfErr};
ghost use Rattle.lw_base.specs.NoParse.{HoldsOfNothingOrOutOfMemory};
ghost use Rattle.lw_base.specs.declared.head.Arch.TheVariants as arch;
ghost use Rattle.lw_base.specs.declared.fault.CellCause.TheVariants.{Memory};
ghost use Rattle.lw_base.specs.declared.fault.CellFault.{CellFault};
ghost use Rattle.lw_base.specs.Types.{NameTable};
ghost use Rattle.lw_text.specs.Frames.{TestFrame};
ghost use Rattle.lw_text.specs.PlacedCells.{PlacedCell, texts_of_grid};
ghost use Rattle.lw_text.specs.Views.{frame_of};
ghost use Rattle.lw_text.specs.Places.{placed_cells};
ghost use Rattle.lw_statements.specs.Faults.{CellFaultIsTrue};
ghost use Rattle.lw_litmus.specs.Tests.{SourceTest};
ghost use Rattle.lw_litmus.specs.Views.{source_of};
ghost use Rattle.lw_source.specs.Grammar.{HasSource, source_grammar};

use crate::language::SourceLanguage;
use lw_base::CellFault;
use lw_litmus::Source;
use lw_statements::read_test;
use lw_text::Frame;
use std::alloc::Allocator;

/// Reads the source test of a frame whose language is the source language, and takes over the frame's head.
/// Reads the threads in order, each from top to bottom, and fails at the first fault.
pub fn read_source<A: Allocator + Copy>(
    alloc: A,
    frame: Frame<'_, A>,
) -> Result<Source<A>, CellFault>
    requires { frame.head.arch ≡ arch.Source }
    // The result is the frame's test. If reading fails, the frame has no test, or memory ran out.
    ensures found { IfOk result (λ s. HasSource (frame_of frame.entry) (source_of s)) }
    ensures fault { IfErr result (λ f. HoldsOfNothingOrOutOfMemory Memory f.cause (HasSource (frame_of frame.entry))) }
    ensures place { IfErr result (λ f. f.at ≤ frame.entry.len) }
    ensures memory { IfErr result (λ f. f.cause ≡ Memory → f.at ≡ 0) }
    // What the cause says of the place is true.
    ensures cause { IfErr result (CellFaultIsTrue source_grammar frame.entry.head.locs (placed_cells frame.entry.cells)) }
{
    let parts = read_test::<SourceLanguage, A>(alloc, frame)?;
    Ok(Source {
        head: parts.head,
        threads: parts.threads,
    })
}

/// States that a frame has at most one source test.
pub fn a_frame_has_one_source()
    ensures { (frame : TestFrame) (s t : SourceTest) → HasSource frame s → HasSource frame t → s ≡ t }
{}

/// States that, apart from a lack of memory, at most one fault of the same cells is true, and none of the cells of a source test.
pub fn source_cells_have_one_fault()
    ensures one_fault { (names : NameTable) (columns : List (List PlacedCell)) (f g : CellFault) → f.cause ≢ Memory → g.cause ≢ Memory
        → CellFaultIsTrue source_grammar names columns f → CellFaultIsTrue source_grammar names columns g → f ≡ g }
    ensures none { (frame : TestFrame) (columns : List (List PlacedCell)) (f : CellFault) (s : SourceTest)
        → texts_of_grid columns ≡ frame.cells → HasSource frame s → f.cause ≢ Memory
        → CellFaultIsTrue source_grammar frame.head.locs columns f → ⊥ }
{}
