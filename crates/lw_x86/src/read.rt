//! Reading an x86 test from its frame, and the laws of its texts.
//! A law is a function without a result, whose contract states the law. A proof uses the law by calling the function.
ghost use Rattle.std.specs.Prelude.{◌≡◌, ◌≢◌, ◌≤◌, List, IfOk, IfErr};
ghost use Rattle.lw_base.specs.Types.{Bytes, NameTable};
ghost use Rattle.lw_base.specs.NoParse.{HoldsOfNothingOrOutOfMemory};
ghost use Rattle.lw_base.specs.declared.head.Arch.TheVariants as arch;
ghost use Rattle.lw_base.specs.declared.fault.CellCause.TheVariants.{Memory};
ghost use Rattle.lw_base.specs.declared.fault.CellFault.{CellFault};
ghost use Rattle.lw_text.specs.Frames.{TestFrame};
ghost use Rattle.lw_text.specs.PlacedCells.{PlacedCell, texts_of_grid};
ghost use Rattle.lw_text.specs.Views.{frame_of};
ghost use Rattle.lw_text.specs.Places.{placed_cells};
ghost use Rattle.lw_statements.specs.Faults.{CellFaultIsTrue};
ghost use Rattle.lw_litmus.specs.Tests.{X86Test};
ghost use Rattle.lw_litmus.specs.Views.{program_of};
ghost use Rattle.lw_x86.specs.Grammar.{HasProgram, x86_grammar};
ghost use Rattle.lw_x86.specs.Texts.{IsTextOf};

use crate::language::X86Language;
use lw_base::CellFault;
use lw_litmus::Program;
use lw_statements::read_test;
use lw_text::Frame;
use std::alloc::Allocator;

/// Reads the x86 test of a frame whose language is x86, and takes over the frame's head.
/// Reads the threads in order, each from top to bottom, and fails at the first fault.
pub fn read_program<A: Allocator + Copy>(
    alloc: A,
    frame: Frame<'_, A>,
) -> Result<Program<A>, CellFault>
    requires { frame.head.arch ≡ arch.X86 }
    // The result is the frame's test. If reading fails, the frame has no test, or memory ran out.
    ensures found { IfOk result (λ p. HasProgram (frame_of frame.entry) (program_of p)) }
    ensures fault { IfErr result (λ f. HoldsOfNothingOrOutOfMemory Memory f.cause (HasProgram (frame_of frame.entry))) }
    ensures place { IfErr result (λ f. f.at ≤ frame.entry.len) }
    ensures memory { IfErr result (λ f. f.cause ≡ Memory → f.at ≡ 0) }
    // What the cause says of the place is true.
    ensures cause { IfErr result (CellFaultIsTrue x86_grammar frame.entry.head.locs (placed_cells frame.entry.cells)) }
{
    let parts = read_test::<X86Language, A>(alloc, frame)?;
    Ok(Program {
        head: parts.head,
        threads: parts.threads,
    })
}

/// States that a frame has at most one x86 test.
pub fn a_frame_has_one_program()
    ensures { (frame : TestFrame) (p q : X86Test) → HasProgram frame p → HasProgram frame q → p ≡ q }
{}

/// States that a text is of at most one x86 test.
pub fn a_text_has_one_program()
    ensures { (text : Bytes) (p q : X86Test) → IsTextOf text p → IsTextOf text q → p ≡ q }
{}

/// States that, apart from a lack of memory, at most one fault of the same cells is true, and none of the cells of an x86 test.
pub fn x86_cells_have_one_fault()
    ensures one_fault { (names : NameTable) (columns : List (List PlacedCell)) (f g : CellFault) → f.cause ≢ Memory → g.cause ≢ Memory
        → CellFaultIsTrue x86_grammar names columns f → CellFaultIsTrue x86_grammar names columns g → f ≡ g }
    ensures none { (frame : TestFrame) (columns : List (List PlacedCell)) (f : CellFault) (p : X86Test)
        → texts_of_grid columns ≡ frame.cells → HasProgram frame p → f.cause ≢ Memory
        → CellFaultIsTrue x86_grammar frame.head.locs columns f → ⊥ }
{}
