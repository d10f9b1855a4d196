//! A test of either language, reading it, and the laws of its texts.
//! A law is a function without a result, whose contract states the law. A proof uses the law by calling the function.
ghost use Rattle.std.specs.Prelude.{◌≡◌, ◌≤◌, IfOk, IfErr};
ghost use Rattle.lw_base.specs.Types.{Bytes};
ghost use Rattle.lw_base.specs.Heads.{head_of};
ghost use Rattle.lw_base.specs.WellFormed.{IsWellFormedHead};
ghost use Rattle.lw_base.specs.NoParse.{HoldsOfNothingOrOutOfMemory};
ghost use Rattle.lw_base.specs.declared.fault.CellCause.TheVariants.{Memory};
ghost use Rattle.lw_base.specs.declared.fault.CellFault.{CellFault};
ghost use Rattle.lw_text.specs.Places.{placed_cells};
ghost use Rattle.lw_text.specs.Views.{frame_of};
ghost use Rattle.lw_bench.specs.LitmusTests as specs;
ghost use Rattle.lw_bench.specs.TestTexts.{FrameHasTest, HasTest};
ghost use Rattle.lw_bench.specs.LitmusTests.{litmus_test_of, head_of_test};
ghost use Rattle.lw_bench.specs.FaultTruth.{ReadFaultIsTrue, CellFaultIsTrueIn, CellFaultIsTrueOf, IsFaultOfText, IsNotDeviceFault};
ghost use Rattle.lw_bench.specs.declared.fault.BenchFault.{BenchFault};

use crate::fault::BenchFault;
use lw_base::{Arch, CellFault, Head};
use lw_litmus::{Program, Source};
use lw_source::{a_frame_has_one_source, read_source, source_cells_have_one_fault};
use lw_text::{
    Frame, a_text_fails_at_one_place, a_text_has_its_cells_once, a_text_has_one_frame, read_frame,
};
use lw_x86::{a_frame_has_one_program, read_program, x86_cells_have_one_fault};
use std::alloc::Allocator;

/// A test of the source language or of x86.
#[derive(Drop)]
pub enum LitmusTest<A: Allocator> {
    Source(Source<A>),
    X86(Program<A>),
}

impl<A: Allocator> LitmusTest<A> {
    /// Borrows the head of the test.
    pub fn head(&self) -> &Head<A>
        ensures head { head_of result.now ≡ head_of_test (litmus_test_of self.now) }
        ensures formed { IsWellFormedHead (head_of result.now) }
    {
        match self {
            LitmusTest::Source(source) => &source.head,
            LitmusTest::X86(program) => &program.head,
        }
    }
}

/// States that a text has at most one test, of one language.
pub fn a_text_has_one_test()
    ensures { (text : Bytes) (s t : specs.LitmusTest) → HasTest text s → HasTest text t → s ≡ t }
{
    a_text_has_one_frame();
    a_frame_has_one_source();
    a_frame_has_one_program();
}

/// States that at most one fault of a cell is true of a text.
pub fn a_text_has_one_cell_fault()
    ensures { (text : Bytes) (f g : CellFault) → CellFaultIsTrueOf text f → CellFaultIsTrueOf text g → f ≡ g }
{
    a_text_has_one_frame();
    a_text_has_its_cells_once();
    source_cells_have_one_fault();
    x86_cells_have_one_fault();
}

/// States that of a text at most one fault, of the text or of a cell, is true: so the line of its refusal is one.
pub fn a_text_has_one_fault()
    ensures { (text : Bytes) (f g : BenchFault) → IsFaultOfText f → IsFaultOfText g
        → ReadFaultIsTrue text f → ReadFaultIsTrue text g → f ≡ g }
{
    a_text_fails_at_one_place();
    a_text_has_one_cell_fault();
}

/// Reads the test of these bytes, of either language. Fails at the first fault of the text or of a cell, or if memory runs out.
pub fn read_test<A: Allocator + Copy>(alloc: A, text: &[u8]) -> Result<LitmusTest<A>, BenchFault>
    ensures found { IfOk result (λ test. HasTest text.now (litmus_test_of test)) }
    ensures fault { IfErr result (ReadFaultIsTrue text.now) }
    ensures device { IfErr result IsNotDeviceFault }
{
    let frame = read_frame(alloc, text)?;
    Ok(read_cells(alloc, frame)?)
}

/// Reads the test of a frame, in the frame's language.
fn read_cells<A: Allocator + Copy>(
    alloc: A,
    frame: Frame<'_, A>,
) -> Result<LitmusTest<A>, CellFault>
    ensures found { IfOk result (λ test. FrameHasTest (frame_of frame.entry) (litmus_test_of test)) }
    ensures fault { IfErr result (λ f. HoldsOfNothingOrOutOfMemory Memory f.cause (FrameHasTest (frame_of frame.entry))) }
    ensures place { IfErr result (λ f. f.at ≤ frame.entry.len) }
    ensures cause { IfErr result (CellFaultIsTrueIn frame.entry.head.arch frame.entry.head.locs (placed_cells frame.entry.cells)) }
{
    match frame.head().arch {
        Arch::Source => {
            let source = read_source(alloc, frame)?;
            Ok(LitmusTest::Source(source))
        }
        Arch::X86 => {
            let program = read_program(alloc, frame)?;
            Ok(LitmusTest::X86(program))
        }
    }
}
