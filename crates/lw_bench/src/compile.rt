//! Rendering the compilation of a test.
ghost use Rattle.std.specs.Prelude.{IfOk};
ghost use Rattle.lw_litmus.specs.Views.{source_of};
ghost use Rattle.lw_bench.specs.LitmusTests.{litmus_test_of};
ghost use Rattle.lw_bench.specs.Compilations.{IsCompiledText, IsCompilation};

use crate::litmus_test::LitmusTest;
use lw_base::Text;
use lw_fence::compile;
use lw_litmus::Source;
use lw_tso_caches::outcomes_over_caches_are_flat;
use lw_x86::write_program;
use std::alloc::{AllocError, Allocator};

/// Renders the canonical text of the compiled program of a source test.
fn compiled_text<A: Allocator + Copy>(alloc: A, source: &Source<A>) -> Result<Text<A>, AllocError>
    ensures { IfOk result (IsCompiledText (source_of source.now)) }
{
    outcomes_over_caches_are_flat();
    let compiled = compile(alloc, source)?;
    let text = write_program(alloc, &compiled.program);
    drop(compiled);
    text
}

/// Renders the compilation of a test.
pub(crate) fn compilation_of<A: Allocator + Copy>(
    alloc: A,
    test: &LitmusTest<A>,
) -> Result<Text<A>, AllocError>
    ensures { IfOk result (IsCompilation (litmus_test_of test.now)) }
{
    match test {
        LitmusTest::Source(source) => compiled_text(alloc, source),
        LitmusTest::X86(program) => write_program(alloc, program),
    }
}
