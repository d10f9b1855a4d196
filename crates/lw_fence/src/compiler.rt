//! The compiler from source tests to x86.
ghost use Rattle.std.specs.Prelude.{◌≡◌, ◌↔◌, ℕ, ◌<◌, ◌≤◌, List, length, Some, slice_get, IfOk};
ghost use Rattle.std.specs.Option.{ForSome};
ghost use Rattle.lw_base.specs.Outcomes.{FinalState};
ghost use Rattle.lw_base.specs.declared.event.Event.{Event};
ghost use Rattle.lw_memory.specs.Flat.{flat_memory};
ghost use Rattle.lw_litmus.specs.Limits.{most_statements};
ghost use Rattle.lw_litmus.specs.declared.stmt.Stmt.{Stmt as Statement};
ghost use Rattle.lw_interleaving.specs.Runs.{SourceOutcome};
ghost use Rattle.lw_litmus.specs.Operations.{branch_target};
ghost use Rattle.lw_litmus.specs.Sources.{source_operation};
ghost use Rattle.lw_litmus.specs.Views.{source_of, program_of};
ghost use Rattle.lw_tso.specs.Endings.{CanTerminate};
ghost use Rattle.lw_tso.specs.Machines.{MachineState};
ghost use Rattle.lw_tso.specs.Runs.{IsMachineOutcome, MachineRunsTo, initial_machine_state};
ghost use Rattle.lw_litmus.specs.declared.instr.Instr.{Instr as Instruction};
ghost use Rattle.lw_fence.specs.Compiling.{IsCompiledThread, IsCompiled};

use crate::compiled::Compiled;
use crate::fences::fences_of;
use crate::lowering::lower;
use crate::starts::starts_of;
use lw_base::{Arch, Sequence};
use lw_litmus::{Instr, Program, Source, Stmt};
use std::alloc::{AllocError, Allocator};

/// Compiles a source test to x86: each statement is lowered to its instructions, with a fence before each load that
/// needs one, and before no other. Fails only if memory runs out.
pub fn compile<A: Allocator + Copy>(alloc: A, source: &Source<A>) -> Result<Compiled<A>, AllocError>
    ensures compiled { IfOk result
        (λ c. IsCompiled (source_of source.now) (program_of c.program) c.starts) }
    // The compiled program means what the source means: over flat memory they have the same outcomes.
    ensures outcomes { IfOk result (λ c. (o : FinalState)
        → IsMachineOutcome flat_memory (program_of c.program) c.program.head.init_words o ↔ SourceOutcome (source_of source.now) o) }
    // Every run of the compiled program can be extended to a final state.
    ensures ends { IfOk result (λ c. (events : List Event) (s : MachineState (List ℕ))
        → MachineRunsTo flat_memory c.program.threads events (initial_machine_state (program_of c.program) c.program.head.init_words) s
        → CanTerminate flat_memory c.program.threads s) }
{
    let mut head = source.head.copy()?;
    head.arch = Arch::X86;
    let codes = compile_threads(alloc, source)?;
    Ok(Compiled {
        program: Program {
            head,
            threads: codes.instrs,
        },
        starts: codes.starts,
    })
}

/// The instructions of all threads, and where their statements start.
#[derive(Drop)]
struct CompiledThreads<A: Allocator> {
    instrs: Sequence<Sequence<Instr, A>, A>,
    starts: Sequence<Sequence<usize, A>, A>,
}

/// Compiles every thread of a source test.
fn compile_threads<A: Allocator + Copy>(
    alloc: A,
    source: &Source<A>,
) -> Result<CompiledThreads<A>, AllocError>
    ensures as_many { IfOk result (λ codes. length codes.instrs ≡ length source.now.threads) }
    ensures as_many_starts { IfOk result (λ codes. length codes.starts ≡ length source.now.threads) }
    ensures threads { IfOk result
        (λ codes. (t : ℕ) (code : List Statement) (instrs : List Instruction) (begins : List ℕ)
        → slice_get source.now.threads t ≡ Some code → slice_get codes.instrs t ≡ Some instrs
        → slice_get codes.starts t ≡ Some begins → IsCompiledThread code instrs begins) }
{
    let mut instrs = Sequence::new(alloc);
    let mut starts = Sequence::new(alloc);
    for stmts in source.threads.as_slice() {
        let code = compile_thread(alloc, stmts.as_slice())?;
        instrs.push(code.instrs)?;
        starts.push(code.starts)?;
    }
    Ok(CompiledThreads { instrs, starts })
}

/// The instructions of a thread, and where its statements start.
#[derive(Drop)]
struct CompiledThread<A: Allocator> {
    instrs: Sequence<Instr, A>,
    starts: Sequence<usize, A>,
}

/// Compiles one thread.
fn compile_thread<A: Allocator + Copy>(
    alloc: A,
    stmts: &[Stmt],
) -> Result<CompiledThread<A>, AllocError>
    requires short { length stmts.now ≤ most_statements }
    requires forward { (j : ℕ) (s : Statement) → slice_get stmts.now j ≡ Some s
        → ForSome (branch_target (source_operation s)) (λ to. (j < to) × (to ≤ length stmts.now)) }
    ensures { IfOk result (λ code. IsCompiledThread stmts.now code.instrs code.starts) }
{
    let fences = fences_of(alloc, stmts)?;
    let starts = starts_of(alloc, stmts, fences.as_slice())?;
    let instrs = lower(alloc, stmts, fences.as_slice(), starts.as_slice())?;
    Ok(CompiledThread { instrs, starts })
}
