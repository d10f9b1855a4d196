//! The runs over devices: a text is read, its output is rendered as a whole, and only then written.
ghost use Rattle.std.specs.Prelude.{◌≡◌, false};
ghost use Rattle.lw_bench.specs.Compilations.{IsCompilation};
ghost use Rattle.lw_bench.specs.Lists.{IsStatesReport, IsScheduleReport};
ghost use Rattle.lw_bench.specs.Replays.{IsReplayPage};
ghost use Rattle.lw_bench.specs.Runs.{devices, IsRun};
ghost use Rattle.lw_bench.specs.Tasks.{IsTaskOutput, TaskFaultIsTrue};
ghost use Rattle.lw_bench.specs.FaultTruth.{ListFaultIsTrue, NoFaultIsTrue, ReplayFaultIsTrue};

use crate::command::Task;
use crate::device::{ByteReader, ByteWriter};
use crate::fault::BenchFault;
use crate::input::read_input;
use crate::laws::what_is_known_is_reached_on_the_machine;
use crate::output::write_output;
use crate::render::{Renderer, ReplayRenderer, render_text};
use lw_base::End;
use lw_mesi::Protocol;
use std::alloc::Allocator;

/// Reads a test, and writes its output.
fn run_text<O: Renderer<A>, R: ByteReader, W: ByteWriter, A: Allocator + Copy>(
    alloc: A,
    output: &O,
    reader: &mut R,
    writer: &mut W,
) -> Result<O::Answer, BenchFault>
    requires reader { R.failed reader.old ≡ false }
    requires writer { W.failed writer.old ≡ false }
    ensures { IsRun (devices R.remaining R.failed) (devices W.contents W.failed) (O.is_made output.now) (O.fault_is_true output.now)
        reader.old reader.new writer.old writer.new result }
{
    what_is_known_is_reached_on_the_machine();
    let text = read_input(alloc, reader)?;
    let (made, answer) = render_text(alloc, output, text.as_slice())?;
    write_output(writer, made.as_str().as_bytes())?;
    Ok(answer)
}

/// Carries out a task on the test from the reader, writes its output, and returns the exit status: of a replay
/// whether it ended in a final state, otherwise that of success.
/// The whole test is read first: its text, then its cells. The output is rendered as a whole before its first byte is
/// written, so any fault except `Write` leaves the writer unchanged; after `Write` the contract does not say how much
/// was written. The devices must not have failed before, and are not called again after a failure. The contract
/// speaks of bytes if the devices know theirs; `answer` states the same of all bytes in memory.
pub fn carry_out<R: ByteReader, W: ByteWriter, A: Allocator + Copy>(
    alloc: A,
    task: Task<'_>,
    reader: &mut R,
    writer: &mut W,
) -> Result<u8, BenchFault>
    requires reader { R.failed reader.old ≡ false }
    requires writer { W.failed writer.old ≡ false }
    ensures { IsRun (devices R.remaining R.failed) (devices W.contents W.failed)
        (λ status test made. IsTaskOutput task.entry test made status) (TaskFaultIsTrue task.entry)
        reader.old reader.new writer.old writer.new result }
{
    run_text(alloc, &task, reader, writer)
}

/// Writes the report of the test from the reader: its final states, and the verdict on its condition.
/// Reads and writes as `carry_out` does.
pub fn states<R: ByteReader, W: ByteWriter, A: Allocator + Copy>(
    alloc: A,
    reader: &mut R,
    writer: &mut W,
) -> Result<(), BenchFault>
    requires reader { R.failed reader.old ≡ false }
    requires writer { W.failed writer.old ≡ false }
    ensures { IsRun (devices R.remaining R.failed) (devices W.contents W.failed) (λ _. IsStatesReport) ListFaultIsTrue
        reader.old reader.new writer.old writer.new result }
{
    carry_out(alloc, Task::States, reader, writer)?;
    Ok(())
}

/// Writes each final state of the test from the reader with a schedule that reaches it; for a source test it is a
/// schedule of the compiled program.
/// Reads and writes as `carry_out` does.
pub fn schedules_text<R: ByteReader, W: ByteWriter, A: Allocator + Copy>(
    alloc: A,
    reader: &mut R,
    writer: &mut W,
) -> Result<(), BenchFault>
    requires reader { R.failed reader.old ≡ false }
    requires writer { W.failed writer.old ≡ false }
    ensures { IsRun (devices R.remaining R.failed) (devices W.contents W.failed) (λ _. IsScheduleReport) ListFaultIsTrue
        reader.old reader.new writer.old writer.new result }
{
    carry_out(alloc, Task::Schedules, reader, writer)?;
    Ok(())
}

/// Compiles the test from the reader, and writes the text of its compilation: of a source test the canonical text of
/// an x86 test that reaches the same outcomes, with fences where they are needed; of an x86 test its own canonical
/// text.
/// Reads and writes as `carry_out` does.
pub fn compile_text<R: ByteReader, W: ByteWriter, A: Allocator + Copy>(
    alloc: A,
    reader: &mut R,
    writer: &mut W,
) -> Result<(), BenchFault>
    requires reader { R.failed reader.old ≡ false }
    requires writer { W.failed writer.old ≡ false }
    ensures { IsRun (devices R.remaining R.failed) (devices W.contents W.failed) (λ _. IsCompilation) NoFaultIsTrue
        reader.old reader.new writer.old writer.new result }
{
    carry_out(alloc, Task::Compile, reader, writer)?;
    Ok(())
}

/// Replays the test from the reader by a schedule, and writes its page. An x86 test runs on store buffers over caches
/// of the protocol; a source test has neither, and ignores the protocol.
/// Reads and writes as `carry_out` does; the schedule is parsed against the test's names.
pub fn replay_text<R: ByteReader, W: ByteWriter, A: Allocator + Copy>(
    alloc: A,
    reader: &mut R,
    schedule: &str,
    protocol: Protocol,
    writer: &mut W,
) -> Result<End, BenchFault>
    requires reader { R.failed reader.old ≡ false }
    requires writer { W.failed writer.old ≡ false }
    ensures { IsRun (devices R.remaining R.failed) (devices W.contents W.failed)
        (λ end test page. IsReplayPage protocol test schedule.now page end) (ReplayFaultIsTrue schedule.now)
        reader.old reader.new writer.old writer.new result }
{
    run_text(
        alloc,
        &ReplayRenderer { schedule, protocol },
        reader,
        writer,
    )
}
