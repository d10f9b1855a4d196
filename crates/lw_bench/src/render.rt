//! Rendering the output of a task: the test is read, and then the output is rendered as a whole. Everything that is
//! claimed of the workbench is claimed here first, of bytes in memory, without a precondition.
ghost use Rattle.std.specs.Prelude.{◌≡◌, ◌⊎◌, IfOk, IfErr};
ghost use Rattle.lw_base.specs.Types.{Bytes};
ghost use Rattle.lw_bench.specs.LitmusTests as specs;
ghost use Rattle.lw_bench.specs.LitmusTests.{litmus_test_of};
ghost use Rattle.lw_bench.specs.Lists.{IsReachedOnMachine, IsReachedOverCaches};
ghost use Rattle.lw_bench.specs.Outputs.{IsOutputOf};
ghost use Rattle.lw_bench.specs.Replays.{IsReplayPage};
ghost use Rattle.lw_bench.specs.Tasks.{IsTaskOutput, TaskFaultIsTrue};
ghost use Rattle.lw_bench.specs.FaultTruth.{RunFaultIsTrue, ReplayFaultIsTrue, IsNotDeviceFault};
ghost use Rattle.lw_bench.specs.declared.fault.BenchFault.{BenchFault as Fault};

use crate::command::Task;
use crate::compile::compilation_of;
use crate::fault::{BenchFault, end_status, success_status};
use crate::laws::every_test_has_its_program;
use crate::lists::{report_of, schedules_of};
use crate::litmus_test::{LitmusTest, read_test};
use crate::replay::page_of;
use lw_base::{End, Text};
use lw_mesi::Protocol;
use std::alloc::Allocator;

/// A renderer of a test's output: bytes, and an answer.
pub(crate) trait Renderer<A: Allocator + Copy> {
    /// The answer beside the bytes, such as an exit status.
    type Answer: Copy;

    /// The relation between a test, its output and the answer.
    ghost is_made: { Self → Self.Answer → specs.LitmusTest → Bytes → Type 0 };

    /// What a fault means for a test that was read.
    ghost fault_is_true: { Self → specs.LitmusTest → Fault → Type 0 };

    /// Renders the output of a test, and returns it with an answer: the exit status of a task, or the end of a
    /// replay.
    fn render(&self, alloc: A, test: &LitmusTest<A>) -> Result<(Text<A>, Self::Answer), BenchFault>
        ensures found { IfOk result (λ x. is_made self.now x.1 (litmus_test_of test.now) x.0) }
        ensures fault { IfErr result (λ f. (f ≡ Fault.Memory) ⊎ fault_is_true self.now (litmus_test_of test.now) f) }
        ensures device { IfErr result IsNotDeviceFault };
}

/// A task renders its output, and answers with the exit status.
impl<'a, A: Allocator + Copy> Renderer<A> for Task<'a> {
    type Answer = u8;

    ghost is_made = { λ task status test made. IsTaskOutput task test made status };

    ghost fault_is_true = { TaskFaultIsTrue };

    /// Renders the output of the task on a test, and returns it with the exit status.
    fn render(&self, alloc: A, test: &LitmusTest<A>) -> Result<(Text<A>, u8), BenchFault> {
        match self {
            Task::States => Ok((report_of(alloc, test)?, success_status())),
            Task::Compile => Ok((compilation_of(alloc, test)?, success_status())),
            Task::Schedules => Ok((schedules_of(alloc, test)?, success_status())),
            Task::Replay(schedule, protocol) => {
                let (page, end) = page_of(alloc, test, schedule, *protocol)?;
                Ok((page, end_status(end)))
            }
        }
    }
}

/// The replay of a test by a schedule, which answers with its end.
#[derive(Clone, Copy)]
pub(crate) struct ReplayRenderer<'a> {
    pub(crate) schedule: &'a str,
    pub(crate) protocol: Protocol,
}

impl<'a, A: Allocator + Copy> Renderer<A> for ReplayRenderer<'a> {
    type Answer = End;

    ghost is_made = { λ r end test page. IsReplayPage r.protocol test r.schedule.now page end };

    ghost fault_is_true = { λ r. ReplayFaultIsTrue r.schedule.now };

    /// Renders the page of the test's replay, and returns it with the replay's end.
    fn render(&self, alloc: A, test: &LitmusTest<A>) -> Result<(Text<A>, End), BenchFault> {
        page_of(alloc, test, self.schedule, self.protocol)
    }
}

/// Renders the output of the test of these bytes.
pub(crate) fn render_text<O: Renderer<A>, A: Allocator + Copy>(
    alloc: A,
    output: &O,
    text: &[u8],
) -> Result<(Text<A>, O::Answer), BenchFault>
    ensures found { IfOk result (λ x. IsOutputOf (O.is_made output.now x.1) text.now x.0) }
    ensures fault { IfErr result (RunFaultIsTrue (O.fault_is_true output.now) text.now) }
    ensures device { IfErr result IsNotDeviceFault }
{
    let test = read_test(alloc, text)?;
    let made = output.render(alloc, &test);
    drop(test);
    made
}

/// Renders the output of a task on a text, and returns it with the exit status: of a replay whether it ended in a
/// final state, otherwise that of success.
/// The whole text is read first: its frame, then its cells. A schedule is parsed against the test's names.
pub fn answer<A: Allocator + Copy>(
    alloc: A,
    task: Task<'_>,
    text: &[u8],
) -> Result<(Text<A>, u8), BenchFault>
    // If it returns an output, the bytes are a test, and the output and the exit status are exactly those of the task
    // on that test.
    ensures made { IfOk result (λ x. IsOutputOf (λ test made. IsTaskOutput task.entry test made x.1) text.now x.0) }
    // What a fault says is true: of the text, of a cell, or of what the task requires of the test.
    ensures fault { IfErr result (RunFaultIsTrue (TaskFaultIsTrue task.entry) text.now) }
    // For every test of the bytes, its outcomes are those that its x86 program reaches on the machine,
    ensures machine { IsReachedOnMachine text.now }
    // and over caches of each protocol.
    ensures caches { IsReachedOverCaches text.now }
    // No failure of a device is reported.
    ensures device { IfErr result IsNotDeviceFault }
{
    every_test_has_its_program();
    render_text(alloc, &task, text)
}
