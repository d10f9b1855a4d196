//! Replaying a test by a schedule, and rendering the page. Frames, tests and runs are dropped by calls of `drop`,
//! which is proved once for each type; what is dropped at the end of a scope is proved there each time.
ghost use Rattle.std.specs.Prelude.{◌≡◌, ◌⊎◌, ◌≤◌, length, IfOk, IfErr};
ghost use Rattle.lw_memory.specs.Memory.{memory_of};
ghost use Rattle.lw_litmus.specs.Views.{source_of, program_of};
ghost use Rattle.lw_bench.specs.LitmusTests.{litmus_test_of};
ghost use Rattle.lw_bench.specs.Replays.{SourcePage, MachinePage, CachesPage, IsPageOf, IsReplayPage};
ghost use Rattle.lw_bench.specs.FaultTruth.{ReplayFaultIsTrue, IsNotDeviceFault};

use crate::fault::BenchFault;
use crate::litmus_test::LitmusTest;
use crate::page::{machine_page, source_page};
use lw_base::{End, Event, Text, read_schedule};
use lw_interleaving::SourceRun;
use lw_litmus::{Program, Source};
use lw_memory::MemorySystem;
use lw_mesi::{
    MesiProtocol, MoesiProtocol, Protocol, ProtocolType, SnoopingCaches, empty_caches_are_coherent,
};
use lw_tso::Machine;
use std::alloc::Allocator;

/// Replays a source test by these events, and returns the page and the replay's end.
fn page_of_source<A: Allocator + Copy>(
    alloc: A,
    source: &Source<A>,
    events: &[Event],
) -> Result<(Text<A>, End), BenchFault>
    ensures found { IfOk result (λ x. SourcePage (source_of source.now) events.now x.0 x.1) }
    ensures fault { IfErr result (λ f. f ≡ BenchFault.Memory) }
{
    let mut run = SourceRun::new(alloc, source)?;
    let replay = run.run(events);
    let page = source_page(alloc, &source.head, &run, replay);
    drop(run);
    Ok((page?, replay.end))
}

/// Replays an x86 test by these events, over a memory system, and returns the page and the replay's end.
fn page_over_memory<M: MemorySystem + Drop, A: Allocator + Copy>(
    alloc: A,
    program: &Program<A>,
    memory: M,
    events: &[Event],
) -> Result<(Text<A>, End), BenchFault>
    requires threads { length program.now.threads ≤ M.cpus memory }
    requires words { M.content memory ≡ program.now.head.init_words }
    ensures found { IfOk result (λ x. MachinePage (memory_of M.content M.state M.serves) M.memory
        (program_of program.now) memory events.now x.0 x.1) }
    ensures fault { IfErr result (λ f. f ≡ BenchFault.Memory) }
{
    let Ok(mut machine) = Machine::new(alloc, program, memory) else {
        return Err(BenchFault::Memory);
    };
    let replay = machine.run(events);
    let page = machine_page(alloc, &program.head, &machine, replay);
    drop(machine);
    Ok((page?, replay.end))
}

/// Replays an x86 test by these events, over caches of a protocol, and returns the page and the replay's end.
fn page_over_caches<P: ProtocolType + Drop, A: Allocator + Copy>(
    alloc: A,
    program: &Program<A>,
    events: &[Event],
) -> Result<(Text<A>, End), BenchFault>
    ensures found { IfOk result (λ x. CachesPage P.protocol (program_of program.now) events.now x.0 x.1) }
    ensures fault { IfErr result (λ f. f ≡ BenchFault.Memory) }
{
    empty_caches_are_coherent();
    let words = program.head.init_words.as_slice();
    let caches: SnoopingCaches<P, A> = SnoopingCaches::new(alloc, program.head.threads, words)?;
    page_over_memory(alloc, program, caches, events)
}

/// Replays a test by these events, and returns the page and the replay's end.
pub(crate) fn page_of_events<A: Allocator + Copy>(
    alloc: A,
    test: &LitmusTest<A>,
    events: &[Event],
    protocol: Protocol,
) -> Result<(Text<A>, End), BenchFault>
    ensures found { IfOk result (λ x. IsPageOf protocol (litmus_test_of test.now) events.now x.0 x.1) }
    ensures fault { IfErr result (λ f. f ≡ BenchFault.Memory) }
{
    match (test, protocol) {
        (LitmusTest::Source(source), _) => page_of_source(alloc, source, events),
        (LitmusTest::X86(program), Protocol::Mesi) => {
            page_over_caches::<MesiProtocol, A>(alloc, program, events)
        }
        (LitmusTest::X86(program), Protocol::Moesi) => {
            page_over_caches::<MoesiProtocol, A>(alloc, program, events)
        }
    }
}

/// Replays a test by a schedule, and returns the page and the replay's end.
pub(crate) fn page_of<A: Allocator + Copy>(
    alloc: A,
    test: &LitmusTest<A>,
    schedule: &str,
    protocol: Protocol,
) -> Result<(Text<A>, End), BenchFault>
    ensures found { IfOk result (λ x. IsReplayPage protocol (litmus_test_of test.now) schedule.now x.0 x.1) }
    ensures fault { IfErr result (λ f. (f ≡ BenchFault.Memory) ⊎ ReplayFaultIsTrue schedule.now (litmus_test_of test.now) f) }
    ensures device { IfErr result IsNotDeviceFault }
{
    let events = read_schedule(alloc, schedule, &test.head().locs)?;
    let page = page_of_events(alloc, test, events.as_slice(), protocol);
    drop(events);
    page
}
