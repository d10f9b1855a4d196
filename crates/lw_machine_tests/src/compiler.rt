//! Where the statements of compiled tests start, and the schedules that simulate runs of the sources.
ghost use Rattle.std.specs.Prelude.{◌≡◌, map, true, IsTrue, IfOk};
ghost use Rattle.lw_base.specs.declared.event.Event.TheVariants.{Step};
ghost use Rattle.lw_fence.specs.Compiling.{IsCompiled};
ghost use Rattle.lw_interleaving.specs.Runs.{State, SourceRunsTo, initial_state};
ghost use Rattle.lw_litmus.specs.Views.{source_of as test_of_source, program_of};

use lw_base::{Cpu, End, Event, read_schedule};
use lw_fence::{Compiled, compile, schedule_of};
use lw_interleaving::SourceRun;
use lw_litmus::Source;
use lw_test_reader::{Made, MadeByAllocator, Refusing, count_requests, source_of};
use std::alloc::{AllocError, Allocator, Global};

/// Returns a step of each of these threads, in sequence.
fn steps_of<A: Allocator + Copy>(alloc: A, order: &[Cpu]) -> Result<Vec<Event, A>, AllocError>
    ensures { IfOk result (λ steps. steps.items ≡ map Step order.now) }
{
    order.iter().map(|cpu| Event::Step(*cpu)).collect(alloc)
}

/// Returns whether the source runs by these threads to its end.
fn ends_by<A: Allocator + Copy>(alloc: A, source: &Source<A>, order: &[Cpu]) -> bool
    ensures { IsTrue result → (end : State)
        × SourceRunsTo source.now.threads (map Step order.now) (initial_state (test_of_source source.now)) end }
{
    let Ok(steps) = steps_of(alloc, order) else {
        return false;
    };
    let Ok(mut run) = SourceRun::new(alloc, source) else {
        return false;
    };
    let replay = run.run(steps.as_slice());
    replay.done == order.len() && replay.end == End::Final
}

/// Returns whether a schedule spells these events.
fn spells(alloc: Global, source: &Source, words: &str, events: &[Event]) -> bool {
    match read_schedule(alloc, words, &source.head.locs) {
        Ok(wanted) => wanted.as_slice() == events,
        Err(_) => false,
    }
}

/// Returns whether the source runs by these threads to its end, and this schedule of the compiled program simulates
/// the run.
fn is_simulated_by(
    alloc: Global,
    source: &Source,
    compiled: &Compiled,
    order: &[Cpu],
    words: &str,
) -> bool
    requires { IsCompiled (test_of_source source.now) (program_of compiled.now.program) compiled.now.starts }
{
    if !ends_by(alloc, source, order) {
        return false;
    }
    match schedule_of(alloc, source, compiled, order) {
        Ok(events) => spells(alloc, source, words, events.as_slice()),
        Err(_) => false,
    }
}

/// Returns whether the statements of the first thread start at these instructions.
fn starts_at(compiled: &Compiled, starts: &[usize]) -> bool {
    match compiled.starts.as_slice() {
        [first, ..] => first.as_slice() == starts,
        [] => false,
    }
}

/// Returns whether the statements of the compiled source's first thread start at these instructions, and its run by
/// these threads is simulated by this schedule.
fn is_compiled_as_expected(
    alloc: Global,
    source: &Source,
    starts: &[usize],
    order: &[Cpu],
    words: &str,
) -> bool {
    match compile(alloc, source) {
        Ok(compiled) => {
            starts_at(&compiled, starts) && is_simulated_by(alloc, source, &compiled, order, words)
        }
        Err(_) => false,
    }
}

/// Returns whether the text is a source test that is compiled as expected.
fn holds(alloc: Global, text: &str, starts: &[usize], order: &[Cpu], words: &str) -> bool {
    match source_of(alloc, text) {
        Some(source) => is_compiled_as_expected(alloc, &source, starts, order, words),
        None => false,
    }
}

/// Fences where paths join, and at a jump to the end; a swap between registers; and a test of no statement.
#[test]
fn starts_of_statements(rt: HostRuntime) {
    let [p0, ..] = Cpu::all();
    let joins = "SRC A {} P0; x := 1; if r0 = 0 goto L; r1 := 5; L: r2 := y; exists (true)";
    assert!(rt;
        holds(
            rt.alloc(),
            joins,
            &[0, 1, 3, 4, 6],
            &[p0; 3],
            "P0 D0 P0 P0 P0 P0"
        )
    );
    let ends = "SRC A {} P0; x := 1; if r0 = 0 goto E; r0 := y; E:; exists (0:r0=0)";
    assert!(rt; holds(rt.alloc(), ends, &[0, 1, 3, 5], &[p0; 2], "P0 D0 P0 P0"));
    let swaps = "SRC A {} P0; r0 := x; r0 := swap x r1; r0 := r0 + r1; exists (true)";
    assert!(rt; holds(rt.alloc(), swaps, &[0, 1, 3, 4], &[p0; 3], "P0 P0 P0 P0"));
    assert!(rt; holds(rt.alloc(), "SRC A {} P0; exists (true)", &[0], &[], ""));
}

/// Store buffering, with fences and by swaps.
#[test]
fn schedules_of_runs(rt: HostRuntime) {
    let [p0, p1, ..] = Cpu::all();
    let plain = "SRC SB {} P0|P1; x := 1 | y := 1; r0 := y | r0 := x; exists (true)";
    let schedule = "P0 D0 P1 D1 P0 P0 P1 P1";
    assert!(rt; holds(rt.alloc(), plain, &[0, 1, 3], &[p0, p1, p0, p1], schedule));
    let swaps =
        "SRC SBS {0:r1=1;1:r1=1} P0|P1; r0 := swap x r1 | r0 := swap y r1; r2 := y | r2 := x; exists (true)";
    let schedule = "P0 P0 P0 P1 P1 P1";
    assert!(rt; holds(rt.alloc(), swaps, &[0, 2, 3], &[p0, p0, p1, p1], schedule));
}

/// Store buffering.
const STORE_BUFFERING: &str = "SRC SB {} P0|P1; x := 1 | y := 1; r0 := y | r0 := x; exists (true)";

/// Compiles the test.
struct Compilation;

/// Compiles a source test while memory is refused, and compares it with a later compilation.
fn compiled_by<A: Allocator + Copy>(ample: A, scarce: A, source: &Source<A>) -> Option<Made> {
    match (compile(scarce, source), compile(ample, source)) {
        (Ok(compiled), Ok(whole)) => (compiled.starts == whole.starts
            && compiled.program.threads == whole.program.threads).then_some(Made::Whole),
        (Err(AllocError), Ok(_)) => Some(Made::Refused),
        (_, Err(_)) => None,
    }
}

impl MadeByAllocator for Compilation {
    fn make<'a>(&self, ample: &'a Refusing, scarce: &'a Refusing) -> Option<Made> {
        match source_of(ample, STORE_BUFFERING) {
            Some(source) => compiled_by(ample, scarce, &source),
            None => None,
        }
    }
}

/// Makes the schedule that simulates a run of the test.
struct Schedule;

/// Makes the schedule that simulates a run by these threads while memory is refused, and compares it with a later
/// one.
fn scheduled_by<A: Allocator + Copy>(
    ample: A,
    scarce: A,
    source: &Source<A>,
    compiled: &Compiled<A>,
    order: &[Cpu],
) -> Option<Made>
    requires compiled { IsCompiled (test_of_source source.now) (program_of compiled.now.program) compiled.now.starts }
    requires ends { (end : State) × SourceRunsTo source.now.threads (map Step order.now) (initial_state (test_of_source source.now)) end }
{
    let schedule = schedule_of(scarce, source, compiled, order);
    match (schedule, schedule_of(ample, source, compiled, order)) {
        (Ok(events), Ok(whole)) => (events.as_slice() == whole.as_slice()).then_some(Made::Whole),
        (Err(AllocError), Ok(_)) => Some(Made::Refused),
        (_, Err(_)) => None,
    }
}

/// Does the same for a source test that is compiled while no memory is refused.
fn source_scheduled_by<A: Allocator + Copy>(
    ample: A,
    scarce: A,
    source: &Source<A>,
    order: &[Cpu],
) -> Option<Made> {
    if !ends_by(ample, source, order) {
        return None;
    }
    match compile(ample, source) {
        Ok(compiled) => scheduled_by(ample, scarce, source, &compiled, order),
        Err(_) => None,
    }
}

impl MadeByAllocator for Schedule {
    fn make<'a>(&self, ample: &'a Refusing, scarce: &'a Refusing) -> Option<Made> {
        let [p0, p1, ..] = Cpu::all();
        match source_of(ample, STORE_BUFFERING) {
            Some(source) => source_scheduled_by(ample, scarce, &source, &[p0, p1, p0, p1]),
            None => None,
        }
    }
}

#[test]
fn compiling_where_memory_is_refused(rt: HostRuntime) {
    let compiled = count_requests(rt.alloc(), &Compilation);
    assert!(rt;
        matches!(compiled, Some(number) if number > 0),
        "{compiled:?}"
    );
    let schedules = count_requests(rt.alloc(), &Schedule);
    assert!(rt;
        matches!(schedules, Some(number) if number > 0),
        "{schedules:?}"
    );
}
