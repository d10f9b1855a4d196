//! The state that a run has reached, read as an outcome and word by word.
ghost use Rattle.std.specs.Prelude.{◌≡◌, length};

use lw_base::{Cpu, End, Event, Loc, Reg};
use lw_source::{Source, SourceRun};
use lw_test_reader::source_of;
use std::alloc::Global;

/// Store buffering.
const STORE_BUFFERING: &str =
    "SRC SB {} P0|P1; x := 1 | y := 1; r0 := y | r0 := x; exists (0:r0=0 /\\ 1:r0=0)";

/// Returns whether a run's outcome has a 1 in each location and in the first register of the first thread, and 0 in all other registers.
fn has_outcome(run: &SourceRun<'_>) -> bool {
    match run.outcome() {
        Ok(outcome) => {
            outcome.regs.as_slice() == [[1, 0, 0, 0, 0, 0], [0; 6]].as_slice()
                && outcome.words.as_slice() == [1, 1].as_slice()
        }
        Err(_) => false,
    }
}

/// Returns whether `reg` and `word` give the same state of two threads and two locations: 1 in each location and in the first register
/// of the first thread, 0 in its second register and in the first register of the second thread.
fn has_same_words(run: &SourceRun<'_>) -> bool
    requires threads { length run.now.state.threads ≡ 2 }
    requires words { length run.now.state.words ≡ 2 }
{
    let ([p0, p1, ..], [r0, r1, ..], [x, y, ..]) = (Cpu::all(), Reg::all(), Loc::all());
    let registers = [run.reg(p0, r0), run.reg(p0, r1), run.reg(p1, r0)];
    registers == [1, 0, 0] && [run.word(x), run.word(y)] == [1, 1]
}

/// Returns whether these steps are all carried out, do not end the run, and reach the state of `has_outcome`.
fn steps_reach_outcome(alloc: Global, source: &Source, steps: [Cpu; 3]) -> bool {
    match SourceRun::new(alloc, source) {
        Ok(mut run) => {
            let replay = run.run(&steps.map(Event::Step));
            replay.done == 3
                && replay.end == End::NotFinal
                && has_outcome(&run)
                && source.head.threads == 2
                && source.head.locs.len() == 2
                && has_same_words(&run)
        }
        Err(_) => false,
    }
}

#[test]
fn outcome_of_a_run(rt: HostRuntime) {
    let [p0, p1, ..] = Cpu::all();
    let is_reached = match source_of(rt.alloc(), STORE_BUFFERING) {
        Some(source) => steps_reach_outcome(rt.alloc(), &source, [p0, p1, p0]),
        None => false,
    };
    assert!(rt; is_reached);
}
