//! Runs while memory is refused, each request in turn: the fault is `Memory`, and nothing is written.
use crate::devices::{Sheet, Tape};
use crate::runs::{RUNS, run_by_name};
use lw_bench::{BenchFault, FromRead, Task, ToWrite, answer, carry_out};
use lw_test_reader::{Made, MadeByAllocator, Refusing, count_requests};

/// A task, its text, and its whole output.
#[derive(Clone, Copy)]
struct Run {
    task: Task<'static>,
    text: &'static str,
    written: &'static str,
}

/// Returns how a run ended: `Whole` if its whole output was written, `Refused` if memory ran out and nothing was written, and `None` if
/// it did anything else.
fn result_of_run(outcome: Result<(), BenchFault>, sheet: &Sheet, written: &str) -> Option<Made> {
    match outcome {
        Ok(()) if sheet.is(written) => Some(Made::Whole),
        Err(BenchFault::Memory) if sheet.calls == 0 => Some(Made::Refused),
        _ => None,
    }
}

/// Runs the task by `carry_out`.
#[derive(Clone, Copy)]
struct CarriedOut(Run);

impl MadeByAllocator for CarriedOut {
    fn make<'a>(&self, _ample: &'a Refusing, scarce: &'a Refusing) -> Option<Made> {
        let Run {
            task,
            text,
            written,
        } = self.0;
        let mut reader = FromRead::new(Tape::new(text.as_bytes()));
        let mut writer = ToWrite::new(Sheet::new());
        let result = carry_out(scarce, task, &mut reader, &mut writer);
        result_of_run(result.map(|_| ()), &writer.writer, written)
    }
}

/// Runs the task by the function that is named after it.
#[derive(Clone, Copy)]
struct ByName(Run);

impl MadeByAllocator for ByName {
    fn make<'a>(&self, _ample: &'a Refusing, scarce: &'a Refusing) -> Option<Made> {
        let Run {
            task,
            text,
            written,
        } = self.0;
        let mut reader = FromRead::new(Tape::new(text.as_bytes()));
        let mut writer = ToWrite::new(Sheet::new());
        let result = run_by_name(scarce, task, &mut reader, &mut writer);
        result_of_run(result, &writer.writer, written)
    }
}

/// Makes the output by `answer`, which returns it.
#[derive(Clone, Copy)]
struct Answered(Run);

impl MadeByAllocator for Answered {
    fn make<'a>(&self, _ample: &'a Refusing, scarce: &'a Refusing) -> Option<Made> {
        let Run {
            task,
            text,
            written,
        } = self.0;
        match answer(scarce, task, text.as_bytes()) {
            Ok((made, 0)) if made.as_str() == written => Some(Made::Whole),
            Err(BenchFault::Memory) => Some(Made::Refused),
            _ => None,
        }
    }
}

#[test]
fn runs_where_memory_is_refused(rt: HostRuntime) {
    for (task, text, written) in RUNS {
        let run = Run {
            task,
            text,
            written,
        };
        let carried_out = count_requests(rt.alloc(), &CarriedOut(run));
        let by_name = count_requests(rt.alloc(), &ByName(run));
        let answered = count_requests(rt.alloc(), &Answered(run));
        assert!(rt;
            matches!((carried_out, by_name, answered), (Some(a), Some(b), Some(c)) if a > 0 && b > 0 && c > 0),
            "{carried_out:?} {by_name:?} {answered:?}"
        );
    }
}
