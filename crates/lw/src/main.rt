//! The program: `lw states` reports the final states of the test on standard input; `lw compile` compiles it; `lw schedules` lists a
//! schedule for each of its final states; `lw replay SCHEDULE`, which may be followed by `--protocol` and a protocol's name, replays it.
//! What a run writes to both streams, and its exit status, are those of `lw_bench::run_command`; only words, streams and status are added.
#![tactic(auto)]

use lw_bench::{
    BenchFault, Ending, FromRead, ToWrite, read_for, refusal_of, run_command, texts_of,
    write_output,
};
use std::alloc::Global;
use std::env;
use std::process::ExitCode;

/// Runs the program on its host, and returns its exit status.
fn main(rt: HostRuntime) -> ExitCode {
    let ending = match ending_of(&rt) {
        Ok(ending) => ending,
        Err(fault) => refusal_of(rt.alloc(), &fault),
    };
    let ending = match write_output(&mut ToWrite::new(rt.stdout()), ending.output()) {
        Ok(()) => ending,
        Err(fault) => refusal_of(rt.alloc(), &fault),
    };
    if let Some(line) = ending.line() {
        // If this fails, nothing more can be reported.
        let _ = rt.eprintln(line);
    }
    ExitCode::from(ending.status())
}

/// Reads the words after the program's name, and the input of the command that they name, and returns how the run ends.
fn ending_of(rt: &HostRuntime) -> Result<Ending<Global>, BenchFault> {
    let mut words = Vec::new(rt.alloc());
    for word in env::args(rt)?.skip(1) {
        words.push(word)?;
    }
    let words = texts_of(rt.alloc(), &words)?;
    let input = read_for(rt.alloc(), &words, &mut FromRead::new(rt.stdin()));
    Ok(run_command(rt.alloc(), &words, &input))
}
