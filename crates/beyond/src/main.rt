//! The program `beyond`: `beyond states` reports the final states of the test on standard input, and `beyond schedules` lists a schedule
//! for each; for tests of any size, within a budget of states. It reads standard input, has lw_beyond answer those bytes, and writes the
//! output to standard output.
#![tactic(auto)]

use lw_bench::{
    BenchFault, FromRead, ToWrite, memory_line, read_input, usage_status, write_output,
};
use lw_beyond::{
    BeyondFault, Command, Method, answer_request, command_of, fault_line, status_of, usage_line,
};
use std::alloc::Global;
use std::process::ExitCode;
use std::{env, io};

/// Runs the program on its host, and returns its exit status.
fn main(rt: HostRuntime) -> ExitCode {
    ExitCode::from(run(&rt))
}

/// Does what the words of the command line say, and returns the exit status.
fn run(rt: &HostRuntime) -> u8 {
    match words_of(rt) {
        Ok(words) => run_with(rt, &words),
        Err(fault) => refuse(rt, &BeyondFault::from(fault)),
    }
}

/// Returns the words after the program's name.
fn words_of(rt: &HostRuntime) -> Result<Vec<String>, BenchFault> {
    let args = match env::args(rt) {
        Ok(args) => args,
        Err(error) if error.kind() == io::ErrorKind::OutOfMemory => return Err(BenchFault::Memory),
        Err(_) => return Err(BenchFault::Read),
    };
    let mut words = Vec::new(rt.alloc());
    for word in args.skip(1) {
        words.push(word)?;
    }
    Ok(words)
}

/// Does what the words say, and returns the exit status.
fn run_with(rt: &HostRuntime, words: &[String]) -> u8 {
    match texts_of(rt.alloc(), words) {
        Err(fault) => refuse(rt, &BeyondFault::from(fault)),
        Ok(texts) => match command_of(&texts) {
            Some(command) => carry_out(rt, &command),
            None => {
                complain(rt, usage_line());
                usage_status()
            }
        },
    }
}

/// Returns the texts of the words.
fn texts_of(alloc: Global, words: &[String]) -> Result<Vec<&str>, BenchFault> {
    let mut texts = Vec::new(alloc);
    for word in words {
        texts.push(word.as_str())?;
    }
    Ok(texts)
}

/// Carries a command out on standard input, with its output on standard output, and returns the exit status.
fn carry_out(rt: &HostRuntime, command: &Command) -> u8 {
    match answer_input(rt, command) {
        Ok(method) => {
            if command.reports_method {
                report_method(rt, method);
            }
            0
        }
        Err(fault) => refuse(rt, &fault),
    }
}

/// Reads standard input, writes the output of the request on its bytes to standard output, and returns how the list was made.
fn answer_input(rt: &HostRuntime, command: &Command) -> Result<Method, BeyondFault> {
    let text = read_input(rt.alloc(), &mut FromRead::new(rt.stdin()))?;
    let answer = answer_request(rt.alloc(), &command.request, text.as_slice())?;
    write_output(
        &mut ToWrite::new(rt.stdout()),
        answer.text.as_str().as_bytes(),
    )?;
    Ok(answer.method)
}

/// Prints how a list was made on standard error.
fn report_method(rt: &HostRuntime, method: Method) {
    match method {
        Method::Orders => complain(rt, "beyond: listed by orders"),
        Method::Search(states) => {
            let _ = eprintln!(rt; "beyond: listed by a search of {} states", states);
        }
    }
}

/// Reports a fault on standard error, and returns the exit status. If memory runs out for the fault's line, it reports that.
fn refuse(rt: &HostRuntime, fault: &BeyondFault) -> u8 {
    match fault_line(rt.alloc(), fault) {
        Ok(line) => {
            complain(rt, line.as_str());
            status_of(fault)
        }
        Err(_) => {
            complain(rt, memory_line());
            status_of(&BeyondFault::Bench(BenchFault::Memory))
        }
    }
}

/// Prints a line on standard error. If that fails, nothing more can be reported.
fn complain(rt: &HostRuntime, line: &str) {
    let _ = rt.eprintln(line);
}
