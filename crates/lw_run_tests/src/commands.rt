//! Faults, statuses and the words of a command as values.
use lw_base::{CellCause, CellFault, End, ScheduleCause, ScheduleFault, Stop};
use lw_bench::{
    BenchFault, Protocol, Task, command_of, end_status, fault_line, status_of, success_status,
};
use lw_paths::ListFault;
use lw_text::{TextCause, TextFault};
use std::alloc::Global;
use std::test::Fail;

/// Returns whether a fault has this line and this exit status.
fn has_line_and_status(alloc: Global, fault: BenchFault, line: &str, status: u8) -> bool {
    match fault_line(alloc, &fault) {
        Ok(text) => text.as_str() == line && status_of(&fault) == status,
        Err(_) => false,
    }
}

#[test]
fn lines_of_faults(rt: HostRuntime) {
    for (fault, line, status) in [
        (BenchFault::Memory, "lw: memory", 4),
        (BenchFault::Read, "lw: read failed", 4),
        (BenchFault::Write, "lw: write failed", 4),
        (
            BenchFault::Limit(ListFault::TooManyItems),
            "lw: limit 1 TooManyItems",
            3,
        ),
        (
            BenchFault::Limit(ListFault::TooManyOrders),
            "lw: limit 2 TooManyOrders",
            3,
        ),
    ] {
        assert!(rt;
            has_line_and_status(rt.alloc(), fault, line, status),
            "{line}"
        );
    }
}

#[test]
fn statuses(rt: HostRuntime) {
    for (end, status) in [
        (End::Final, 0),
        (End::NotFinal, 1),
        (End::Stopped(Stop::Ended), 1),
    ] {
        assert!(rt; end_status(end) == status);
    }
    assert!(rt; success_status() == 0);
    let text = BenchFault::Text(TextFault {
        at: 0,
        cause: TextCause::Name,
    });
    let cell = BenchFault::Cell(CellFault {
        at: 0,
        cause: CellCause::Form,
    });
    let schedule = BenchFault::Schedule(ScheduleFault {
        at: 0,
        cause: ScheduleCause::Cpu,
    });
    for fault in [text, cell, schedule] {
        assert!(rt; status_of(&fault) == 1);
    }
}

/// Lists of words that are no command: one on each line, with commas between its words.
const OTHER_WORDS: &str = "
compile,P0
compile,
Compile
replay
replay,P0,P1
Replay,P0
states,
schedules,P0
schedule
replay,P0,--protocol
replay,P0,--protocol,MESI
replay,P0,--protocol=mesi
replay,--protocol,moesi,P0
replay,P0,--protocol,moesi,P0";

/// Returns whether the words are the command to replay by this schedule, over this protocol.
fn is_replay(words: &[&str], by: &str, over: Protocol) -> bool {
    match command_of(words) {
        Some(Task::Replay(schedule, protocol)) => schedule == by && protocol == over,
        Some(Task::States | Task::Compile | Task::Schedules) => false,
        None => false,
    }
}

#[test]
fn words_of_a_command(rt: HostRuntime) -> Result<(), Fail> {
    for word in ["P0 D0", "", "--protocol"] {
        let are_replays = is_replay(&["replay", word], word, Protocol::Mesi)
            && is_replay(
                &["replay", word, "--protocol", "mesi"],
                word,
                Protocol::Mesi,
            )
            && is_replay(
                &["replay", word, "--protocol", "moesi"],
                word,
                Protocol::Moesi,
            );
        assert!(rt; are_replays, "{word}");
    }
    assert!(rt; command_of(&["states"]) == Some(Task::States));
    assert!(rt; command_of(&["compile"]) == Some(Task::Compile));
    assert!(rt; command_of(&["schedules"]) == Some(Task::Schedules));
    assert!(rt; command_of(&[]).is_none());
    for line in OTHER_WORDS.split('\n') {
        let words: Vec<&str> = line.split(',').collect(rt.alloc())?;
        assert!(rt; command_of(words.as_slice()).is_none(), "{line}");
    }
    Ok(())
}
