//! The words of a command line.
use lw_beyond::{Output, command_of};

/// Returns whether the words give a command with these parts.
fn gives(
    words: &[&str],
    output: Output,
    search: bool,
    budget: usize,
    reports_method: bool,
) -> bool {
    match command_of(words) {
        Some(command) => {
            command.request.output == output
                && command.request.search == search
                && command.request.budget == budget
                && command.reports_method == reports_method
        }
        None => false,
    }
}

/// Returns whether the words give no command.
fn gives_none(words: &[&str]) -> bool {
    command_of(words).is_none()
}

#[test]
fn words_that_give_a_command(rt: HostRuntime) {
    let states = Output::States;
    let schedules = Output::Schedules;
    assert!(rt; gives(&["states"], states, false, 10_000_000, false));
    assert!(rt; gives(&["schedules"], schedules, false, 10_000_000, false));
    assert!(rt; gives(&["marks"], Output::Marks, false, 10_000_000, false));
    assert!(rt; gives(&["--search", "states"], states, true, 10_000_000, false));
    assert!(rt; gives(&["--budget", "0", "states"], states, false, 0, false));
    assert!(rt;
        gives(
            &["--budget", "007", "--search", "schedules"],
            schedules,
            true,
            7,
            false
        )
    );
    assert!(rt;
        gives(
            &["--method", "--budget", "205", "--search", "states"],
            states,
            true,
            205,
            true
        )
    );
}

#[test]
fn words_that_give_none(rt: HostRuntime) {
    assert!(rt; gives_none(&[]));
    assert!(rt; gives_none(&["State"]));
    assert!(rt; gives_none(&["states", "states"]));
    assert!(rt; gives_none(&["states", "--search"]));
    assert!(rt; gives_none(&["--search"]));
    assert!(rt; gives_none(&["--search", "--search", "states"]));
    assert!(rt; gives_none(&["--method", "--method", "states"]));
    assert!(rt; gives_none(&["--budget", "1", "--budget", "2", "states"]));
    assert!(rt; gives_none(&["--budget", "states"]));
    assert!(rt; gives_none(&["--budget", "", "states"]));
    assert!(rt; gives_none(&["--budget", "+1", "states"]));
    assert!(rt; gives_none(&["--budget", "-1", "states"]));
    assert!(rt; gives_none(&["--budget", "1e3", "states"]));
    assert!(rt; gives_none(&["--budget", "18446744073709551616", "states"]));
}
