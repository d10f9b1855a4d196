//! The words of a command line, and the request that they name. No contract says what the words mean (docs/DECISIONS.md).

use crate::lists::{Output, Request};

/// The budget of a search, in states, if the words name none.
const DEFAULT_BUDGET: usize = 10_000_000;

/// A command: a request, and whether the method of its list is to be reported.
#[derive(Clone, Copy)]
pub struct Command {
    /// The request.
    pub request: Request,
    /// Whether a line on standard error says how the list was made.
    pub reports_method: bool,
}

/// Parses the words after the program's name: the options `--search`, `--budget N` and `--method`, each at most once
/// and in any order, followed by `states`, `schedules` or `marks`. Returns `None` for all other words. Does not allocate.
pub fn command_of(words: &[&str]) -> Option<Command> {
    let mut rest = words;
    let mut search = false;
    let mut reports_method = false;
    let mut budget = None;
    while let [word, others @ ..] = rest {
        match *word {
            "--search" if !search => search = true,
            "--method" if !reports_method => reports_method = true,
            "--budget" if budget.is_none() => {
                let [number, after @ ..] = others else {
                    return None;
                };
                budget = Some(parse_budget(number)?);
                rest = after;
                continue;
            }
            _ => break,
        }
        rest = others;
    }
    let output = parse_output(rest)?;
    let request = Request {
        output,
        search,
        budget: budget.unwrap_or(DEFAULT_BUDGET),
    };
    Some(Command {
        request,
        reports_method,
    })
}

/// Parses a word of digits as a number. Returns `None` for any other word and for a number that does not fit.
fn parse_budget(word: &str) -> Option<usize> {
    if !word.bytes().all(|byte| byte.is_ascii_digit()) {
        return None;
    }
    word.parse::<usize>().ok()
}

/// Returns the output that the only word names. Returns `None` if it names none, or there is not exactly one word.
fn parse_output(words: &[&str]) -> Option<Output> {
    let [word] = words else {
        return None;
    };
    match *word {
        "states" => Some(Output::States),
        "schedules" => Some(Output::Schedules),
        "marks" => Some(Output::Marks),
        _ => None,
    }
}

/// Returns the line that says how the program is used, without a line end.
pub fn usage_line() -> &'static str {
    "usage: beyond [--search] [--budget N] [--method] states|schedules|marks"
}
