//! The words of a command line, and the task that they name.
ghost use Rattle.std.specs.Prelude.{◌≡◌, [], ◌∷◌, MatchOption, codes, map};
ghost use Rattle.lw_base.specs.NoParse.{HoldsOfNothing};
ghost use Rattle.lw_bench.specs.declared.command.Task.{Task};
ghost use Rattle.lw_bench.specs.Commands.{IsCommand, IsProtocolOption};

use lw_mesi::Protocol;

/// The task of a run.
#[derive(Clone, Copy, PartialEq, Eq)]
pub enum Task<'a> {
    /// Writes the report of the test: its final states and the verdict on its condition.
    States,
    /// Writes the canonical text of the test; a source test is compiled to x86 first.
    Compile,
    /// Writes the list of the test's final states, each with a schedule.
    Schedules,
    /// Replays the test by this schedule, an x86 test over caches of this protocol, and writes the state that it
    /// reaches.
    Replay(&'a str, Protocol),
}

/// Parses the arguments after the program's name: `states`, `compile` or `schedules`; or `replay` and a schedule,
/// which may be empty, and optionally `--protocol` and a protocol's name. Without the option the protocol is MESI.
/// Returns `None` for all other arguments. Does not allocate.
pub fn command_of<'a>(arguments: &[&'a str]) -> Option<Task<'a>>
    ensures { MatchOption result
        (HoldsOfNothing (IsCommand (map (λ w. w.now) arguments.now)))
        (IsCommand (map (λ w. w.now) arguments.now)) }
{
    let [command, others @ ..] = arguments else {
        return None;
    };
    match *command {
        "states" => without_arguments(others, Task::States),
        "compile" => without_arguments(others, Task::Compile),
        "schedules" => without_arguments(others, Task::Schedules),
        "replay" => replay_command(others),
        _ => None,
    }
}

/// Returns the task if no arguments follow its name, and `None` otherwise. For the tasks that take none.
fn without_arguments<'a>(others: &[&'a str], task: Task<'a>) -> Option<Task<'a>>
    ensures { MatchOption result (others.now ≡ [] → ⊥) (λ given. (others.now ≡ []) × (given ≡ task.entry)) }
{
    if !others.is_empty() {
        return None;
    }
    Some(task)
}

/// Parses the arguments after `replay`: a schedule, and optionally a protocol. Returns `None` for all others.
fn replay_command<'a>(others: &[&'a str]) -> Option<Task<'a>>
    ensures { MatchOption result
        (HoldsOfNothing (IsCommand (codes "replay" ∷ map (λ w. w.now) others.now)))
        (IsCommand (codes "replay" ∷ map (λ w. w.now) others.now)) }
{
    let [schedule, option @ ..] = others else {
        return None;
    };
    let protocol = protocol_of(option)?;
    Some(Task::Replay(schedule, protocol))
}

/// Parses the arguments after the schedule as a protocol: `--protocol` and its name, or nothing for MESI. Returns `None` for
/// all others.
fn protocol_of(option: &[&str]) -> Option<Protocol>
    ensures { MatchOption result
        (HoldsOfNothing (IsProtocolOption (map (λ w. w.now) option.now)))
        (IsProtocolOption (map (λ w. w.now) option.now)) }
{
    if option.is_empty() {
        return Some(Protocol::Mesi);
    }
    let [name, word] = option else {
        return None;
    };
    if *name != "--protocol" {
        return None;
    }
    Protocol::from_name(word)
}
