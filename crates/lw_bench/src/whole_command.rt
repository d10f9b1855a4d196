//! The whole command: from the words of a command line, and the result of reading standard input, to the ending of
//! the run.
ghost use Rattle.std.specs.Prelude.{◌≡◌, ◌⊎◌, false, map, if◌then◌else◌, IfOk, IfErr};
ghost use Rattle.std.specs.String.{string_bytes};
ghost use Rattle.lw_base.specs.NoParse.{HoldsOfNothing};
ghost use Rattle.lw_bench.specs.Commands.{IsCommand};
ghost use Rattle.lw_bench.specs.Endings.{EndsTask, Reports, WritesLine};
ghost use Rattle.lw_bench.specs.Devices.{IsInput};
ghost use Rattle.lw_bench.specs.Faults as faults;
ghost use Rattle.lw_bench.specs.declared.command.Task.{Task};

use crate::command::{Task, command_of};
use crate::device::ByteReader;
use crate::ending::{Ending, Line, refusal_of};
use crate::fault::{BenchFault, usage_line, usage_status};
use crate::input::read_input;
use crate::render::answer;
use std::alloc::{AllocError, Allocator};

/// Borrows words as texts, in their order. Fails only if memory runs out.
pub fn texts_of<A: Allocator>(alloc: A, words: &[String<A>]) -> Result<Vec<&str, A>, AllocError>
    ensures { IfOk result (λ texts. map (λ t. t.now) texts.items ≡ map string_bytes words.now) }
{
    let mut texts = Vec::new(alloc);
    for word in words {
        texts.push(word.as_str())?;
    }
    Ok(texts)
}

/// Reads the input of the command that the words name, to its end or up to 65,537 bytes, one more than a text may have. If the words
/// name no command, nothing is read, and the result is empty.
pub fn read_for<R: ByteReader, A: Allocator>(
    alloc: A,
    words: &[&str],
    reader: &mut R,
) -> Result<Vec<u8, A>, BenchFault>
    requires { R.failed reader.old ≡ false }
    ensures unread { HoldsOfNothing (IsCommand (map (λ w. w.now) words.now)) → reader.new ≡ reader.old }
    ensures bytes { (task : Task) → IsCommand (map (λ w. w.now) words.now) task → IfOk result (λ bytes. IsInput (R.remaining reader.old) bytes.items) }
    ensures err { IfErr result (λ f. f ≡ (if R.failed reader.new then BenchFault.Read else BenchFault.Memory)) }
{
    if command_of(words).is_none() {
        return Ok(Vec::new(alloc));
    }
    read_input(alloc, reader)
}

/// Returns the ending of a task on a text: its output, or the report of a fault.
fn end_task<A: Allocator + Copy>(alloc: A, task: Task<'_>, text: &[u8]) -> Ending<A>
    ensures { EndsTask task.entry text.now result }
{
    match answer(alloc, task, text) {
        Ok((output, status)) => Ending::Answer(output, status),
        Err(fault) => refusal_of(alloc, &fault),
    }
}

/// Returns how a run of the program ends: from the words after the program's name, and what reading the input gave.
pub fn run_command<A: Allocator + Copy>(
    alloc: A,
    words: &[&str],
    input: &Result<Vec<u8, A>, BenchFault>,
) -> Ending<A>
    // If the words name no task, the run ends with the usage line, whatever the input is.
    ensures usage { HoldsOfNothing (IsCommand (map (λ w. w.now) words.now)) → WritesLine faults.usage_text faults.usage_status result }
    // Otherwise the run ends as the task that the words name: if reading failed, the ending reports that, and if not, it is what the task
    // makes of the bytes, or the report of a fault that is true of them.
    ensures ended { HoldsOfNothing (IsCommand (map (λ w. w.now) words.now)) ⊎ ((task : Task) × IsCommand (map (λ w. w.now) words.now) task
        × IfErr input.now (λ f. Reports f result) × IfOk input.now (λ text. EndsTask task text.items result)) }
{
    let Some(task) = command_of(words) else {
        return Ending::Refusal(Line::Fixed(usage_line()), usage_status());
    };
    match input {
        Ok(text) => end_task(alloc, task, text.as_slice()),
        Err(fault) => refusal_of(alloc, fault),
    }
}
