//! Invisible events: those that conflict with no event of another thread, now or later.
ghost use Rattle.std.specs.Prelude.{◌≡◌, ◌<◌, ◌++◌, ◌∷◌, [], ℕ, Bool, List, true, Some, if◌then◌else◌, length, slice_get, IfOk, OnOk};
ghost use Rattle.std.specs.Option.{option_to_list};
ghost use Rattle.lw_base.specs.declared.event.Event.TheVariants as of;
ghost use Rattle.lw_search.specs.inner.Accesses.{AvoidsConflicts};
ghost use Rattle.lw_search.specs.inner.InvisibleEvents.{operation_access, drain_access};
ghost use Rattle.lw_search.specs.inner.StateKeys.{events_of};
ghost use Rattle.lw_search.specs.inner.Invariant.{Settles};

use crate::accesses::Conflicts;
use crate::run::{Run, RunEvent};
use crate::search::instr_at;
use crate::thread_state::ThreadState;
use lw_base::{Cpu, Sequence, Word};
use lw_litmus::{Instr, Operation, Program, Statement};
use std::alloc::{AllocError, Allocator};

/// The maximum number of invisible events of a thread that are taken in a row: no code has more instructions and
/// drains of its stores together.
const MOST_EVENTS: u32 = 64;

/// Returns the location that an operation accesses in memory, and whether it writes it, or `None` if the operation accesses none.
pub(crate) fn access_of(operation: Operation) -> Option<(u8, bool)>
    ensures { result ≡ operation_access operation }
{
    match operation {
        Operation::Load { loc, .. } => Some((loc.index() as u8, false)),
        Operation::Swap { loc, .. } => Some((loc.index() as u8, true)),
        Operation::FetchAdd(_, loc, _) => Some((loc.index() as u8, true)),
        _ => None,
    }
}

/// Returns whether an access, if there is one, is of a location of memory, and is none of these conflicts. The contract promises nothing of
/// `false`, with which an event is only not taken early.
fn is_invisible<A: Allocator>(
    conflicts: Conflicts,
    words: &Sequence<Word, A>,
    access: Option<(u8, bool)>,
) -> bool
    ensures { result ≡ true → AvoidsConflicts conflicts words.now access }
{
    let Some((loc, written)) = access else {
        return true;
    };
    usize::from(loc) < words.len() && conflicts.lacks(loc, written)
}

/// Takes the next step of a thread, if it is invisible given the conflicts of the other threads, and enabled. Returns whether it did.
fn take_step<A: Allocator>(
    program: &Program<A>,
    conflicts: Conflicts,
    cpu: Cpu,
    code: &[Instr],
    thread: &mut ThreadState<A>,
    words: &mut Sequence<Word, A>,
) -> Result<bool, AllocError>
    requires { slice_get program.now.threads cpu ≡ Some code.now }
    ensures { IfOk result (λ r. Settles program.now.threads conflicts cpu (if r then of.Step cpu ∷ [] else [])
        thread.old words.old thread.new words.new) }
{
    let Some(instr) = instr_at(code, thread.position()) else {
        return Ok(false);
    };
    if !is_invisible(conflicts, words, access_of(instr.operation())) {
        return Ok(false);
    }
    thread.carry_out(instr.operation(), words)
}

/// Returns the access of the drain of a thread, or `None` if its store buffer is empty.
pub(crate) fn drain_access_of<A: Allocator>(thread: &ThreadState<A>) -> Option<(u8, bool)>
    ensures { result ≡ drain_access thread.now.buffer }
{
    match thread.buffer.as_slice().get(0) {
        Some(entry) => Some((entry.0, true)),
        None => None,
    }
}

/// Drains the oldest entry of a thread, if the drain is invisible given the conflicts of the other threads, and there is an entry. Returns
/// whether it did.
fn take_drain<A: Allocator>(
    program: &Program<A>,
    conflicts: Conflicts,
    cpu: Cpu,
    thread: &mut ThreadState<A>,
    words: &mut Sequence<Word, A>,
) -> bool
    requires { cpu < length program.now.threads }
    ensures { Settles program.now.threads conflicts cpu (if result then of.Drain cpu ∷ [] else [])
        thread.old words.old thread.new words.new }
{
    if !is_invisible(conflicts, words, drain_access_of(thread)) {
        return false;
    }
    thread.drain(words)
}

/// Takes an invisible event of a thread, given the conflicts of the other threads, if one is enabled. Returns it.
fn take_event<A: Allocator>(
    program: &Program<A>,
    conflicts: Conflicts,
    cpu: Cpu,
    code: &[Instr],
    thread: &mut ThreadState<A>,
    words: &mut Sequence<Word, A>,
) -> Result<Option<RunEvent>, AllocError>
    requires { slice_get program.now.threads cpu ≡ Some code.now }
    ensures { IfOk result (λ r. Settles program.now.threads conflicts cpu (events_of (option_to_list r))
        thread.old words.old thread.new words.new) }
{
    if take_step(program, conflicts, cpu, code, thread, words)? {
        return Ok(Some(RunEvent::step(cpu)));
    }
    if take_drain(program, conflicts, cpu, thread, words) {
        return Ok(Some(RunEvent::drain(cpu)));
    }
    Ok(None)
}

/// Takes invisible events of a thread, given the conflicts of the other threads, for as long as one is enabled, and appends them to a run.
pub(crate) fn settle<A: Allocator>(
    program: &Program<A>,
    conflicts: Conflicts,
    cpu: Cpu,
    code: &[Instr],
    thread: &mut ThreadState<A>,
    words: &mut Sequence<Word, A>,
    run: &mut Run<A>,
) -> Result<(), AllocError>
    requires { slice_get program.now.threads cpu ≡ Some code.now }
    ensures { OnOk result ((more : List (ℕ × Bool)) × (run.new ≡ run.old ++ more)
        × Settles program.now.threads conflicts cpu (events_of more) thread.old words.old thread.new words.new) }
{
    for _ in 0..MOST_EVENTS {
        match take_event(program, conflicts, cpu, code, thread, words)? {
            Some(event) => run.push(event)?,
            None => return Ok(()),
        }
    }
    Ok(())
}
