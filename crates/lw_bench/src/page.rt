//! The page of a replay.
ghost use Rattle.std.specs.Prelude.{◌≡◌, ◌<◌, ◌≤◌, ◌++◌, ℕ, Some, codes, length, map, slice_get, slice_index, slice_index_or, [], IfOk, OnOk};
ghost use Rattle.std.specs.Fmt.{decimal};
ghost use Rattle.std.specs.String.{string_bytes};
ghost use Rattle.lw_base.specs.Heads.{head_of};
ghost use Rattle.lw_base.specs.declared.limits.TheConstants.{REGISTERS};
ghost use Rattle.lw_base.specs.declared.stop.End.TheVariants as ends;
ghost use Rattle.lw_bench.specs.Pages as pages;
ghost use Rattle.lw_bench.specs.Pages.{numbered, named, first_lines, end_text, word_line, buffer_line, cache_states_line, location_line, processor_lines};
ghost use Rattle.lw_interleaving.specs.Runs.{source_outcome};
ghost use Rattle.lw_interleaving.specs.declared.thread.Thread.{Thread};
ghost use Rattle.lw_memory.specs.Memory.{memory_of};
ghost use Rattle.lw_tso.specs.Machines.{buffer_of};
ghost use Rattle.lw_tso.specs.Processors.{Processor};
ghost use Rattle.lw_tso.specs.Runs.{machine_outcome};

use lw_base::{
    Arch, Cpu, End, Head, Loc, LocNames, MAX_THREADS, Outcome, REGISTERS, Reg, Replay, Text, Word,
    reg_name,
};
use lw_interleaving::SourceRun;
use lw_memory::{LineState, MemorySystem};
use lw_tso::Machine;
use std::alloc::{AllocError, Allocator};

/// Renders the page of a source test's replay and of the state that it reached.
pub(crate) fn source_page<A: Allocator + Copy>(
    alloc: A,
    head: &Head<A>,
    run: &SourceRun<'_, A, A>,
    replay: Replay,
) -> Result<Text<A>, AllocError>
    requires bounded { head.now.threads ≤ MAX_THREADS }
    requires threads { length run.now.state.threads ≡ head.now.threads }
    requires words { length run.now.state.words ≡ length head.now.locs }
    ensures { IfOk result (λ text. text ≡ pages.source_page (head_of head.now) replay run.now.state) }
{
    let state = run.outcome()?;
    let mut out = String::new(alloc);
    let written = write_source_page(&mut out, head, run, &state, replay);
    drop(state);
    written?;
    Ok(Text::from(out))
}

/// Writes the page of a source test's replay; `state` has the registers and words of the run's current state. It is
/// borrowed, and the caller drops it, since a drop is proved at each exit of the function that owns the value.
fn write_source_page<A: Allocator>(
    out: &mut String<A>,
    head: &Head<A>,
    run: &SourceRun<'_, A, A>,
    state: &Outcome<A>,
    replay: Replay,
) -> Result<(), AllocError>
    requires bounded { head.now.threads ≤ MAX_THREADS }
    requires threads { length run.now.state.threads ≡ head.now.threads }
    requires words { length run.now.state.words ≡ length head.now.locs }
    requires outcome { state.now ≡ source_outcome run.now.state }
    ensures { OnOk result (string_bytes out.new
        ≡ string_bytes out.old ++ pages.source_page (head_of head.now) replay run.now.state) }
{
    write_first_lines(out, head, replay)?;
    write_threads(out, head, run, state.regs.as_slice())?;
    write_words(out, "Memory", &head.locs, state.words.as_slice())
}

/// Renders the page of an x86 test's replay and of the state that it reached.
pub(crate) fn machine_page<M: MemorySystem, A: Allocator + Copy>(
    alloc: A,
    head: &Head<A>,
    machine: &Machine<'_, M, A, A>,
    replay: Replay,
) -> Result<Text<A>, AllocError>
    requires bounded { head.now.threads ≤ MAX_THREADS }
    requires threads { length machine.now.state.processors ≡ head.now.threads }
    requires words { length (M.content machine.now.state.memory) ≡ length head.now.locs }
    ensures { IfOk result (λ text. text
        ≡ pages.machine_page (head_of head.now) replay machine.now.state.processors (M.state machine.now.state.memory)
        (M.memory machine.now.state.memory) (M.content machine.now.state.memory)) }
{
    let state = machine.outcome()?;
    let mut out = String::new(alloc);
    let written = write_machine_page(&mut out, head, machine, &state, replay);
    drop(state);
    written?;
    Ok(Text::from(out))
}

/// Writes the page of an x86 test's replay; `state` has the registers and the content of the machine's current state.
fn write_machine_page<M: MemorySystem, A: Allocator>(
    out: &mut String<A>,
    head: &Head<A>,
    machine: &Machine<'_, M, A, A>,
    state: &Outcome<A>,
    replay: Replay,
) -> Result<(), AllocError>
    requires bounded { head.now.threads ≤ MAX_THREADS }
    requires threads { length machine.now.state.processors ≡ head.now.threads }
    requires words { length (M.content machine.now.state.memory) ≡ length head.now.locs }
    requires outcome { state.now ≡ machine_outcome (memory_of M.content M.state M.serves) machine.now.state }
    ensures { OnOk result (string_bytes out.new ≡ string_bytes out.old
        ++ pages.machine_page (head_of head.now) replay machine.now.state.processors (M.state machine.now.state.memory)
        (M.memory machine.now.state.memory) (M.content machine.now.state.memory)) }
{
    write_first_lines(out, head, replay)?;
    write_processors(out, head, machine, state.regs.as_slice())?;
    write_memory(out, &head.locs, machine.memory())?;
    write_words(out, "Content", &head.locs, state.words.as_slice())
}

/// Writes the test's name, the number of events that were carried out, and how the replay ended.
fn write_first_lines<A: Allocator>(
    out: &mut String<A>,
    head: &Head<A>,
    replay: Replay,
) -> Result<(), AllocError>
    ensures { OnOk result (string_bytes out.new ≡ string_bytes out.old ++ first_lines (head_of head.now) replay) }
{
    write!(
        out,
        "Test {}\nSteps {}\nEnd ",
        head.name.as_str(),
        replay.done
    )?;
    write_end(out, replay)
}

/// Writes how a replay ended, and the line end.
fn write_end<A: Allocator>(out: &mut String<A>, replay: Replay) -> Result<(), AllocError>
    ensures { OnOk result (string_bytes out.new ≡ string_bytes out.old ++ (end_text replay.done replay.end ++ codes "\n")) }
{
    match replay.end {
        End::Final => out.push_str("Final\n"),
        End::NotFinal => out.push_str("NotFinal\n"),
        End::Stopped(stop) => {
            let (code, name) = (stop.code(), stop.name());
            writeln!(out, "Stopped at {} by {} {}", replay.done, code, name)
        }
    }
}

/// Writes a line for each thread of a source test.
fn write_threads<A: Allocator>(
    out: &mut String<A>,
    head: &Head<A>,
    run: &SourceRun<'_, A, A>,
    regs: &[[Word; REGISTERS]],
) -> Result<(), AllocError>
    requires bounded { head.now.threads ≤ MAX_THREADS }
    requires threads { length run.now.state.threads ≡ head.now.threads }
    requires regs { regs.now ≡ map (λ (t : Thread). t.regs) run.now.state.threads }
    ensures { OnOk result (string_bytes out.new ≡ string_bytes out.old
        ++ numbered (λ t (th : Thread). pages.thread_line head.now.arch t th.position th.regs) 0 run.now.state.threads) }
{
    for cpu in &Cpu::all()[..head.threads] {
        write_thread(out, head.arch, *cpu, run.position(*cpu), &regs[cpu.index()])?;
    }
    Ok(())
}

/// Writes a thread's position and its registers.
fn write_thread<A: Allocator>(
    out: &mut String<A>,
    arch: Arch,
    cpu: Cpu,
    position: usize,
    regs: &[Word; REGISTERS],
) -> Result<(), AllocError>
    ensures { OnOk result (string_bytes out.new ≡ string_bytes out.old ++ pages.thread_line arch cpu position regs.now) }
{
    write!(out, "P{} at {}", cpu.index(), position)?;
    for reg in Reg::all() {
        write_assignment(out, reg_name(arch, reg), regs[reg.index()])?;
    }
    out.push_str("\n")
}

/// Writes a space, and a name with its word. (The definition `named` passes an index to its function, which this one ignores.)
fn write_assignment<A: Allocator>(
    out: &mut String<A>,
    name: &str,
    word: Word,
) -> Result<(), AllocError>
    ensures { OnOk result (string_bytes out.new ≡ string_bytes out.old ++ named (λ _. decimal word) 0 name.now) }
{
    write!(out, " {}={}", name, word)
}

/// Writes a line with a title and a word for each location.
fn write_words<A: Allocator>(
    out: &mut String<A>,
    title: &str,
    locs: &LocNames<A>,
    words: &[Word],
) -> Result<(), AllocError>
    requires { length words.now ≡ length locs.now }
    ensures { OnOk result (string_bytes out.new ≡ string_bytes out.old ++ word_line title.now locs.now words.now) }
{
    out.push_str(title)?;
    for loc in &Loc::all()[..locs.len()] {
        write_assignment(out, locs.name(*loc), words[loc.index()])?;
    }
    out.push_str("\n")
}

/// Writes the line of memory: a word for each location, without the caches. A memory system has no slice of these words for
/// `write_words`: it answers for one location at a time.
fn write_memory<M: MemorySystem, A: Allocator>(
    out: &mut String<A>,
    locs: &LocNames<A>,
    memory: &M,
) -> Result<(), AllocError>
    requires { length (M.content memory.now) ≡ length locs.now }
    ensures { OnOk result (string_bytes out.new
        ≡ string_bytes out.old ++ word_line (codes "Memory") locs.now (M.memory memory.now)) }
{
    out.push_str("Memory")?;
    for loc in &Loc::all()[..locs.len()] {
        write_assignment(out, locs.name(*loc), memory.word_in_memory(*loc))?;
    }
    out.push_str("\n")
}

/// Writes the lines of each processor: its position and registers, its store buffer, its cache.
fn write_processors<M: MemorySystem, A: Allocator>(
    out: &mut String<A>,
    head: &Head<A>,
    machine: &Machine<'_, M, A, A>,
    regs: &[[Word; REGISTERS]],
) -> Result<(), AllocError>
    requires bounded { head.now.threads ≤ MAX_THREADS }
    requires threads { length machine.now.state.processors ≡ head.now.threads }
    requires words { length (M.content machine.now.state.memory) ≡ length head.now.locs }
    requires regs { regs.now ≡ map (λ (p : Processor). p.regs) machine.now.state.processors }
    ensures { OnOk result (string_bytes out.new ≡ string_bytes out.old
        ++ numbered (processor_lines (head_of head.now) (M.state machine.now.state.memory)) 0 machine.now.state.processors) }
{
    for cpu in &Cpu::all()[..head.threads] {
        write_processor(out, head, machine, *cpu, &regs[cpu.index()])?;
    }
    Ok(())
}

/// Writes the three lines of a processor with these registers: its thread, its store buffer and its cache.
fn write_processor<M: MemorySystem, A: Allocator>(
    out: &mut String<A>,
    head: &Head<A>,
    machine: &Machine<'_, M, A, A>,
    cpu: Cpu,
    regs: &[Word; REGISTERS],
) -> Result<(), AllocError>
    requires cpu { cpu < length machine.now.state.processors }
    requires words { length (M.content machine.now.state.memory) ≡ length head.now.locs }
    requires regs { regs.now ≡ slice_index_or (map (λ (p : Processor). p.regs) machine.now.state.processors) cpu [] }
    ensures { (p : Processor) → slice_get machine.now.state.processors cpu ≡ Some p → OnOk result (string_bytes out.new
        ≡ string_bytes out.old ++ processor_lines (head_of head.now) (M.state machine.now.state.memory) cpu p) }
{
    write_thread(out, head.arch, cpu, machine.position(cpu), regs)?;
    write_buffer(out, &head.locs, machine, cpu)?;
    write_cache(out, &head.locs, machine.memory(), cpu)
}

/// Writes the line of a processor's store buffer: its entries, the oldest first.
fn write_buffer<M: MemorySystem, A: Allocator>(
    out: &mut String<A>,
    locs: &LocNames<A>,
    machine: &Machine<'_, M, A, A>,
    cpu: Cpu,
) -> Result<(), AllocError>
    requires cpu { cpu < length machine.now.state.processors }
    requires words { length (M.content machine.now.state.memory) ≡ length locs.now }
    ensures { OnOk result (string_bytes out.new
        ≡ string_bytes out.old ++ buffer_line locs.now cpu (buffer_of machine.now.state cpu)) }
{
    write!(out, "P{} buffer", cpu.index())?;
    for index in 0..machine.buffered(cpu) {
        let (loc, word) = machine.entry(cpu, index);
        write_assignment(out, locs.name(loc), word)?;
    }
    out.push_str("\n")
}

/// Writes the line of a processor's cache: the state of each location's copy there.
fn write_cache<M: MemorySystem, A: Allocator>(
    out: &mut String<A>,
    locs: &LocNames<A>,
    memory: &M,
    cpu: Cpu,
) -> Result<(), AllocError>
    requires cpu { cpu < M.cpus memory.now }
    requires words { length (M.content memory.now) ≡ length locs.now }
    ensures { OnOk result (string_bytes out.new
        ≡ string_bytes out.old ++ cache_states_line locs.now cpu (M.state memory.now cpu)) }
{
    write!(out, "P{} lines", cpu.index())?;
    for loc in &Loc::all()[..locs.len()] {
        write_line_state(out, locs.name(*loc), memory.state_of(cpu, *loc))?;
    }
    out.push_str("\n")
}

/// Writes a space, and a location's name with the letter of its copy's state. (As in `write_assignment`, `named` passes an index.)
fn write_line_state<A: Allocator>(
    out: &mut String<A>,
    name: &str,
    state: LineState,
) -> Result<(), AllocError>
    ensures { OnOk result (string_bytes out.new ≡ string_bytes out.old ++ named (λ _. pages.letter state) 0 name.now) }
{
    write!(out, " {}={}", name, letter(state))
}

/// Returns the letter of the state of a copy in a cache.
fn letter(state: LineState) -> &'static str
    ensures { result.now ≡ pages.letter state }
{
    match state {
        LineState::M => "M",
        LineState::O => "O",
        LineState::E => "E",
        LineState::S => "S",
        LineState::I => "I",
    }
}
