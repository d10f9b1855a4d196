//! The initial block of a program's canonical text.
ghost use Rattle.std.specs.Prelude.{◌≡◌, ◌<◌, ◌++◌, length, OnOk};
ghost use Rattle.std.specs.List.{flat_map};
ghost use Rattle.std.specs.String.{string_bytes};
ghost use Rattle.lw_base.specs.Heads.{head_of};
ghost use Rattle.lw_base.specs.WellFormed.{IsWellFormedHead};
ghost use Rattle.lw_base.specs.declared.head.Seen.TheVariants as seen;
ghost use Rattle.lw_base.specs.SeenLists.{thread_registers, all_registers, locations};
ghost use Rattle.lw_x86.specs.CanonicalTexts.{initializer_text, register_initializer, block_text};

use lw_base::{Arch, Head, Loc, Reg, reg_name};
use std::alloc::{AllocError, Allocator};

/// Writes the initial block: an initializer for each register whose initial word is not 0, by thread and index, and
/// for each location.
pub(crate) fn write_block<A: Allocator, B: Allocator>(
    out: &mut String<A>,
    head: &Head<B>,
) -> Result<(), AllocError>
    requires { IsWellFormedHead (head_of head.now) }
    ensures { OnOk result (string_bytes out.new ≡ string_bytes out.old ++ block_text (head_of head.now)) }
{
    out.push_str("{\n")?;
    write_registers(out, head)?;
    write_locations(out, head)?;
    out.push_str("}\n")
}

/// Writes the initializers of all registers whose initial word is not 0.
fn write_registers<A: Allocator, B: Allocator>(
    out: &mut String<A>,
    head: &Head<B>,
) -> Result<(), AllocError>
    requires { IsWellFormedHead (head_of head.now) }
    ensures { OnOk result (string_bytes out.new ≡ string_bytes out.old
        ++ flat_map (register_initializer (head_of head.now)) (all_registers head.now.threads)) }
{
    for thread in 0..head.threads {
        write_registers_of(out, head, thread)?;
    }
    Ok(())
}

/// Writes the initializers of a thread's registers whose initial word is not 0.
fn write_registers_of<A: Allocator, B: Allocator>(
    out: &mut String<A>,
    head: &Head<B>,
    thread: usize,
) -> Result<(), AllocError>
    requires { thread < length head.now.init_regs }
    ensures { OnOk result (string_bytes out.new ≡ string_bytes out.old
        ++ flat_map (register_initializer (head_of head.now)) (thread_registers thread)) }
{
    for reg in Reg::all() {
        write_register(out, head, thread, reg)?;
    }
    Ok(())
}

/// Writes a register's initializer, if its initial word is not 0.
fn write_register<A: Allocator, B: Allocator>(
    out: &mut String<A>,
    head: &Head<B>,
    thread: usize,
    reg: Reg,
) -> Result<(), AllocError>
    requires { thread < length head.now.init_regs }
    ensures { OnOk result (string_bytes out.new ≡ string_bytes out.old
        ++ register_initializer (head_of head.now) (seen.Register thread reg)) }
{
    let word = head.init_regs.as_slice()[thread][reg.index()];
    if word == 0 {
        return Ok(());
    }
    let name = reg_name(Arch::X86, reg);
    writeln!(out, " {}:{}={};", thread, name, word)
}

/// Writes the initializers of all locations.
fn write_locations<A: Allocator, B: Allocator>(
    out: &mut String<A>,
    head: &Head<B>,
) -> Result<(), AllocError>
    requires { IsWellFormedHead (head_of head.now) }
    ensures { OnOk result (string_bytes out.new ≡ string_bytes out.old
        ++ flat_map (initializer_text (head_of head.now)) (locations (length head.now.locs))) }
{
    for loc in &Loc::all()[..head.locs.len()] {
        write_location(out, head, *loc)?;
    }
    Ok(())
}

/// Writes the initializer of a location.
fn write_location<A: Allocator, B: Allocator>(
    out: &mut String<A>,
    head: &Head<B>,
    loc: Loc,
) -> Result<(), AllocError>
    requires name { loc < length head.now.locs }
    requires word { loc < length head.now.init_words }
    ensures { OnOk result (string_bytes out.new ≡ string_bytes out.old
        ++ initializer_text (head_of head.now) (seen.Location loc)) }
{
    let word = head.init_words.as_slice()[loc.index()];
    writeln!(out, " {}={};", head.locs.name(loc), word)
}
