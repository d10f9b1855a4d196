//! The canonical text of an x86 test.
ghost use Rattle.std.specs.Prelude.{◌≡◌, ℕ, ◌≤◌, ◌++◌, length, IfOk, OnOk};
ghost use Rattle.std.specs.List.{AllByRecursion};
ghost use Rattle.std.specs.String.{string_bytes};
ghost use Rattle.lw_base.specs.WellFormed.{IsSeenInRange};
ghost use Rattle.lw_litmus.specs.Tests.{test_of, X86Test};
ghost use Rattle.lw_base.specs.Limits.{most_threads, most_text_bytes};
ghost use Rattle.lw_x86.specs.CanonicalTexts.{header_text, element_text, listed_text, canonical_text};
ghost use Rattle.lw_litmus.specs.WellFormedTests.{IsWellFormedProgram};
ghost use Rattle.lw_x86.specs.Texts.{IsTextOf};

use crate::block::write_block;
use crate::rows::write_rows;
use crate::separator::write_separator;
use lw_base::{Arch, Head, LocNames, Seen, Text, reg_name, write_condition};
use lw_litmus::Program;
use std::alloc::{AllocError, Allocator};

/// Renders the canonical text of a program. Fails only if memory runs out.
pub fn write_program<A: Allocator + Copy, B: Allocator>(
    alloc: A,
    program: &Program<B>,
) -> Result<Text<A>, AllocError>
    ensures text { IfOk result (λ text. text ≡ canonical_text (test_of program.now.head program.now.threads)) }
    // The text can be read: it is short enough, and its test is the program.
    ensures short { IfOk result (λ text. length text ≤ most_text_bytes) }
    ensures reads_back { IfOk result (λ text. IsTextOf text (test_of program.now.head program.now.threads)) }
{
    let mut out = String::new(alloc);
    write_parts(alloc, &mut out, program)?;
    Ok(Text::from(out))
}

/// Writes the parts of a program's canonical text in sequence.
fn write_parts<A: Allocator + Copy, B: Allocator>(
    alloc: A,
    out: &mut String<A>,
    program: &Program<B>,
) -> Result<(), AllocError>
    ensures { OnOk result (string_bytes out.new
        ≡ string_bytes out.old ++ canonical_text (test_of program.now.head program.now.threads)) }
{
    let head = &program.head;
    writeln!(out, "X86 {}", head.name.as_str())?;
    write_block(out, head)?;
    write_header(out, head.threads)?;
    write_rows(out, program)?;
    write_listed(out, head)?;
    let condition = write_condition(alloc, head)?;
    writeln!(out, "{}", condition.as_str())
}

/// States that the canonical text of a test reads back as the same test.
pub fn a_canonical_text_reads_back()
    ensures { (p : X86Test) → IsWellFormedProgram p → IsTextOf (canonical_text p) p }
{}

/// Writes the header: the line of the threads' names.
fn write_header<A: Allocator>(out: &mut String<A>, threads: usize) -> Result<(), AllocError>
    requires { threads ≤ most_threads }
    ensures { OnOk result (string_bytes out.new ≡ string_bytes out.old ++ header_text threads) }
{
    out.push_str(" ")?;
    for thread in 0..threads {
        write_separator(out, thread, " | ")?;
        write!(out, "P{}", thread)?;
    }
    out.push_str(" ;\n")
}

/// Writes the line of the list of names, if the test has one.
fn write_listed<A: Allocator, B: Allocator>(
    out: &mut String<A>,
    head: &Head<B>,
) -> Result<(), AllocError>
    requires { AllByRecursion (IsSeenInRange head.now.threads (length head.now.locs)) head.now.listed }
    ensures { OnOk result (string_bytes out.new
        ≡ string_bytes out.old ++ listed_text head.now.locs head.now.listed) }
{
    let listed = head.listed.as_slice();
    if listed.is_empty() {
        return Ok(());
    }
    out.push_str("locations [")?;
    for (index, site) in listed.iter().enumerate() {
        write_separator(out, index, " ")?;
        write_element(out, &head.locs, *site)?;
    }
    out.push_str("]\n")
}

/// Writes an element of the list of names, and a `;`.
fn write_element<A: Allocator, B: Allocator>(
    out: &mut String<A>,
    names: &LocNames<B>,
    site: Seen,
) -> Result<(), AllocError>
    requires { (threads : ℕ) × IsSeenInRange threads (length names.now) site }
    ensures { OnOk result (string_bytes out.new ≡ string_bytes out.old ++ element_text names.now site) }
{
    match site {
        Seen::Register(cpu, reg) => {
            let name = reg_name(Arch::X86, reg);
            write!(out, "{}:{};", cpu.index(), name)
        }
        Seen::Location(loc) => write!(out, "{};", names.name(loc)),
    }
}
