//! The rows of a program's canonical text.
ghost use Rattle.std.specs.Prelude.{◌≡◌, ◌+◌, ◌++◌, [], length, map, codes, slice_index_or, All, OnOk};
ghost use Rattle.std.specs.String.{string_bytes};
ghost use Rattle.lw_base.specs.Texts.{joined};
ghost use Rattle.lw_litmus.specs.WellFormed.{IsWellFormedThread};
ghost use Rattle.lw_x86.specs.CanonicalTexts as printed;
ghost use Rattle.lw_x86.specs.CanonicalTexts.{label_prefix, end_cells, cells_of, row_text, row_at, max_cell_count, rows_text};
ghost use Rattle.lw_litmus.specs.Programs.{x86_language};

use crate::instruction_text::write_instruction;
use crate::separator::write_separator;
use lw_base::{LocNames, Sequence};
use lw_litmus::{Instr, Program, Statement};
use std::alloc::{AllocError, Allocator};

/// Writes the rows of a program, as many as its longest thread has cells.
pub(crate) fn write_rows<A: Allocator, B: Allocator>(
    out: &mut String<A>,
    program: &Program<B>,
) -> Result<(), AllocError>
    ensures { OnOk result (string_bytes out.new
        ≡ string_bytes out.old ++ rows_text (map (cells_of program.now.head.locs) program.now.threads)) }
{
    for row in 0..height(program) {
        write_row(out, program, row)?;
    }
    Ok(())
}

/// Returns the number of rows, which is the number of cells of the longest thread.
fn height<B: Allocator>(program: &Program<B>) -> usize
    ensures { result ≡ max_cell_count (map (cells_of program.now.head.locs) program.now.threads) }
{
    let mut height = 0;
    for code in program.threads.as_slice() {
        height = height.max(count_cells(code.as_slice()));
    }
    height
}

/// Returns the number of a thread's cells: one for each instruction, and one for the label of its end, if some instruction
/// jumps there.
fn count_cells(code: &[Instr]) -> usize
    ensures { result ≡ length code.now + length (end_cells code.now (length code.now)) }
{
    if is_target(code, code.len()) {
        return code.len() + 1;
    }
    code.len()
}

/// Writes the row at an index: a cell for each thread.
fn write_row<A: Allocator, B: Allocator>(
    out: &mut String<A>,
    program: &Program<B>,
    row: usize,
) -> Result<(), AllocError>
    ensures { OnOk result (string_bytes out.new ≡ string_bytes out.old
        ++ row_text (row_at (map (cells_of program.now.head.locs) program.now.threads) row)) }
{
    out.push_str(" ")?;
    write_cells(out, &program.head.locs, program.threads.as_slice(), row)?;
    out.push_str(" ;\n")
}

/// Writes the cells of the threads in the row at an index, separated by bars.
fn write_cells<A: Allocator, B: Allocator>(
    out: &mut String<A>,
    names: &LocNames<B>,
    threads: &[Sequence<Instr, B>],
    row: usize,
) -> Result<(), AllocError>
    requires { All (IsWellFormedThread x86_language (length names.now)) threads.now }
    ensures { OnOk result (string_bytes out.new ≡ string_bytes out.old
        ++ joined (codes " | ") (row_at (map (cells_of names.now) threads.now) row)) }
{
    for (index, code) in threads.iter().enumerate() {
        write_separator(out, index, " | ")?;
        write_cell(out, names, code.as_slice(), row)?;
    }
    Ok(())
}

/// Writes the cell of a thread in the row at an index. It is empty if the thread has no more.
fn write_cell<A: Allocator, B: Allocator>(
    out: &mut String<A>,
    names: &LocNames<B>,
    code: &[Instr],
    row: usize,
) -> Result<(), AllocError>
    requires { IsWellFormedThread x86_language (length names.now) code.now }
    ensures { OnOk result (string_bytes out.new
        ≡ string_bytes out.old ++ slice_index_or (cells_of names.now code.now) row []) }
{
    match code.get(row) {
        Some(instr) => {
            write_label(out, code, row)?;
            write_instruction(out, names, *instr)
        }
        None => write_end(out, code, row),
    }
}

/// Writes the label of an instruction, a `:` and a space, if some instruction jumps to it.
fn write_label<A: Allocator>(
    out: &mut String<A>,
    code: &[Instr],
    index: usize,
) -> Result<(), AllocError>
    ensures { OnOk result (string_bytes out.new ≡ string_bytes out.old ++ label_prefix code.now index) }
{
    if is_target(code, index) {
        return write!(out, "L{}: ", index);
    }
    Ok(())
}

/// Writes a cell after a thread's instructions: the label of the end, if some instruction jumps there.
fn write_end<A: Allocator>(
    out: &mut String<A>,
    code: &[Instr],
    index: usize,
) -> Result<(), AllocError>
    ensures { OnOk result (string_bytes out.new ≡ string_bytes out.old ++ slice_index_or (end_cells code.now index) 0 []) }
{
    if is_target(code, index) {
        return write!(out, "L{}:", index);
    }
    Ok(())
}

/// Returns whether some instruction of the code jumps to the position `index`, which may be the end.
fn is_target(code: &[Instr], index: usize) -> bool
    ensures { result ≡ printed.is_target code.now index }
{
    code.iter().any(|instr| jumps_to(instr, index))
}

/// Returns whether an instruction jumps to the position `index`.
fn jumps_to(instr: &Instr, index: usize) -> bool
    ensures { result ≡ printed.jumps_to index instr.now }
{
    match instr.operation().target() {
        Some(to) => to == index,
        None => false,
    }
}
