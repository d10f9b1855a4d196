//! The columns of a test: each thread's cells, from top to bottom.
ghost use Rattle.std.specs.Prelude.{◌≡◌, ◌<◌, ◌++◌, ◌∷◌, [], length, map, zip, All, IfOk, OnOk};
ghost use Rattle.lw_text.specs.Rows as wanted;

use crate::cell::Cell;
use crate::rows::CellSequence;
use lw_base::Sequence;
use std::alloc::{AllocError, AllocFailed, Allocator};

/// Transposes rows of `threads` cells into columns. The cells are moved.
pub(crate) fn columns<'a, A: Allocator + Copy>(
    alloc: A,
    threads: usize,
    rows: Sequence<CellSequence<'a, A>, A>,
) -> Result<Sequence<CellSequence<'a, A>, A>, AllocError>
    requires { All (λ row. length row ≡ threads) rows }
    ensures { IfOk result (λ v. v ≡ wanted.columns threads rows.entry) }
{
    let mut columns = empty_columns(alloc, threads)?;
    for row in rows.into_vec() {
        add_row(&mut columns, row)?;
    }
    Ok(Sequence::from(columns))
}

/// Returns empty columns, one for each thread.
fn empty_columns<'a, A: Allocator + Copy>(
    alloc: A,
    threads: usize,
) -> Result<Vec<CellSequence<'a, A>, A>, AllocError>
    ensures { IfOk result (λ v. v.items ≡ wanted.columns threads []) }
{
    let mut columns = Vec::new(alloc);
    for _index in 0..threads {
        columns.push(Sequence::new(alloc))?;
    }
    Ok(columns)
}

/// Appends each cell of a row to its column.
fn add_row<'a, A: Allocator>(
    columns: &mut Vec<CellSequence<'a, A>, A>,
    row: CellSequence<'a, A>,
) -> Result<(), AllocFailed<Cell<'a, A>>>
    requires { length row ≡ length columns.old.items }
    ensures { OnOk result (columns.new.items ≡ map (λ p. p.0 ++ p.1 ∷ []) (zip columns.old.items row.entry)) }
{
    for (index, cell) in row.into_vec().into_iter().enumerate() {
        columns[index].push(cell)?;
    }
    Ok(())
}
