//! Reading the cells of a thread, from top to bottom, and then resolving its jumps.
ghost use Rattle.std.specs.Prelude.{◌≡◌, ◌⊎◌, ◌<◌, ◌≤◌, [], ◌∷◌, ◌++◌, Some, length, drop, slice_get, MatchResult, IfSome, IfOk, IfErr};
ghost use Rattle.std.specs.Option.{option_len};
ghost use Rattle.lw_base.specs.Types.{NameTable};
ghost use Rattle.lw_base.specs.declared.fault.CellCause.TheVariants.{TooMany, Memory};
ghost use Rattle.lw_text.specs.Places.{cells_texts};
ghost use Rattle.lw_text.specs.Spans.{token_texts};
ghost use Rattle.lw_statements.specs.Grammars.{statement_limit, CanBegin};
ghost use Rattle.lw_statements.specs.Spellings.{grammar_of};
ghost use Rattle.lw_statements.specs.Bindings.{draft_of, IsFirstRejected, IsSpelling};
ghost use Rattle.lw_statements.specs.inner.Drafts.{IsFresh, ColumnDrafted, target_by};
ghost use Rattle.lw_statements.specs.inner.Reading.{MaybeRead, MaybeRefused, HasForwardTarget, JumpRefused, IsJumpCause, ColumnRead, ColumnRefused};
ghost use Rattle.lw_statements.specs.inner.Reading.{CellRead, CellRefused, IsResolvable, IsResolved, IsCellResolved, IsUnresolved};

use crate::draft::{Draft, DraftCell, Operands};
use crate::labels::read_labels;
use crate::phrase::Phrase;
use crate::statement_parser::{can_begin, first_rejected, read_statement};
use crate::statement_reader::StatementReader;
use lw_base::{CellCause, CellFault, LocNames, Sequence};
use lw_text::{Cell, Token};
use std::alloc::{Allocator, Global};
use std::collections::BTreeMap;

/// What is read of a thread before its jumps are resolved: a draft of each cell, the thread's labels, each with the index
/// of the statement that it targets, and the number of statements so far.
#[derive(Drop)]
struct DraftColumn<'a, D, A: Allocator = Global> {
    cells: Sequence<DraftCell<D>, A>,
    labels: BTreeMap<&'a str, usize, A>,
    count: usize,
}

impl<'a, D: Drop, A: Allocator + Copy> DraftColumn<'a, D, A> {
    /// Creates a column of no cells.
    fn new(alloc: A) -> Self
        ensures { IsFresh result }
    {
        DraftColumn {
            cells: Sequence::new(alloc),
            labels: BTreeMap::new(alloc),
            count: 0,
        }
    }
}

/// Reads the statements of a thread. Inserts the names of their locations into the table.
pub(crate) fn read_column<L: StatementReader, A: Allocator + Copy>(
    alloc: A,
    cells: &[Cell<'_, A>],
    locs: &mut LocNames<A>,
) -> Result<Sequence<L::Stmt, A>, CellFault>
    requires lawful { IsSpelling L.spelling L.statement_of }
    ensures { MatchResult result
        (λ stmts. ColumnRead (grammar_of L.spelling) (cells_texts cells.now) locs.old stmts locs.new)
        (ColumnRefused (grammar_of L.spelling) locs.old cells.now) }
{
    let mut column = DraftColumn::new(alloc);
    read_cells::<L, A>(alloc, cells, &mut column, locs)
}

/// Reads the cells of a thread into `column`, each with its labels and its statement, and then resolves the thread's jumps.
fn read_cells<'a, L: StatementReader, A: Allocator + Copy>(
    alloc: A,
    cells: &[Cell<'a, A>],
    column: &mut DraftColumn<'a, Draft<L::Form>, A>,
    locs: &mut LocNames<A>,
) -> Result<Sequence<L::Stmt, A>, CellFault>
    requires lawful { IsSpelling L.spelling L.statement_of }
    requires fresh { IsFresh column.old }
    ensures { MatchResult result
        (λ stmts. ColumnRead (grammar_of L.spelling) (cells_texts cells.now) locs.old stmts locs.new)
        (ColumnRefused (grammar_of L.spelling) locs.old cells.now) }
{
    let _known = locs.len();
    for cell in cells {
        read_cell::<L, A>(cell, column, locs)?;
    }
    resolve::<L, A>(alloc, cells, column)
}

/// Reads a cell of a thread, its labels and its statement, and adds both to `column`.
fn read_cell<'a, L: StatementReader, A: Allocator + Copy>(
    cell: &Cell<'a, A>,
    column: &mut DraftColumn<'a, Draft<L::Form>, A>,
    locs: &mut LocNames<A>,
) -> Result<(), CellFault>
    requires lawful { IsSpelling L.spelling L.statement_of }
    requires bounded { column.old.count ≤ statement_limit (grammar_of L.spelling) }
    ensures { MatchResult result
        (λ _. CellRead (grammar_of L.spelling) (draft_of L.spelling) cell.now column.old locs.old column.new locs.new)
        (CellRefused (grammar_of L.spelling) (draft_of L.spelling) cell.now column.old locs.old) }
{
    let start = read_labels(cell.tokens.as_slice(), column.count, &mut column.labels)?;
    let phrase = Phrase::after_labels(cell, start);
    let stmt = read_statement_if_any::<L, A>(&phrase, column.count, locs)?;
    let _names = locs.len();
    column.count += statement_count(&stmt);
    push(&mut column.cells, DraftCell { start, stmt })
}

/// Appends an item. If memory runs out, the fault says so, at the offset 0.
pub(crate) fn push<T: Drop, A: Allocator>(
    items: &mut Sequence<T, A>,
    item: T,
) -> Result<(), CellFault>
    ensures { MatchResult result (λ _. items.new ≡ items.old ++ item ∷ []) (λ f. (f.cause ≡ Memory) × (f.at ≡ 0)) }
{
    Ok(items.push(item)?)
}

/// Returns the number of statements of a cell's draft, 0 or 1.
fn statement_count<F>(stmt: &Option<Draft<F>>) -> usize
    ensures { result ≡ option_len stmt.now }
{
    match stmt {
        Some(_) => 1,
        None => 0,
    }
}

/// Reads the draft of the statement after a cell's labels, or returns `None` if the cell has only labels. Inserts the name of
/// its location into the table. The cells above have `above` statements; one more than the limit is refused.
fn read_statement_if_any<L: StatementReader, A: Allocator + Copy>(
    phrase: &Phrase<'_, '_>,
    above: usize,
    locs: &mut LocNames<A>,
) -> Result<Option<Draft<L::Form>>, CellFault>
    requires lawful { IsSpelling L.spelling L.statement_of }
    ensures { MatchResult result
        (λ stmt. MaybeRead (grammar_of L.spelling) (draft_of L.spelling) above (token_texts phrase.now.tokens.now) locs.old stmt locs.new)
        (MaybeRefused (grammar_of L.spelling) above locs.old phrase.now) }
{
    let Some(first) = phrase.tokens.first() else {
        return Ok(None);
    };
    if above == L::max_statements() {
        return Err(too_many_statements::<L>(phrase, first));
    }
    Ok(Some(read_statement::<L, A>(phrase, locs)?))
}

/// Returns the fault of a statement beyond the limit, whose first token is `first`: TooMany at this token, or, if no statement
/// begins with it, the fault that the token has anyway.
fn too_many_statements<L: StatementReader>(phrase: &Phrase<'_, '_>, first: &Token<'_>) -> CellFault
    requires lawful { IsSpelling L.spelling L.statement_of }
    requires first { Some first.now ≡ slice_get phrase.now.tokens.now 0 }
    ensures { ((result.cause ≡ TooMany) × (result.at ≡ first.now.at) × CanBegin (grammar_of L.spelling) first.now.text.now)
        ⊎ ((CanBegin (grammar_of L.spelling) first.now.text.now → ⊥)
        × IsFirstRejected L.spelling phrase.now.tokens.now phrase.now.end result) }
{
    if can_begin::<L>(first) {
        return CellFault {
            at: first.at,
            cause: CellCause::TooMany,
        };
    }
    first_rejected::<L>(phrase)
}

/// Returns a thread's statements: its drafts, resolved by its labels. Fails at the first jump that leads nowhere or backward.
fn resolve<L: StatementReader, A: Allocator + Copy>(
    alloc: A,
    cells: &[Cell<'_, A>],
    column: &DraftColumn<'_, Draft<L::Form>, A>,
) -> Result<Sequence<L::Stmt, A>, CellFault>
    requires lawful { IsSpelling L.spelling L.statement_of }
    requires read { (before after : NameTable) × ColumnDrafted (grammar_of L.spelling) (draft_of L.spelling) cells.now before column.now after }
    ensures { MatchResult result
        (λ code. (before after : NameTable) → ColumnDrafted (grammar_of L.spelling) (draft_of L.spelling) cells.now before column.now after
        → ColumnRead (grammar_of L.spelling) (cells_texts cells.now) before code after)
        (λ f. (before after : NameTable) → ColumnDrafted (grammar_of L.spelling) (draft_of L.spelling) cells.now before column.now after
        → ColumnRefused (grammar_of L.spelling) before cells.now f) }
{
    let drafts = column.cells.as_slice();
    let mut code = Sequence::new(alloc);
    for (row, cell) in cells.iter().enumerate() {
        let draft = drafts[row];
        resolve_cell::<L, A>(cell, draft, &column.labels, &mut code)?;
    }
    Ok(code)
}

/// Appends a cell's statement, if it has one, resolved by the labels of its thread.
fn resolve_cell<L: StatementReader, A: Allocator + Copy>(
    cell: &Cell<'_, A>,
    draft: DraftCell<Draft<L::Form>>,
    labels: &BTreeMap<&str, usize, A>,
    code: &mut Sequence<L::Stmt, A>,
) -> Result<(), CellFault>
    requires start { draft.start ≤ length cell.now.tokens }
    requires resolvable { IfSome draft.stmt (IsResolvable L.statement_of (drop draft.start cell.now.tokens)) }
    ensures { MatchResult result (λ _. IsCellResolved L.statement_of labels.now cell.now draft code.old code.new)
        (IsUnresolved labels.now (length code.old) cell.now draft) }
{
    let DraftCell { start, stmt } = draft;
    let Some(stmt) = stmt else {
        return Ok(());
    };
    let phrase = Phrase::after_labels(cell, start);
    let stmt = resolve_draft::<L, A>(stmt, phrase.tokens, code.len(), labels)?;
    push(code, stmt)
}

/// Resolves a draft by its thread's labels. Fails at its label if the thread does not have the label, or if it does not lead
/// forward. `tokens` are the statement's, and `own_index` is its index in its thread.
fn resolve_draft<L: StatementReader, A: Allocator>(
    draft: Draft<L::Form>,
    tokens: &[Token<'_>],
    own_index: usize,
    labels: &BTreeMap<&str, usize, A>,
) -> Result<L::Stmt, CellFault>
    requires resolvable { IsResolvable L.statement_of tokens.now draft }
    ensures { MatchResult result (IsResolved L.statement_of labels.now own_index tokens.now draft) (JumpRefused labels.now own_index tokens.now draft.label) }
{
    let to = jump_target(draft.label, tokens, own_index, labels)?;
    let operands = Operands {
        to,
        ..draft.operands
    };
    Ok(L::statement(draft.form, &operands).unwrap())
}

/// Returns the index of the statement that a statement's label targets, or `None` if the statement is no jump. `label` is
/// the label's index among the statement's tokens, and `own_index` the statement's index in its thread.
fn jump_target<A: Allocator>(
    label: Option<usize>,
    tokens: &[Token<'_>],
    own_index: usize,
    labels: &BTreeMap<&str, usize, A>,
) -> Result<Option<usize>, CellFault>
    requires { IfSome label (λ k. k < length tokens.now) }
    ensures { MatchResult result (HasForwardTarget labels.now own_index tokens.now label) (JumpRefused labels.now own_index tokens.now label) }
{
    match label {
        Some(index) => Ok(Some(target(&tokens[index], own_index, labels)?)),
        None => Ok(None),
    }
}

/// Returns the index of the statement that a label targets. Fails at the label if the thread does not have it, or if the index is
/// not greater than the jump's own, `own_index`.
fn target<A: Allocator>(
    label: &Token<'_>,
    own_index: usize,
    labels: &BTreeMap<&str, usize, A>,
) -> Result<usize, CellFault>
    ensures found { IfOk result (λ to. (target_by labels.now label.now.text.now ≡ Some to) × (own_index < to)) }
    ensures place { IfErr result (λ f. f.at ≡ label.now.at) }
    ensures cause { IfErr result (λ f. IsJumpCause labels.now own_index label.now.text.now f.cause) }
{
    let Some(to) = labels.get(label.text).copied() else {
        return Err(CellFault {
            at: label.at,
            cause: CellCause::LabelMissing,
        });
    };
    if to <= own_index {
        return Err(CellFault {
            at: label.at,
            cause: CellCause::Backward,
        });
    }
    Ok(to)
}
