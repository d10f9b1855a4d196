//! What the statements of a language mean for orders: a store to a store buffer takes effect by its drain, everything
//! else by itself.
ghost use Rattle.std.specs.Prelude.{◌≡◌};
ghost use Rattle.lw_paths.specs.Items as items;

use lw_base::Loc;
use lw_litmus::Statement;

/// Returns whether a statement puts a store into a store buffer, so that its drain is an item.
pub(crate) fn is_drained<S: Statement>(stmt: &S) -> bool
    ensures { result ≡ items.is_drained S.language stmt.now }
{
    S::is_buffered() && stmt.operation().is_store()
}

/// Returns the location that a statement itself reads or writes, or `None` if there is none: a store into the buffer leaves
/// it to its drain.
pub(crate) fn accesses<S: Statement>(stmt: &S) -> Option<Loc>
    ensures { result ≡ items.accessed_by_statement S.language stmt.now }
{
    if is_drained(stmt) {
        return None;
    }
    stmt.operation().location()
}

/// Returns the location that the drain of a statement's entry writes, or `None` if it has no entry.
pub(crate) fn drains<S: Statement>(stmt: &S) -> Option<Loc>
    ensures { result ≡ items.drained_location S.language stmt.now }
{
    if is_drained(stmt) {
        return stmt.operation().location();
    }
    None
}

/// Returns whether a statement takes effect only after all earlier entries of its thread's buffer have drained.
pub(crate) fn needs_empty_buffer<S: Statement>(stmt: &S) -> bool
    ensures { result ≡ items.statement_needs_empty_buffer S.language stmt.now }
{
    S::is_buffered() && stmt.operation().needs_empty_buffer()
}
