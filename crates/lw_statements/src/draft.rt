//! Drafts of statements, as they are read, before their jumps are resolved.
use lw_base::{Loc, Operand, Reg, Word};

/// The operands of a statement, as far as its tokens have them.
#[derive(Clone, Copy, Default)]
pub struct Operands {
    /// The statement's register, or the first of two.
    pub reg: Option<Reg>,
    /// The second of two registers.
    pub other: Option<Reg>,
    /// The register or number of a slot that takes either.
    pub val: Option<Operand>,
    /// The number of a slot that takes only numbers.
    pub num: Option<Word>,
    /// The location.
    pub loc: Option<Loc>,
    /// The target of the jump: the index of a statement.
    pub to: Option<usize>,
}

/// A statement that is read and not yet resolved: its label has no target yet.
#[derive(Clone, Copy)]
pub(crate) struct Draft<F> {
    pub(crate) form: F,
    /// The operands, without the target.
    pub(crate) operands: Operands,
    /// The index of the label among the statement's tokens, if it is a jump.
    pub(crate) label: Option<usize>,
}

/// What is read of a cell: the number of tokens of its labels, and the statement that follows, if there is one.
#[derive(Clone, Copy)]
pub(crate) struct DraftCell<D> {
    pub(crate) start: usize,
    pub(crate) stmt: Option<D>,
}
