//! The spelling of the statements of a source test.
ghost use Rattle.lw_source.specs.Spelling.{source_spelling};
ghost use Rattle.lw_source.specs.inner.Operands.{statement_of_operands};

use lw_base::Arch;
use lw_litmus::{MAX_STATEMENTS, Stmt};
use lw_statements::{Operands, Slot, StatementReader};

/// The source language.
pub(crate) enum SourceLanguage {}

/// A keyword: a word or a sign of statements.
#[derive(Clone, Copy)]
pub(crate) enum SourceKeyword {
    Assign,
    Swap,
    FetchAdd,
    Plus,
    If,
    Equals,
    Differs,
    Goto,
}

/// A form of statements.
#[derive(Clone, Copy)]
pub(crate) enum SourceForm {
    /// `x := n`, `x := a`.
    Store,
    /// `d := x`.
    Load,
    /// `d := swap x a`.
    Swap,
    /// `d := fetchadd x a`.
    FetchAdd,
    /// `d := n`, `d := a`.
    Set,
    /// `d := a + b`, `d := a + n`.
    Sum,
    /// `if a = n goto L`.
    IfEqual,
    /// `if a != n goto L`.
    IfNotEqual,
    /// `goto L`.
    Goto,
}

impl StatementReader for SourceLanguage {
    type Keyword = SourceKeyword;

    type Form = SourceForm;

    type Stmt = Stmt;

    ghost spelling = { source_spelling };

    ghost statement_of = { statement_of_operands };

    /// Returns the source language.
    fn arch() -> Arch {
        Arch::Source
    }

    /// Returns the maximum number of statements of a thread.
    fn max_statements() -> usize {
        MAX_STATEMENTS
    }

    /// Returns the text of a keyword.
    fn text(keyword: SourceKeyword) -> &'static str {
        match keyword {
            SourceKeyword::Assign => ":=",
            SourceKeyword::Swap => "swap",
            SourceKeyword::FetchAdd => "fetchadd",
            SourceKeyword::Plus => "+",
            SourceKeyword::If => "if",
            SourceKeyword::Equals => "=",
            SourceKeyword::Differs => "!=",
            SourceKeyword::Goto => "goto",
        }
    }

    /// Returns all forms of statements.
    fn forms() -> &'static [SourceForm] {
        &[
            SourceForm::Store,
            SourceForm::Load,
            SourceForm::Swap,
            SourceForm::FetchAdd,
            SourceForm::Set,
            SourceForm::Sum,
            SourceForm::IfEqual,
            SourceForm::IfNotEqual,
            SourceForm::Goto,
        ]
    }

    /// Returns the slots of a form, one for each token.
    fn slots(form: SourceForm) -> &'static [Slot<SourceKeyword>] {
        use Slot::{Label, Location, Number, Register, Value, Keyword};
        use SourceKeyword::{Assign, Differs, Equals, FetchAdd, Goto, If, Plus, Swap};
        match form {
            SourceForm::Store => &[Location, Keyword(Assign), Value],
            SourceForm::Load => &[Register, Keyword(Assign), Location],
            SourceForm::Swap => &[Register, Keyword(Assign), Keyword(Swap), Location, Register],
            SourceForm::FetchAdd => &[
                Register,
                Keyword(Assign),
                Keyword(FetchAdd),
                Location,
                Register,
            ],
            SourceForm::Set => &[Register, Keyword(Assign), Value],
            SourceForm::Sum => &[Register, Keyword(Assign), Register, Keyword(Plus), Value],
            SourceForm::IfEqual => &[
                Keyword(If),
                Register,
                Keyword(Equals),
                Number,
                Keyword(Goto),
                Label,
            ],
            SourceForm::IfNotEqual => &[
                Keyword(If),
                Register,
                Keyword(Differs),
                Number,
                Keyword(Goto),
                Label,
            ],
            SourceForm::Goto => &[Keyword(Goto), Label],
        }
    }

    /// Returns the statement of a form, or `None` if an operand that it needs is missing.
    fn statement(form: SourceForm, operands: &Operands) -> Option<Stmt> {
        let Operands {
            reg,
            other,
            val,
            num,
            loc,
            to,
        } = *operands;
        Some(match (form, reg, other, val, num, loc, to) {
            (SourceForm::Store, _, _, Some(val), _, Some(loc), _) => Stmt::Store { loc, val },
            (SourceForm::Load, Some(dst), _, _, _, Some(loc), _) => Stmt::Load { dst, loc },
            (SourceForm::Swap, Some(dst), Some(src), _, _, Some(loc), _) => Stmt::Swap {
                dst,
                loc,
                src,
            },
            (SourceForm::FetchAdd, Some(dst), Some(src), _, _, Some(loc), _) => Stmt::FetchAdd {
                dst,
                loc,
                src,
            },
            (SourceForm::Set, Some(dst), _, Some(val), _, _, _) => Stmt::Set { dst, val },
            (SourceForm::Sum, Some(dst), Some(left), Some(right), _, _, _) => Stmt::Sum {
                dst,
                left,
                right,
            },
            (SourceForm::IfEqual, Some(reg), _, _, Some(num), _, Some(to)) => Stmt::IfEq {
                reg,
                num,
                to,
            },
            (SourceForm::IfNotEqual, Some(reg), _, _, Some(num), _, Some(to)) => Stmt::IfNe {
                reg,
                num,
                to,
            },
            (SourceForm::Goto, _, _, _, _, _, Some(to)) => Stmt::Goto { to },
            _ => return None,
        })
    }
}
