//! The trait by which a language describes the spelling of its statements.
ghost use Rattle.std.specs.Prelude.{◌≡◌, Option, Contains};
ghost use Rattle.lw_statements.specs.declared.draft.Operands.{Operands};
ghost use Rattle.lw_statements.specs.Spellings.{Spelling};

use crate::draft::Operands;
use crate::slot::Slot;
use lw_base::Arch;

/// A language whose statements can be read.
pub trait StatementReader {
    /// A keyword or a sign of the language.
    type Keyword: Copy + Drop + 'static;

    /// A form of the language's statements.
    type Form: Copy + Drop + 'static;

    /// A statement.
    type Stmt: Copy + Drop;

    /// The spelling of the language's statements.
    ghost spelling: { Spelling Self.Keyword Self.Form Self.Stmt };

    /// The statement of a form with these operands, or `None` if one is missing for which the form has a slot.
    ghost statement_of: { Self.Form → Operands → Option Self.Stmt };

    /// Returns the language whose statements are read.
    fn arch() -> Arch
        ensures { result ≡ spelling.language.arch };

    /// Returns the maximum number of statements of a thread.
    fn max_statements() -> usize
        ensures { result ≡ spelling.language.most };

    /// Returns the text of a keyword or a sign.
    fn text(keyword: Self::Keyword) -> &'static str
        ensures { result.now ≡ spelling.text_of keyword };

    /// Returns all forms of the language's statements.
    fn forms() -> &'static [Self::Form]
        ensures { result.now ≡ spelling.forms };

    /// Returns the slots of a form, one for each token.
    fn slots(form: Self::Form) -> &'static [Slot<Self::Keyword>]
        ensures { result.now ≡ spelling.slots_of form };

    /// Returns the statement of a form with these operands, or `None` if one is missing for which the form has a slot.
    fn statement(form: Self::Form, operands: &Operands) -> Option<Self::Stmt>
        ensures { result ≡ statement_of form operands.now };
}
