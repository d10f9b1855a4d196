//! The trait of both languages' statements.
ghost use Rattle.std.specs.Prelude.{◌≡◌};
ghost use Rattle.lw_litmus.specs.Languages.{Language};

use crate::operation::Operation;

/// A statement of a language, which is determined by its operation.
pub trait Statement {
    /// The language.
    ghost language: { Language Self };

    /// Returns the statement's operation.
    fn operation(&self) -> Operation
        ensures { result ≡ language.operation_of self.now };

    /// Returns whether stores go to memory through a store buffer, from which they drain later.
    fn is_buffered() -> bool
        ensures { result ≡ language.is_buffered };
}
