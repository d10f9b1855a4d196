//! What a token of a statement may be.

/// What one token of a statement must be.
#[derive(Clone, Copy)]
pub enum Slot<W> {
    /// This keyword or sign of the language.
    Keyword(W),
    /// A register.
    Register,
    /// A location.
    Location,
    /// A register or a number.
    Value,
    /// A number.
    Number,
    /// A label.
    Label,
}
