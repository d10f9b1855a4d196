//! The text type of the workbench. A contract sees it as the list of its bytes.
ghost use Rattle.std.specs.Prelude.{◌≡◌, IfOk};
ghost use Rattle.std.specs.String.{string_bytes};

use std::alloc::{AllocError, Allocator, Global};
use std::marker::Model;

/// A text that owns its bytes, in memory of the allocator that made it.
#[derive(Drop)]
pub struct Text<A: Allocator = Global> {
    text: String<A>,
}

impl<A: Allocator> Model for Text<A> {
    ghost use Rattle.std.specs.Prelude.{ℕ, List};
    ghost use Rattle.std.specs.String.{string_bytes};

    ghost Value = { List ℕ };

    ghost view = { λ t. string_bytes t.text };
}

impl<A: Allocator> Text<A> {
    /// Copies a text into memory of its own. Fails only if memory runs out.
    pub fn from_str(alloc: A, text: &str) -> Result<Self, AllocError>
        ensures { IfOk result (λ t. t ≡ text.now) }
    {
        Ok(Text {
            text: String::from_str(alloc, text)?,
        })
    }

    /// Borrows the text as a `str`.
    pub fn as_str(&self) -> &str
        ensures { result.now ≡ self.now }
    {
        self.text.as_str()
    }

    /// Converts the text into a `String`. Does not allocate.
    pub fn into_string(self) -> String<A>
        ensures { string_bytes result ≡ self }
    {
        self.text
    }

    /// Copies the text, with the same allocator. Fails only if memory runs out.
    pub fn copy(&self) -> Result<Self, AllocError>
    where
        A: Copy,
        ensures { IfOk result (λ t. t ≡ self.now) }
    {
        Text::from_str(*self.text.allocator(), self.text.as_str())
    }
}

/// Converts a `String` into a text. Does not allocate.
impl<A: Allocator> From<String<A>> for Text<A> {
    ghost from_gives = { λ string text. text ≡ string_bytes string };

    /// Converts a `String` into a text of its bytes.
    fn from(string: String<A>) -> Text<A> {
        Text { text: string }
    }
}
