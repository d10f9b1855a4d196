//! Changes of a location's word.
ghost use Rattle.std.specs.Prelude.{◌≡◌};
ghost use Rattle.lw_base.specs.Changes as changes;

use crate::indices::Word;

/// How a store or a read-modify-write changes a location's word.
#[derive(Clone, Copy)]
pub enum Change {
    /// Replaces it by this word.
    Put(Word),
    /// Adds this word to it, modulo 2^32.
    Add(Word),
}

impl Change {
    /// Returns the word after the change.
    pub fn word_after(self, old: Word) -> Word
        ensures { result ≡ changes.changed_word self old }
    {
        match self {
            Change::Put(word) => word,
            Change::Add(word) => old.wrapping_add(word),
        }
    }
}
