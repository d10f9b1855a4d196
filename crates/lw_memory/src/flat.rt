//! Flat memory: a memory without caches.
ghost use Rattle.std.specs.Prelude.{◌≡◌, ◌≤◌, length};
ghost use Rattle.lw_base.specs.Limits.{most_threads, most_locations};
ghost use Rattle.lw_memory.specs.declared.system.LineState.TheVariants.{I};
ghost use Rattle.lw_memory.specs.Flat.{FlatStep};
ghost use Rattle.lw_memory.specs.laws.FlatLaws.{flat_lawful};

use crate::system::{LineState, MemorySystem, NotHeld};
use lw_base::{Change, Cpu, Loc, MAX_LOCATIONS, Word};
use std::marker::Model;

/// One word for each location, which all processors see at once. Does not allocate.
#[derive(Drop)]
pub struct FlatMemory {
    cpus: usize,
    len: usize,
    words: [Word; MAX_LOCATIONS],
}

impl Model for FlatMemory {
    ghost use Rattle.std.specs.Prelude.{◌≤◌, take};
    ghost use Rattle.lw_memory.specs.Flat.{Flat};
    ghost use Rattle.lw_base.specs.Limits.{most_threads, most_locations};

    ghost Value = { Flat };

    ghost view = { λ m. record { cpus = m.cpus; words = take m.len m.words } };

    ghost invariant = { λ m. (m.cpus ≤ most_threads) × (m.len ≤ most_locations) };
}

impl FlatMemory {
    /// Creates a memory for `cpus` processors, with these words.
    pub fn new(cpus: usize, words: &[Word]) -> Self
        requires cpus { cpus ≤ most_threads }
        requires words { length words.now ≤ most_locations }
        ensures cpus { result.cpus ≡ cpus }
        ensures words { result.words ≡ words.now }
    {
        let mut all = [0; MAX_LOCATIONS];
        all[..words.len()].copy_from_slice(words);
        FlatMemory {
            cpus,
            len: words.len(),
            words: all,
        }
    }
}

impl MemorySystem for FlatMemory {
    ghost content = { λ m. m.words };

    ghost cpus = { λ m. m.cpus };

    ghost memory = { λ m. m.words };

    ghost state = { λ m cpu loc. I };

    ghost sound = { λ m. Unit {0} };

    ghost start = { λ cpus words. record { cpus = cpus; words = words } };

    ghost serves = { FlatStep };

    /// Returns the location's word.
    fn load(&mut self, _cpu: Cpu, loc: Loc) -> Word {
        self.words[loc.index()]
    }

    /// Writes the location's word.
    fn store(&mut self, _cpu: Cpu, loc: Loc, word: Word) {
        self.words[loc.index()] = word;
    }

    /// Changes the location's word, and returns the word before the change.
    fn update(&mut self, _cpu: Cpu, loc: Loc, change: Change) -> Word {
        let old = self.words[loc.index()];
        self.words[loc.index()] = change.word_after(old);
        old
    }

    /// Fails: no cache holds a location.
    fn evict(&mut self, _cpu: Cpu, _loc: Loc) -> Result<(), NotHeld> {
        Err(NotHeld)
    }

    /// Returns the location's word.
    fn word_at_end(&self, loc: Loc) -> Word {
        self.words[loc.index()]
    }

    /// Returns the location's word: all words are in memory.
    fn word_in_memory(&self, loc: Loc) -> Word {
        self.words[loc.index()]
    }

    /// Returns `I`: no cache holds a location.
    fn state_of(&self, _cpu: Cpu, _loc: Loc) -> LineState {
        LineState::I
    }

    /// Returns the number of processors, as passed to `new`.
    fn cpu_count(&self) -> usize {
        self.cpus
    }

    /// Returns the number of locations.
    fn location_count(&self) -> usize {
        self.len
    }

    /// Overwrites all words with these.
    fn restart(&mut self, words: &[Word]) {
        self.words[..self.len].copy_from_slice(words);
    }

    ghost lawful = { flat_lawful };
}
