//! The interface of a memory system: its requests, their results, and its laws.
ghost use Rattle.std.specs.Prelude.{◌≡◌, ◌<◌, ◌≤◌, ℕ, List, Option, Some, None, length, slice_index, is_ok, OnOk, OnErr};
ghost use Rattle.lw_base.specs.Limits.{most_threads, most_locations};
ghost use Rattle.lw_memory.specs.declared.system.LineState.{LineState};
ghost use Rattle.lw_memory.specs.declared.request.Access.{Access};
ghost use Rattle.lw_memory.specs.declared.request.Request.{Request};
ghost use Rattle.lw_memory.specs.SystemLaws.{invariant_of, IsLawful};
ghost use Rattle.lw_memory.specs.Memory.{memory_of, is_held};

use lw_base::{Change, Cpu, Loc, Word};

/// The state of a processor's copy of a location.
#[derive(Clone, Copy, PartialEq, Eq)]
pub enum LineState {
    /// Modified: the only copy, and memory may differ.
    M,
    /// Owned: other caches may have copies in S, and memory may differ.
    O,
    /// Exclusive: the only copy, and memory has the same word.
    E,
    /// Shared: other caches may have copies too.
    S,
    /// Invalid: no copy.
    I,
}

/// The error of evicting a location that the processor does not hold.
#[derive(Clone, Copy)]
pub struct NotHeld;

/// A memory of several processors that answers each request as if it had one word for each location.
pub trait MemorySystem {
    /// The word of each location, as a load finds it.
    ghost content: { Self → List ℕ };

    /// The number of processors.
    ghost cpus: { Self → ℕ };

    /// The word of each location in memory, without the caches.
    ghost memory: { Self → List ℕ };

    /// The state of a processor's copy of a location.
    ghost state: { Self → ℕ → ℕ → LineState };

    /// The invariant: it holds in every reachable state.
    ghost sound: { Self → Type 0 };

    /// The initial state, for a number of processors and these words.
    ghost start: { ℕ → List ℕ → Self };

    /// The transition relation: the state before, a request, its result if it has one, and the state after.
    ghost serves: { Self → Request → Option ℕ → Self → Type 0 };

    /// Loads a location's word for a processor.
    fn load(&mut self, cpu: Cpu, loc: Loc) -> Word
        requires cpu { cpu < cpus self.old }
        requires loc { loc < length (content self.old) }
        ensures sound { sound self.old }
        ensures served { serves self.old (Request.Ask cpu loc Access.Load) (Some result) self.new };

    /// Stores a word to a location for a processor.
    fn store(&mut self, cpu: Cpu, loc: Loc, word: Word)
        requires cpu { cpu < cpus self.old }
        requires loc { loc < length (content self.old) }
        ensures sound { sound self.old }
        ensures served { serves self.old (Request.Ask cpu loc (Access.Store word)) None self.new };

    /// Changes a location's word atomically for a processor, and returns the word before the change.
    fn update(&mut self, cpu: Cpu, loc: Loc, change: Change) -> Word
        requires cpu { cpu < cpus self.old }
        requires loc { loc < length (content self.old) }
        ensures sound { sound self.old }
        ensures served { serves self.old (Request.Ask cpu loc (Access.Update change)) (Some result) self.new };

    /// Evicts a location from a processor's cache. Fails, and changes nothing, if and only if the cache does not hold
    /// it.
    fn evict(&mut self, cpu: Cpu, loc: Loc) -> Result<(), NotHeld>
        requires cpu { cpu < cpus self.old }
        requires loc { loc < length (content self.old) }
        ensures sound { sound self.old }
        ensures held { is_ok result ≡ is_held (state self.old cpu loc) }
        ensures ok { OnOk result (serves self.old (Request.Evict cpu loc) None self.new) }
        ensures err { OnErr result (self.new ≡ self.old) };

    /// Returns a location's coherent word, wherever it is.
    fn word_at_end(&self, loc: Loc) -> Word
        requires { loc < length (content self.now) }
        ensures sound { sound self.now }
        ensures word { result ≡ slice_index (content self.now) loc };

    /// Returns a location's word in memory.
    fn word_in_memory(&self, loc: Loc) -> Word
        requires { loc < length (content self.now) }
        ensures sound { sound self.now }
        ensures word { result ≡ slice_index (memory self.now) loc };

    /// Returns the state of a processor's copy of a location.
    fn state_of(&self, cpu: Cpu, loc: Loc) -> LineState
        requires cpu { cpu < cpus self.now }
        requires loc { loc < length (content self.now) }
        ensures sound { sound self.now }
        ensures letter { result ≡ state self.now cpu loc };

    /// Returns the number of processors.
    fn cpu_count(&self) -> usize
        ensures count { result ≡ cpus self.now }
        ensures bounded { result ≤ most_threads }
        ensures sound { sound self.now };

    /// Returns the number of locations.
    fn location_count(&self) -> usize
        ensures count { result ≡ length (content self.now) }
        ensures bounded { result ≤ most_locations }
        ensures sound { sound self.now };

    /// Resets the system to its initial state, with these words. Does not allocate.
    fn restart(&mut self, words: &[Word])
        requires { length words.now ≡ length (content self.old) }
        ensures start { self.new ≡ start (cpus self.old) words.now }
        ensures sound { sound self.new }
        ensures cpus { cpus self.new ≡ cpus self.old }
        ensures words { content self.new ≡ words.now };

    /// The content determines every result, and a request changes it as it would change one word for each location.
    ghost lawful: { IsLawful (memory_of content state serves) (invariant_of cpus sound) };
}
