//! The cache line of one location: all its copies and memory's word, packed into one record.
ghost use Rattle.std.specs.Prelude.{◌≡◌, ◌<◌, Some, is_ok, OnOk, OnErr};
ghost use Rattle.lw_base.specs.Limits.{most_threads};
ghost use Rattle.lw_memory.specs.Memory.{is_held};
ghost use Rattle.lw_mesi.specs.CacheLines.{Invalid, unheld_cache_line, copy_of, copy_state, copy_word, coherent_word};
ghost use Rattle.lw_mesi.specs.Snooping.{cache_line_to_read, cache_line_to_write, cache_line_written, cache_line_evicted};
ghost use Rattle.lw_mesi.specs.Protocols.{table_of};
ghost use Rattle.lw_mesi.specs.Coherence.{HasProtocolStates};
ghost use Rattle.lw_mesi.specs.inner.EachIndex.{is_owner};

use crate::cpu_set::CpuSet;
use crate::protocol::Protocol;
use lw_base::{Cpu, Word};
use lw_memory::{LineState, NotHeld};
use std::marker::Model;

/// The copies of one location. A contract sees each processor's copy, and memory's word.
#[derive(Drop)]
pub(crate) struct PackedCacheLine {
    /// The processor that holds the line in M, O or E.
    owner: Option<Cpu>,
    /// Whether the owner's copy is in M or O.
    is_dirty: bool,
    /// Whether a dirty owner's copy is in O.
    is_owned: bool,
    /// The processors that hold it in S.
    sharers: CpuSet,
    /// The word of all copies; memory's word if there are no copies.
    word: Word,
    memory: Word,
}

impl Model for PackedCacheLine {
    ghost use Rattle.lw_mesi.specs.CacheLines.{CacheLine};

    ghost Value = { CacheLine };

    ghost use Rattle.lw_mesi.specs.inner.Packed.{IsPacked, unpacked};

    ghost view = { unpacked };

    ghost invariant = { IsPacked };
}

impl PackedCacheLine {
    /// Creates a line without copies, with this word in memory.
    pub(crate) fn new(word: Word) -> Self
        ensures { result ≡ unheld_cache_line word }
    {
        PackedCacheLine {
            owner: None,
            is_dirty: false,
            is_owned: false,
            sharers: CpuSet::new(),
            word,
            memory: word,
        }
    }

    /// Returns the state of a processor's copy.
    pub(crate) fn state_of(&self, cpu: Cpu) -> LineState
        requires { cpu < most_threads }
        ensures { result ≡ copy_state (copy_of self.now cpu) }
    {
        if is_owner(self.owner, cpu) {
            match (self.is_dirty, self.is_owned) {
                (true, false) => LineState::M,
                (true, true) => LineState::O,
                (false, _) => LineState::E,
            }
        } else if self.sharers.contains(cpu) {
            LineState::S
        } else {
            LineState::I
        }
    }

    /// Returns the location's coherent word.
    pub(crate) fn word(&self) -> Word
        ensures { result ≡ coherent_word self.now }
    {
        self.word
    }

    /// Returns memory's word, which is stale while an owner's copy is dirty.
    pub(crate) fn word_in_memory(&self) -> Word
        ensures { result ≡ self.now.memory }
    {
        self.memory
    }

    /// Returns the word of a processor's copy, or `None` if it has none.
    pub(crate) fn copy(&self, cpu: Cpu) -> Option<Word>
        requires { cpu < most_threads }
        ensures { result ≡ copy_word (copy_of self.now cpu) }
    {
        if is_owner(self.owner, cpu) || self.sharers.contains(cpu) {
            Some(self.word)
        } else {
            None
        }
    }

    /// Loads the word for a processor, by a protocol. A bus transaction is needed if the processor has no copy.
    pub(crate) fn load(&mut self, protocol: Protocol, cpu: Cpu) -> Word
        requires cpu { cpu < most_threads }
        requires states { HasProtocolStates protocol self.old }
        ensures word { Some result ≡ copy_word (copy_of (cache_line_to_read (table_of protocol) cpu self.old) cpu) }
        ensures line { self.new ≡ cache_line_to_read (table_of protocol) cpu self.old }
    {
        match self.copy(cpu) {
            Some(word) => word,
            None => self.get_s(protocol, cpu),
        }
    }

    /// Performs a GetS, the bus transaction of a load without a copy, and returns the word that it brings.
    fn get_s(&mut self, protocol: Protocol, cpu: Cpu) -> Word
        requires cpu { cpu < most_threads }
        requires states { HasProtocolStates protocol self.old }
        requires without { copy_of self.old cpu ≡ Invalid }
        ensures word { Some result ≡ copy_word (copy_of (cache_line_to_read (table_of protocol) cpu self.old) cpu) }
        ensures line { self.new ≡ cache_line_to_read (table_of protocol) cpu self.old }
    {
        let word = self.word;
        match self.owner {
            Some(owner) => match protocol {
                // A dirty owner shares its word, and memory keeps the old one.
                Protocol::Moesi if self.is_dirty => {
                    self.is_owned = true;
                    self.sharers.insert(cpu);
                }
                // Any other owner becomes a sharer, and memory has its word.
                _ => {
                    self.memory = word;
                    self.is_dirty = false;
                    self.owner = None;
                    self.sharers.insert(owner);
                    self.sharers.insert(cpu);
                }
            },
            None if self.sharers.is_empty() => self.owner = Some(cpu),
            None => self.sharers.insert(cpu),
        }
        word
    }

    /// Writes a word and returns the one that it replaces. The writer becomes the only holder, in M.
    pub(crate) fn write(&mut self, cpu: Cpu, word: Word) -> Word
        requires { cpu < most_threads }
        ensures word { Some result ≡ copy_word (copy_of (cache_line_to_write cpu self.old) cpu) }
        ensures line { self.new ≡ cache_line_written cpu word self.old }
    {
        let old = self.word;
        self.owner = Some(cpu);
        self.is_dirty = true;
        self.is_owned = false;
        self.sharers = CpuSet::new();
        self.word = word;
        old
    }

    /// Evicts a processor's copy. The word of a copy in M or O is written back to memory. Fails, and changes nothing,
    /// if the processor has no copy.
    pub(crate) fn evict(&mut self, cpu: Cpu) -> Result<(), NotHeld>
        requires { cpu < most_threads }
        ensures held { is_ok result ≡ is_held (copy_state (copy_of self.old cpu)) }
        ensures ok { OnOk result (self.new ≡ cache_line_evicted cpu self.old) }
        ensures err { OnErr result (self.new ≡ self.old) }
    {
        match self.state_of(cpu) {
            LineState::M | LineState::O => {
                self.memory = self.word;
                self.is_dirty = false;
                self.is_owned = false;
                self.owner = None;
            }
            LineState::E => self.owner = None,
            LineState::S => self.sharers.remove(cpu),
            LineState::I => return Err(NotHeld),
        }
        Ok(())
    }
}

/// Returns whether the owner is this processor.
fn is_owner(owner: Option<Cpu>, cpu: Cpu) -> bool
    ensures { result ≡ is_owner owner cpu }
{
    owner == Some(cpu)
}
