//! Caches that snoop on one atomic bus, over one memory, by either protocol.
ghost use Rattle.std.specs.Prelude.{◌≡◌, ◌<◌, ◌≤◌, length, map, IfOk};
ghost use Rattle.lw_base.specs.Limits.{most_threads, most_locations};
ghost use Rattle.lw_mesi.specs.CacheLines.{unheld_cache_line, empty_caches, copy_of, cache_line_at, copy_word, coherent_words, memory_words_of, line_state};
ghost use Rattle.lw_mesi.specs.Snooping.{ProtocolTransition};
ghost use Rattle.lw_mesi.specs.Protocols.{table_of};
ghost use Rattle.lw_mesi.specs.Coherence.{SatisfiesProtocol};
ghost use Rattle.lw_mesi.specs.laws.ProtocolLaws.{protocol_lawful};

use crate::cache_line::PackedCacheLine;
use crate::protocol::{MesiProtocol, MoesiProtocol, ProtocolType};
use lw_base::{Change, Cpu, Loc, Word};
use lw_memory::{LineState, MemorySystem, NotHeld};
use std::alloc::{AllocError, Allocator, Global};
use std::marker::{Model, PhantomData};

/// Caches by the MESI protocol.
pub type Mesi<A = Global> = SnoopingCaches<MesiProtocol, A>;

/// Caches by the MOESI protocol.
pub type Moesi<A = Global> = SnoopingCaches<MoesiProtocol, A>;

/// A cache for each processor, snooping on one atomic bus, over one memory.
/// A contract sees for each location the copies in the caches, and memory's word. Every call ensures that the caches
/// are coherent (a single writer or many readers, and one word in all copies) and in states of their protocol.
#[derive(Drop)]
pub struct SnoopingCaches<P: ProtocolType, A: Allocator = Global> {
    cpus: usize,
    cache_lines: Vec<PackedCacheLine, A>,
    protocol: PhantomData<P>,
}

impl<P: ProtocolType, A: Allocator> Model for SnoopingCaches<P, A> {
    ghost use Rattle.std.specs.Prelude.{◌≤◌, length};
    ghost use Rattle.lw_mesi.specs.CacheLines.{Caches};
    ghost use Rattle.lw_mesi.specs.Coherence.{SatisfiesProtocol};
    ghost use Rattle.lw_base.specs.Limits.{most_locations};

    ghost Value = { Caches };

    ghost view = { λ m. record { cpus = m.cpus; cache_lines = m.cache_lines.items } };

    ghost invariant = { λ m. (length m.cache_lines.items ≤ most_locations)
        × SatisfiesProtocol P.protocol (record { cpus = m.cpus; cache_lines = m.cache_lines.items }) };
}

impl<P: ProtocolType, A: Allocator + Copy> SnoopingCaches<P, A> {
    /// Creates empty caches for `cpus` processors over a memory with these words. Fails only if memory runs out;
    /// later calls do not allocate.
    pub fn new(alloc: A, cpus: usize, words: &[Word]) -> Result<Self, AllocError>
        requires cpus { cpus ≤ most_threads }
        requires words { length words.now ≤ most_locations }
        ensures cpus { IfOk result (λ m. m.cpus ≡ cpus) }
        ensures cache_lines { IfOk result (λ m. m.cache_lines ≡ map unheld_cache_line words.now) }
        ensures kept { IfOk result (SatisfiesProtocol P.protocol) }
    {
        let mut cache_lines = Vec::new(alloc);
        for word in words {
            cache_lines.push(PackedCacheLine::new(*word))?;
        }
        Ok(SnoopingCaches {
            cpus,
            cache_lines,
            protocol: PhantomData,
        })
    }
}

impl<P: ProtocolType, A: Allocator> SnoopingCaches<P, A> {
    /// Returns the word of a processor's copy of a location, or `None` if it has none.
    pub fn copy(&self, cpu: Cpu, loc: Loc) -> Option<Word>
        requires cpu { cpu < self.now.cpus }
        requires loc { loc < length self.now.cache_lines }
        ensures word { result ≡ copy_word (copy_of (cache_line_at self.now.cache_lines loc) cpu) }
        ensures kept { SatisfiesProtocol P.protocol self.now }
    {
        self.cache_lines[loc.index()].copy(cpu)
    }
}

impl<P: ProtocolType, A: Allocator> MemorySystem for SnoopingCaches<P, A> {
    ghost content = { coherent_words };

    ghost cpus = { λ m. m.cpus };

    ghost memory = { memory_words_of };

    ghost state = { line_state };

    ghost sound = { SatisfiesProtocol P.protocol };

    ghost start = { empty_caches };

    ghost serves = { ProtocolTransition (table_of P.protocol) };

    /// Loads the location's word, by a GetS if the processor has no copy.
    fn load(&mut self, cpu: Cpu, loc: Loc) -> Word {
        let line = &mut self.cache_lines[loc.index()];
        line.load(P::protocol(), cpu)
    }

    /// Writes a word, by a GetM if the processor has no copy in M or E.
    fn store(&mut self, cpu: Cpu, loc: Loc, word: Word) {
        let line = &mut self.cache_lines[loc.index()];
        let _ = line.write(cpu, word);
    }

    /// Changes the location's word atomically, and returns the word before the change.
    fn update(&mut self, cpu: Cpu, loc: Loc, change: Change) -> Word {
        let line = &mut self.cache_lines[loc.index()];
        let word = change.word_after(line.word());
        line.write(cpu, word)
    }

    /// Evicts a processor's copy. A dirty copy's word is written back to memory.
    fn evict(&mut self, cpu: Cpu, loc: Loc) -> Result<(), NotHeld> {
        let line = &mut self.cache_lines[loc.index()];
        line.evict(cpu)
    }

    /// Returns the location's coherent word, from whichever copy has it.
    fn word_at_end(&self, loc: Loc) -> Word {
        self.cache_lines[loc.index()].word()
    }

    /// Returns memory's word, which may be older than the owner's.
    fn word_in_memory(&self, loc: Loc) -> Word {
        self.cache_lines[loc.index()].word_in_memory()
    }

    /// Returns the state of the processor's copy.
    fn state_of(&self, cpu: Cpu, loc: Loc) -> LineState {
        self.cache_lines[loc.index()].state_of(cpu)
    }

    /// Returns the number of processors, each of which has a cache.
    fn cpu_count(&self) -> usize {
        self.cpus
    }

    /// Returns the number of locations, each of which has a cache line.
    fn location_count(&self) -> usize {
        self.cache_lines.len()
    }

    /// Empties the caches, and writes these words to memory.
    fn restart(&mut self, words: &[Word]) {
        for (index, word) in words.iter().enumerate() {
            self.cache_lines[index] = PackedCacheLine::new(*word);
        }
    }

    ghost lawful = { protocol_lawful P.protocol };
}
