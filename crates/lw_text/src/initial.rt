//! The initial words of a test's registers and locations.
ghost use Rattle.std.specs.Prelude.{◌≡◌, ◌≤◌, map, IfOk};
ghost use Rattle.std.specs.List.{range_with_len};
ghost use Rattle.lw_base.specs.SeenLists.{thread_registers, locations};
ghost use Rattle.lw_text.specs.inner.Resolved.{seen_of, word_at};

use crate::block::Initializer;
use crate::site::Site;
use lw_base::{Cpu, Loc, MAX_LOCATIONS, MAX_THREADS, Reg, Sequence, Word};
use std::alloc::{AllocError, Allocator};

/// Returns the initial words of the registers of `threads` threads.
pub(crate) fn initial_registers<A: Allocator>(
    alloc: A,
    initializers: &[Initializer],
    threads: usize,
) -> Result<Sequence<[Word; 6], A>, AllocError>
    requires { threads ≤ MAX_THREADS }
    ensures { IfOk result
        (λ rows. rows ≡
        map (λ t. map (word_at initializers.now) (thread_registers t)) (range_with_len 0 threads)) }
{
    let mut rows = Sequence::new(alloc);
    for cpu in &Cpu::all()[..threads] {
        rows.push(words_of_thread(initializers, *cpu))?;
    }
    Ok(rows)
}

/// Returns the initial words of a thread's registers.
fn words_of_thread(initializers: &[Initializer], cpu: Cpu) -> [Word; 6]
    ensures { result ≡ map (word_at initializers.now) (thread_registers cpu) }
{
    let thread = cpu.index() as Word;
    let [r0, r1, r2, r3, r4, r5] = Reg::all();
    [
        word_of(initializers, Site::Register(thread, r0)),
        word_of(initializers, Site::Register(thread, r1)),
        word_of(initializers, Site::Register(thread, r2)),
        word_of(initializers, Site::Register(thread, r3)),
        word_of(initializers, Site::Register(thread, r4)),
        word_of(initializers, Site::Register(thread, r5)),
    ]
}

/// Returns the initial words of the first `len` locations.
pub(crate) fn initial_words<A: Allocator>(
    alloc: A,
    initializers: &[Initializer],
    len: usize,
) -> Result<Sequence<Word, A>, AllocError>
    requires { len ≤ MAX_LOCATIONS }
    ensures { IfOk result (λ words. words ≡ map (word_at initializers.now) (locations len)) }
{
    let mut words = Sequence::new(alloc);
    for loc in &Loc::all()[..len] {
        words.push(word_of(initializers, Site::Location(*loc)))?;
    }
    Ok(words)
}

/// Returns the word of the last initializer of a site, or 0.
fn word_of(initializers: &[Initializer], site: Site) -> Word
    ensures { result ≡ word_at initializers.now (seen_of site) }
{
    let mut word = 0;
    for initializer in initializers {
        if initializer.site.is_same(&site) {
            word = initializer.word;
        }
    }
    word
}
