//! A flat memory.
use lw_base::{Change, Cpu, Loc};
use lw_memory::{FlatMemory, MemorySystem};

#[test]
fn one_word_for_all_processors(rt: HostRuntime) {
    let ([p0, p1, ..], [x, y, ..]) = (Cpu::all(), Loc::all());
    let mut memory = FlatMemory::new(2, &[5, 7]);
    memory.store(p0, y, 9);
    let words = [
        memory.load(p1, x),
        memory.load(p1, y),
        memory.update(p1, x, Change::Put(6)),
        memory.update(p0, y, Change::Add(4294967295)),
        memory.word_at_end(x),
        memory.word_in_memory(y),
    ];
    assert!(rt; words == [5, 9, 5, 9, 6, 8] && memory.evict(p0, x).is_err());
}
