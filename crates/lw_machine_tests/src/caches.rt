//! The protocols at work: rows of requests, with their results and the state of the caches after the last.
use lw_base::{Change, Cpu, Loc, Word};
use lw_memory::LineState::{self, E, I, M, O, S};
use lw_memory::MemorySystem;
use lw_mesi::{MesiProtocol, MoesiProtocol, ProtocolType, SnoopingCaches};
use std::alloc::Global;

/// Requests by up to four processors for one location that begins with 0, and then what is held: the state of each processor's
/// copy, the word in memory, and the word at the end, which each copy has. `1L=0` is a load by the second processor that answers 0, `0S1` a store of 1 by
/// the first, `0X9=5` its swap that stores 9 and answers 5, `0A9=5` its fetch-and-add that adds 9 and answers 5, `0E` its eviction,
/// and `0E!` one that is refused.
const MESI_ROWS: &str = "
1L=0 => IE 0 0
1L=0 0S1 => MI 0 1
1L=0 0S1 1L=1 => SS 1 1
1L=0 1L=0 0S1 => MI 0 1
1L=0 1L=0 0S1 0E => II 1 1
0E! => II 0 0
1L=0 0S1 1L=1 0E 1E => II 1 1
1L=0 1E 1E! => II 0 0
0S5 0X9=5 => MI 0 9
0L=0 0X9=0 => MI 0 9
0L=0 1L=0 0X9=0 => MI 0 9
0X9=0 => MI 0 9
1L=0 0X9=0 => MI 0 9
1S5 0X9=5 => MI 0 9
0S5 0E => II 5 5
0L=0 0E => II 0 0
0L=0 1L=0 0E => IS 0 0
0S5 1L=5 0E 0L=5 => SS 5 5
0E! => II 0 0
1S5 0E! => IM 0 5
0S5 0A3=5 => MI 0 8
0L=0 0A3=0 => MI 0 3
0L=0 1L=0 0A3=0 => MI 0 3
0A3=0 => MI 0 3
1S5 0A3=5 => MI 0 8
0S1 1L=1 0A3=1 => MI 1 4
0L=0 => EIII 0 0
0L=0 1L=0 => SSII 0 0
0L=0 1L=0 2L=0 => SSSI 0 0
0L=0 1L=0 2L=0 3L=0 => SSSS 0 0
0L=0 1L=0 2L=0 => SSS 0 0
";

/// The same, where a dirty copy that others share is owned.
const MOESI_ROWS: &str = "
1L=0 0S1 1L=1 => OS 0 1
1L=0 0S1 1L=1 1E => OI 0 1
1L=0 0S1 1L=1 0E => IS 1 1
1L=0 0S1 1L=1 0E 1E => II 1 1
1L=0 => IE 0 0
1L=0 0L=0 => SS 0 0
1L=0 0S1 => MI 0 1
0E! => II 0 0
0S5 0E => II 5 5
0S1 1L=1 0L=1 => OS 0 1
0S1 1L=1 1E 1L=1 => OS 0 1
0S1 1L=1 0S2 => MI 0 2
0S1 1L=1 0X2=1 => MI 0 2
0S1 1L=1 0A3=1 => MI 0 4
0S1 1L=1 1E 0A3=1 => MI 0 4
0S1 1L=1 1S3 => IM 0 3
0S1 1L=1 1X3=1 => IM 0 3
0S1 1L=1 1A3=1 => IM 0 4
0S1 1L=1 0E 0L=1 => SS 1 1
0S5 0A3=5 => MI 0 8
0L=0 0A3=0 => MI 0 3
0L=0 1L=0 0A3=0 => MI 0 3
0A3=0 => MI 0 3
1S5 0A3=5 => MI 0 8
";

/// Returns the word of a digit.
fn word_of(digit: u8) -> Word {
    Word::from(digit.wrapping_sub(b'0'))
}

/// Returns whether a request for the one location has the result that it spells.
fn is_answered<P: ProtocolType>(
    memory: &mut SnoopingCaches<P>,
    cpu: Cpu,
    loc: Loc,
    spelled: &[u8],
) -> bool {
    if cpu.index() >= memory.cpu_count() || loc.index() >= memory.location_count() {
        return false;
    }
    match spelled {
        [b'L', b'=', old] => memory.load(cpu, loc) == word_of(*old),
        [b'S', new] => {
            memory.store(cpu, loc, word_of(*new));
            true
        }
        [b'X', new, b'=', old] => {
            memory.update(cpu, loc, Change::Put(word_of(*new))) == word_of(*old)
        }
        [b'A', more, b'=', old] => {
            memory.update(cpu, loc, Change::Add(word_of(*more))) == word_of(*old)
        }
        [b'E'] => memory.evict(cpu, loc).is_ok(),
        [b'E', b'!'] => memory.evict(cpu, loc).is_err(),
        _ => false,
    }
}

/// Returns whether all requests of a row have the results that they spell.
fn are_answered<P: ProtocolType>(memory: &mut SnoopingCaches<P>, loc: Loc, requests: &str) -> bool {
    for request in requests.split(' ') {
        let Some((first, spelled)) = request.as_bytes().split_first() else {
            return false;
        };
        let is_answered = match Cpu::new(first.wrapping_sub(b'0')) {
            Some(cpu) => is_answered(memory, cpu, loc, spelled),
            None => false,
        };
        if !is_answered {
            return false;
        }
    }
    true
}

/// Returns the letter of a line's state.
fn letter_of(state: LineState) -> u8 {
    match state {
        M => b'M',
        O => b'O',
        E => b'E',
        S => b'S',
        I => b'I',
    }
}

/// Returns whether the caches hold a location in these states.
fn are_held<P: ProtocolType>(memory: &SnoopingCaches<P>, loc: Loc, states: &str) -> bool {
    for (cpu, letter) in Cpu::all().iter().zip(states.as_bytes()) {
        if cpu.index() >= memory.cpu_count()
            || loc.index() >= memory.location_count()
            || letter_of(memory.state_of(*cpu, loc)) != *letter
        {
            return false;
        }
    }
    memory.cpu_count() == states.len()
}

/// Returns whether each processor that holds a location has this word in its copy, and the others have no copy.
fn are_copied<P: ProtocolType>(
    memory: &SnoopingCaches<P>,
    loc: Loc,
    states: &str,
    word: Word,
) -> bool {
    for (cpu, letter) in Cpu::all().iter().zip(states.as_bytes()) {
        let copied = if *letter == b'I' { None } else { Some(word) };
        if cpu.index() >= memory.cpu_count()
            || loc.index() >= memory.location_count()
            || memory.copy(*cpu, loc) != copied
        {
            return false;
        }
    }
    true
}

/// Returns whether these digits are the word in memory and the coherent word of a location, which is that of all
/// copies.
fn are_words<P: ProtocolType>(
    memory: &SnoopingCaches<P>,
    loc: Loc,
    states: &str,
    digits: &str,
) -> bool {
    let [in_memory, b' ', at_end] = digits.as_bytes() else {
        return false;
    };
    loc.index() < memory.location_count()
        && memory.word_in_memory(loc) == word_of(*in_memory)
        && memory.word_at_end(loc) == word_of(*at_end)
        && are_copied(memory, loc, states, word_of(*at_end))
}

/// Returns whether the row holds by a protocol.
fn holds<P: ProtocolType>(alloc: Global, row: &str) -> Option<bool> {
    let [loc, ..] = Loc::all();
    let (requests, held) = row.split_once(" => ")?;
    let (states, digits) = held.split_once(' ')?;
    if states.len() > 4 {
        return None;
    }
    let mut memory = SnoopingCaches::<P>::new(alloc, states.len(), &[0]).ok()?;
    Some(
        are_answered(&mut memory, loc, requests)
            && are_held(&memory, loc, states)
            && are_words(&memory, loc, states, digits),
    )
}

#[test]
fn rows_of_requests(rt: HostRuntime) {
    for row in MESI_ROWS.split('\n') {
        let holds = row.is_empty() || holds::<MesiProtocol>(rt.alloc(), row) == Some(true);
        assert!(rt; holds, "{row}");
    }
    for row in MOESI_ROWS.split('\n') {
        let holds = row.is_empty() || holds::<MoesiProtocol>(rt.alloc(), row) == Some(true);
        assert!(rt; holds, "{row}");
    }
}
