//! The order of outcomes, outcomes as keys of a set, and lists and texts in the memory of a `Vec` and a `String`.
use lw_base::{Outcome, Sequence, Text, Word};
use std::alloc::{AllocError, Global};
use std::collections::HashSet;
use std::test::Fail;

/// Returns the registers of a thread from their digits.
fn regs_of(digits: &str) -> [Word; 6] {
    let mut regs = [0; 6];
    for (reg, digit) in regs.iter_mut().zip(digits.as_bytes()) {
        *reg = Word::from(digit.wrapping_sub(b'0'));
    }
    regs
}

/// Returns the outcome that a text spells: six digits for each thread, `/`, and the words of memory.
fn outcome_of(alloc: Global, spelled: &str) -> Result<Outcome, AllocError> {
    let (threads, memory) = spelled.split_once('/').unwrap_or((spelled, ""));
    let mut regs = Sequence::new(alloc);
    for digits in threads.split(' ') {
        if !digits.is_empty() {
            regs.push(regs_of(digits))?;
        }
    }
    let mut words = Sequence::new(alloc);
    for digits in memory.split(' ') {
        if let Ok(word) = digits.parse::<Word>() {
            words.push(word)?;
        }
    }
    Ok(Outcome { regs, words })
}

/// Pairs of outcomes of which the first is less. A list of registers or of words is less than a longer one that starts with it. Registers
/// are compared before words, and the first thread's registers before the second's.
const UPWARDS: &str = "
/9 < 000000/9 9
000000/9 9 < 000000 000000/
000000 000000/ < 000000 000000/1
000000 000000/1 < 000000 000000/1 0
000000 000000/1 0 < 000000 000000/2
000000 000000/2 < 000000 000000/4294967295
000000 000000/4294967295 < 000000 100000/0
000000 100000/0 < 000001 000000/0
000001 000000/0 < 100000 000000/0
";

/// Returns whether the line's first outcome is less than its second.
fn holds(alloc: Global, line: &str) -> Result<bool, AllocError> {
    let (low, high) = line.split_once(" < ").unwrap_or((line, ""));
    let (low, high) = (outcome_of(alloc, low)?, outcome_of(alloc, high)?);
    Ok(low < high)
}

#[test]
fn order_of_outcomes(rt: HostRuntime) -> Result<(), Fail> {
    for line in UPWARDS.split('\n') {
        assert!(rt; line.is_empty() || holds(rt.alloc(), line)?, "{line}");
    }
    Ok(())
}

#[test]
fn equal_outcomes_are_one_key(rt: HostRuntime) -> Result<(), Fail> {
    let mut seen = HashSet::new(rt.alloc());
    let mut added = [false; 3];
    for (is_new, spelled) in added.iter_mut().zip(["000000/1", "000000/2", "000000/1"]) {
        *is_new = seen.insert(outcome_of(rt.alloc(), spelled)?)?;
    }
    assert!(rt; added == [true, true, false] && seen.len() == 2);
    Ok(())
}

/// Converts a `Vec` and a `String` into a list and a text, and back.
#[test]
fn lists_and_texts_give_their_memory_back(rt: HostRuntime) -> Result<(), Fail> {
    let items = Vec::from_slice(rt.alloc(), &[3, 1, 2])?;
    let list = Sequence::from(items);
    assert!(rt; list.len() == 3 && list.into_vec().as_slice() == [3, 1, 2].as_slice());
    let text = Text::from(String::from_str(rt.alloc(), "x86-TSO")?);
    assert!(rt; text.as_str().len() == 7 && text.into_string().as_str() == "x86-TSO");
    Ok(())
}
