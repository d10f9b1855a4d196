//! Names, registers and the table of locations.
ghost use Rattle.std.specs.Prelude.{◌≡◌, []};

use lw_base::{Arch, LocNames, Reg, is_name, is_unreserved_name, reg_from_name, reg_name};
use std::alloc::{AllocError, Allocator};

/// Names of locations. The last has 32 bytes, the most that a name may have.
const LOCATIONS: &str =
    "x,_,x1,r,rx,r0x,R0,If,NOT,eip,ax,eaxx,goto_,a2345678901234567890123456789012";

/// Names that are reserved.
const RESERVED: &str =
    "r0,r17,r00,if,goto,swap,fetchadd,exists,forall,locations,filter,true,false,not,eax,EAX,eBp,ebx,Ecx,eDX,ESi,edI,ESP";

/// Texts that are no names. One is empty, and the last has 33 bytes.
const NO_NAMES: &str = "1x,,9,x-y,x y,x:,[x],\u{e9},a23456789012345678901234567890123";

/// Returns the first of these words, separated by commas, for which `is_name` does not return `is_of_a_name`, or `is_unreserved_name` does
/// not return `is_of_a_location`.
fn first_other(words: &str, is_of_a_name: bool, is_of_a_location: bool) -> Option<&str> {
    words.split(',').find(|word| {
        is_name(word) != is_of_a_name || is_unreserved_name(word) != is_of_a_location
    })
}

#[test]
fn names_of_locations(rt: HostRuntime) {
    let others = (
        first_other(LOCATIONS, true, true),
        first_other(RESERVED, true, false),
        first_other(NO_NAMES, false, false),
    );
    assert!(rt; matches!(others, (None, None, None)), "{others:?}");
}

/// Inserts those of the words that are names of locations into a table, and returns the number of names that it then has.
fn grow<A: Allocator + Copy>(names: &mut LocNames<A>, words: &str) -> Result<usize, AllocError> {
    for word in words.split(' ') {
        if is_unreserved_name(word) {
            names.find_or_add(word)?;
        }
    }
    Ok(names.len())
}

/// Returns whether the table has these names first, in this order.
fn are_named<A: Allocator>(names: &LocNames<A>, words: &str) -> bool {
    for (place, word) in words.split(' ').enumerate() {
        if !matches!(names.find(word), Some(loc) if loc.index() == place) {
            return false;
        }
    }
    true
}

/// Returns whether an empty table gives the first name that is added the index 0.
fn takes_first<A: Allocator + Copy>(names: &mut LocNames<A>) -> bool
    requires { names.old ≡ [] }
{
    if !is_unreserved_name("x") {
        return false;
    }
    match names.add("x") {
        Ok(x) => x.index() == 0 && names.name(x) == "x",
        Err(_) => false,
    }
}

#[test]
fn table_of_locations(rt: HostRuntime) {
    let mut names = LocNames::new(rt.alloc());
    assert!(rt; takes_first(&mut names));
    assert!(rt; matches!(grow(&mut names, "y x r0 a b c d y e f g"), Ok(8)));
    assert!(rt; are_named(&names, "x y a b c d e f") && names.find("g").is_none());
}

/// Returns whether these are the names of a language's registers, in the order of their indices.
fn are_registers(arch: Arch, names: &str) -> bool {
    for (number, name) in names.split(' ').enumerate() {
        if !matches!(reg_from_name(arch, name), Some(reg) if reg.index() == number) {
            return false;
        }
    }
    true
}

/// Returns whether a register has the name `source` in the source language and the name `x86` in x86.
fn has_names(reg: Reg, source: &str, x86: &str) -> bool {
    reg_name(Arch::Source, reg) == source && reg_name(Arch::X86, reg) == x86
}

#[test]
fn names_of_registers(rt: HostRuntime) {
    assert!(rt; are_registers(Arch::Source, "r0 r1 r2 r3 r4 r5"));
    assert!(rt; are_registers(Arch::X86, "EAX EBX ECX EDX ESI EDI"));
    assert!(rt; are_registers(Arch::X86, "eax eBx Ecx edX esi EdI"));
    assert!(rt; matches!(Reg::new(5), Some(last) if has_names(last, "r5", "EDI")));
}

/// Returns the first of these words, separated by commas, that names a register.
fn first_register(arch: Arch, words: &str) -> Option<&str> {
    words
        .split(',')
        .find(|word| reg_from_name(arch, word).is_some())
}

#[test]
fn words_that_name_no_register(rt: HostRuntime) {
    let named = (
        first_register(Arch::Source, ",r6,r00,r,R0,r0x,EAX,eax"),
        first_register(Arch::X86, ",r0,EBP,esp,AX,RAX,EAXX"),
    );
    assert!(rt; matches!(named, (None, None)), "{named:?}");
}
