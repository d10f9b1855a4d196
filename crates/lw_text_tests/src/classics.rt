//! The texts of three examples are read as the tests of lw_bench's theorems of classic tests, which are values in
//! lw_bench/specs/Classics.antt.
use lw_base::{Arch, Cpu, Head, Loc, Operand, Prop, Quant, Reg, Word};
use lw_source::{Source, Stmt};
use lw_test_reader::{program_of, source_of};
use lw_x86::{Instr, Program};
use std::alloc::Global;

/// examples/SB.litmus.
const STORE_BUFFERING: &str = "SRC SB
(* Store buffering. Each thread stores, and then loads what the other stored. By interleaving some load
   comes after both stores, so not both registers end 0. On x86 both can: the stores may wait in the store
   buffers while the loads go ahead.
   Interleaving: forbidden. x86-TSO: allowed. A run: P0 P0 P1 P1. SB-x86 shows the outcome *)
{}
 P0 | P1 ;
 x := 1 | y := 1 ;
 r0 := y | r0 := x ;
exists (0:r0=0 /\\ 1:r0=0)
";

/// examples/SB-x86.litmus.
const STORE_BUFFERING_IN_X86: &str = "X86 SB-x86
(* Store buffering in x86 instructions. Both stores wait in the store buffers while the loads go ahead, so both
   loads take the 0 that memory still has; the drains come last. Each cache then holds the line that it has
   written in state M, and memory's own words are as they were.
   Interleaving: forbidden. x86-TSO: allowed. A telling schedule: P0 P0 P1 P1 D0 D1 *)
{}
 P0 | P1 ;
 MOV [x],$1 | MOV [y],$1 ;
 MOV EAX,[y] | MOV EAX,[x] ;
exists (0:EAX=0 /\\ 1:EAX=0)
";

/// examples/MP-x86.litmus.
const MESSAGE_PASSING_IN_X86: &str = "X86 MP-x86
(* Message passing. x is the message and y says that it is there. A store buffer is a queue, so the message is in
   memory before the flag, and loads are not done early: who sees the flag sees the message.
   Interleaving: forbidden. x86-TSO: forbidden. A telling schedule: P0 P0 D0 P1 D0 P1 *)
{}
 P0 | P1 ;
 MOV [x],$1 | MOV EAX,[y] ;
 MOV [y],$1 | MOV EBX,[x] ;
~exists (1:EAX=1 /\\ 1:EBX=0)
";

/// A thread, one of its registers, and the word that an atom says the register has.
type Atom = (Cpu, Reg, Word);

/// Returns whether a head has this name and language, two threads, the locations x and y, all 0, and lists nothing.
fn has_begin(head: &Head, name: &str, arch: Arch) -> bool {
    let [x, y, ..] = Loc::all();
    let is_named = head.name.as_str() == name && head.arch == arch && head.threads == 2;
    let has_names = head.locs.len() == 2
        && head.locs.find("x") == Some(x)
        && head.locs.find("y") == Some(y);
    let is_zero = head.init_regs.as_slice() == [[0; 6]; 2].as_slice()
        && head.init_words.as_slice() == [0, 0].as_slice();
    is_named && has_names && is_zero && head.listed.is_empty()
}

/// Returns whether a proposition is this atom.
fn is_atom(prop: &Prop, atom: Atom) -> bool {
    match prop {
        Prop::RegIs(cpu, reg, word) => (*cpu, *reg, *word) == atom,
        _ => false,
    }
}

/// Returns whether a head's condition has this quantifier and joins these two atoms by `/\`.
fn asks(head: &Head, quant: Quant, first: Atom, second: Atom) -> bool {
    match &head.prop {
        Prop::Both(left, right) => {
            head.quant == quant && is_atom(left, first) && is_atom(right, second)
        }
        _ => false,
    }
}

/// Returns whether a source test has these two threads.
fn has_statements(source: &Source, first: &[Stmt], second: &[Stmt]) -> bool {
    match source.threads.as_slice() {
        [p0, p1] => p0.as_slice() == first && p1.as_slice() == second,
        _ => false,
    }
}

/// Returns whether an x86 test has these two threads.
fn has_instructions(program: &Program, first: &[Instr], second: &[Instr]) -> bool {
    match program.threads.as_slice() {
        [p0, p1] => p0.as_slice() == first && p1.as_slice() == second,
        _ => false,
    }
}

/// Returns a statement that stores 1.
fn store_statement(loc: Loc) -> Stmt {
    let val = Operand::Number(1);
    Stmt::Store { loc, val }
}

/// Returns a statement that loads.
fn load_statement(dst: Reg, loc: Loc) -> Stmt {
    Stmt::Load { dst, loc }
}

/// Returns an instruction that stores 1.
fn store(loc: Loc) -> Instr {
    let val = Operand::Number(1);
    Instr::Store { loc, val }
}

/// Returns an instruction that loads.
fn load(reg: Reg, loc: Loc) -> Instr {
    Instr::Load { reg, loc }
}

/// Returns whether a source test is store buffering.
fn is_store_buffering(source: &Source) -> bool {
    let ([p0, p1, ..], [r0, ..], [x, y, ..]) = (Cpu::all(), Reg::all(), Loc::all());
    let first = [store_statement(x), load_statement(r0, y)];
    let second = [store_statement(y), load_statement(r0, x)];
    has_begin(&source.head, "SB", Arch::Source)
        && asks(&source.head, Quant::Exists, (p0, r0, 0), (p1, r0, 0))
        && has_statements(source, &first, &second)
}

/// Returns whether an x86 test is store buffering.
fn is_store_buffering_in_x86(program: &Program) -> bool {
    let ([p0, p1, ..], [eax, ..], [x, y, ..]) = (Cpu::all(), Reg::all(), Loc::all());
    let first = [store(x), load(eax, y)];
    let second = [store(y), load(eax, x)];
    has_begin(&program.head, "SB-x86", Arch::X86)
        && asks(&program.head, Quant::Exists, (p0, eax, 0), (p1, eax, 0))
        && has_instructions(program, &first, &second)
}

/// Returns whether an x86 test is message passing.
fn is_message_passing_in_x86(program: &Program) -> bool {
    let ([_, p1, ..], [eax, ebx, ..], [x, y, ..]) = (Cpu::all(), Reg::all(), Loc::all());
    let first = [store(x), store(y)];
    let second = [load(eax, y), load(ebx, x)];
    has_begin(&program.head, "MP-x86", Arch::X86)
        && asks(&program.head, Quant::NotExists, (p1, eax, 1), (p1, ebx, 0))
        && has_instructions(program, &first, &second)
}

/// Returns whether a text is the source test of store buffering.
fn is_source(alloc: Global, text: &str) -> bool {
    match source_of(alloc, text) {
        Some(source) => is_store_buffering(&source),
        None => false,
    }
}

/// Returns whether the two texts of x86 tests are store buffering and message passing.
fn are_programs(alloc: Global) -> bool {
    let is_buffering = match program_of(alloc, STORE_BUFFERING_IN_X86) {
        Some(program) => is_store_buffering_in_x86(&program),
        None => false,
    };
    match program_of(alloc, MESSAGE_PASSING_IN_X86) {
        Some(program) => is_buffering && is_message_passing_in_x86(&program),
        None => false,
    }
}

#[test]
fn examples_are_the_classic_tests(rt: HostRuntime) {
    assert!(rt; is_source(rt.alloc(), STORE_BUFFERING));
    assert!(rt; are_programs(rt.alloc()));
}
