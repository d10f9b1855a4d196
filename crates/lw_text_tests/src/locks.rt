//! The text of the spin lock is read as the test of lw_axiomatic's worked law, which is a value in lw_axiomatic/specs/Examples.antt.
use lw_base::{Arch, Cpu, Head, Loc, Operand, Prop, Quant, Reg};
use lw_test_reader::program_of;
use lw_x86::{Instr, Program};

/// examples/SpinLock-x86.litmus.
const SPIN_LOCK: &str = "X86 SpinLock-x86
(* A lock by test and test-and-set, tried once: a load looks at the lock, XCHG takes it where it is free, and a plain
   store lets it go. That store waits in the buffer behind the store to n, so who takes the lock next sees what was
   done under it. ESI says that a processor was inside.
   Interleaving: forbidden. x86-TSO: forbidden. A telling schedule: P0 P0 P0 P0 P0 P0 P0 P0 P0 P0 P0 P0 D0 D0 P1 P1 P1
   P1 P1 P1 P1 P1 P1 P1 P1 P1 D1 D1 *)
{ 0:EBX=1; 1:EBX=1; }
 P0 | P1 ;
 MOV EAX,[lock] | MOV EAX,[lock] ;
 CMP EAX,$0 | CMP EAX,$0 ;
 JNE END | JNE END ;
 MOV EAX,EBX | MOV EAX,EBX ;
 XCHG [lock],EAX | XCHG [lock],EAX ;
 CMP EAX,$0 | CMP EAX,$0 ;
 JNE END | JNE END ;
 MOV ESI,$1 | MOV ESI,$1 ;
 MOV ECX,[n] | MOV ECX,[n] ;
 ADD ECX,$1 | ADD ECX,$1 ;
 MOV [n],ECX | MOV [n],ECX ;
 MOV [lock],$0 | MOV [lock],$0 ;
 END: | END: ;
~exists (0:ESI=1 /\\ 1:ESI=1 /\\ n=1)
";

/// Returns an instruction that loads.
fn load(reg: Reg, loc: Loc) -> Instr {
    Instr::Load { reg, loc }
}

/// Returns an instruction that stores.
fn store(loc: Loc, val: Operand) -> Instr {
    Instr::Store { loc, val }
}

/// Returns an instruction that sets a register.
fn set(reg: Reg, val: Operand) -> Instr {
    Instr::Set { reg, val }
}

/// Returns an instruction that adds to a register.
fn add(reg: Reg, val: Operand) -> Instr {
    Instr::Add { reg, val }
}

/// Returns an instruction that compares a register.
fn compare(reg: Reg, val: Operand) -> Instr {
    Instr::Cmp { reg, val }
}

/// Returns an instruction that exchanges a register and a location.
fn exchange(loc: Loc, reg: Reg) -> Instr {
    Instr::Xchg { loc, reg }
}

/// Returns the instructions of a thread of the spin lock: the location n is at index 0, and the lock at index 1.
fn spin_lock_code() -> [Instr; 12] {
    let ([n, lock, ..], [eax, ebx, ecx, _, esi, _]) = (Loc::all(), Reg::all());
    [
        load(eax, lock),
        compare(eax, Operand::Number(0)),
        Instr::Jne { to: 12 },
        set(eax, Operand::Register(ebx)),
        exchange(lock, eax),
        compare(eax, Operand::Number(0)),
        Instr::Jne { to: 12 },
        set(esi, Operand::Number(1)),
        load(ecx, n),
        add(ecx, Operand::Number(1)),
        store(n, Operand::Register(ecx)),
        store(lock, Operand::Number(0)),
    ]
}

/// Returns whether a proposition says that a thread's ESI is 1.
fn is_inside(prop: &Prop, cpu: Cpu) -> bool {
    let [_, _, _, _, esi, _] = Reg::all();
    match prop {
        Prop::RegIs(thread, reg, word) => (*thread, *reg, *word) == (cpu, esi, 1),
        _ => false,
    }
}

/// Returns whether a proposition says that the ESI of both threads is 1.
fn are_inside(prop: &Prop) -> bool {
    let [p0, p1, ..] = Cpu::all();
    match prop {
        Prop::Both(left, right) => is_inside(left, p0) && is_inside(right, p1),
        _ => false,
    }
}

/// Returns whether a proposition says that n is 1.
fn is_counted_once(prop: &Prop) -> bool {
    let [n, ..] = Loc::all();
    match prop {
        Prop::WordIs(loc, word) => (*loc, *word) == (n, 1),
        _ => false,
    }
}

/// Returns whether a head's condition is that no state has both threads inside and n at 1, so that an addition was lost.
fn asks_for_a_lost_one(head: &Head) -> bool {
    match &head.prop {
        Prop::Both(left, right) => {
            head.quant == Quant::NotExists && are_inside(left) && is_counted_once(right)
        }
        _ => false,
    }
}

/// Returns whether a head has the name, the language and the initial words of the spin lock.
fn has_begin(head: &Head) -> bool {
    let [n, lock, ..] = Loc::all();
    head.name.as_str() == "SpinLock-x86"
        && head.arch == Arch::X86
        && head.threads == 2
        && head.locs.len() == 2
        && head.locs.find("n") == Some(n)
        && head.locs.find("lock") == Some(lock)
        && head.init_regs.as_slice() == [[0, 1, 0, 0, 0, 0]; 2].as_slice()
        && head.init_words.as_slice() == [0, 0].as_slice()
        && head.listed.is_empty()
}

/// Returns whether an x86 test is the spin lock.
fn is_spin_lock(program: &Program) -> bool {
    let code = spin_lock_code();
    match program.threads.as_slice() {
        [p0, p1] => {
            has_begin(&program.head)
                && asks_for_a_lost_one(&program.head)
                && p0.as_slice() == code.as_slice()
                && p1.as_slice() == code.as_slice()
        }
        _ => false,
    }
}

#[test]
fn the_example_is_the_spin_lock(rt: HostRuntime) {
    let program = program_of(rt.alloc(), SPIN_LOCK);
    assert!(rt; matches!(&program, Some(test) if is_spin_lock(test)));
}
