//! The canonical text of an x86 test, and reading it back.
use lw_test_reader::program_of;
use lw_x86::{Program, write_program};
use std::alloc::Global;

/// A test with lenient spellings, a label at the end, a label that is used twice, and names that are listed twice.
const LENIENT: &str =
    "X86 Lenient\n{ [y]=0x10; 1:EbX=7; 0:EAX=0 }\n P0 | P1 ;\n mov eax,0x10 | lock xchg Ebx,[x] ;\n cmp EAX,16 | je END ;\n jne Skip | MOV [y],ebx ;\n lock xadd [x],eax | END: ;\n Skip: Again: mfence | ;\nlocations [x; 1:EBX; x]\nexists ([x]=1 /\\ (y=2 /\\ not true))\n";

/// The canonical text of `LENIENT`.
const CANONICAL: &str =
    "X86 Lenient\n{\n 1:EBX=7;\n y=16;\n x=0;\n}\n P0 | P1 ;\n MOV EAX,$16 | XCHG [x],EBX ;\n CMP EAX,$16 | JE L3 ;\n JNE L4 | MOV [y],EBX ;\n LOCK XADD [x],EAX | L3: ;\n L4: MFENCE |  ;\nlocations [1:EBX; x;]\nexists (x=1 /\\ (y=2 /\\ ~true))\n";

/// Returns whether the canonical text of a program is `CANONICAL`.
fn is_written(alloc: Global, program: &Program) -> bool {
    match write_program(alloc, program) {
        Ok(text) => text.as_str() == CANONICAL,
        Err(_) => false,
    }
}

/// Returns whether a text is read as a program whose canonical text is `CANONICAL`.
fn has_canonical(alloc: Global, text: &str) -> bool {
    match program_of(alloc, text) {
        Some(program) => is_written(alloc, &program),
        None => false,
    }
}

#[test]
fn canonical_texts_are_read_back(rt: HostRuntime) {
    assert!(rt; has_canonical(rt.alloc(), LENIENT));
    assert!(rt; has_canonical(rt.alloc(), CANONICAL));
}
