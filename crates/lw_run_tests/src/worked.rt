//! Worked examples of all runs, typed in. A line each: the words of a task, the text of a test, and what the task writes or the line
//! of its fault, with ` => ` between them. The words are those of a command, or the schedule of a replay, followed by its protocol
//! unless that is the default one. In all three a `$` spells a line end, an `@` spells the dollar sign, and `<3 ab>` spells `ababab`.
use crate::devices::{Sheet, Tape};
use crate::spelling::spelled;
use lw_bench::{FromRead, Protocol, Task, ToWrite, carry_out, fault_line};
use std::alloc::Global;

/// Reports: the classic tests in both languages, store buffering under `forall` and compiled, and the empty test.
const REPORTS: &str = "
states => SRC SB${}$ P0 | P1 ;$ x := 1 | y := 1 ;$ r0 := y | r0 := x ;$exists (0:r0=0 /\\ 1:r0=0)$ => Test SB Allowed$States 3$0:r0=0; 1:r0=1;$0:r0=1; 1:r0=0;$0:r0=1; 1:r0=1;$No$Positive: 0 Negative: 3$Condition exists (0:r0=0 /\\ 1:r0=0)$Observation SB Never 0 3$
states => SRC SB {} P0|P1; x := 1 | y := 1; r0 := y | r0 := x; forall (0:r0=1 \\/ 1:r0=1) => Test SB Required$States 3$0:r0=0; 1:r0=1;$0:r0=1; 1:r0=0;$0:r0=1; 1:r0=1;$Ok$Positive: 3 Negative: 0$Condition forall (0:r0=1 \\/ 1:r0=1)$Observation SB Always 3 0$
states => SRC MP {} P0|P1; x := 1 | r0 := y; y := 1 | r1 := x; ~exists (1:r0=1 /\\ 1:r1=0) => Test MP Forbidden$States 3$1:r0=0; 1:r1=0;$1:r0=0; 1:r1=1;$1:r0=1; 1:r1=1;$Ok$Positive: 0 Negative: 3$Condition ~exists (1:r0=1 /\\ 1:r1=0)$Observation MP Never 0 3$
states => SRC LB {} P0|P1; r0 := x | r0 := y; y := 1 | x := 1; exists (0:r0=1 /\\ 1:r0=1) => Test LB Allowed$States 3$0:r0=0; 1:r0=0;$0:r0=0; 1:r0=1;$0:r0=1; 1:r0=0;$No$Positive: 0 Negative: 3$Condition exists (0:r0=1 /\\ 1:r0=1)$Observation LB Never 0 3$
states => SRC IRIW {} P0|P1|P2|P3; x := 1 | y := 1 | r0 := x | r0 := y; | | r1 := y | r1 := x; exists (2:r0=1 /\\ 2:r1=0 /\\ 3:r0=1 /\\ 3:r1=0) => Test IRIW Allowed$States 15$2:r0=0; 2:r1=0; 3:r0=0; 3:r1=0;$2:r0=0; 2:r1=0; 3:r0=0; 3:r1=1;$2:r0=0; 2:r1=0; 3:r0=1; 3:r1=0;$2:r0=0; 2:r1=0; 3:r0=1; 3:r1=1;$2:r0=0; 2:r1=1; 3:r0=0; 3:r1=0;$2:r0=0; 2:r1=1; 3:r0=0; 3:r1=1;$2:r0=0; 2:r1=1; 3:r0=1; 3:r1=0;$2:r0=0; 2:r1=1; 3:r0=1; 3:r1=1;$2:r0=1; 2:r1=0; 3:r0=0; 3:r1=0;$2:r0=1; 2:r1=0; 3:r0=0; 3:r1=1;$2:r0=1; 2:r1=0; 3:r0=1; 3:r1=1;$2:r0=1; 2:r1=1; 3:r0=0; 3:r1=0;$2:r0=1; 2:r1=1; 3:r0=0; 3:r1=1;$2:r0=1; 2:r1=1; 3:r0=1; 3:r1=0;$2:r0=1; 2:r1=1; 3:r0=1; 3:r1=1;$No$Positive: 0 Negative: 15$Condition exists (2:r0=1 /\\ 2:r1=0 /\\ 3:r0=1 /\\ 3:r1=0)$Observation IRIW Never 0 15$
states => SRC 2+2W {} P0|P1; x := 1 | y := 1; y := 2 | x := 2; exists (x=1 /\\ y=1) => Test 2+2W Allowed$States 3$x=1; y=2;$x=2; y=1;$x=2; y=2;$No$Positive: 0 Negative: 3$Condition exists (x=1 /\\ y=1)$Observation 2+2W Never 0 3$
states => SRC SB+swaps { 0:r1=1; 1:r1=1; } P0|P1; r0 := swap x r1 | r0 := swap y r1; r2 := y | r2 := x; exists (0:r2=0 /\\ 1:r2=0) => Test SB+swaps Allowed$States 3$0:r2=0; 1:r2=1;$0:r2=1; 1:r2=0;$0:r2=1; 1:r2=1;$No$Positive: 0 Negative: 3$Condition exists (0:r2=0 /\\ 1:r2=0)$Observation SB+swaps Never 0 3$
states => SRC OWN {} P0|P1; x := 1 | y := 1; r0 := x | r0 := y; r1 := y | r1 := x; locations [0:r0; 1:r0] exists (0:r1=0 /\\ 1:r1=0) => Test OWN Allowed$States 3$0:r0=1; 0:r1=0; 1:r0=1; 1:r1=1;$0:r0=1; 0:r1=1; 1:r0=1; 1:r1=0;$0:r0=1; 0:r1=1; 1:r0=1; 1:r1=1;$No$Positive: 0 Negative: 3$Condition exists (0:r1=0 /\\ 1:r1=0)$Observation OWN Never 0 3$
states => SRC SUMS { 0:r0=2; 0:r1=3; 0:r3=4294967295; } P0; r1 := r0 + r1; r1 := r1 + r1; r2 := r0 + r1; r3 := r3 + 1; r4 := swap x r1; locations [x; 0:r4; 0:r2; 0:r1] exists (0:r3=0) => Test SUMS Allowed$States 1$0:r1=10; 0:r2=12; 0:r3=0; 0:r4=0; x=10;$Ok$Positive: 1 Negative: 0$Condition exists (0:r3=0)$Observation SUMS Always 1 0$
states => SRC FULL {} P0|P1; x := 1 | x := 6; x := 2 | x := 7; x := 3 | x := 8; x := 4 | x := 9; x := 5 |; exists (x=5) => Test FULL Allowed$States 2$x=5;$x=9;$Ok$Positive: 1 Negative: 1$Condition exists (x=5)$Observation FULL Sometimes 1 1$
states => SRC FA { 0:r1=1; 1:r1=1; } P0|P1; r0 := fetchadd x r1 | r0 := fetchadd x r1; locations [0:r0; 1:r0;] forall (x=2) => Test FA Required$States 2$0:r0=0; 1:r0=1; x=2;$0:r0=1; 1:r0=0; x=2;$Ok$Positive: 2 Negative: 0$Condition forall (x=2)$Observation FA Always 2 0$
states => X86 SB${}$ P0 | P1 ;$ MOV [x],@1 | MOV [y],@1 ;$ MOV EAX,[y] | MOV EAX,[x] ;$exists (0:EAX=0 /\\ 1:EAX=0)$ => Test SB Allowed$States 4$0:EAX=0; 1:EAX=0;$0:EAX=0; 1:EAX=1;$0:EAX=1; 1:EAX=0;$0:EAX=1; 1:EAX=1;$Ok$Positive: 1 Negative: 3$Condition exists (0:EAX=0 /\\ 1:EAX=0)$Observation SB Sometimes 1 3$
states => X86 SB${$ x=0;$ y=0;$}$ P0 | P1 ;$ MOV [x],@1 | MOV [y],@1 ;$ MFENCE | MFENCE ;$ MOV EAX,[y] | MOV EAX,[x] ;$exists (0:EAX=0 /\\ 1:EAX=0)$ => Test SB Allowed$States 3$0:EAX=0; 1:EAX=1;$0:EAX=1; 1:EAX=0;$0:EAX=1; 1:EAX=1;$No$Positive: 0 Negative: 3$Condition exists (0:EAX=0 /\\ 1:EAX=0)$Observation SB Never 0 3$
states => X86 OWN {} P0|P1; MOV [x],@1 | MOV [y],@1; MOV EAX,[x] | MOV EAX,[y]; MOV EBX,[y] | MOV EBX,[x]; locations [0:EAX; 1:EAX] exists (0:EBX=0 /\\ 1:EBX=0) => Test OWN Allowed$States 4$0:EAX=1; 0:EBX=0; 1:EAX=1; 1:EBX=0;$0:EAX=1; 0:EBX=0; 1:EAX=1; 1:EBX=1;$0:EAX=1; 0:EBX=1; 1:EAX=1; 1:EBX=0;$0:EAX=1; 0:EBX=1; 1:EAX=1; 1:EBX=1;$Ok$Positive: 1 Negative: 3$Condition exists (0:EBX=0 /\\ 1:EBX=0)$Observation OWN Sometimes 1 3$
states => X86 MP {} P0|P1; MOV [x],@1 | MOV EAX,[y]; MOV [y],@1 | MOV EBX,[x]; ~exists (1:EAX=1 /\\ 1:EBX=0) => Test MP Forbidden$States 3$1:EAX=0; 1:EBX=0;$1:EAX=0; 1:EBX=1;$1:EAX=1; 1:EBX=1;$Ok$Positive: 0 Negative: 3$Condition ~exists (1:EAX=1 /\\ 1:EBX=0)$Observation MP Never 0 3$
states => X86 IRIW {} P0|P1|P2|P3; MOV [x],@1 | MOV [y],@1 | MOV EAX,[x] | MOV EAX,[y]; | | MOV EBX,[y] | MOV EBX,[x]; exists (2:EAX=1 /\\ 2:EBX=0 /\\ 3:EAX=1 /\\ 3:EBX=0) => Test IRIW Allowed$States 15$2:EAX=0; 2:EBX=0; 3:EAX=0; 3:EBX=0;$2:EAX=0; 2:EBX=0; 3:EAX=0; 3:EBX=1;$2:EAX=0; 2:EBX=0; 3:EAX=1; 3:EBX=0;$2:EAX=0; 2:EBX=0; 3:EAX=1; 3:EBX=1;$2:EAX=0; 2:EBX=1; 3:EAX=0; 3:EBX=0;$2:EAX=0; 2:EBX=1; 3:EAX=0; 3:EBX=1;$2:EAX=0; 2:EBX=1; 3:EAX=1; 3:EBX=0;$2:EAX=0; 2:EBX=1; 3:EAX=1; 3:EBX=1;$2:EAX=1; 2:EBX=0; 3:EAX=0; 3:EBX=0;$2:EAX=1; 2:EBX=0; 3:EAX=0; 3:EBX=1;$2:EAX=1; 2:EBX=0; 3:EAX=1; 3:EBX=1;$2:EAX=1; 2:EBX=1; 3:EAX=0; 3:EBX=0;$2:EAX=1; 2:EBX=1; 3:EAX=0; 3:EBX=1;$2:EAX=1; 2:EBX=1; 3:EAX=1; 3:EBX=0;$2:EAX=1; 2:EBX=1; 3:EAX=1; 3:EBX=1;$No$Positive: 0 Negative: 15$Condition exists (2:EAX=1 /\\ 2:EBX=0 /\\ 3:EAX=1 /\\ 3:EBX=0)$Observation IRIW Never 0 15$
states => X86 2+2W {} P0|P1; MOV [x],@1 | MOV [y],@1; MOV [y],@2 | MOV [x],@2; exists (x=1 /\\ y=1) => Test 2+2W Allowed$States 3$x=1; y=2;$x=2; y=1;$x=2; y=2;$No$Positive: 0 Negative: 3$Condition exists (x=1 /\\ y=1)$Observation 2+2W Never 0 3$
states => X86 SKIP {} P0|P1; MOV [x],@1 | MOV [y],@1; CMP EAX,@0 | CMP EAX,@0; JE L | JE L; MFENCE | MFENCE; L: MOV EBX,[y] | L: MOV EBX,[x]; exists (0:EBX=0 /\\ 1:EBX=0) => Test SKIP Allowed$States 4$0:EBX=0; 1:EBX=0;$0:EBX=0; 1:EBX=1;$0:EBX=1; 1:EBX=0;$0:EBX=1; 1:EBX=1;$Ok$Positive: 1 Negative: 3$Condition exists (0:EBX=0 /\\ 1:EBX=0)$Observation SKIP Sometimes 1 3$
states => X86 EMPTY$\"Fre PodWR Fre PodWR\"$Cycle=Fre PodWR Fre PodWR$Prefetch=0:x=F,0:y=T,1:y=F,1:x=T$Com=Fr Fr$Orig=Fre PodWR Fre PodWR${$}$ P0 ;$exists (true)$ => Test EMPTY Allowed$States 1$$Ok$Positive: 1 Negative: 0$Condition exists (true)$Observation EMPTY Always 1 0$
";

/// Lists at the limits: of choices, orders and items.
const LIMITS: &str = "
states => SRC A {} P0|P1; if r0 = 0 goto A1 | if r0 = 0 goto A1; r1 := 1 | r1 := 1; A1: if r0 = 0 goto A2 | A1: if r0 = 0 goto A2; r1 := 1 | r1 := 1; A2: if r0 = 0 goto A3 | A2: if r0 = 0 goto A3; r1 := 1 | r1 := 1; A3: if r0 = 0 goto A4 | A3: if r0 = 0 goto A4; r1 := 1 | r1 := 1; A4: if r0 = 0 goto A5 | A4: if r0 = 0 goto A5; r1 := 1 | r1 := 1; A5: if r0 = 0 goto A6 | A5: if r0 = 0 goto A6; r1 := 1 | r1 := 1; A6: if r0 = 0 goto A7 | A6: if r0 = 0 goto A7; r1 := 1 | r1 := 1; A7: if r0 = 0 goto A8 | A7: if r0 = 0 goto A8; r1 := 1 | r1 := 1; A8: | A8:; exists (true) => Test A Allowed$States 1$$Ok$Positive: 1 Negative: 0$Condition exists (true)$Observation A Always 1 0$
states => SRC A {} P0|P1|P2; if r0 = 0 goto A1 | if r0 = 0 goto A1 | if r0 = 0 goto A1; r1 := 1 | r1 := 1 | r1 := 1; A1: if r0 = 0 goto A2 | A1: if r0 = 0 goto A2 | A1: if r0 = 0 goto A2; r1 := 1 | r1 := 1 | r1 := 1; A2: if r0 = 0 goto A3 | A2: if r0 = 0 goto A3 | A2: if r0 = 0 goto A3; r1 := 1 | r1 := 1 | r1 := 1; A3: if r0 = 0 goto A4 | A3: if r0 = 0 goto A4 | A3: if r0 = 0 goto A4; r1 := 1 | r1 := 1 | r1 := 1; A4: if r0 = 0 goto A5 | A4: if r0 = 0 goto A5 | A4: if r0 = 0 goto A5; r1 := 1 | r1 := 1 | r1 := 1; A5: if r0 = 0 goto A6 | A5: if r0 = 0 goto A6 | A5: if r0 = 0 goto A6; r1 := 1 | r1 := 1 | r1 := 1; A6: if r0 = 0 goto A7 | A6: if r0 = 0 goto A7 | A6: if r0 = 0 goto A7; r1 := 1 | r1 := 1 | r1 := 1; A7: if r0 = 0 goto A8 | A7: if r0 = 0 goto A8 | A7: if r0 = 0 goto A8; r1 := 1 | r1 := 1 | r1 := 1; A8: | A8: | A8:; exists (true) => lw: limit 2 TooManyOrders
states => SRC A {} P0|P1; x := 1 | x := 8; x := 2 | x := 9; x := 3 | x := 10; x := 4 |; x := 5 |; x := 6 |; x := 7 |; exists (true) => lw: limit 2 TooManyOrders
states => SRC A {} P0|P1; if r0 = 1 goto E | x := 6; x := 1 | x := 7; x := 2 | x := 8; x := 3 | x := 9; x := 4 |; x := 5 |; E: |; exists (true) => lw: limit 2 TooManyOrders
states => X86 A {} P0|P1; <32 MOV [x],@1 | MOV [y],@1; >exists (x=1 /\\ y=1) => Test A Allowed$States 1$x=1; y=1;$Ok$Positive: 1 Negative: 0$Condition exists (x=1 /\\ y=1)$Observation A Always 1 0$
states => X86 A {} P0|P1|P2; MOV [x],@1 | MOV [y],@1 | MOV EAX,[z]; <31 MOV [x],@1 | MOV [y],@1 |; >exists (true) => lw: limit 1 TooManyItems
states => X86 A {} P0|P1|P2|P3; <32 MOV [x],@1 | MOV [x],@2 | MOV [x],@3 | MOV [x],@4; >exists (true) => lw: limit 1 TooManyItems
states => X86 A {} P0|P1|P2|P3; <16 MOV [a],@1 | MOV [b],@2 | MOV [c],@3 | MOV [d],@4; >exists (true) => Test A Allowed$States 1$$Ok$Positive: 1 Negative: 0$Condition exists (true)$Observation A Always 1 0$
";

/// Lists of schedules.
const SCHEDULES: &str = "
schedules => SRC SB${}$ P0 | P1 ;$ x := 1 | y := 1 ;$ r0 := y | r0 := x ;$exists (0:r0=0 /\\ 1:r0=0)$ => Test SB$States 3$0:r0=0; 1:r0=1;$ P0 D0 P0 P0 P1 D1 P1 P1$0:r0=1; 1:r0=0;$ P1 D1 P1 P1 P0 D0 P0 P0$0:r0=1; 1:r0=1;$ P0 D0 P1 D1 P0 P0 P1 P1$
schedules => SRC FA { 0:r1=1; 1:r1=1; } P0|P1; r0 := fetchadd x r1 | r0 := fetchadd x r1; locations [0:r0; 1:r0;] forall (x=2) => Test FA$States 2$0:r0=0; 1:r0=1; x=2;$ P0 P0 P1 P1$0:r0=1; 1:r0=0; x=2;$ P1 P1 P0 P0$
schedules => X86 SB${}$ P0 | P1 ;$ MOV [x],@1 | MOV [y],@1 ;$ MOV EAX,[y] | MOV EAX,[x] ;$exists (0:EAX=0 /\\ 1:EAX=0)$ => Test SB$States 4$0:EAX=0; 1:EAX=0;$ P0 P0 P1 D1 P1 D0$0:EAX=0; 1:EAX=1;$ P0 D0 P0 P1 D1 P1$0:EAX=1; 1:EAX=0;$ P0 P1 D1 P0 P1 D0$0:EAX=1; 1:EAX=1;$ P0 D0 P1 D1 P0 P1$
";

/// Compiled source tests, and spellings of x86 tests.
const COMPILED_TEXTS: &str = "
compile => SRC SB${}$ P0 | P1 ;$ x := 1 | y := 1 ;$ r0 := y | r0 := x ;$exists (0:r0=0 /\\ 1:r0=0)$ => X86 SB${$ x=0;$ y=0;$}$ P0 | P1 ;$ MOV [x],@1 | MOV [y],@1 ;$ MFENCE | MFENCE ;$ MOV EAX,[y] | MOV EAX,[x] ;$exists (0:EAX=0 /\\ 1:EAX=0)$
compile => SRC MP {} P0|P1; x := 1 | r0 := y; y := 1 | r1 := x; ~exists (1:r0=1 /\\ 1:r1=0) => X86 MP${$ x=0;$ y=0;$}$ P0 | P1 ;$ MOV [x],@1 | MOV EAX,[y] ;$ MOV [y],@1 | MOV EBX,[x] ;$~exists (1:EAX=1 /\\ 1:EBX=0)$
compile => SRC LB {} P0|P1; r0 := x | r0 := y; y := 1 | x := 1; exists (0:r0=1 /\\ 1:r0=1) => X86 LB${$ x=0;$ y=0;$}$ P0 | P1 ;$ MOV EAX,[x] | MOV EAX,[y] ;$ MOV [y],@1 | MOV [x],@1 ;$exists (0:EAX=1 /\\ 1:EAX=1)$
compile => SRC SB+swaps { 0:r1=1; 1:r1=1; } P0|P1; r0 := swap x r1 | r0 := swap y r1; r2 := y | r2 := x; exists (0:r2=0 /\\ 1:r2=0) => X86 SB+swaps${$ 0:EBX=1;$ 1:EBX=1;$ x=0;$ y=0;$}$ P0 | P1 ;$ MOV EAX,EBX | MOV EAX,EBX ;$ XCHG [x],EAX | XCHG [y],EAX ;$ MOV ECX,[y] | MOV ECX,[x] ;$exists (0:ECX=0 /\\ 1:ECX=0)$
compile => SRC OWN {} P0|P1; x := 1 | y := 1; r0 := x | r0 := y; r1 := y | r1 := x; exists (0:r1=0 /\\ 1:r1=0) => X86 OWN${$ x=0;$ y=0;$}$ P0 | P1 ;$ MOV [x],@1 | MOV [y],@1 ;$ MFENCE | MFENCE ;$ MOV EAX,[x] | MOV EAX,[y] ;$ MOV EBX,[y] | MOV EBX,[x] ;$exists (0:EBX=0 /\\ 1:EBX=0)$
compile => SRC JOIN {} P0; x := 1; if r0 = 0 goto L; r1 := 5; L: r2 := y; exists (true) => X86 JOIN${$ x=0;$ y=0;$}$ P0 ;$ MOV [x],@1 ;$ CMP EAX,@0 ;$ JE L4 ;$ MOV EBX,@5 ;$ L4: MFENCE ;$ MOV ECX,[y] ;$exists (true)$
compile => SRC JOINS {} P0; x := 1; if r0 = 0 goto L; r0 := y; L: r1 := z; exists (true) => X86 JOINS${$ x=0;$ y=0;$ z=0;$}$ P0 ;$ MOV [x],@1 ;$ CMP EAX,@0 ;$ JE L5 ;$ MFENCE ;$ MOV EAX,[y] ;$ L5: MFENCE ;$ MOV EBX,[z] ;$exists (true)$
compile => SRC SUMS { 0:r0=2; 0:r1=3; 0:r3=4294967295; } P0; r1 := r0 + r1; r1 := r1 + r1; r2 := r0 + r1; r3 := r3 + 1; r4 := swap x r1; exists (true) => X86 SUMS${$ 0:EAX=2;$ 0:EBX=3;$ 0:EDX=4294967295;$ x=0;$}$ P0 ;$ ADD EBX,EAX ;$ ADD EBX,EBX ;$ MOV ECX,EAX ;$ ADD ECX,EBX ;$ ADD EDX,@1 ;$ MOV ESI,EBX ;$ XCHG [x],ESI ;$exists (true)$
compile => SRC FA { 0:r1=1; 1:r1=1; } P0|P1; r0 := fetchadd x r1 | r0 := fetchadd x r1; locations [0:r0; 1:r0;] forall (x=2) => X86 FA${$ 0:EBX=1;$ 1:EBX=1;$ x=0;$}$ P0 | P1 ;$ MOV EAX,EBX | MOV EAX,EBX ;$ LOCK XADD [x],EAX | LOCK XADD [x],EAX ;$locations [0:EAX; 1:EAX;]$forall (x=2)$
compile => SRC OWN+ {x=5; 0:r0=3} P0; r0 := fetchadd x r0; exists (true) => X86 OWN+${$ 0:EAX=3;$ x=5;$}$ P0 ;$ LOCK XADD [x],EAX ;$exists (true)$
compile => SRC ADDED {} P0; x := 1; r0 := fetchadd y r1; r2 := z; exists (true) => X86 ADDED${$ x=0;$ y=0;$ z=0;$}$ P0 ;$ MOV [x],@1 ;$ MOV EAX,EBX ;$ LOCK XADD [y],EAX ;$ MOV ECX,[z] ;$exists (true)$
compile => X86 A {} P0; mov eax,0x10; LOCK XCHG EAX,[x]; exists ([x]=1) => X86 A${$ x=0;$}$ P0 ;$ MOV EAX,@16 ;$ XCHG [x],EAX ;$exists (x=1)$
compile => X86 B { 0:EAX=1; x=2 } P0; locations [x; 0:EAX] exists (true) => X86 B${$ 0:EAX=1;$ x=2;$}$ P0 ;$locations [0:EAX; x;]$exists (true)$
compile => X86 Right {} P0; exists (not (<126 x=1 \\/ (>x=1 \\/ x=1<127 )>) => X86 Right${$ x=0;$}$ P0 ;$exists (~(<126 x=1 \\/ (>x=1 \\/ x=1<127 )>)$
";

/// Replays of source tests, and schedules that are rejected.
const SOURCE_PAGES: &str = "
P0 P0 P1 P1 => SRC SB${}$ P0 | P1 ;$ x := 1 | y := 1 ;$ r0 := y | r0 := x ;$exists (0:r0=0 /\\ 1:r0=0)$ => Test SB$Steps 4$End Final$P0 at 2 r0=0 r1=0 r2=0 r3=0 r4=0 r5=0$P1 at 2 r0=1 r1=0 r2=0 r3=0 r4=0 r5=0$Memory x=1 y=1$
P0 P1 P0 => SRC SB${}$ P0 | P1 ;$ x := 1 | y := 1 ;$ r0 := y | r0 := x ;$exists (0:r0=0 /\\ 1:r0=0)$ => Test SB$Steps 3$End NotFinal$P0 at 2 r0=1 r1=0 r2=0 r3=0 r4=0 r5=0$P1 at 1 r0=0 r1=0 r2=0 r3=0 r4=0 r5=0$Memory x=1 y=1$
 => SRC SB${}$ P0 | P1 ;$ x := 1 | y := 1 ;$ r0 := y | r0 := x ;$exists (0:r0=0 /\\ 1:r0=0)$ => Test SB$Steps 0$End NotFinal$P0 at 0 r0=0 r1=0 r2=0 r3=0 r4=0 r5=0$P1 at 0 r0=0 r1=0 r2=0 r3=0 r4=0 r5=0$Memory x=0 y=0$
D0 => SRC SB${}$ P0 | P1 ;$ x := 1 | y := 1 ;$ r0 := y | r0 := x ;$exists (0:r0=0 /\\ 1:r0=0)$ => Test SB$Steps 0$End Stopped at 0 by 6 BufferEmpty$P0 at 0 r0=0 r1=0 r2=0 r3=0 r4=0 r5=0$P1 at 0 r0=0 r1=0 r2=0 r3=0 r4=0 r5=0$Memory x=0 y=0$
P7 => SRC SB${}$ P0 | P1 ;$ x := 1 | y := 1 ;$ r0 := y | r0 := x ;$exists (0:r0=0 /\\ 1:r0=0)$ => lw: schedule 2 Cpu at 0
E0:q => SRC SB${}$ P0 | P1 ;$ x := 1 | y := 1 ;$ r0 := y | r0 := x ;$exists (0:r0=0 /\\ 1:r0=0)$ => lw: schedule 3 Location at 0
P0 Q1 => SRC SB${}$ P0 | P1 ;$ x := 1 | y := 1 ;$ r0 := y | r0 := x ;$exists (0:r0=0 /\\ 1:r0=0)$ => lw: schedule 1 Word at 3
 => SRC T${ x=1; x=2; }$ P0 ;$exists (x=2) => Test T$Steps 0$End Final$P0 at 0 r0=0 r1=0 r2=0 r3=0 r4=0 r5=0$Memory x=2$
P0 P0 P0 P0 P0 => SRC SUMS${ 0:r0=2; 0:r1=3; 0:r3=4294967295; }$ P0 ;$ r1 := r0 + r1 ;$ r1 := r1 + r1 ;$ r2 := r0 + r1 ;$ r3 := r3 + 1 ;$ r4 := swap x r1 ;$locations [0:r1; 0:r2; 0:r3; 0:r4;]$exists (x=10)$ => Test SUMS$Steps 5$End Final$P0 at 5 r0=2 r1=10 r2=12 r3=0 r4=0 r5=0$Memory x=10$
";

/// Replays of x86 tests: store buffering with fences and without, forwarding, a line that two processors share by both protocols, the
/// most stores, and locked instructions.
const X86_PAGES: &str = "
P0 P0 P1 P1 D0 D1 => X86 SB${}$ P0 | P1 ;$ MOV [x],@1 | MOV [y],@1 ;$ MOV EAX,[y] | MOV EAX,[x] ;$exists (0:EAX=0 /\\ 1:EAX=0)$ => Test SB$Steps 6$End Final$P0 at 2 EAX=0 EBX=0 ECX=0 EDX=0 ESI=0 EDI=0$P0 buffer$P0 lines x=M y=I$P1 at 2 EAX=0 EBX=0 ECX=0 EDX=0 ESI=0 EDI=0$P1 buffer$P1 lines x=I y=M$Memory x=0 y=0$Content x=1 y=1$
P0 P0 P1 P1 D0 D1 => X86 SB${$ x=0;$ y=0;$}$ P0 | P1 ;$ MOV [x],@1 | MOV [y],@1 ;$ MFENCE | MFENCE ;$ MOV EAX,[y] | MOV EAX,[x] ;$exists (0:EAX=0 /\\ 1:EAX=0)$ => Test SB$Steps 1$End Stopped at 1 by 4 FenceWaits$P0 at 1 EAX=0 EBX=0 ECX=0 EDX=0 ESI=0 EDI=0$P0 buffer x=1$P0 lines x=I y=I$P1 at 0 EAX=0 EBX=0 ECX=0 EDX=0 ESI=0 EDI=0$P1 buffer$P1 lines x=I y=I$Memory x=0 y=0$Content x=0 y=0$
P1 => X86 CACHE${}$ P0 | P1 ;$ MOV [y],@1 | MOV EAX,[y] ;$ | MOV EBX,[y] ;$exists (true)$ => Test CACHE$Steps 1$End NotFinal$P0 at 0 EAX=0 EBX=0 ECX=0 EDX=0 ESI=0 EDI=0$P0 buffer$P0 lines y=I$P1 at 1 EAX=0 EBX=0 ECX=0 EDX=0 ESI=0 EDI=0$P1 buffer$P1 lines y=E$Memory y=0$Content y=0$
P1 P0 D0 => X86 CACHE${}$ P0 | P1 ;$ MOV [y],@1 | MOV EAX,[y] ;$ | MOV EBX,[y] ;$exists (true)$ => Test CACHE$Steps 3$End NotFinal$P0 at 1 EAX=0 EBX=0 ECX=0 EDX=0 ESI=0 EDI=0$P0 buffer$P0 lines y=M$P1 at 1 EAX=0 EBX=0 ECX=0 EDX=0 ESI=0 EDI=0$P1 buffer$P1 lines y=I$Memory y=0$Content y=1$
P1 P0 D0 P1 => X86 CACHE${}$ P0 | P1 ;$ MOV [y],@1 | MOV EAX,[y] ;$ | MOV EBX,[y] ;$exists (true)$ => Test CACHE$Steps 4$End Final$P0 at 1 EAX=0 EBX=0 ECX=0 EDX=0 ESI=0 EDI=0$P0 buffer$P0 lines y=S$P1 at 2 EAX=0 EBX=1 ECX=0 EDX=0 ESI=0 EDI=0$P1 buffer$P1 lines y=S$Memory y=1$Content y=1$
P1 P0 P1 D0 => X86 CACHE${}$ P0 | P1 ;$ MOV [y],@1 | MOV EAX,[y] ;$ | MOV EBX,[y] ;$exists (true)$ => Test CACHE$Steps 4$End Final$P0 at 1 EAX=0 EBX=0 ECX=0 EDX=0 ESI=0 EDI=0$P0 buffer$P0 lines y=M$P1 at 2 EAX=0 EBX=0 ECX=0 EDX=0 ESI=0 EDI=0$P1 buffer$P1 lines y=I$Memory y=0$Content y=1$
P1 P0 P1 D0 E0:y => X86 CACHE${}$ P0 | P1 ;$ MOV [y],@1 | MOV EAX,[y] ;$ | MOV EBX,[y] ;$exists (true)$ => Test CACHE$Steps 5$End Final$P0 at 1 EAX=0 EBX=0 ECX=0 EDX=0 ESI=0 EDI=0$P0 buffer$P0 lines y=I$P1 at 2 EAX=0 EBX=0 ECX=0 EDX=0 ESI=0 EDI=0$P1 buffer$P1 lines y=I$Memory y=1$Content y=1$
E0:y => X86 CACHE${}$ P0 | P1 ;$ MOV [y],@1 | MOV EAX,[y] ;$ | MOV EBX,[y] ;$exists (true)$ => Test CACHE$Steps 0$End Stopped at 0 by 7 NotHeld$P0 at 0 EAX=0 EBX=0 ECX=0 EDX=0 ESI=0 EDI=0$P0 buffer$P0 lines y=I$P1 at 0 EAX=0 EBX=0 ECX=0 EDX=0 ESI=0 EDI=0$P1 buffer$P1 lines y=I$Memory y=0$Content y=0$
D0 => X86 CACHE${}$ P0 | P1 ;$ MOV [y],@1 | MOV EAX,[y] ;$ | MOV EBX,[y] ;$exists (true)$ => Test CACHE$Steps 0$End Stopped at 0 by 6 BufferEmpty$P0 at 0 EAX=0 EBX=0 ECX=0 EDX=0 ESI=0 EDI=0$P0 buffer$P0 lines y=I$P1 at 0 EAX=0 EBX=0 ECX=0 EDX=0 ESI=0 EDI=0$P1 buffer$P1 lines y=I$Memory y=0$Content y=0$
P3 => X86 CACHE${}$ P0 | P1 ;$ MOV [y],@1 | MOV EAX,[y] ;$ | MOV EBX,[y] ;$exists (true)$ => Test CACHE$Steps 0$End Stopped at 0 by 1 NoCpu$P0 at 0 EAX=0 EBX=0 ECX=0 EDX=0 ESI=0 EDI=0$P0 buffer$P0 lines y=I$P1 at 0 EAX=0 EBX=0 ECX=0 EDX=0 ESI=0 EDI=0$P1 buffer$P1 lines y=I$Memory y=0$Content y=0$
P0 P0 => X86 CACHE${}$ P0 | P1 ;$ MOV [y],@1 | MOV EAX,[y] ;$ | MOV EBX,[y] ;$exists (true)$ => Test CACHE$Steps 1$End Stopped at 1 by 3 Ended$P0 at 1 EAX=0 EBX=0 ECX=0 EDX=0 ESI=0 EDI=0$P0 buffer y=1$P0 lines y=I$P1 at 0 EAX=0 EBX=0 ECX=0 EDX=0 ESI=0 EDI=0$P1 buffer$P1 lines y=I$Memory y=0$Content y=0$
P1 P0 D0 P1 E0:y E1:y => X86 CACHE${}$ P0 | P1 ;$ MOV [y],@1 | MOV EAX,[y] ;$ | MOV EBX,[y] ;$exists (true)$ => Test CACHE$Steps 6$End Final$P0 at 1 EAX=0 EBX=0 ECX=0 EDX=0 ESI=0 EDI=0$P0 buffer$P0 lines y=I$P1 at 2 EAX=0 EBX=1 ECX=0 EDX=0 ESI=0 EDI=0$P1 buffer$P1 lines y=I$Memory y=1$Content y=1$
P1 E1:y E1:y => X86 CACHE${}$ P0 | P1 ;$ MOV [y],@1 | MOV EAX,[y] ;$ | MOV EBX,[y] ;$exists (true)$ => Test CACHE$Steps 2$End Stopped at 2 by 7 NotHeld$P0 at 0 EAX=0 EBX=0 ECX=0 EDX=0 ESI=0 EDI=0$P0 buffer$P0 lines y=I$P1 at 1 EAX=0 EBX=0 ECX=0 EDX=0 ESI=0 EDI=0$P1 buffer$P1 lines y=I$Memory y=0$Content y=0$
P1 P0 D0 P1 --protocol moesi => X86 CACHE${}$ P0 | P1 ;$ MOV [y],@1 | MOV EAX,[y] ;$ | MOV EBX,[y] ;$exists (true)$ => Test CACHE$Steps 4$End Final$P0 at 1 EAX=0 EBX=0 ECX=0 EDX=0 ESI=0 EDI=0$P0 buffer$P0 lines y=O$P1 at 2 EAX=0 EBX=1 ECX=0 EDX=0 ESI=0 EDI=0$P1 buffer$P1 lines y=S$Memory y=0$Content y=1$
P1 P0 D0 P1 E1:y --protocol moesi => X86 CACHE${}$ P0 | P1 ;$ MOV [y],@1 | MOV EAX,[y] ;$ | MOV EBX,[y] ;$exists (true)$ => Test CACHE$Steps 5$End Final$P0 at 1 EAX=0 EBX=0 ECX=0 EDX=0 ESI=0 EDI=0$P0 buffer$P0 lines y=O$P1 at 2 EAX=0 EBX=1 ECX=0 EDX=0 ESI=0 EDI=0$P1 buffer$P1 lines y=I$Memory y=0$Content y=1$
P1 P0 D0 P1 E0:y --protocol moesi => X86 CACHE${}$ P0 | P1 ;$ MOV [y],@1 | MOV EAX,[y] ;$ | MOV EBX,[y] ;$exists (true)$ => Test CACHE$Steps 5$End Final$P0 at 1 EAX=0 EBX=0 ECX=0 EDX=0 ESI=0 EDI=0$P0 buffer$P0 lines y=I$P1 at 2 EAX=0 EBX=1 ECX=0 EDX=0 ESI=0 EDI=0$P1 buffer$P1 lines y=S$Memory y=1$Content y=1$
P1 P0 D0 P1 E0:y E1:y --protocol moesi => X86 CACHE${}$ P0 | P1 ;$ MOV [y],@1 | MOV EAX,[y] ;$ | MOV EBX,[y] ;$exists (true)$ => Test CACHE$Steps 6$End Final$P0 at 1 EAX=0 EBX=0 ECX=0 EDX=0 ESI=0 EDI=0$P0 buffer$P0 lines y=I$P1 at 2 EAX=0 EBX=1 ECX=0 EDX=0 ESI=0 EDI=0$P1 buffer$P1 lines y=I$Memory y=1$Content y=1$
P1 P0 D0 P1 E1:y E1:y --protocol moesi => X86 CACHE${}$ P0 | P1 ;$ MOV [y],@1 | MOV EAX,[y] ;$ | MOV EBX,[y] ;$exists (true)$ => Test CACHE$Steps 5$End Stopped at 5 by 7 NotHeld$P0 at 1 EAX=0 EBX=0 ECX=0 EDX=0 ESI=0 EDI=0$P0 buffer$P0 lines y=O$P1 at 2 EAX=0 EBX=1 ECX=0 EDX=0 ESI=0 EDI=0$P1 buffer$P1 lines y=I$Memory y=0$Content y=1$
P0 P0 --protocol moesi => X86 CACHE${}$ P0 | P1 ;$ MOV [y],@1 | MOV EAX,[y] ;$ | MOV EBX,[y] ;$exists (true)$ => Test CACHE$Steps 1$End Stopped at 1 by 3 Ended$P0 at 1 EAX=0 EBX=0 ECX=0 EDX=0 ESI=0 EDI=0$P0 buffer y=1$P0 lines y=I$P1 at 0 EAX=0 EBX=0 ECX=0 EDX=0 ESI=0 EDI=0$P1 buffer$P1 lines y=I$Memory y=0$Content y=0$
<32 P0 > => X86 A${}$ P0 ;$ MOV [x],@1 ;$ MOV [x],@2 ;$ MOV [x],@3 ;$ MOV [x],@4 ;$ MOV [x],@5 ;$ MOV [x],@6 ;$ MOV [x],@7 ;$ MOV [x],@8 ;$ MOV [x],@9 ;$ MOV [x],@10 ;$ MOV [x],@11 ;$ MOV [x],@12 ;$ MOV [x],@13 ;$ MOV [x],@14 ;$ MOV [x],@15 ;$ MOV [x],@16 ;$ MOV [x],@17 ;$ MOV [x],@18 ;$ MOV [x],@19 ;$ MOV [x],@20 ;$ MOV [x],@21 ;$ MOV [x],@22 ;$ MOV [x],@23 ;$ MOV [x],@24 ;$ MOV [x],@25 ;$ MOV [x],@26 ;$ MOV [x],@27 ;$ MOV [x],@28 ;$ MOV [x],@29 ;$ MOV [x],@30 ;$ MOV [x],@31 ;$ MOV [x],@32 ;$exists (true)$ => Test A$Steps 32$End NotFinal$P0 at 32 EAX=0 EBX=0 ECX=0 EDX=0 ESI=0 EDI=0$P0 buffer x=1 x=2 x=3 x=4 x=5 x=6 x=7 x=8 x=9 x=10 x=11 x=12 x=13 x=14 x=15 x=16 x=17 x=18 x=19 x=20 x=21 x=22 x=23 x=24 x=25 x=26 x=27 x=28 x=29 x=30 x=31 x=32$P0 lines x=I$Memory x=0$Content x=0$
<32 P0 ><32 D0 > => X86 A${}$ P0 ;$ MOV [x],@1 ;$ MOV [x],@2 ;$ MOV [x],@3 ;$ MOV [x],@4 ;$ MOV [x],@5 ;$ MOV [x],@6 ;$ MOV [x],@7 ;$ MOV [x],@8 ;$ MOV [x],@9 ;$ MOV [x],@10 ;$ MOV [x],@11 ;$ MOV [x],@12 ;$ MOV [x],@13 ;$ MOV [x],@14 ;$ MOV [x],@15 ;$ MOV [x],@16 ;$ MOV [x],@17 ;$ MOV [x],@18 ;$ MOV [x],@19 ;$ MOV [x],@20 ;$ MOV [x],@21 ;$ MOV [x],@22 ;$ MOV [x],@23 ;$ MOV [x],@24 ;$ MOV [x],@25 ;$ MOV [x],@26 ;$ MOV [x],@27 ;$ MOV [x],@28 ;$ MOV [x],@29 ;$ MOV [x],@30 ;$ MOV [x],@31 ;$ MOV [x],@32 ;$exists (true)$ => Test A$Steps 64$End Final$P0 at 32 EAX=0 EBX=0 ECX=0 EDX=0 ESI=0 EDI=0$P0 buffer$P0 lines x=M$Memory x=0$Content x=32$
P0 P0 P0 => X86 A${}$ P0 ;$ MOV [x],@1 ;$ MOV [x],@2 ;$ MOV EAX,[x] ;$exists (true)$ => Test A$Steps 3$End NotFinal$P0 at 3 EAX=2 EBX=0 ECX=0 EDX=0 ESI=0 EDI=0$P0 buffer x=1 x=2$P0 lines x=I$Memory x=0$Content x=0$
P0 P0 => X86 A${}$ P0 ;$ MOV [x],@1 ;$ LOCK XADD [y],EAX ;$exists (true)$ => Test A$Steps 1$End Stopped at 1 by 5 SwapWaits$P0 at 1 EAX=0 EBX=0 ECX=0 EDX=0 ESI=0 EDI=0$P0 buffer x=1$P0 lines x=I y=I$Memory x=0 y=0$Content x=0 y=0$
P0 P0 => X86 A${ x=4294967295; 0:EAX=1; }$ P0 ;$ LOCK XADD [x],EAX ;$ JE L ;$ MOV EBX,@1 ;$ L: ;$exists (true)$ => Test A$Steps 2$End Final$P0 at 3 EAX=4294967295 EBX=0 ECX=0 EDX=0 ESI=0 EDI=0$P0 buffer$P0 lines x=M$Memory x=4294967295$Content x=0$
";

/// Texts and cells that are rejected, and comments that are nested as deeply as a text allows.
const REFUSED_TEXTS: &str = "
 =>  => lw: text 3 Unterminated at 0
 => X86_64 A$ => lw: text 4 Unexpected at 0
 => SRC E${x=4294967296;} => lw: text 5 Number at 9
 => SRC A${ x=0; => lw: text 3 Unterminated at 12
 => SRC D${a=0;b=0;c=0;d=0;e=0;f=0;g=0;h=0;i=0;} => lw: text 10 TooManyLocations at 39
 => SRC B${}$ P0 | P1 ;$ x := 1 ;$exists (true)$ => lw: text 7 Ragged at 28
 => SRC F${}$ P0 ;$exists (x=1 /\\ => lw: text 3 Unterminated at 29
 => SRC G${}$ P0 ;$exists (true) x => lw: text 11 Condition at 29
 => SRC G${}$ P0 ;$exists (1:r0=0) => lw: text 6 Name at 23
 => SRC G${}$ P0 ;$ r9 := 1 ;$exists (true) => lw: cell 2 Register at 16
 => SRC G${}$ P0 ;$ x + 1 ;$exists (true) => lw: cell 1 Form at 18
 => SRC G${}$ P0 ;$ goto L ;$exists (true) => lw: cell 3 LabelMissing at 21
 => SRC G${}$ P0 ;$ L: L: ;$exists (true) => lw: cell 4 LabelTwice at 19
 => SRC C${}$ P0 ;$ L: x := 1 ;$ goto L ;$exists (true)$ => lw: cell 5 Backward at 34
 => SRC A {} P0; exists (x=1)<10000 (*><10000 *)> => Test A$Steps 0$End Final$P0 at 0 r0=0 r1=0 r2=0 r3=0 r4=0 r5=0$Memory x=0$
 => SRC A {} P0; exists (x=1) (*<10000 (*><10000 *)> => lw: text 3 Unterminated at 40028
 => SRC A {} P0; exists (x=1)<65511 $>$ => lw: text 2 TooLong at 65536
";

/// Returns the task that the words of a line name.
fn task_of(words: &str) -> Task<'_> {
    match words {
        "states" => Task::States,
        "schedules" => Task::Schedules,
        "compile" => Task::Compile,
        _ => match words.strip_suffix(" --protocol moesi") {
            Some(schedule) => Task::Replay(schedule, Protocol::Moesi),
            None => Task::Replay(words, Protocol::Mesi),
        },
    }
}

/// Returns the exit status of a task with this output: 1 if the output is the page of a replay that does not end in a final state,
/// and 0 otherwise.
fn status_beside(written: &str) -> u8 {
    match written.lines().nth(2) {
        Some(line) if line.starts_with("End ") && line != "End Final" => 1,
        _ => 0,
    }
}

/// Returns whether the task writes the expected output of the text and returns its exit status, or fails with the expected line and
/// writes nothing.
fn writes(alloc: Global, task: Task<'_>, text: &[u8], expected: &str) -> bool {
    let mut reader = FromRead::new(Tape::new(text));
    let mut writer = ToWrite::new(Sheet::new());
    match carry_out(alloc, task, &mut reader, &mut writer) {
        Ok(status) => status == status_beside(expected) && writer.writer.is(expected),
        Err(fault) => match fault_line(alloc, &fault) {
            Ok(line) => line.as_str() == expected && writer.writer.calls == 0,
            Err(_) => false,
        },
    }
}

/// Returns whether the task that a line's words name does of the line's text what the line expects.
fn holds(alloc: Global, words: &str, text: &str, expected: &str) -> bool {
    match (
        spelled(alloc, words),
        spelled(alloc, text),
        spelled(alloc, expected),
    ) {
        (Ok(words), Ok(text), Ok(expected)) => {
            writes(
                alloc,
                task_of(words.as_str()),
                text.as_bytes(),
                expected.as_str(),
            )
        }
        _ => false,
    }
}

/// Returns whether a line of a table has its three parts, and its task does what it expects.
fn is_right(alloc: Global, line: &str) -> bool {
    let Some((words, rest)) = line.split_once(" => ") else {
        return false;
    };
    match rest.split_once(" => ") {
        Some((text, expected)) => holds(alloc, words, text, expected),
        None => false,
    }
}

/// Returns the first line of a table that is wrong.
fn first_wrong(alloc: Global, table: &str) -> Option<&str> {
    for line in table.split('\n') {
        if !line.is_empty() && !is_right(alloc, line) {
            return Some(line);
        }
    }
    None
}

#[test]
fn reports(rt: HostRuntime) {
    let wrong = first_wrong(rt.alloc(), REPORTS);
    assert!(rt; wrong.is_none(), "{wrong:?}");
}

#[test]
fn limits(rt: HostRuntime) {
    let wrong = first_wrong(rt.alloc(), LIMITS);
    assert!(rt; wrong.is_none(), "{wrong:?}");
}

#[test]
fn schedules(rt: HostRuntime) {
    let wrong = first_wrong(rt.alloc(), SCHEDULES);
    assert!(rt; wrong.is_none(), "{wrong:?}");
}

#[test]
fn compiled_texts(rt: HostRuntime) {
    let wrong = first_wrong(rt.alloc(), COMPILED_TEXTS);
    assert!(rt; wrong.is_none(), "{wrong:?}");
}

#[test]
fn source_pages(rt: HostRuntime) {
    let wrong = first_wrong(rt.alloc(), SOURCE_PAGES);
    assert!(rt; wrong.is_none(), "{wrong:?}");
}

#[test]
fn x86_pages(rt: HostRuntime) {
    let wrong = first_wrong(rt.alloc(), X86_PAGES);
    assert!(rt; wrong.is_none(), "{wrong:?}");
}

#[test]
fn refused_texts(rt: HostRuntime) {
    let wrong = first_wrong(rt.alloc(), REFUSED_TEXTS);
    assert!(rt; wrong.is_none(), "{wrong:?}");
}
