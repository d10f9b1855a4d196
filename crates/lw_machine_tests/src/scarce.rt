//! Creating caches and a machine while memory is refused, each request in turn.
use crate::machines::caches_of;
use crate::restarts::is_as_created;
use lw_base::{Cpu, End, Event, Outcome};
use lw_litmus::Program;
use lw_mesi::{Mesi, MesiProtocol, MoesiProtocol, ProtocolType, SnoopingCaches};
use lw_test_reader::{Made, MadeByAllocator, Refusing, count_requests, program_of};
use lw_tso::Machine;
use std::alloc::{AllocError, Global};
use std::marker::PhantomData;

/// Store buffering, with words in memory.
const STORE_BUFFERING: &str =
    "X86 SB {x=5; y=7} P0|P1; MOV [x],$1 | MOV [y],$1; MOV EAX,[y] | MOV EAX,[x]; exists (true)";

/// Creates a machine of a program over caches, and makes the outcome of its run.
#[derive(Clone, Copy)]
struct RunOf<'p> {
    alloc: Global,
    program: &'p Program,
}

/// Returns whether this is the outcome of store buffering in which both stores drain after both loads.
fn is_end(outcome: &Outcome<&Refusing>) -> bool {
    outcome.regs.as_slice() == [[7, 0, 0, 0, 0, 0], [5, 0, 0, 0, 0, 0]].as_slice()
        && outcome.words.as_slice() == [1, 1].as_slice()
}

/// Returns whether store buffering runs to its end.
fn ends(machine: &mut Machine<'_, Mesi, &Refusing>) -> bool {
    let [p0, p1, ..] = Cpu::all();
    let replay = machine.run(&[
        Event::Step(p0),
        Event::Step(p0),
        Event::Step(p1),
        Event::Step(p1),
        Event::Drain(p0),
        Event::Drain(p1),
    ]);
    replay.done == 6 && replay.end == End::Final
}

/// Makes the outcome, after a run that does not allocate.
fn make_outcome(machine: &mut Machine<'_, Mesi, &Refusing>, scarce: &Refusing) -> Option<Made> {
    let requests = scarce.count();
    if !ends(machine) || scarce.count() != requests {
        return None;
    }
    match machine.outcome() {
        Ok(outcome) => is_end(&outcome).then_some(Made::Whole),
        Err(AllocError) => Some(Made::Refused),
    }
}

impl MadeByAllocator for RunOf<'_> {
    /// Creates the machine. If that fails, the memory system is returned unchanged.
    fn make<'a>(&self, _ample: &'a Refusing, scarce: &'a Refusing) -> Option<Made> {
        let caches = caches_of(self.alloc, self.program)?;
        match Machine::new(scarce, self.program, caches) {
            Ok(mut machine) => make_outcome(&mut machine, scarce),
            Err(caches) => is_as_created(&caches).then_some(Made::Refused),
        }
    }
}

#[test]
fn machines_where_memory_is_refused(rt: HostRuntime) {
    let refused = match program_of(rt.alloc(), STORE_BUFFERING) {
        Some(program) => {
            let run = RunOf {
                alloc: rt.alloc(),
                program: &program,
            };
            count_requests(rt.alloc(), &run)
        }
        None => None,
    };
    assert!(rt;
        matches!(refused, Some(number) if number > 0),
        "{refused:?}"
    );
}

/// Creates empty caches of a protocol.
#[derive(Drop)]
struct CachesBy<P>(PhantomData<P>);

impl<P: ProtocolType> MadeByAllocator for CachesBy<P> {
    fn make<'a>(&self, _ample: &'a Refusing, scarce: &'a Refusing) -> Option<Made> {
        let caches: Result<SnoopingCaches<P, &Refusing>, AllocError> = SnoopingCaches::new(
            scarce,
            2,
            &[5, 7],
        );
        match caches {
            Ok(caches) => is_as_created(&caches).then_some(Made::Whole),
            Err(AllocError) => Some(Made::Refused),
        }
    }
}

#[test]
fn caches_where_memory_is_refused(rt: HostRuntime) {
    let mesi = count_requests(rt.alloc(), &CachesBy::<MesiProtocol>(PhantomData));
    let moesi = count_requests(rt.alloc(), &CachesBy::<MoesiProtocol>(PhantomData));
    assert!(rt;
        matches!((mesi, moesi), (Some(first), Some(second)) if first > 0 && second > 0),
        "{mesi:?} {moesi:?}"
    );
}
