//! Calls of the x86-TSO machine that no page shows.
ghost use Rattle.std.specs.Prelude.{◌≡◌, ◌<◌, ◌≤◌, length, IfSome};
ghost use Rattle.lw_mesi.specs.CacheLines.{coherent_words};

use lw_base::{Cpu, End, Event, Loc, Reg, Stop};
use lw_litmus::Program;
use lw_mesi::{Mesi, ProtocolType, SnoopingCaches, empty_caches_are_coherent};
use lw_test_reader::program_of;
use lw_tso::Machine;
use std::alloc::Global;

/// Creates empty caches for a program, of a protocol, over its initial words.
pub(crate) fn caches_of<P: ProtocolType>(
    alloc: Global,
    program: &Program,
) -> Option<SnoopingCaches<P>>
    ensures cpus { IfSome result (λ m. m.cpus ≡ program.now.head.threads) }
    ensures threads { IfSome result (λ m. length program.now.threads ≤ m.cpus) }
    ensures words { IfSome result (λ m. coherent_words m ≡ program.now.head.init_words) }
{
    empty_caches_are_coherent();
    let head = &program.head;
    match SnoopingCaches::new(alloc, head.threads, head.init_words.as_slice()) {
        Ok(caches) => Some(caches),
        Err(_) => None,
    }
}

/// Creates a machine of a program, over caches.
pub(crate) fn machine_of(alloc: Global, program: &Program) -> Option<Machine<'_, Mesi>>
    ensures { IfSome result (λ m. length m.state.processors ≡ program.now.head.threads) }
{
    let caches = caches_of(alloc, program)?;
    Machine::new(alloc, program, caches).ok()
}

/// The maximum number of stores of a thread: of the numbers from 1 to 32 to the second location.
const STORES: &str =
    "X86 A {y=9} P0; MOV [x],$1; MOV [x],$2; MOV [x],$3; MOV [x],$4; MOV [x],$5; MOV [x],$6; MOV [x],$7; MOV [x],$8; MOV [x],$9; MOV [x],$10; MOV [x],$11; MOV [x],$12; MOV [x],$13; MOV [x],$14; MOV [x],$15; MOV [x],$16; MOV [x],$17; MOV [x],$18; MOV [x],$19; MOV [x],$20; MOV [x],$21; MOV [x],$22; MOV [x],$23; MOV [x],$24; MOV [x],$25; MOV [x],$26; MOV [x],$27; MOV [x],$28; MOV [x],$29; MOV [x],$30; MOV [x],$31; MOV [x],$32; exists (true)";

/// Executes the stores, and returns whether they fill the store buffer, with the last one as its newest entry.
fn are_stored(machine: &mut Machine<'_, Mesi>, cpu: Cpu) -> bool
    requires { cpu < length machine.old.state.processors }
    ensures { length machine.new.state.processors ≡ length machine.old.state.processors }
{
    let replay = machine.run(&[Event::Step(cpu); 32]);
    if machine.buffered(cpu) != 32 {
        return false;
    }
    let (loc, word) = machine.entry(cpu, 31);
    replay.done == 32 && replay.end == End::NotFinal && loc.index() == 1 && word == 32
}

/// Drains the buffer, and returns whether the run is then at its end, with the last store in memory.
fn are_drained(machine: &mut Machine<'_, Mesi>, cpu: Cpu) -> bool {
    let replay = machine.run(&[Event::Drain(cpu); 32]);
    match machine.outcome() {
        Ok(outcome) => {
            replay.done == 32
                && replay.end == End::Final
                && outcome.words.as_slice() == [9, 32].as_slice()
        }
        Err(_) => false,
    }
}

/// Returns whether a machine of the program executes all stores and then drains them. Neither its steps nor its drains get an allocator.
fn are_stored_and_drained(alloc: Global, program: &Program) -> Option<bool> {
    let mut machine = machine_of(alloc, program)?;
    let [cpu, ..] = Cpu::all();
    if program.head.threads != 1 {
        return None;
    }
    Some(are_stored(&mut machine, cpu) && are_drained(&mut machine, cpu))
}

#[test]
fn full_store_buffers(rt: HostRuntime) {
    let are_done = match program_of(rt.alloc(), STORES) {
        Some(program) => are_stored_and_drained(rt.alloc(), &program),
        None => None,
    };
    assert!(rt; are_done == Some(true));
}

/// A test of two locations, whose second thread is empty.
const TWO_LOCATIONS: &str = "X86 A {x=5; y=7} P0|P1; MOV EAX,[x] |; MOV [x],$1 |; exists (true)";

/// Returns the results of events on locations that do not exist, of a processor that does not exist, of a location
/// that is not held, and at the end.
fn results_on_missing_locations(alloc: Global, program: &Program) -> Option<[Result<(), Stop>; 6]> {
    let mut machine = machine_of(alloc, program)?;
    let [p0, p1, p2, _] = Cpu::all();
    let [_, y, third, .., last] = Loc::all();
    Some([
        machine.step(Event::Evict(p0, last)),
        machine.step(Event::Evict(p1, third)),
        machine.step(Event::Evict(p1, last)),
        machine.step(Event::Evict(p2, last)),
        machine.step(Event::Evict(p1, y)),
        machine.step(Event::Step(p1)),
    ])
}

#[test]
fn missing_locations_are_rejected(rt: HostRuntime) {
    let told = match program_of(rt.alloc(), TWO_LOCATIONS) {
        Some(program) => results_on_missing_locations(rt.alloc(), &program),
        None => None,
    };
    let wanted = [
        Err(Stop::NoLocation),
        Err(Stop::NoLocation),
        Err(Stop::NoLocation),
        Err(Stop::NoCpu),
        Err(Stop::NotHeld),
        Err(Stop::Ended),
    ];
    assert!(rt; told == Some(wanted));
}

/// Returns whether a load of the first thread has put a 5 into its first register, and nothing into the others.
fn has_loaded(alloc: Global, program: &Program) -> Option<bool> {
    let mut machine = machine_of(alloc, program)?;
    let ([p0, p1, ..], [eax, ebx, ..]) = (Cpu::all(), Reg::all());
    if program.head.threads != 2 || machine.step(Event::Step(p0)).is_err() {
        return None;
    }
    let registers = [
        machine.reg(p0, eax),
        machine.reg(p0, ebx),
        machine.reg(p1, eax),
    ];
    Some(registers == [5, 0, 0])
}

#[test]
fn registers_of_a_machine(rt: HostRuntime) {
    let has_loaded = match program_of(rt.alloc(), TWO_LOCATIONS) {
        Some(program) => has_loaded(rt.alloc(), &program),
        None => None,
    };
    assert!(rt; has_loaded == Some(true));
}
