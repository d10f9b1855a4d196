//! The film of a replay: a page for each prefix of a schedule.
ghost use Rattle.std.specs.Prelude.{◌≡◌, ◌⊎◌, ◌++◌, suc, codes, length, IfOk, IfErr, OnOk};
ghost use Rattle.std.specs.String.{string_bytes};
ghost use Rattle.lw_base.specs.Types.{Bytes};
ghost use Rattle.lw_base.specs.declared.stop.End.{End as EndOfReplay};
ghost use Rattle.lw_bench.specs.Films.{IsFilm, IsFilmOf};
ghost use Rattle.lw_bench.specs.LitmusTests.{litmus_test_of};
ghost use Rattle.lw_bench.specs.Outputs.{IsOutputOf};
ghost use Rattle.lw_bench.specs.Replays.{IsPageOf};
ghost use Rattle.lw_bench.specs.FaultTruth.{RunFaultIsTrue, ReplayFaultIsTrue, IsNotDeviceFault};

use crate::fault::BenchFault;
use crate::litmus_test::LitmusTest;
use crate::render::{Renderer, render_text};
use crate::replay::page_of_events;
use lw_base::{Event, Text, read_schedule};
use lw_mesi::Protocol;
use std::alloc::Allocator;

/// Appends the page of a test's replay by these events, and an empty line.
fn push_page<A: Allocator + Copy>(
    out: &mut String<A>,
    alloc: A,
    test: &LitmusTest<A>,
    events: &[Event],
    protocol: Protocol,
) -> Result<(), BenchFault>
    ensures pushed { OnOk result ((page : Bytes) × (end : EndOfReplay) × IsPageOf protocol (litmus_test_of test.now) events.now page end
        × (string_bytes out.new ≡ string_bytes out.old ++ (page ++ codes "\n"))) }
    ensures fault { IfErr result (λ f. f ≡ BenchFault.Memory) }
{
    let (page, _end) = page_of_events(alloc, test, events, protocol)?;
    let written = writeln!(out, "{}", page.as_str());
    drop(page);
    Ok(written?)
}

/// Renders the pages of a test's replays by all prefixes of events.
fn film_of_events<A: Allocator + Copy>(
    alloc: A,
    test: &LitmusTest<A>,
    events: &[Event],
    protocol: Protocol,
) -> Result<Text<A>, BenchFault>
    ensures found { IfOk result (IsFilmOf protocol (litmus_test_of test.now) events.now (suc (length events.now))) }
    ensures fault { IfErr result (λ f. f ≡ BenchFault.Memory) }
{
    let mut out = String::new(alloc);
    for count in 0..events.len() {
        push_page(&mut out, alloc, test, &events[..count], protocol)?;
    }
    push_page(&mut out, alloc, test, events, protocol)?;
    Ok(Text::from(out))
}

/// Renders the pages of a test's replays by all prefixes of a schedule, the shortest first, each followed by an empty
/// line. After a rejected event all pages are the same.
fn film_of<A: Allocator + Copy>(
    alloc: A,
    test: &LitmusTest<A>,
    schedule: &str,
    protocol: Protocol,
) -> Result<Text<A>, BenchFault>
    ensures found { IfOk result (IsFilm protocol (litmus_test_of test.now) schedule.now) }
    ensures fault { IfErr result (λ f. (f ≡ BenchFault.Memory) ⊎ ReplayFaultIsTrue schedule.now (litmus_test_of test.now) f) }
    ensures device { IfErr result IsNotDeviceFault }
{
    let events = read_schedule(alloc, schedule, &test.head().locs)?;
    let film = film_of_events(alloc, test, events.as_slice(), protocol);
    drop(events);
    film
}

/// The film of a test's replay by a schedule.
#[derive(Clone, Copy)]
struct FilmRenderer<'a> {
    schedule: &'a str,
    protocol: Protocol,
}

impl<'a, A: Allocator + Copy> Renderer<A> for FilmRenderer<'a> {
    type Answer = ();

    ghost is_made = { λ r _ test film. IsFilm r.protocol test r.schedule.now film };

    ghost fault_is_true = { λ r. ReplayFaultIsTrue r.schedule.now };

    /// Renders the film of the test's replay.
    fn render(&self, alloc: A, test: &LitmusTest<A>) -> Result<(Text<A>, ()), BenchFault> {
        Ok((film_of(alloc, test, self.schedule, self.protocol)?, ()))
    }
}

/// Renders the film of a replay: the pages of the replays of a text's test by all prefixes of a schedule, as `lw replay`
/// writes them, the shortest first, each followed by an empty line.
pub fn film<A: Allocator + Copy>(
    alloc: A,
    text: &[u8],
    schedule: &str,
    protocol: Protocol,
) -> Result<Text<A>, BenchFault>
    ensures made { IfOk result (IsOutputOf (λ test film. IsFilm protocol test schedule.now film) text.now) }
    ensures fault { IfErr result (RunFaultIsTrue (ReplayFaultIsTrue schedule.now) text.now) }
    ensures device { IfErr result IsNotDeviceFault }
{
    let (film, _) = render_text(alloc, &FilmRenderer { schedule, protocol }, text)?;
    Ok(film)
}
