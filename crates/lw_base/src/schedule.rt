//! Schedules: events separated by blanks; and the laws of their texts.
//! A law is a function without a result, whose contract states the law. A proof uses the law by calling the function.
ghost use Rattle.std.specs.Prelude.{◌≡◌, ◌≢◌, ◌<◌, ◌≤◌, List, [], ◌∷◌, ◌++◌, length, MatchOption, IfOk, IfErr, OnOk};
ghost use Rattle.std.specs.List.{AllByRecursion};
ghost use Rattle.std.specs.String.{string_bytes};
ghost use Rattle.lw_base.specs.Characters.{byte, digit, DoesNotContain, IsSplitAtFirst};
ghost use Rattle.lw_base.specs.Types.{Bytes, NameTable};
ghost use Rattle.lw_base.specs.Limits.{most_threads};
ghost use Rattle.lw_base.specs.Names.{IsNameTable};
ghost use Rattle.lw_base.specs.NoParse.{HoldsOfNothingOrOutOfMemory};
ghost use Rattle.lw_base.specs.Schedules.{IsEvent, event_text, schedule_text, IsEventText, IsSchedule, IsFaultyPiece, IsFirstFault};
ghost use Rattle.lw_base.specs.inner.Digits.{HasBadDigits};
ghost use Rattle.lw_base.specs.declared.event.Event.{Event};
ghost use Rattle.lw_base.specs.declared.fault.ScheduleCause.TheVariants as causes;

use crate::byte_kinds::{ByteKind, prefix_of_kind};
use crate::event::Event;
use crate::fault::{ScheduleCause, ScheduleFault};
use crate::indices::{Cpu, Loc};
use crate::location::LocNames;
use crate::name::{are_digits, ascii_text, is_name_shaped};
use crate::sequence::Sequence;
use crate::text::Text;
use std::alloc::{AllocError, Allocator};

/// Parses a schedule. Its events are separated by blanks: `P0` is a step of processor 0, `D0` a drain of its store
/// buffer, and `E0:x` the eviction of its line of `x`.
/// Fails at the first piece between blanks that is no event, with the offset of its first byte. The cause is `Word`
/// if the piece has another shape, `Cpu` if its digits are no processor's index, and otherwise `Location`, if the
/// name is not in the table.
pub fn read_schedule<A: Allocator, B: Allocator>(
    alloc: A,
    text: &str,
    names: &LocNames<B>,
) -> Result<Sequence<Event, A>, ScheduleFault>
    // The text is a schedule of the returned events.
    ensures found { IfOk result (λ events. IsSchedule names.now text.now events) }
    // If it fails, the text is no schedule, or memory ran out.
    ensures fault { IfErr result (λ f. HoldsOfNothingOrOutOfMemory causes.Memory f.cause (IsSchedule names.now text.now)) }
    // Unless memory ran out, the offset and the cause are those of the first faulty piece.
    ensures first { IfErr result
        (λ f. f.cause ≢ causes.Memory → IsFirstFault names.now text.now f.at f.cause) }
    ensures place { IfErr result (λ f. f.at ≤ length text.now) }
{
    // Brings the table's invariant into scope.
    let _len = names.len();
    let mut events = Sequence::new(alloc);
    let (_, mut rest) = prefix_of_kind(text.as_bytes(), ByteKind::Blank);
    while !rest.is_empty() {
        let at = text.len() - rest.len();
        let (piece, after) = prefix_of_kind(rest, ByteKind::NotBlank);
        match parse_event(piece, names) {
            Ok(event) => events.push(event)?,
            Err(cause) => return Err(ScheduleFault { at, cause }),
        }
        rest = prefix_of_kind(after, ByteKind::Blank).1;
    }
    Ok(events)
}

/// Parses one piece between blanks as an event.
fn parse_event<B: Allocator>(piece: &[u8], names: &LocNames<B>) -> Result<Event, ScheduleCause>
    ensures ok { IfOk result (λ e. IsEventText names.now e piece.now) }
    ensures err { IfErr result (IsFaultyPiece names.now piece.now) }
{
    let Some((letter, rest)) = piece.split_first() else {
        return Err(ScheduleCause::Word);
    };
    match letter {
        b'P' => Ok(Event::Step(parse_cpu(rest)?)),
        b'D' => Ok(Event::Drain(parse_cpu(rest)?)),
        b'E' => {
            let (cpu, loc) = parse_eviction(rest, names)?;
            Ok(Event::Evict(cpu, loc))
        }
        _ => Err(ScheduleCause::Word),
    }
}

/// Parses the digits of an event as a processor's index.
fn parse_cpu(digits: &[u8]) -> Result<Cpu, ScheduleCause>
    ensures ok { IfOk result (λ c. (c < most_threads) × (digits.now ≡ digit c ∷ [])) }
    ensures err { IfErr result (HasBadDigits digits.now) }
{
    if !are_digits(digits) {
        return Err(ScheduleCause::Word);
    }
    match digits {
        [digit @ b'0'..=b'9'] => Cpu::new(*digit - b'0').ok_or(ScheduleCause::Cpu),
        _ => Err(ScheduleCause::Cpu),
    }
}

/// Parses the part of an eviction after the `E`: digits, a `:` and a name.
fn parse_eviction<B: Allocator>(
    text: &[u8],
    names: &LocNames<B>,
) -> Result<(Cpu, Loc), ScheduleCause>
    ensures ok { IfOk result (λ x. IsEventText names.now (Event.Evict x.0 x.1) (byte "E" ∷ text.now)) }
    ensures err { IfErr result (IsFaultyPiece names.now (byte "E" ∷ text.now)) }
{
    let Some((digits, name)) = split_at_colon(text) else {
        return Err(ScheduleCause::Word);
    };
    if !is_name_shaped(name) {
        return Err(ScheduleCause::Word);
    }
    let cpu = parse_cpu(digits)?;
    match names.find(ascii_text(name)) {
        Some(loc) => Ok((cpu, loc)),
        None => Err(ScheduleCause::Location),
    }
}

/// Splits a text at its first `:`. Returns `None` if there is none.
fn split_at_colon(text: &[u8]) -> Option<(&[u8], &[u8])>
    ensures { MatchOption result (DoesNotContain (byte ":") text.now)
        (λ x. IsSplitAtFirst (byte ":") text.now x.0.now x.1.now) }
{
    let (digits, rest) = prefix_of_kind(text, ByteKind::Not(b':'));
    let (_, name) = rest.split_first()?;
    Some((digits, name))
}

/// Writes a schedule: its events, separated by single spaces.
pub fn write_schedule<A: Allocator, B: Allocator>(
    out: &mut String<A>,
    events: &[Event],
    names: &LocNames<B>,
) -> Result<(), AllocError>
    requires { AllByRecursion (IsEvent names.now) events.now }
    ensures { OnOk result (string_bytes out.new ≡ string_bytes out.old ++ schedule_text names.now events.now) }
{
    let Some((first, others)) = events.split_first() else {
        return Ok(());
    };
    write_event(out, first, names)?;
    for event in others {
        out.push(' ')?;
        write_event(out, event, names)?;
    }
    Ok(())
}

/// Writes an event: `P0`, `D0` or `E0:x`.
fn write_event<A: Allocator, B: Allocator>(
    out: &mut String<A>,
    event: &Event,
    names: &LocNames<B>,
) -> Result<(), AllocError>
    requires { IsEvent names.now event.now }
    ensures { OnOk result (string_bytes out.new ≡ string_bytes out.old ++ event_text names.now event.now) }
{
    match event {
        Event::Step(cpu) => write_cpu(out, 'P', *cpu),
        Event::Drain(cpu) => write_cpu(out, 'D', *cpu),
        Event::Evict(cpu, loc) => {
            write_cpu(out, 'E', *cpu)?;
            out.push(':')?;
            out.push_str(names.name(*loc))
        }
    }
}

/// Writes the common start of an event: its letter, and the digit of its processor.
fn write_cpu<A: Allocator>(out: &mut String<A>, letter: char, cpu: Cpu) -> Result<(), AllocError>
    requires { letter < 128 }
    ensures { OnOk result (string_bytes out.new ≡ string_bytes out.old ++ letter ∷ digit cpu ∷ []) }
{
    out.push(letter)?;
    out.push(cpu.digit())
}

/// States that `read_schedule` reads back the events that `write_schedule` writes.
pub fn a_written_schedule_is_read_back()
    ensures { (names : NameTable) (events : List Event) → IsNameTable names → AllByRecursion (IsEvent names) events
        → IsSchedule names (schedule_text names events) events }
{}

/// States that a text is a schedule of at most one list of events.
pub fn a_text_has_one_schedule()
    ensures { (names : NameTable) → IsNameTable names → (text : Bytes) (events others : List Event)
        → IsSchedule names text events → IsSchedule names text others → events ≡ others }
{}
