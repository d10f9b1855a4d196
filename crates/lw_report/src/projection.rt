//! The observed names of a test, and their words in an outcome.
ghost use Rattle.std.specs.Prelude.{◌≡◌, ◌≤◌, ◌++◌, ◌∷◌, [], length, filter, All, IfOk, OnOk};
ghost use Rattle.std.specs.List.{list_any};
ghost use Rattle.lw_base.specs.FinalWords.{final_word, final_words};
ghost use Rattle.lw_base.specs.Heads.{head_of};
ghost use Rattle.lw_base.specs.Limits.{most_threads};
ghost use Rattle.lw_base.specs.Outcomes.{HasOutcomeShape};
ghost use Rattle.lw_base.specs.Propositions.{formula_of};
ghost use Rattle.lw_base.specs.WellFormed.{IsSeenInRange};
ghost use Rattle.lw_base.specs.SeenLists.{seen_eq, thread_registers, locations};
ghost use Rattle.lw_report.specs.Observed as specs;
ghost use Rattle.lw_report.specs.Observed.{is_observed, observed_words};

use lw_base::{Cpu, Head, Loc, Outcome, Prop, Reg, Seen, Sequence, Word};
use std::alloc::{AllocError, AllocFailed, Allocator};

/// Returns an outcome's words of the observed names, which are those of the condition and of the list: registers by
/// thread and index, then locations by index. Fails only if memory runs out.
pub fn project<A: Allocator + Copy, B: Allocator, C: Allocator>(
    alloc: A,
    head: &Head<B>,
    outcome: &Outcome<C>,
) -> Result<Sequence<Word, A>, AllocError>
    requires threads { head.now.threads ≤ most_threads }
    requires outcome { HasOutcomeShape head.now.threads (length head.now.locs) outcome.now }
    ensures { IfOk result (λ words. words ≡ observed_words (head_of head.now) outcome.now) }
{
    let names = observed(alloc, head)?;
    let words = words_of(alloc, names.as_slice(), outcome);
    drop(names);
    words
}

/// Returns the observed names of a test: registers by thread and index, then locations by index. Fails only if memory runs
/// out.
pub fn observed<A: Allocator, B: Allocator>(
    alloc: A,
    head: &Head<B>,
) -> Result<Sequence<Seen, A>, AllocError>
    requires { head.now.threads ≤ most_threads }
    ensures names { IfOk result (λ names. names ≡ specs.observed (head_of head.now)) }
    ensures in_range { IfOk result (λ names. All (IsSeenInRange head.now.threads (length head.now.locs)) names) }
{
    let mut names = Sequence::new(alloc);
    for cpu in &Cpu::all()[..head.threads] {
        push_registers(&mut names, head, *cpu)?;
    }
    push_locations(&mut names, head)?;
    Ok(names)
}

/// Appends the observed registers of a thread to `names`.
fn push_registers<A: Allocator, B: Allocator>(
    names: &mut Sequence<Seen, A>,
    head: &Head<B>,
    cpu: Cpu,
) -> Result<(), AllocFailed<Seen>>
    ensures { OnOk result (names.new ≡ names.old ++ filter (is_observed (head_of head.now)) (thread_registers cpu)) }
{
    for reg in &Reg::all() {
        push_observed(names, head, Seen::Register(cpu, *reg))?;
    }
    Ok(())
}

/// Appends the observed locations to `names`.
fn push_locations<A: Allocator, B: Allocator>(
    names: &mut Sequence<Seen, A>,
    head: &Head<B>,
) -> Result<(), AllocFailed<Seen>>
    ensures { OnOk result (names.new ≡ names.old
        ++ filter (is_observed (head_of head.now)) (locations (length head.now.locs))) }
{
    for loc in &Loc::all()[..head.locs.len()] {
        push_observed(names, head, Seen::Location(*loc))?;
    }
    Ok(())
}

/// Appends a register or a location to `names` if it is observed.
fn push_observed<A: Allocator, B: Allocator>(
    names: &mut Sequence<Seen, A>,
    head: &Head<B>,
    name: Seen,
) -> Result<(), AllocFailed<Seen>>
    ensures { OnOk result (names.new ≡ names.old ++ filter (is_observed (head_of head.now)) (name ∷ [])) }
{
    if is_observed(head, &name) {
        return names.push(name);
    }
    Ok(())
}

/// Returns whether a register or a location is in the condition or in the list.
fn is_observed<A: Allocator>(head: &Head<A>, name: &Seen) -> bool
    ensures { result ≡ specs.is_observed (head_of head.now) name.now }
{
    is_named(&head.prop, name) || head.listed.as_slice().contains(name)
}

/// Returns whether a proposition names a register or a location.
fn is_named<A: Allocator>(prop: &Prop<A>, name: &Seen) -> bool
    ensures { result ≡ specs.is_named (formula_of prop.now) name.now }
{
    match prop {
        Prop::Always | Prop::Never => false,
        Prop::RegIs(cpu, reg, _) => Seen::Register(*cpu, *reg) == *name,
        Prop::WordIs(loc, _) => Seen::Location(*loc) == *name,
        Prop::Neg(part) => is_named(part, name),
        Prop::Both(left, right) => is_named(left, name) || is_named(right, name),
        Prop::Either(left, right) => is_named(left, name) || is_named(right, name),
    }
}

/// Returns an outcome's words of these names.
pub(crate) fn words_of<A: Allocator, B: Allocator>(
    alloc: A,
    names: &[Seen],
    outcome: &Outcome<B>,
) -> Result<Sequence<Word, A>, AllocError>
    requires names { All (IsSeenInRange (length outcome.now.regs) (length outcome.now.words)) names.now }
    requires outcome { HasOutcomeShape (length outcome.now.regs) (length outcome.now.words) outcome.now }
    ensures { IfOk result (λ words. words ≡ final_words names.now outcome.now) }
{
    let mut words = Vec::with_capacity(alloc, names.len())?;
    for name in names {
        words.push(word_of(outcome, *name))?;
    }
    Ok(Sequence::from(words))
}

/// Returns the final word of a register or a location.
fn word_of<A: Allocator>(outcome: &Outcome<A>, name: Seen) -> Word
    requires name { IsSeenInRange (length outcome.now.regs) (length outcome.now.words) name }
    requires outcome { HasOutcomeShape (length outcome.now.regs) (length outcome.now.words) outcome.now }
    ensures { result ≡ final_word outcome.now name }
{
    match name {
        Seen::Register(cpu, reg) => outcome.regs.as_slice()[cpu.index()][reg.index()],
        Seen::Location(loc) => outcome.words.as_slice()[loc.index()],
    }
}
