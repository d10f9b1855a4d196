//! Printing a condition.
ghost use Rattle.std.specs.Prelude.{◌≡◌, ◌++◌, [], length, IfOk, OnOk};
ghost use Rattle.std.specs.String.{string_bytes};
ghost use Rattle.lw_base.specs.ConditionTexts as printed;
ghost use Rattle.lw_base.specs.ConditionTexts.{condition_text, proposition_text, parenthesized_if, site_text, assignment};
ghost use Rattle.lw_base.specs.Heads.{head_of};
ghost use Rattle.lw_base.specs.Propositions.{formula_of};
ghost use Rattle.lw_base.specs.WellFormed.{MentionsLocationsBelow};
ghost use Rattle.lw_base.specs.declared.head.Seen.TheVariants.{Register};

use crate::head::{Arch, Head, Quant};
use crate::indices::{Cpu, Reg, Word};
use crate::proposition::Prop;
use crate::register::reg_name;
use crate::text::Text;
use std::alloc::{AllocError, Allocator};

/// Renders the condition of a head, its quantifier included, without a line end. Fails only if memory runs out.
pub fn write_condition<A: Allocator, B: Allocator>(
    alloc: A,
    head: &Head<B>,
) -> Result<Text<A>, AllocError>
    // Every location of the proposition is in the table.
    requires { MentionsLocationsBelow (length head.now.locs) (formula_of head.now.prop) }
    ensures { IfOk result (λ text. text ≡ condition_text (head_of head.now)) }
{
    let mut out = String::new(alloc);
    write!(out, "{} (", quantifier_text(head.quant))?;
    write_proposition(&mut out, head, &head.prop)?;
    out.push_str(")")?;
    Ok(Text::from(out))
}

/// Returns the printed text of a quantifier.
fn quantifier_text(quant: Quant) -> &'static str
    ensures { result.now ≡ printed.quantifier_text quant }
{
    match quant {
        Quant::Exists => "exists",
        Quant::NotExists => "~exists",
        Quant::Forall => "forall",
    }
}

/// Writes a proposition, which is the condition's or a part of it. Connectives are read from the left, and `/\` binds tighter than `\/`. So a left
/// operand needs parentheses only if its connective binds less tightly, and a right operand also if its connective is the same.
#[cycle(propositions)]
fn write_proposition<A: Allocator, B: Allocator>(
    out: &mut String<A>,
    head: &Head<B>,
    prop: &Prop<B>,
) -> Result<(), AllocError>
    requires { MentionsLocationsBelow (length head.now.locs) (formula_of prop.now) }
    ensures { OnOk result (string_bytes out.new
        ≡ string_bytes out.old ++ proposition_text head.now.arch head.now.locs (formula_of prop.now)) }
{
    match prop {
        Prop::Always => out.push_str("true"),
        Prop::Never => out.push_str("false"),
        Prop::RegIs(cpu, reg, word) => write_register_is(out, head.arch, *cpu, *reg, *word),
        Prop::WordIs(loc, word) => write!(out, "{}={}", head.locs.name(*loc), word),
        Prop::Neg(part) => write_right_operand(out, head, "~", part, part.is_joined()),
        Prop::Both(left, right) => {
            write_part(out, head, left, left.is_either())?;
            write_right_operand(out, head, " /\\ ", right, right.is_joined())
        }
        Prop::Either(left, right) => {
            write_proposition(out, head, left)?;
            write_right_operand(out, head, " \\/ ", right, right.is_either())
        }
    }
}

/// Writes an atom on a thread's register, as in `0:EAX=1`.
fn write_register_is<A: Allocator>(
    out: &mut String<A>,
    arch: Arch,
    cpu: Cpu,
    reg: Reg,
    word: Word,
) -> Result<(), AllocError>
    ensures { OnOk result (string_bytes out.new
        ≡ string_bytes out.old ++ assignment (site_text arch [] (Register cpu reg)) word) }
{
    write!(out, "{}:{}={}", cpu.index(), reg_name(arch, reg), word)
}

/// Writes a connective and its right operand, or `~` and its operand: the operand in parentheses if `needs_parentheses` is set.
#[cycle(propositions)]
fn write_right_operand<A: Allocator, B: Allocator>(
    out: &mut String<A>,
    head: &Head<B>,
    connective: &str,
    part: &Prop<B>,
    needs_parentheses: bool,
) -> Result<(), AllocError>
    requires { MentionsLocationsBelow (length head.now.locs) (formula_of part.now) }
    ensures { OnOk result (string_bytes out.new ≡ string_bytes out.old
        ++ (connective.now ++ parenthesized_if needs_parentheses (proposition_text head.now.arch head.now.locs (formula_of part.now)))) }
{
    out.push_str(connective)?;
    write_part(out, head, part, needs_parentheses)
}

/// Writes a part of a proposition, in parentheses if `needs_parentheses` is set.
#[cycle(propositions)]
fn write_part<A: Allocator, B: Allocator>(
    out: &mut String<A>,
    head: &Head<B>,
    part: &Prop<B>,
    needs_parentheses: bool,
) -> Result<(), AllocError>
    requires { MentionsLocationsBelow (length head.now.locs) (formula_of part.now) }
    ensures { OnOk result (string_bytes out.new ≡ string_bytes out.old
        ++ parenthesized_if needs_parentheses (proposition_text head.now.arch head.now.locs (formula_of part.now))) }
{
    if !needs_parentheses {
        return write_proposition(out, head, part);
    }
    out.push_str("(")?;
    write_proposition(out, head, part)?;
    out.push_str(")")
}
