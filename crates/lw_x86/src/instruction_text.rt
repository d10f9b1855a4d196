//! Printing an instruction.
ghost use Rattle.std.specs.Prelude.{◌≡◌, ◌<◌, ◌++◌, codes, length, OnOk};
ghost use Rattle.std.specs.Option.{ForSome};
ghost use Rattle.std.specs.String.{string_bytes};
ghost use Rattle.lw_base.specs.Registers.{register_name};
ghost use Rattle.lw_base.specs.declared.head.Arch.TheVariants.{X86};
ghost use Rattle.lw_x86.specs.CanonicalTexts.{instruction_text};
ghost use Rattle.lw_x86.specs.inner.OperandTexts.{operand_text, memory_text, with_operands};
ghost use Rattle.lw_litmus.specs.Operations.{location_of};
ghost use Rattle.lw_litmus.specs.Programs.{x86_operation};

use lw_base::{Arch, Loc, LocNames, Operand, Reg, reg_name};
use lw_litmus::Instr;
use std::alloc::{AllocError, Allocator};

/// Writes an instruction, with its location by name and a jump's target by label.
pub(crate) fn write_instruction<A: Allocator, B: Allocator>(
    out: &mut String<A>,
    names: &LocNames<B>,
    instr: Instr,
) -> Result<(), AllocError>
    requires { ForSome (location_of (x86_operation instr)) (λ x. x < length names.now) }
    ensures { OnOk result (string_bytes out.new ≡ string_bytes out.old ++ instruction_text names.now instr) }
{
    match instr {
        Instr::Store { loc, val } => write_on_memory(out, names, "MOV", loc, val),
        Instr::Load { reg, loc } => write_load(out, names, reg, loc),
        Instr::Set { reg, val } => write_on_register(out, "MOV", reg, val),
        Instr::Add { reg, val } => write_on_register(out, "ADD", reg, val),
        Instr::Cmp { reg, val } => write_on_register(out, "CMP", reg, val),
        Instr::Xchg { loc, reg } => {
            write_on_memory(out, names, "XCHG", loc, Operand::Register(reg))
        }
        Instr::Xadd { loc, reg } => {
            write_on_memory(out, names, "LOCK XADD", loc, Operand::Register(reg))
        }
        Instr::Mfence => out.push_str("MFENCE"),
        Instr::Je { to } => write!(out, "JE L{}", to),
        Instr::Jne { to } => write!(out, "JNE L{}", to),
        Instr::Jmp { to } => write!(out, "JMP L{}", to),
    }
}

/// Writes an instruction whose first operand is a register: a mnemonic, the register, and a value.
fn write_on_register<A: Allocator>(
    out: &mut String<A>,
    mnemonic: &str,
    reg: Reg,
    val: Operand,
) -> Result<(), AllocError>
    ensures { OnOk result (string_bytes out.new
        ≡ string_bytes out.old ++ with_operands mnemonic.now (register_name X86 reg) (operand_text val)) }
{
    write!(out, "{} {},", mnemonic, reg_name(Arch::X86, reg))?;
    write_operand(out, val)
}

/// Writes an instruction whose first operand is a location: a mnemonic, the location in brackets, and a value.
fn write_on_memory<A: Allocator, B: Allocator>(
    out: &mut String<A>,
    names: &LocNames<B>,
    mnemonic: &str,
    loc: Loc,
    val: Operand,
) -> Result<(), AllocError>
    requires { loc < length names.now }
    ensures { OnOk result (string_bytes out.new
        ≡ string_bytes out.old ++ with_operands mnemonic.now (memory_text names.now loc) (operand_text val)) }
{
    write!(out, "{} [{}],", mnemonic, names.name(loc))?;
    write_operand(out, val)
}

/// Writes a `MOV` that loads a register from a location. Its location is the second operand, so `write_on_memory` does not fit.
fn write_load<A: Allocator, B: Allocator>(
    out: &mut String<A>,
    names: &LocNames<B>,
    reg: Reg,
    loc: Loc,
) -> Result<(), AllocError>
    requires { loc < length names.now }
    ensures { OnOk result (string_bytes out.new
        ≡ string_bytes out.old ++ with_operands (codes "MOV") (register_name X86 reg) (memory_text names.now loc)) }
{
    let register = reg_name(Arch::X86, reg);
    write!(out, "MOV {},[{}]", register, names.name(loc))
}

/// Writes an operand: a register's name, or `$` and a number.
fn write_operand<A: Allocator>(out: &mut String<A>, val: Operand) -> Result<(), AllocError>
    ensures { OnOk result (string_bytes out.new ≡ string_bytes out.old ++ operand_text val) }
{
    match val {
        Operand::Register(reg) => out.push_str(reg_name(Arch::X86, reg)),
        Operand::Number(number) => write!(out, "${}", number),
    }
}
