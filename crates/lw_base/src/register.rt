//! The names of registers.
ghost use Rattle.std.specs.Prelude.{◌≡◌, MatchOption};
ghost use Rattle.std.specs.Str.{bytes_eq};
ghost use Rattle.lw_base.specs.NoParse.{HoldsOfNothing};
ghost use Rattle.lw_base.specs.Registers.{register_name, lowercase_if_x86, IsRegisterName};

use crate::head::Arch;
use crate::indices::Reg;
use crate::name::eq_ignore_ascii_case;

/// Returns the printed name of a register: `r0` to `r5` in source tests; `EAX`, `EBX`, `ECX`, `EDX`, `ESI` or `EDI`
/// in x86 tests.
pub fn reg_name(arch: Arch, reg: Reg) -> &'static str
    ensures { result.now ≡ register_name arch reg }
{
    match (arch, reg.index()) {
        (Arch::Source, 0) => "r0",
        (Arch::Source, 1) => "r1",
        (Arch::Source, 2) => "r2",
        (Arch::Source, 3) => "r3",
        (Arch::Source, 4) => "r4",
        (Arch::Source, _) => "r5",
        (Arch::X86, 0) => "EAX",
        (Arch::X86, 1) => "EBX",
        (Arch::X86, 2) => "ECX",
        (Arch::X86, 3) => "EDX",
        (Arch::X86, 4) => "ESI",
        (Arch::X86, _) => "EDI",
    }
}

/// Returns the register of a language with this name, if there is one. Names of x86 registers are read in any case.
pub fn reg_from_name(arch: Arch, name: &str) -> Option<Reg>
    ensures { MatchOption result (HoldsOfNothing (IsRegisterName arch name.now)) (IsRegisterName arch name.now) }
{
    for reg in &Reg::all() {
        if has_name(arch, *reg, name) {
            return Some(*reg);
        }
    }
    None
}

/// Returns whether a register has this name. The case of letters is ignored in x86.
fn has_name(arch: Arch, reg: Reg, name: &str) -> bool
    ensures { result ≡ bytes_eq
        (lowercase_if_x86 arch (register_name arch reg)) (lowercase_if_x86 arch name.now) }
{
    let known = reg_name(arch, reg);
    match arch {
        Arch::Source => return known == name,
        Arch::X86 => return eq_ignore_ascii_case(known, name),
    }
}
