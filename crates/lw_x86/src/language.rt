//! The spelling of the instructions of an x86 test.
ghost use Rattle.std.specs.Prelude.{◌≡◌};
ghost use Rattle.lw_x86.specs.Spelling.{x86_spelling};
ghost use Rattle.lw_x86.specs.inner.Operands.{instruction_of_operands, value_of};

use lw_base::{Arch, Operand};
use lw_litmus::{Instr, MAX_INSTRUCTIONS};
use lw_statements::{Operands, Slot, StatementReader};

/// The x86 language.
pub(crate) enum X86Language {}

/// A mnemonic or a sign.
#[derive(Clone, Copy)]
pub(crate) enum X86Keyword {
    Mov,
    Add,
    Cmp,
    Xchg,
    Xadd,
    Lock,
    Mfence,
    Je,
    Jne,
    Jmp,
    Open,
    Close,
    Comma,
    Dollar,
}

/// A form of instructions. Where a register may appear after the last `,`, a number without its `$` may appear too.
#[derive(Clone, Copy)]
pub(crate) enum X86Form {
    /// `MOV [x],a`.
    Store,
    /// `MOV [x],$n`.
    StoreNumber,
    /// `MOV d,[x]`.
    Load,
    /// `MOV d,a`.
    Set,
    /// `MOV d,$n`.
    SetNumber,
    /// `ADD d,a`.
    Add,
    /// `ADD d,$n`.
    AddNumber,
    /// `CMP a,b`.
    Compare,
    /// `CMP a,$n`.
    CompareNumber,
    /// `XCHG [x],a`.
    Exchange,
    /// `XCHG a,[x]`.
    ExchangeLast,
    /// `LOCK XCHG [x],a`.
    LockedExchange,
    /// `LOCK XCHG a,[x]`.
    LockedExchangeLast,
    /// `LOCK XADD [x],a`.
    ExchangeAdd,
    /// `MFENCE`.
    Fence,
    /// `JE L`.
    JumpEqual,
    /// `JNE L`.
    JumpNotEqual,
    /// `JMP L`.
    Jump,
}

impl StatementReader for X86Language {
    type Keyword = X86Keyword;

    type Form = X86Form;

    type Stmt = Instr;

    ghost spelling = { x86_spelling };

    ghost statement_of = { instruction_of_operands };

    /// Returns x86.
    fn arch() -> Arch {
        Arch::X86
    }

    /// Returns the maximum number of instructions of a thread.
    fn max_statements() -> usize {
        MAX_INSTRUCTIONS
    }

    /// Returns the text of a mnemonic or a sign.
    fn text(keyword: X86Keyword) -> &'static str {
        match keyword {
            X86Keyword::Mov => "MOV",
            X86Keyword::Add => "ADD",
            X86Keyword::Cmp => "CMP",
            X86Keyword::Xchg => "XCHG",
            X86Keyword::Xadd => "XADD",
            X86Keyword::Lock => "LOCK",
            X86Keyword::Mfence => "MFENCE",
            X86Keyword::Je => "JE",
            X86Keyword::Jne => "JNE",
            X86Keyword::Jmp => "JMP",
            X86Keyword::Open => "[",
            X86Keyword::Close => "]",
            X86Keyword::Comma => ",",
            X86Keyword::Dollar => "$",
        }
    }

    /// Returns all forms of instructions.
    fn forms() -> &'static [X86Form] {
        &[
            X86Form::Store,
            X86Form::StoreNumber,
            X86Form::Load,
            X86Form::Set,
            X86Form::SetNumber,
            X86Form::Add,
            X86Form::AddNumber,
            X86Form::Compare,
            X86Form::CompareNumber,
            X86Form::Exchange,
            X86Form::ExchangeLast,
            X86Form::LockedExchange,
            X86Form::LockedExchangeLast,
            X86Form::ExchangeAdd,
            X86Form::Fence,
            X86Form::JumpEqual,
            X86Form::JumpNotEqual,
            X86Form::Jump,
        ]
    }

    /// Returns the slots of a form, one for each token.
    fn slots(form: X86Form) -> &'static [Slot<X86Keyword>] {
        use Slot::{Label, Location, Number, Register, Value, Keyword};
        use X86Keyword::{
            Add, Close, Cmp, Comma, Dollar, Je, Jmp, Jne, Lock, Mfence, Mov, Open, Xadd, Xchg,
        };
        match form {
            X86Form::Store => &[
                Keyword(Mov),
                Keyword(Open),
                Location,
                Keyword(Close),
                Keyword(Comma),
                Value,
            ],
            X86Form::StoreNumber => &[
                Keyword(Mov),
                Keyword(Open),
                Location,
                Keyword(Close),
                Keyword(Comma),
                Keyword(Dollar),
                Number,
            ],
            X86Form::Load => &[
                Keyword(Mov),
                Register,
                Keyword(Comma),
                Keyword(Open),
                Location,
                Keyword(Close),
            ],
            X86Form::Set => &[Keyword(Mov), Register, Keyword(Comma), Value],
            X86Form::SetNumber => &[
                Keyword(Mov),
                Register,
                Keyword(Comma),
                Keyword(Dollar),
                Number,
            ],
            X86Form::Add => &[Keyword(Add), Register, Keyword(Comma), Value],
            X86Form::AddNumber => &[
                Keyword(Add),
                Register,
                Keyword(Comma),
                Keyword(Dollar),
                Number,
            ],
            X86Form::Compare => &[Keyword(Cmp), Register, Keyword(Comma), Value],
            X86Form::CompareNumber => &[
                Keyword(Cmp),
                Register,
                Keyword(Comma),
                Keyword(Dollar),
                Number,
            ],
            X86Form::Exchange => &[
                Keyword(Xchg),
                Keyword(Open),
                Location,
                Keyword(Close),
                Keyword(Comma),
                Register,
            ],
            X86Form::ExchangeLast => &[
                Keyword(Xchg),
                Register,
                Keyword(Comma),
                Keyword(Open),
                Location,
                Keyword(Close),
            ],
            X86Form::LockedExchange => &[
                Keyword(Lock),
                Keyword(Xchg),
                Keyword(Open),
                Location,
                Keyword(Close),
                Keyword(Comma),
                Register,
            ],
            X86Form::LockedExchangeLast => &[
                Keyword(Lock),
                Keyword(Xchg),
                Register,
                Keyword(Comma),
                Keyword(Open),
                Location,
                Keyword(Close),
            ],
            X86Form::ExchangeAdd => &[
                Keyword(Lock),
                Keyword(Xadd),
                Keyword(Open),
                Location,
                Keyword(Close),
                Keyword(Comma),
                Register,
            ],
            X86Form::Fence => &[Keyword(Mfence)],
            X86Form::JumpEqual => &[Keyword(Je), Label],
            X86Form::JumpNotEqual => &[Keyword(Jne), Label],
            X86Form::Jump => &[Keyword(Jmp), Label],
        }
    }

    /// Returns the instruction of a form, or `None` if an operand that it needs is missing.
    fn statement(form: X86Form, operands: &Operands) -> Option<Instr> {
        let Operands { reg, loc, to, .. } = *operands;
        Some(match (form, reg, loc, value(operands), to) {
            (X86Form::Store | X86Form::StoreNumber, _, Some(loc), Some(val), _) => Instr::Store {
                loc,
                val,
            },
            (X86Form::Load, Some(reg), Some(loc), _, _) => Instr::Load { reg, loc },
            (X86Form::Set | X86Form::SetNumber, Some(reg), _, Some(val), _) => Instr::Set {
                reg,
                val,
            },
            (X86Form::Add | X86Form::AddNumber, Some(reg), _, Some(val), _) => Instr::Add {
                reg,
                val,
            },
            (X86Form::Compare | X86Form::CompareNumber, Some(reg), _, Some(val), _) => Instr::Cmp {
                reg,
                val,
            },
            (
                X86Form::Exchange
                | X86Form::ExchangeLast
                | X86Form::LockedExchange
                | X86Form::LockedExchangeLast,
                Some(reg),
                Some(loc),
                _,
                _,
            ) => Instr::Xchg { loc, reg },
            (X86Form::ExchangeAdd, Some(reg), Some(loc), _, _) => Instr::Xadd { loc, reg },
            (X86Form::Fence, ..) => Instr::Mfence,
            (X86Form::JumpEqual, .., Some(to)) => Instr::Je { to },
            (X86Form::JumpNotEqual, .., Some(to)) => Instr::Jne { to },
            (X86Form::Jump, .., Some(to)) => Instr::Jmp { to },
            _ => return None,
        })
    }
}

/// Returns the last operand: a register, or a number, which is in `num` if the form has a `$`, and in `val`
/// otherwise. Returns `None` if there is neither.
fn value(operands: &Operands) -> Option<Operand>
    ensures { result ≡ value_of operands.now }
{
    match operands.num {
        Some(num) => Some(Operand::Number(num)),
        None => operands.val,
    }
}
