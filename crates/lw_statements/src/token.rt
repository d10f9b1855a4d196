//! Resolving one token of a cell as a location, and the faults of tokens.
ghost use Rattle.std.specs.Prelude.{◌≡◌, ◌↔◌, ◌⊎◌, Some, slice_get, IsTrue, MatchResult};
ghost use Rattle.lw_base.specs.Names.{IsName, IsUnreservedName};
ghost use Rattle.lw_text.specs.Spans.{token_texts};
ghost use Rattle.lw_statements.specs.inner.Tokens.{NameRead, NameRefused};
ghost use Rattle.lw_statements.specs.Faults.{IsMisfitCause, IsUnknownRegister};

use lw_base::{Arch, CellCause, CellFault, Loc, LocNames, is_numbered, reg_from_name};
use lw_text::{Token, TokenKind};
use std::alloc::Allocator;

/// Returns the index of the location that the token names, and inserts the name if the table does not have it. Fails at the token
/// if it is that of a ninth location.
pub(crate) fn location<A: Allocator + Copy>(
    token: &Token<'_>,
    locs: &mut LocNames<A>,
) -> Result<Loc, CellFault>
    requires { IsUnreservedName token.now.text.now }
    ensures { MatchResult result (λ loc. NameRead locs.old token.now loc locs.new) (NameRefused locs.old token.now) }
{
    let _known = locs.len();
    match locs.find_or_add(token.text)? {
        Some(loc) => Ok(loc),
        None => Err(CellFault {
            at: token.at,
            cause: CellCause::TooMany,
        }),
    }
}

/// Returns the fault of a token that fits no statement at its position: Register if it is `r` with digits that is no
/// register, and otherwise Form.
pub(crate) fn misfit(token: &Token<'_>) -> CellFault
    ensures place { result.at ≡ token.now.at }
    ensures cause { IsMisfitCause (IsUnknownRegister token.now.text.now) result.cause }
{
    if is_numbered(token.text.as_bytes()) && reg_from_name(Arch::Source, token.text).is_none() {
        return CellFault {
            at: token.at,
            cause: CellCause::Register,
        };
    }
    CellFault {
        at: token.at,
        cause: CellCause::Form,
    }
}

/// Returns the fault of a token at a position where a register may appear, and no location may: Register if it is a
/// name.
pub(crate) fn no_register(token: &Token<'_>) -> CellFault
    ensures place { result.at ≡ token.now.at }
    ensures cause { IsMisfitCause (IsName token.now.text.now ⊎ IsUnknownRegister token.now.text.now) result.cause }
{
    if let TokenKind::Name = token.kind {
        return CellFault {
            at: token.at,
            cause: CellCause::Register,
        };
    }
    misfit(token)
}

/// Returns whether the token at an index is this symbol or keyword.
pub(crate) fn is_token_at(tokens: &[Token<'_>], index: usize, sign: &str) -> bool
    ensures { IsTrue result ↔ slice_get (token_texts tokens.now) index ≡ Some sign.now }
{
    if tokens.len() <= index {
        return false;
    }
    tokens[index].text == sign
}
