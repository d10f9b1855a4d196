//! Reading the labels of a cell.
ghost use Rattle.std.specs.Prelude.{MatchResult};
ghost use Rattle.lw_statements.specs.inner.Reading.{LabelsTaken, LabelsRefused};

use crate::token::{is_token_at, misfit};
use lw_base::{CellCause, CellFault, is_unreserved_name};
use lw_text::Token;
use std::alloc::Allocator;
use std::collections::BTreeMap;

/// Reads the labels at the start of a cell and adds them to those of the thread, with the statement of the index `to` as
/// their target. Returns the number of tokens of the labels, each with its `:`. Fails at a token before a `:` that is no name,
/// or a label that the thread has already.
pub(crate) fn read_labels<'a, A: Allocator + Copy>(
    tokens: &[Token<'a>],
    to: usize,
    labels: &mut BTreeMap<&'a str, usize, A>,
) -> Result<usize, CellFault>
    ensures { MatchResult result (λ next. LabelsTaken tokens.now to labels.old next labels.new) (LabelsRefused tokens.now labels.old) }
{
    let mut next = 0;
    while is_token_at(tokens, next + 1, ":") {
        let token = tokens[next];
        if !is_unreserved_name(token.text) {
            return Err(misfit(&token));
        }
        if labels.insert(token.text, to)?.is_some() {
            return Err(CellFault {
                at: token.at,
                cause: CellCause::LabelTwice,
            });
        }
        next += 2;
    }
    Ok(next)
}
