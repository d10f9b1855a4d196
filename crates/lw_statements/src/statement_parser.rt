//! Parsing a statement by the forms of its language.
ghost use Rattle.std.specs.Prelude.{◌≡◌, ◌≢◌, ◌↔◌, ℕ, suc, ◌+◌, ◌<◌, ◌≤◌, ◌^◌, List, [], ◌∷◌, ◌++◌, length, take, true};
ghost use Rattle.std.specs.Prelude.{MatchBool, MatchOption, MatchResult, IfSome, slice_get, IsTrue, Contains};
ghost use Rattle.std.specs.Str.{bytes_eq};
ghost use Rattle.lw_base.specs.Limits.{most_locations};
ghost use Rattle.lw_base.specs.Names.{IsUnreservedName};
ghost use Rattle.lw_base.specs.NoParse.{HoldsOfNothing};
ghost use Rattle.lw_base.specs.Registers.{IsRegisterName, lowercase_if_x86};
ghost use Rattle.lw_base.specs.declared.operand.Operand.{Operand};
ghost use Rattle.lw_text.specs.Spans.{token_texts};
ghost use Rattle.lw_text.specs.Tokens.{IsNumber};
ghost use Rattle.lw_statements.specs.declared.slot.Slot.{Slot};
ghost use Rattle.lw_statements.specs.declared.slot.Slot.TheVariants.{Location};
ghost use Rattle.lw_statements.specs.Operands.{IsOperand};
ghost use Rattle.lw_statements.specs.inner.Tokens.{IsOverflowName, AllEndBefore};
ghost use Rattle.lw_statements.specs.Grammars.{CanBegin, IsBeforeRegister};
ghost use Rattle.lw_statements.specs.Spellings.{grammar_of, SlotValue, Gives, Filling, Fills};
ghost use Rattle.lw_statements.specs.Bindings.{CanFill, BeginsWith};
ghost use Rattle.lw_statements.specs.Bindings as bindings;
ghost use Rattle.lw_statements.specs.Bindings.{bind_slot, bindings_of, draft_of, IsNameAmong, IsDrafted, IsNotDrafted, IsOverflowSlot, IsAcceptedLength, IsLongestAccepted, IsSlotAfter, IsLocationSlot, IsRegisterSlot, HasNext, HasSlotAfter, IsFirstRejected, IsSpelling};
ghost use Rattle.lw_statements.specs.inner.Reading.{StatementRead, StatementFaultIsTrue, StatementRefused};

use crate::draft::{Draft, Operands};
use crate::phrase::Phrase;
use crate::slot::Slot;
use crate::statement_reader::StatementReader;
use crate::token::{location, misfit, no_register};
use lw_base::{
    Arch, CellCause, CellFault, Loc, LocNames, MAX_LOCATIONS, Operand, Reg, Word,
    eq_ignore_ascii_case, is_unreserved_name, reg_from_name,
};
use lw_text::Token;
use std::alloc::Allocator;

/// What the tokens of a statement bind: its operands, and the indices of its location's and its label's tokens.
#[derive(Clone, Copy)]
pub(crate) struct SlotBindings {
    pub(crate) operands: Operands,
    pub(crate) name: Option<usize>,
    pub(crate) label: Option<usize>,
}

/// Returns the bindings of no tokens: no operand, no name and no label.
fn no_bindings() -> SlotBindings
    ensures { result ≡ bindings.no_bindings }
{
    SlotBindings {
        operands: Operands {
            reg: None,
            other: None,
            val: None,
            num: None,
            loc: None,
            to: None,
        },
        name: None,
        label: None,
    }
}

/// Binds a token as the first register; the register that was the first becomes the second, since slots are bound from the last to the
/// first. Returns `None` if the token is no register.
fn with_register(found: SlotBindings, arch: Arch, token: &Token<'_>) -> Option<SlotBindings>
    ensures { MatchOption result ((r : ℕ) → IsRegisterName arch token.now.text.now r → ⊥)
        (λ all. (r : ℕ) × IsRegisterName arch token.now.text.now r × (all ≡ bindings.with_register r found)) }
{
    let reg = reg_from_name(arch, token.text)?;
    let operands = Operands {
        reg: Some(reg),
        other: found.operands.reg,
        ..found.operands
    };
    Some(SlotBindings { operands, ..found })
}

/// Binds a token as a register or number. Returns `None` if the token is neither.
fn with_value(found: SlotBindings, arch: Arch, token: &Token<'_>) -> Option<SlotBindings>
    ensures { MatchOption result ((v : Operand) → IsOperand arch token.now.text.now v → ⊥)
        (λ all. (v : Operand) × IsOperand arch token.now.text.now v × (all ≡ bindings.with_value v found)) }
{
    let val = operand(arch, token)?;
    let operands = Operands {
        val: Some(val),
        ..found.operands
    };
    Some(SlotBindings { operands, ..found })
}

/// Binds a token as a number. Returns `None` if the token is none.
fn with_number(found: SlotBindings, token: &Token<'_>) -> Option<SlotBindings>
    ensures { MatchOption result ((n : ℕ) → IsNumber token.now.text.now n → ⊥)
        (λ all. (n : ℕ) × IsNumber token.now.text.now n × (all ≡ bindings.with_number n found)) }
{
    let num = token.number()?;
    let operands = Operands {
        num: Some(num),
        ..found.operands
    };
    Some(SlotBindings { operands, ..found })
}

/// Binds the token at this index as its slot demands. Returns `None` if it does not fit the slot.
fn with_token<L: StatementReader>(
    found: SlotBindings,
    slot: Slot<L::Keyword>,
    token: &Token<'_>,
    index: usize,
) -> Option<SlotBindings>
    ensures { MatchOption result
        ((g : SlotValue slot) → Gives L.spelling token.now.text.now slot g → ⊥)
        (λ all. (g : SlotValue slot) × Gives L.spelling token.now.text.now slot g × (all ≡ bind_slot index slot g found)) }
{
    match slot {
        Slot::Keyword(keyword) => is_keyword_of::<L>(keyword, token).then_some(found),
        Slot::Register => with_register(found, L::arch(), token),
        Slot::Location => with_name(found, token, index),
        Slot::Value => with_value(found, L::arch(), token),
        Slot::Number => with_number(found, token),
        Slot::Label => with_label(found, token, index),
    }
}

/// Records this token's index as that of the location. Returns `None` if the token cannot name one.
fn with_name(found: SlotBindings, token: &Token<'_>, index: usize) -> Option<SlotBindings>
    ensures { MatchOption result (IsUnreservedName token.now.text.now → ⊥)
        (λ all. IsUnreservedName token.now.text.now × (all ≡ bindings.with_name_at index found)) }
{
    if !is_unreserved_name(token.text) {
        return None;
    }
    Some(SlotBindings {
        name: Some(index),
        ..found
    })
}

/// Records this token's index as that of the label. Returns `None` if the token cannot name one.
fn with_label(found: SlotBindings, token: &Token<'_>, index: usize) -> Option<SlotBindings>
    ensures { MatchOption result (IsUnreservedName token.now.text.now → ⊥)
        (λ all. IsUnreservedName token.now.text.now × (all ≡ bindings.with_label_at index found)) }
{
    if !is_unreserved_name(token.text) {
        return None;
    }
    Some(SlotBindings {
        label: Some(index),
        ..found
    })
}

/// Returns whether the token is this keyword. The case of letters is ignored in x86.
fn is_keyword_of<L: StatementReader>(keyword: L::Keyword, token: &Token<'_>) -> bool
    ensures { result ≡ bytes_eq
        (lowercase_if_x86 L.spelling.language.arch (L.spelling.text_of keyword))
        (lowercase_if_x86 L.spelling.language.arch token.now.text.now) }
{
    let text = L::text(keyword);
    match L::arch() {
        Arch::Source => text == token.text,
        Arch::X86 => eq_ignore_ascii_case(text, token.text),
    }
}

/// Returns the register or the number that the token is, or `None` if it is neither.
fn operand(arch: Arch, token: &Token<'_>) -> Option<Operand>
    ensures { MatchOption result ((v : Operand) → IsOperand arch token.now.text.now v → ⊥) (IsOperand arch token.now.text.now) }
{
    if let Some(word) = token.number() {
        return Some(Operand::Number(word));
    }
    match reg_from_name(arch, token.text) {
        Some(reg) => Some(Operand::Register(reg)),
        None => None,
    }
}

/// Binds the token at this index in `found`, and returns whether it fits the slot. If not, `found` is unchanged.
fn add_token<L: StatementReader>(
    found: &mut SlotBindings,
    slot: Slot<L::Keyword>,
    token: &Token<'_>,
    index: usize,
) -> bool
    ensures { MatchBool result
        ((g : SlotValue slot) × Gives L.spelling token.now.text.now slot g × (found.new ≡ bind_slot index slot g found.old))
        ((g : SlotValue slot) → Gives L.spelling token.now.text.now slot g → ⊥) }
{
    match with_token::<L>(*found, slot, token, index) {
        Some(all) => {
            *found = all;
            true
        }
        None => false,
    }
}

/// Binds the tokens to these slots in `found`, which has no bindings; the first token has this index. Returns whether there is one
/// fitting token for each slot. If not, `found` means nothing.
/// A keyword is compared before the tokens after it are read, since most forms differ from the tokens in a keyword.
fn read_slots<L: StatementReader>(
    slots: &[Slot<L::Keyword>],
    tokens: &[Token<'_>],
    index: usize,
    found: &mut SlotBindings,
) -> bool
    requires bounded { index + length slots.now < 2 ^ 64 }
    requires nothing { found.old ≡ bindings.no_bindings }
    ensures { MatchBool result
        ((f : Filling slots.now) × Fills L.spelling (token_texts tokens.now) slots.now f × (found.new ≡ bindings_of index slots.now f))
        ((f : Filling slots.now) → Fills L.spelling (token_texts tokens.now) slots.now f → ⊥) }
{
    let Some((slot, slots)) = slots.split_first() else {
        return tokens.is_empty();
    };
    let Some((token, tokens)) = tokens.split_first() else {
        return false;
    };
    if let Slot::Keyword(keyword) = *slot {
        if !is_keyword_of::<L>(keyword, token) {
            return false;
        }
        return read_slots::<L>(slots, tokens, index + 1, found);
    }
    if !read_slots::<L>(slots, tokens, index + 1, found) {
        return false;
    }
    add_token::<L>(found, *slot, token, index)
}

/// Binds the tokens to all slots of a form. Returns `None` unless there is one fitting token for each slot. The numbers are
/// compared first, since most forms have more slots or fewer.
fn read_as<L: StatementReader>(
    slots: &[Slot<L::Keyword>],
    tokens: &[Token<'_>],
) -> Option<SlotBindings>
    ensures { MatchOption result
        ((f : Filling slots.now) → Fills L.spelling (token_texts tokens.now) slots.now f → ⊥)
        (λ found. (f : Filling slots.now) × Fills L.spelling (token_texts tokens.now) slots.now f
        × (found ≡ bindings_of 0 slots.now f)) }
{
    if slots.len() != tokens.len() {
        return None;
    }
    let mut found = no_bindings();
    if !read_slots::<L>(slots, tokens, 0, &mut found) {
        return None;
    }
    Some(found)
}

/// A form whose slots some tokens fill, and their bindings.
#[derive(Clone, Copy)]
struct Filled<F> {
    form: F,
    found: SlotBindings,
}

/// Returns the form whose slots the tokens fill, and their bindings. Returns `None` if there is no such form.
fn read_form<L: StatementReader>(tokens: &[Token<'_>]) -> Option<Filled<L::Form>>
    ensures { MatchOption result
        ((form : L.Form) (f : Filling (L.spelling.slots_of form)) → Contains L.spelling.forms form
        → Fills L.spelling (token_texts tokens.now) (L.spelling.slots_of form) f → ⊥)
        (λ filled. (f : Filling (L.spelling.slots_of filled.form)) × Contains L.spelling.forms filled.form
        × Fills L.spelling (token_texts tokens.now) (L.spelling.slots_of filled.form) f
        × (filled.found ≡ bindings_of 0 (L.spelling.slots_of filled.form) f)) }
{
    for form in L::forms() {
        if let Some(found) = read_as::<L>(L::slots(*form), tokens) {
            return Some(Filled { form: *form, found });
        }
    }
    None
}

/// Parses the statement of a phrase that is not empty. Inserts the name of the statement's location into the table.
pub(crate) fn read_statement<L: StatementReader, A: Allocator + Copy>(
    phrase: &Phrase<'_, '_>,
    locs: &mut LocNames<A>,
) -> Result<Draft<L::Form>, CellFault>
    requires lawful { IsSpelling L.spelling L.statement_of }
    ensures { MatchResult result
        (λ draft. StatementRead (grammar_of L.spelling) (draft_of L.spelling) (token_texts phrase.now.tokens.now) locs.old draft locs.new)
        (StatementRefused (grammar_of L.spelling) locs.old phrase.now) }
{
    let _known = locs.len();
    match read_form::<L>(phrase.tokens) {
        Some(filled) => draft(filled.form, filled.found, phrase.tokens, locs),
        None => Err(refusal::<L, A>(phrase, locs)),
    }
}

/// Returns the draft of a statement of this form with these bindings of its tokens. Inserts the name of its location into
/// the table. Fails if that is a ninth one.
fn draft<F: Copy + Drop, A: Allocator + Copy>(
    form: F,
    found: SlotBindings,
    tokens: &[Token<'_>],
    locs: &mut LocNames<A>,
) -> Result<Draft<F>, CellFault>
    requires { IsNameAmong found tokens.now }
    ensures { MatchResult result (λ draft. IsDrafted form found tokens.now locs.old draft locs.new) (IsNotDrafted found tokens.now locs.old) }
{
    let Some(index) = found.name else {
        return Ok(draft_on(form, found, None));
    };
    let loc = location(&tokens[index], locs)?;
    Ok(draft_on(form, found, Some(loc)))
}

/// Returns the draft of a statement of this form, on this location, if it has one.
fn draft_on<F>(form: F, found: SlotBindings, loc: Option<Loc>) -> Draft<F>
    ensures { result ≡ bindings.draft_on form loc found }
{
    Draft {
        form,
        operands: Operands {
            loc,
            to: None,
            ..found.operands
        },
        label: found.label,
    }
}

/// Returns why tokens that are no statement are rejected: the token that names a ninth location where one may
/// appear, or otherwise the first token after which no statement is possible.
fn refusal<L: StatementReader, A: Allocator>(
    phrase: &Phrase<'_, '_>,
    locs: &LocNames<A>,
) -> CellFault
    requires lawful { IsSpelling L.spelling L.statement_of }
    requires none { HoldsOfNothing ((grammar_of L.spelling).says (token_texts phrase.now.tokens.now)) }
    ensures { StatementFaultIsTrue (grammar_of L.spelling) phrase.now.tokens.now phrase.now.end locs.now result.at result.cause
        × ((len : ℕ) → AllEndBefore len phrase.now → result.at ≤ len) }
{
    let _known = locs.len();
    for form in L::forms() {
        let slots = L::slots(*form);
        let front = accepted_prefix_len::<L>(slots, phrase.tokens);
        if let Some(index) = overflow_token(slots, phrase.tokens, front, locs) {
            return CellFault {
                at: phrase.tokens[index].at,
                cause: CellCause::TooMany,
            };
        }
    }
    first_rejected::<L>(phrase)
}

/// Returns the index of the first token that names a ninth location, among the first `front` tokens, which fit these
/// slots. Returns `None` if none of them does.
fn overflow_token<W: Copy + Drop, A: Allocator>(
    slots: &[Slot<W>],
    tokens: &[Token<'_>],
    front: usize,
    locs: &LocNames<A>,
) -> Option<usize>
    requires { (front ≤ length slots.now) × (front ≤ length tokens.now) }
    ensures { MatchOption result (HoldsOfNothing (IsOverflowSlot slots.now tokens.now front locs.now))
        (IsOverflowSlot slots.now tokens.now front locs.now) }
{
    for index in 0..front {
        if overflows(slots[index], &tokens[index], locs) {
            return Some(index);
        }
    }
    None
}

/// Returns whether the slot takes a location, and the token names one that the table does not have and has no room for.
fn overflows<W: Copy + Drop, A: Allocator>(
    slot: Slot<W>,
    token: &Token<'_>,
    locs: &LocNames<A>,
) -> bool
    ensures { IsTrue result ↔ ((slot ≡ Location) × (length locs.now ≡ most_locations) × (Contains locs.now token.now.text.now → ⊥)) }
{
    if !takes_location(slot) {
        return false;
    }
    lacks_room_for(locs, token)
}

/// Returns whether the table is full and does not have the token's text.
fn lacks_room_for<A: Allocator>(locs: &LocNames<A>, token: &Token<'_>) -> bool
    ensures { IsTrue result ↔ ((length locs.now ≡ most_locations) × (Contains locs.now token.now.text.now → ⊥)) }
{
    if locs.len() != MAX_LOCATIONS {
        return false;
    }
    locs.find(token.text).is_none()
}

/// Returns whether the token fits the slot.
fn fits_slot<L: StatementReader>(slot: Slot<L::Keyword>, token: &Token<'_>) -> bool
    ensures { IsTrue result ↔ CanFill L.spelling (token.now.text.now ∷ []) (slot ∷ []) }
{
    with_token::<L>(no_bindings(), slot, token, 0).is_some()
}

/// Returns the number of tokens that fit these slots, one each, before the first that does not.
fn accepted_prefix_len<L: StatementReader>(
    slots: &[Slot<L::Keyword>],
    tokens: &[Token<'_>],
) -> usize
    ensures { IsAcceptedLength L.spelling (token_texts tokens.now) slots.now result }
{
    let _len = tokens.len();
    let Some((slot, slots)) = slots.split_first() else {
        return 0;
    };
    let Some((token, tokens)) = tokens.split_first() else {
        return 0;
    };
    if !fits_slot::<L>(*slot, token) {
        return 0;
    }
    1 + accepted_prefix_len::<L>(slots, tokens)
}

/// Returns the length of the longest prefix of the tokens that can begin a statement of some form.
fn longest_accepted_prefix<L: StatementReader>(tokens: &[Token<'_>]) -> usize
    ensures longest { IsLongestAccepted L.spelling (token_texts tokens.now) result }
    ensures within { result ≤ length tokens.now }
{
    let mut longest = 0;
    for form in L::forms() {
        longest = longest.max(accepted_prefix_len::<L>(L::slots(*form), tokens));
    }
    longest
}

/// Returns the fault of the first token after which no statement is possible, or of the cell's end.
pub(crate) fn first_rejected<L: StatementReader>(phrase: &Phrase<'_, '_>) -> CellFault
    requires lawful { IsSpelling L.spelling L.statement_of }
    ensures { IsFirstRejected L.spelling phrase.now.tokens.now phrase.now.end result }
{
    let front = longest_accepted_prefix::<L>(phrase.tokens);
    let Some(token) = phrase.tokens.get(front) else {
        return CellFault {
            at: phrase.end,
            cause: CellCause::Form,
        };
    };
    if wants_register::<L>(&phrase.tokens[..front]) {
        return no_register(token);
    }
    misfit(token)
}

/// Returns whether a register may follow the tokens, and no location may.
fn wants_register<L: StatementReader>(tokens: &[Token<'_>]) -> bool
    requires lawful { IsSpelling L.spelling L.statement_of }
    ensures { IsTrue result ↔ IsBeforeRegister (grammar_of L.spelling) (token_texts tokens.now) }
{
    if may_be_location::<L>(tokens) {
        return false;
    }
    may_be_register::<L>(tokens)
}

/// Returns whether some form has a location after the tokens.
fn may_be_location<L: StatementReader>(tokens: &[Token<'_>]) -> bool
    ensures { IsTrue result ↔ HasSlotAfter L.spelling IsLocationSlot (token_texts tokens.now) }
{
    for form in L::forms() {
        if location_next::<L>(L::slots(*form), tokens) {
            return true;
        }
    }
    false
}

/// Returns whether some form has a register after the tokens.
fn may_be_register<L: StatementReader>(tokens: &[Token<'_>]) -> bool
    ensures { IsTrue result ↔ HasSlotAfter L.spelling IsRegisterSlot (token_texts tokens.now) }
{
    for form in L::forms() {
        if register_next::<L>(L::slots(*form), tokens) {
            return true;
        }
    }
    false
}

/// Returns whether a slot that takes a location follows those that accept the tokens.
fn location_next<L: StatementReader>(slots: &[Slot<L::Keyword>], tokens: &[Token<'_>]) -> bool
    ensures { IsTrue result ↔ HasNext L.spelling IsLocationSlot (token_texts tokens.now) slots.now }
{
    match slot_after::<L>(slots, tokens) {
        Some(slot) => takes_location(slot),
        None => false,
    }
}

/// Returns whether a slot that takes a register follows those that accept the tokens.
fn register_next<L: StatementReader>(slots: &[Slot<L::Keyword>], tokens: &[Token<'_>]) -> bool
    ensures { IsTrue result ↔ HasNext L.spelling IsRegisterSlot (token_texts tokens.now) slots.now }
{
    match slot_after::<L>(slots, tokens) {
        Some(slot) => takes_register(slot),
        None => false,
    }
}

/// Returns whether the slot takes a location.
fn takes_location<W: Copy + Drop>(slot: Slot<W>) -> bool
    ensures { IsTrue result ↔ IsLocationSlot slot }
{
    match slot {
        Slot::Location => true,
        _ => false,
    }
}

/// Returns whether the slot takes a register.
fn takes_register<W: Copy + Drop>(slot: Slot<W>) -> bool
    ensures { IsTrue result ↔ IsRegisterSlot slot }
{
    match slot {
        Slot::Register => true,
        Slot::Value => true,
        _ => false,
    }
}

/// Returns the slot after those that accept the tokens, one each. Returns `None` if a slot does not accept its token,
/// or no slot is left.
fn slot_after<L: StatementReader>(
    slots: &[Slot<L::Keyword>],
    tokens: &[Token<'_>],
) -> Option<Slot<L::Keyword>>
    ensures { MatchOption result (HoldsOfNothing (IsSlotAfter L.spelling (token_texts tokens.now) slots.now))
        (IsSlotAfter L.spelling (token_texts tokens.now) slots.now) }
{
    let Some((slot, slots)) = slots.split_first() else {
        return None;
    };
    let Some((token, tokens)) = tokens.split_first() else {
        return Some(*slot);
    };
    if !fits_slot::<L>(*slot, token) {
        return None;
    }
    slot_after::<L>(slots, tokens)
}

/// Returns whether a statement can begin with the token.
pub(crate) fn can_begin<L: StatementReader>(token: &Token<'_>) -> bool
    ensures { IsTrue result ↔ CanBegin (grammar_of L.spelling) token.now.text.now }
{
    for form in L::forms() {
        if begins_with::<L>(L::slots(*form), token) {
            return true;
        }
    }
    false
}

/// Returns whether the token fits the first of these slots.
fn begins_with<L: StatementReader>(slots: &[Slot<L::Keyword>], token: &Token<'_>) -> bool
    ensures { IsTrue result ↔ BeginsWith L.spelling slots.now token.now.text.now }
{
    match slots.split_first() {
        Some((slot, _)) => fits_slot::<L>(*slot, token),
        None => false,
    }
}
