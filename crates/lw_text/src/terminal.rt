//! The terminals of a proposition's grammar: parentheses, connectives and atoms.
ghost use Rattle.std.specs.Prelude.{◌≡◌, if◌then◌else◌, ◌≢◌, ℕ, ◌+◌, ◌≤◌, not, true, false, [], ◌∷◌, IfSome, IfNone, None, MatchResult};
ghost use Rattle.std.specs.List.{AllByRecursion};
ghost use Rattle.lw_base.specs.Types.{NameTable, TokenList};
ghost use Rattle.lw_base.specs.Propositions.{formula_of};
ghost use Rattle.lw_text.specs.Sites.{HasRoomFor, SiteSyntax};
ghost use Rattle.lw_text.specs.Propositions.{is_node, Terminal as TerminalSyntax, Atom as Claims};
ghost use Rattle.lw_text.specs.inner.Terminals.{atom_formula, terminal_of};
ghost use Rattle.lw_text.specs.declared.fault.TextCause.TheVariants.{Memory};
ghost use Rattle.lw_text.specs.inner.ReaderStates.{begins_part};
ghost use Rattle.lw_text.specs.Conditions.{AtomSyntax, Holds, IsTerminal, sites_in};
ghost use Rattle.lw_text.specs.inner.Resolved.{site_by_name, named_atom, IsIn, AtomIn};
ghost use Rattle.lw_text.specs.inner.Parsed.{ParsedTerminal};
ghost use Rattle.lw_text.specs.inner.Resolved as resolved_of;

use crate::cursor::Cursor;
use crate::fault::{Refusal, TextCause};
use crate::site::Site;
use lw_base::{Arch, Cpu, Loc, LocNames, MAX_THREADS, Prop, Reg, Word};
use std::alloc::Allocator;

/// An atom: a location, by its index, or a thread's register has this word; or true, or false.
#[derive(Clone, Copy)]
pub(crate) enum Atom {
    Always,
    Never,
    WordIs(Loc, Word),
    RegIs(Cpu, Reg, Word),
}

impl Atom {
    /// Returns the atom as a proposition.
    pub(crate) fn prop<A: Allocator>(self) -> Prop<A>
        ensures { formula_of result ≡ atom_formula self }
    {
        match self {
            Atom::Always => Prop::Always,
            Atom::Never => Prop::Never,
            Atom::WordIs(loc, word) => Prop::WordIs(loc, word),
            Atom::RegIs(cpu, reg, word) => Prop::RegIs(cpu, reg, word),
        }
    }
}

/// A parenthesis, a connective or an atom.
#[derive(Clone, Copy)]
pub(crate) enum Terminal {
    Open,
    Close,
    Negation,
    Conjunction,
    Disjunction,
    Atom(Atom),
}

impl Terminal {
    /// Returns the number of nodes that a terminal makes, which is 0 for a parenthesis and 1 otherwise.
    pub(crate) fn nodes(&self) -> usize
        ensures { result ≡ (if is_node (terminal_of self.now) then 1 else 0) }
    {
        match self {
            Terminal::Open | Terminal::Close => 0,
            _ => 1,
        }
    }
}

impl<'t, 'a> Cursor<'t, 'a> {
    ghost use Rattle.lw_text.specs.Views.{remaining_texts, Fails};
    ghost use Rattle.lw_text.specs.Failures.{IfFirst, FailsInTerminal, opening_words};

    /// Parses a terminal: one that begins a part if `part` is set, and one of the others otherwise. Inserts the name
    /// of its location into the table.
    pub(crate) fn parse_terminal<A: Allocator + Copy>(
        &mut self,
        arch: Arch,
        part: bool,
        threads: usize,
        locs: &mut LocNames<A>,
    ) -> Result<Terminal, Refusal>
        requires { threads ≤ MAX_THREADS }
        ensures { MatchResult result
            (λ s. ParsedTerminal arch threads self.old self.new locs.old locs.new s × (begins_part (terminal_of s) ≡ part))
            (λ f. f.cause ≢ Memory
            → ((s : TerminalSyntax AtomSyntax) (rest : TokenList)
            → IsTerminal arch threads (remaining_texts self.old) s rest → begins_part s ≡ part
            → HasRoomFor locs.old (sites_in (s ∷ [])) → ⊥)
            × Fails self.old (FailsInTerminal arch threads part locs.old) f) }
    {
        if part {
            self.parse_opening(arch, threads, locs)
        } else {
            self.parse_joint()
        }
    }

    /// Parses a terminal that begins a part: `(`, a negation or an atom.
    fn parse_opening<A: Allocator + Copy>(
        &mut self,
        arch: Arch,
        threads: usize,
        locs: &mut LocNames<A>,
    ) -> Result<Terminal, Refusal>
        requires { threads ≤ MAX_THREADS }
        ensures { MatchResult result
            (λ s. ParsedTerminal arch threads self.old self.new locs.old locs.new s × (begins_part (terminal_of s) ≡ true))
            (λ f. f.cause ≢ Memory
            → ((s : TerminalSyntax AtomSyntax) (rest : TokenList)
            → IsTerminal arch threads (remaining_texts self.old) s rest → begins_part s ≡ true
            → HasRoomFor locs.old (sites_in (s ∷ [])) → ⊥)
            × Fails self.old (FailsInTerminal arch threads true locs.old) f) }
    {
        if let Some(terminal) = self.parse_opening_keyword() {
            return Ok(terminal);
        }
        let site = self.parse_site(arch, locs, Some(threads), TextCause::Condition)?;
        let word = self.parse_value(TextCause::Condition)?;
        Ok(Terminal::Atom(atom_at(site, word)))
    }

    /// Parses a keyword or a sign that begins a part. Returns `None`, and does not advance, if none is next.
    fn parse_opening_keyword(&mut self) -> Option<Terminal>
        ensures found { IfSome result (λ s. (arch : Arch) (threads : ℕ) (names : NameTable)
            → ParsedTerminal arch threads self.old self.new names names s) }
        ensures none { IfNone result ((arch : Arch) (threads : ℕ) (s : TerminalSyntax AtomSyntax) (rest : TokenList)
            → IsTerminal arch threads (remaining_texts self.old) s rest → begins_part s ≡ true
            → (site : SiteSyntax) × (n : ℕ) × (s ≡ Claims (Holds site n))) }
        ensures part { IfSome result (λ s. begins_part (terminal_of s) ≡ true) }
        ensures kept { result ≡ None → self.new ≡ self.old }
        ensures words { IfNone result (IfFirst (λ t. AllByRecursion (λ w. t ≢ w) opening_words) (remaining_texts self.old)) }
    {
        if self.accept("(") {
            return Some(Terminal::Open);
        }
        if self.accept("~") {
            return Some(Terminal::Negation);
        }
        if self.accept("not") {
            return Some(Terminal::Negation);
        }
        if self.accept("true") {
            return Some(Terminal::Atom(Atom::Always));
        }
        if self.accept("false") {
            return Some(Terminal::Atom(Atom::Never));
        }
        None
    }

    /// Parses a terminal that follows a part: a `)`, a `/\` or a `\/`.
    fn parse_joint(&mut self) -> Result<Terminal, Refusal>
        ensures { MatchResult result (λ s. ((arch : Arch) (threads : ℕ) (names : NameTable)
            → ParsedTerminal arch threads self.old self.new names names s) × (begins_part (terminal_of s) ≡ false))
            (λ f. ((arch : Arch) (threads : ℕ) (s : TerminalSyntax AtomSyntax) (rest : TokenList)
            → IsTerminal arch threads (remaining_texts self.old) s rest → begins_part s ≡ false → ⊥)
            × ((arch : Arch) (threads : ℕ) (names : NameTable) → Fails self.old (FailsInTerminal arch threads false names) f)) }
    {
        if self.accept(")") {
            return Ok(Terminal::Close);
        }
        if self.accept("/\\") {
            return Ok(Terminal::Conjunction);
        }
        if self.accept("\\/") {
            return Ok(Terminal::Disjunction);
        }
        Err(self.refusal(TextCause::Condition))
    }
}

/// Returns the atom `site=word`, which is true if the register or location has this word.
fn atom_at(site: Site, word: Word) -> Atom
    requires { resolved_of.thread_exists MAX_THREADS site ≡ true }
    ensures syntax { (names : NameTable) → named_atom names result ≡ Holds (site_by_name names site) word }
    ensures within { (names : NameTable) → IsIn names site → AtomIn names result }
{
    match site {
        Site::Location(loc) => Atom::WordIs(loc, word),
        Site::Register(thread, reg) => Atom::RegIs(Cpu::new(thread as u8).unwrap(), reg, word),
    }
}
