//! Parsing the proposition of a condition, terminal by terminal up to the end of the text.
ghost use Rattle.std.specs.Prelude.{◌≡◌, ◌≢◌, ◌+◌, ◌≤◌, ◌==◌, ◌||◌, not, true, codes, List, [], ◌∷◌, length, map, filter, Some, None, MatchResult};
ghost use Rattle.lw_base.specs.Limits.{most_locations};
ghost use Rattle.lw_base.specs.Types.{TokenList};
ghost use Rattle.lw_base.specs.Formula.{Formula};
ghost use Rattle.lw_base.specs.Lists.{IsDuplicateFree};
ghost use Rattle.lw_text.specs.Propositions.{Terminal as TerminalSyntax, is_node};
ghost use Rattle.lw_text.specs.Sites.{HasRoomFor, with_sites};
ghost use Rattle.lw_text.specs.declared.fault.TextCause.TheVariants.{Memory};
ghost use Rattle.lw_text.specs.inner.ReaderStates.{state_of, next_state, place_of};
ghost use Rattle.lw_text.specs.inner.Terminals.{terminal_of};
ghost use Rattle.lw_text.specs.Conditions.{AtomSyntax, begins_token, IsTerminal, Terminals, sites_in, resolved};
ghost use Rattle.lw_text.specs.inner.Parsed.{ParsedTerminal, ParsedProposition, NoProposition};

use crate::cursor::Cursor;
use crate::fault::{Refusal, TextCause};
use crate::proposition_reader::PropositionReader;
use crate::terminal::Terminal;
use lw_base::{Arch, LocNames, MAX_NODES, MAX_THREADS, Prop};
use std::alloc::Allocator;

impl<'t, 'a> Cursor<'t, 'a> {
    ghost use Rattle.lw_text.specs.Views.{remaining_texts, Fails};
    ghost use Rattle.lw_text.specs.Failures.{FailsInProposition, first_place};

    /// Parses the proposition, which ends the text. Inserts the names of its locations into the table.
    pub(crate) fn parse_proposition<A: Allocator + Copy>(
        &mut self,
        alloc: A,
        arch: Arch,
        threads: usize,
        locs: &mut LocNames<A>,
    ) -> Result<Prop<A>, Refusal>
        requires threads { threads ≤ MAX_THREADS }
        requires once { IsDuplicateFree locs.old }
        ensures { MatchResult result (λ p. ParsedProposition arch threads (remaining_texts self.old) locs.old locs.new p)
            (λ f. f.cause ≢ Memory → NoProposition arch threads (remaining_texts self.old) locs.old
            × Fails self.old (λ ts rest cause. FailsInProposition arch threads rest cause first_place 0 locs.old ts) f) }
    {
        let mut reader = PropositionReader::new(alloc);
        let mut nodes = 0;
        'terminals: loop {
            if self.next == self.tokens.len() {
                let prop = reader.finish(self.refusal(TextCause::Unterminated));
                drop(reader);
                return prop;
            }
            match self.parse_next_terminal(arch, &mut reader, nodes, threads, locs) {
                Ok(terminal) => nodes += terminal.nodes(),
                Err(refusal) => {
                    drop(reader);
                    return Err(refusal);
                }
            }
        }
    }

    /// Parses the next terminal, after `nodes` nodes, passes it to the reader, and returns it. Inserts the name of its
    /// location into the table. Fails at the terminal if there are too many nodes, or if it is not possible there.
    fn parse_next_terminal<A: Allocator + Copy>(
        &mut self,
        arch: Arch,
        reader: &mut PropositionReader<A>,
        nodes: usize,
        threads: usize,
        locs: &mut LocNames<A>,
    ) -> Result<Terminal, Refusal>
        requires threads { threads ≤ MAX_THREADS }
        requires once { IsDuplicateFree locs.old }
        requires some { remaining_texts self.old ≢ [] }
        ensures { MatchResult result (λ s. ParsedTerminal arch threads self.old self.new locs.old locs.new s
            × (next_state (state_of reader.old) (terminal_of s) ≡ Some (state_of reader.new))
            × (length locs.new ≤ most_locations)
            × ((not (nodes == MAX_NODES) ||
            (begins_token (codes "(") (remaining_texts self.old) || begins_token (codes ")") (remaining_texts self.old))) ≡ true))
            (λ f. f.cause ≢ Memory
            → ((s : TerminalSyntax AtomSyntax) (rest : TokenList)
            → IsTerminal arch threads (remaining_texts self.old) s rest
            → next_state (state_of reader.old) (resolved (with_sites locs.old (sites_in (s ∷ []))) s) ≢ None
            → HasRoomFor locs.old (sites_in (s ∷ []))
            → nodes + length (filter is_node (s ∷ [])) ≤ MAX_NODES → ⊥)
            × Fails self.old (λ ts rest cause. FailsInProposition arch threads rest cause (place_of (state_of reader.old)) nodes locs.old ts) f) }
    {
        let misfit = self.refusal(TextCause::Condition);
        if !self.has_room(nodes) {
            return Err(misfit);
        }
        let terminal = self.parse_terminal(arch, reader.wants_part(), threads, locs)?;
        if !reader.take(terminal)? {
            return Err(misfit);
        }
        let _known = locs.len();
        Ok(terminal)
    }

    /// Returns whether the next terminal may follow `nodes` nodes: there is room for one more, or it is a parenthesis, which
    /// makes no node.
    fn has_room(&self, nodes: usize) -> bool
        ensures { result ≡ (not (nodes == MAX_NODES) ||
            (begins_token (codes "(") (remaining_texts self.now) || begins_token (codes ")") (remaining_texts self.now))) }
    {
        nodes != MAX_NODES || self.is_next("(") || self.is_next(")")
    }
}
