//! The question of a test, its end: the list of names, and the condition, which is a quantifier and a proposition.
ghost use Rattle.std.specs.Prelude.{◌≡◌, ◌≢◌, ◌+◌, ◌≤◌, List, MatchResult};
ghost use Rattle.lw_base.specs.NoParse.{ParsesNothing};
ghost use Rattle.lw_base.specs.Formula.{Formula};
ghost use Rattle.lw_base.specs.Lists.{IsDuplicateFree};
ghost use Rattle.lw_base.specs.declared.head.Quant.{Quant as QuantSyntax};
ghost use Rattle.lw_text.specs.Propositions.{Terminal as TerminalSyntax};
ghost use Rattle.lw_text.specs.Sites.{with_sites, SiteSyntax};
ghost use Rattle.lw_text.specs.declared.fault.TextCause.TheVariants.{Memory};
ghost use Rattle.lw_text.specs.Conditions.{AtomSyntax, ParsesQuestion, Quantified};
ghost use Rattle.lw_text.specs.inner.Parsed.{ParsedQuestion, NoQuestion};

use crate::cursor::Cursor;
use crate::fault::{Refusal, TextCause};
use crate::site::Site;
use lw_base::{Arch, LocNames, MAX_THREADS, Prop, Quant, Sequence};
use std::alloc::Allocator;

impl<'t, 'a> Cursor<'t, 'a> {
    ghost use Rattle.lw_text.specs.Views.{remaining_texts, AdvancesTo, Fails};
    ghost use Rattle.lw_text.specs.Failures.{FailsInQuestion, FailsInQuantifier};

    /// Parses the list of names, the quantifier and the proposition, which ends the text. Inserts the names of the
    /// locations in the list and the proposition into the table.
    pub(crate) fn parse_question<A: Allocator + Copy>(
        &mut self,
        alloc: A,
        arch: Arch,
        threads: usize,
        locs: &mut LocNames<A>,
    ) -> Result<(Sequence<Site, A>, Quant, Prop<A>), Refusal>
        requires threads { threads ≤ MAX_THREADS }
        requires once { IsDuplicateFree locs.old }
        ensures { MatchResult result
            (λ x. ParsedQuestion arch threads (remaining_texts self.old) locs.old locs.new x.0 x.1 x.2)
            (λ f. f.cause ≢ Memory → NoQuestion arch threads (remaining_texts self.old) locs.old
            × Fails self.old (FailsInQuestion arch threads locs.old) f) }
    {
        let listed = self.parse_listed(alloc, arch, threads, locs)?;
        let quant = self.parse_quantifier()?;
        match self.parse_proposition(alloc, arch, threads, locs) {
            Ok(prop) => Ok((listed, quant, prop)),
            Err(refusal) => Err(refusal),
        }
    }

    /// Parses the quantifier: `exists`, `~exists` or `forall`.
    fn parse_quantifier(&mut self) -> Result<Quant, Refusal>
        ensures { MatchResult result (λ q. Quantified (remaining_texts self.old) q (remaining_texts self.new) × AdvancesTo self.old self.new)
            (λ f. ParsesNothing (Quantified (remaining_texts self.old)) × Fails self.old FailsInQuantifier f) }
    {
        if self.accept("~") {
            self.expect("exists", TextCause::Condition)?;
            return Ok(Quant::NotExists);
        }
        if self.expect_either("exists", "forall", TextCause::Condition)? {
            return Ok(Quant::Exists);
        }
        Ok(Quant::Forall)
    }
}
