//! The list of names before a test's condition. A report shows the registers and locations in it.
ghost use Rattle.std.specs.Prelude.{◌≢◌, List, MatchResult};
ghost use Rattle.std.specs.List.{AllByRecursion};
ghost use Rattle.lw_base.specs.Types.{TokenList};
ghost use Rattle.lw_text.specs.Conditions.{Listed};
ghost use Rattle.lw_text.specs.Sites.{HasRoomFor, SiteSyntax, ThreadExists};
ghost use Rattle.lw_text.specs.declared.fault.TextCause.TheVariants.{Memory};
ghost use Rattle.lw_text.specs.inner.Parsed.{ParsedNameList};

use crate::cursor::Cursor;
use crate::fault::{Refusal, TextCause};
use crate::site::Site;
use lw_base::{Arch, LocNames, Sequence};
use std::alloc::Allocator;

impl<'t, 'a> Cursor<'t, 'a> {
    ghost use Rattle.lw_text.specs.Views.{remaining_texts, Fails};
    ghost use Rattle.lw_text.specs.Failures.{FailsInList};

    /// Parses the list of names, and returns its sites: none if there is no list. Inserts the names of its locations into
    /// the table.
    pub(crate) fn parse_listed<A: Allocator + Copy>(
        &mut self,
        alloc: A,
        arch: Arch,
        threads: usize,
        locs: &mut LocNames<A>,
    ) -> Result<Sequence<Site, A>, Refusal>
        ensures { MatchResult result (λ ss. ParsedNameList arch threads self.old self.new locs.old locs.new ss)
            (λ f. f.cause ≢ Memory → ((ss : List SiteSyntax) (rest : TokenList) → Listed arch (remaining_texts self.old) ss rest
            → AllByRecursion (ThreadExists threads) ss → HasRoomFor locs.old ss → ⊥)
            × Fails self.old (FailsInList arch threads locs.old) f) }
    {
        let _known = locs.len();
        if !self.accept("locations") {
            return Ok(Sequence::new(alloc));
        }
        self.expect("[", TextCause::Condition)?;
        let mut sites = Sequence::new(alloc);
        'sites: loop {
            if self.accept("]") {
                return Ok(sites);
            }
            sites.push(self.parse_site(arch, locs, Some(threads), TextCause::Condition)?)?;
            if self.expect_either("]", ";", TextCause::Condition)? {
                return Ok(sites);
            }
        }
    }
}
