//! The initial block of a test: its initializers.
ghost use Rattle.std.specs.Prelude.{◌≡◌, ◌≢◌, ℕ, List, Some, slice_get, take, true, false, MatchResult, IfErr, OnOk, OnErr};
ghost use Rattle.std.specs.List.{list_all};
ghost use Rattle.lw_base.specs.Types.{TokenList};
ghost use Rattle.lw_text.specs.Failures.{FailsInBlock};
ghost use Rattle.lw_text.specs.Frames.{InitializerSyntax, sites_of, Block};
ghost use Rattle.lw_text.specs.Sites.{HasRoomFor};
ghost use Rattle.lw_text.specs.declared.fault.TextCause.TheVariants.{Memory, Name};
ghost use Rattle.lw_text.specs.declared.block.Initializer.{Initializer};
ghost use Rattle.lw_text.specs.inner.Resolved.{thread_exists};
ghost use Rattle.lw_text.specs.inner.Parsed.{ParsedBlock};

use crate::cursor::Cursor;
use crate::fault::{Refusal, TextCause};
use crate::site::Site;
use lw_base::{Arch, LocNames, Sequence, Word};
use std::alloc::Allocator;

/// An initializer of the block: the offset of its first token (`None` if the text ends before it), a site, and the site's initial word.
#[derive(Clone, Copy)]
pub(crate) struct Initializer {
    pub(crate) at: Option<usize>,
    pub(crate) site: Site,
    pub(crate) word: Word,
}

impl<'t, 'a> Cursor<'t, 'a> {
    ghost use Rattle.lw_text.specs.Views.{remaining_texts, Fails};

    /// Parses the block. Inserts the names of its locations into the table. The threads of its initializers are
    /// checked after the header, which determines their number.
    pub(crate) fn parse_block<A: Allocator + Copy>(
        &mut self,
        alloc: A,
        arch: Arch,
        locs: &mut LocNames<A>,
    ) -> Result<Sequence<Initializer, A>, Refusal>
        ensures { MatchResult result (λ es. ParsedBlock arch self.old self.new locs.old locs.new es)
            (λ f. f.cause ≢ Memory
            → ((es : List InitializerSyntax) (rest : TokenList) → Block arch (remaining_texts self.old) es rest
            → HasRoomFor locs.old (sites_of es) → ⊥)
            × Fails self.old (FailsInBlock arch locs.old) f) }
    {
        let _known = locs.len();
        self.expect("{", TextCause::Unexpected)?;
        let mut initializers = Sequence::new(alloc);
        'initializers: loop {
            if self.accept("}") {
                return Ok(initializers);
            }
            let at = self.place();
            let site = self.parse_site(arch, locs, None, TextCause::Unexpected)?;
            let word = self.parse_value(TextCause::Unexpected)?;
            initializers.push(Initializer { at, site, word })?;
            if self.expect_either("}", ";", TextCause::Unexpected)? {
                return Ok(initializers);
            }
        }
    }
}

/// Fails with the cause `Name` at the first initializer whose site is a register of a thread that is not below `threads`.
pub(crate) fn check_threads(initializers: &[Initializer], threads: usize) -> Result<(), Refusal>
    ensures ok { OnOk result (list_all (λ e. thread_exists threads e.site) initializers.now ≡ true) }
    ensures err { OnErr result (list_all (λ e. thread_exists threads e.site) initializers.now ≡ false) }
    ensures place { IfErr result (λ f. (k : ℕ) × (e : Initializer) × (slice_get initializers.now k ≡ Some e)
        × (list_all (λ e. thread_exists threads e.site) (take k initializers.now) ≡ true)
        × (thread_exists threads e.site ≡ false) × (f.at ≡ e.at) × (f.cause ≡ Name)) }
{
    for initializer in initializers {
        if !initializer.site.thread_exists(threads) {
            return Err(Refusal {
                at: initializer.at,
                cause: TextCause::Name,
            });
        }
    }
    Ok(())
}
