//! Sites: the locations and registers that the block, the list of names and atoms name.
ghost use Rattle.std.specs.Prelude.{◌≡◌, ◌≢◌, ℕ, ◌≤◌, [], ◌∷◌, codes, length, nat_lt, Some, slice_get, MatchResult};
ghost use Rattle.lw_base.specs.Limits.{most_locations};
ghost use Rattle.lw_base.specs.NoParse.{ParsesNothing};
ghost use Rattle.lw_base.specs.Types.{Bytes, TokenList};
ghost use Rattle.lw_base.specs.Names.{IsUnreservedName};
ghost use Rattle.lw_base.specs.Registers.{IsRegisterName};
ghost use Rattle.lw_base.specs.Tables.{insert_name};
ghost use Rattle.lw_text.specs.Causes.{IsParserCause};
ghost use Rattle.lw_text.specs.Failures.{IsMisfitCause, IsNoNewLocation};
ghost use Rattle.lw_text.specs.Sites.{HasRoomFor, HasRoomForName, SiteSyntax, IsSite, ThreadAllowed, Value};
ghost use Rattle.lw_text.specs.declared.fault.TextCause.TheVariants.{Memory};
ghost use Rattle.lw_text.specs.declared.site.Site.TheVariants.{Register};
ghost use Rattle.lw_base.specs.SeenLists.{seen_eq};
ghost use Rattle.lw_text.specs.inner.Resolved.{seen_of};
ghost use Rattle.lw_text.specs.inner.Parsed.{ParsedSite};
ghost use Rattle.lw_text.specs.inner.Resolved as resolved;

use crate::cursor::Cursor;
use crate::fault::{Refusal, TextCause};
use lw_base::{Arch, Loc, LocNames, Reg, Word, is_name, is_unreserved_name, reg_from_name};
use std::alloc::Allocator;

/// A location, by its index, or a register of a thread, which the test may not have.
#[derive(Clone, Copy)]
pub(crate) enum Site {
    Location(Loc),
    Register(Word, Reg),
}

impl Site {
    /// Returns whether two sites are the same register or location.
    pub(crate) fn is_same(&self, other: &Site) -> bool
        ensures { result ≡ seen_eq (seen_of self.now) (seen_of other.now) }
    {
        match self {
            Site::Location(mine) => match other {
                Site::Location(its) => mine.index() == its.index(),
                Site::Register(_, _) => false,
            },
            Site::Register(thread, mine) => match other {
                Site::Location(_) => false,
                Site::Register(its_thread, its) => {
                    *thread == *its_thread && mine.index() == its.index()
                }
            },
        }
    }

    /// Returns whether a site's thread is below `threads`. `true` of a location, which has no thread.
    pub(crate) fn thread_exists(&self, threads: usize) -> bool
        ensures { result ≡ resolved.thread_exists threads self.now }
    {
        match self {
            Site::Location(_) => true,
            Site::Register(thread, _) => is_thread(*thread, threads),
        }
    }
}

impl<'t, 'a> Cursor<'t, 'a> {
    ghost use Rattle.lw_text.specs.Views.{remaining_texts, AdvancesTo, Fails};
    ghost use Rattle.lw_text.specs.Failures.{FailsInSite, FailsInBrackets, FailsInRegister, FailsInValue};

    /// Parses a site: a location, whose name is inserted into the table, or a register of the language, whose thread
    /// must be below `threads`, if their number is known yet. Tokens that do not fit are rejected with the cause.
    pub(crate) fn parse_site<A: Allocator + Copy>(
        &mut self,
        arch: Arch,
        locs: &mut LocNames<A>,
        threads: Option<usize>,
        cause: TextCause,
    ) -> Result<Site, Refusal>
        requires { IsParserCause cause }
        ensures { MatchResult result (λ s. ParsedSite arch threads self.old self.new locs.old locs.new s)
            (λ f. f.cause ≢ Memory → ((s : SiteSyntax) (rest : TokenList) → IsSite arch (remaining_texts self.old) s rest
            → ThreadAllowed threads s → HasRoomFor locs.old (s ∷ []) → ⊥)
            × Fails self.old (FailsInSite arch threads locs.old cause) f) }
    {
        let _known = locs.len();
        let first = self.take()?;
        let at = Some(first.at);
        if first.text == "[" {
            let inside = self.parse_bracketed(locs, cause)?;
            return Ok(Site::Location(inside));
        }
        if let Some(thread) = first.number() {
            if !is_allowed(thread, threads) {
                return Err(Refusal {
                    at,
                    cause: TextCause::Name,
                });
            }
            return self.parse_register(arch, thread, cause);
        }
        match enter(first.text, locs, Refusal { at, cause }) {
            Ok(loc) => Ok(Site::Location(loc)),
            Err(refusal) => Err(refusal),
        }
    }

    /// Parses the name of a location, which is inserted into the table, and a `]`.
    fn parse_bracketed<A: Allocator + Copy>(
        &mut self,
        locs: &mut LocNames<A>,
        cause: TextCause,
    ) -> Result<Loc, Refusal>
        requires { IsParserCause cause }
        ensures { MatchResult result
            (λ loc. (x : Bytes) × (remaining_texts self.old ≡ x ∷ codes "]" ∷ remaining_texts self.new)
            × (IsUnreservedName x × (slice_get locs.new loc ≡ Some x) × (locs.new ≡ insert_name locs.old x)
            × (length locs.new ≤ most_locations))
            × AdvancesTo self.old self.new)
            (λ f. f.cause ≢ Memory → ((x : Bytes) (rest : TokenList) → remaining_texts self.old ≡ x ∷ codes "]" ∷ rest
            → IsUnreservedName x → HasRoomForName locs.old x → ⊥)
            × Fails self.old (FailsInBrackets locs.old cause) f) }
    {
        let misfit = self.refusal(cause);
        let name = self.take()?;
        let loc = enter(name.text, locs, misfit)?;
        self.expect("]", cause)?;
        Ok(loc)
    }

    /// Parses a `:` and the name of a register of the thread.
    fn parse_register(
        &mut self,
        arch: Arch,
        thread: Word,
        cause: TextCause,
    ) -> Result<Site, Refusal>
        requires { IsParserCause cause }
        ensures { MatchResult result
            (λ s. (q : Bytes) × (r : ℕ) × (remaining_texts self.old ≡ codes ":" ∷ q ∷ remaining_texts self.new) × IsRegisterName arch q r
            × (s ≡ Register thread r) × AdvancesTo self.old self.new)
            (λ f. ((q : Bytes) (r : ℕ) (rest : TokenList) → remaining_texts self.old ≡ codes ":" ∷ q ∷ rest
            → IsRegisterName arch q r → ⊥)
            × Fails self.old (FailsInRegister arch cause) f) }
    {
        self.expect(":", cause)?;
        let misfit = self.refusal(cause);
        let name = self.take()?;
        match reg_from_name(arch, name.text) {
            Some(reg) => Ok(Site::Register(thread, reg)),
            None => Err(no_name(name.text, misfit)),
        }
    }

    /// Parses a `=` and a number.
    pub(crate) fn parse_value(&mut self, cause: TextCause) -> Result<Word, Refusal>
        requires { IsParserCause cause }
        ensures { MatchResult result (λ v. Value (remaining_texts self.old) v (remaining_texts self.new) × AdvancesTo self.old self.new)
            (λ f. ParsesNothing (Value (remaining_texts self.old)) × Fails self.old (FailsInValue cause) f) }
    {
        self.expect("=", cause)?;
        let misfit = self.refusal(cause);
        let token = self.take()?;
        match token.number() {
            Some(value) => Ok(value),
            None => Err(misfit),
        }
    }
}

/// Returns whether a number is the index of a thread below `threads`.
fn is_thread(number: Word, threads: usize) -> bool
    ensures { result ≡ nat_lt number threads }
{
    (number as usize) < threads
}

/// Returns whether a number is the index of a thread below `threads`. `true` of any number if `threads` is not known yet.
fn is_allowed(number: Word, threads: Option<usize>) -> bool
    ensures { result ≡ resolved.is_allowed threads number }
{
    match threads {
        Some(threads) => is_thread(number, threads),
        None => true,
    }
}

/// Returns the index of the location with this name, and inserts the name if the table does not have it. Fails at the place of
/// `misfit` if the token is no location's name, for the reason that `no_name` says, or if it is that of a ninth location.
fn enter<A: Allocator + Copy>(
    name: &str,
    locs: &mut LocNames<A>,
    misfit: Refusal,
) -> Result<Loc, Refusal>
    ensures { MatchResult result
        (λ loc. IsUnreservedName name.now × (slice_get locs.new loc ≡ Some name.now) × (locs.new ≡ insert_name locs.old name.now)
        × (length locs.new ≤ most_locations))
        (λ f. f.cause ≢ Memory → (IsUnreservedName name.now → HasRoomForName locs.old name.now → ⊥)
        × (f.at ≡ misfit.at) × IsNoNewLocation misfit.cause locs.old name.now f.cause) }
{
    if !is_unreserved_name(name) {
        return Err(no_name(name, misfit));
    }
    match locs.find_or_add(name)? {
        Some(loc) => Ok(loc),
        None => Err(Refusal {
            at: misfit.at,
            cause: TextCause::TooManyLocations,
        }),
    }
}

/// Returns the refusal of a token that is not the name that is expected, of a location or a register. If the token is a name, such as
/// a reserved one, the cause is `Name`; any other token is refused as `misfit` says.
fn no_name(text: &str, misfit: Refusal) -> Refusal
    ensures place { result.at ≡ misfit.at }
    ensures cause { IsMisfitCause misfit.cause text.now result.cause }
{
    if is_name(text) {
        return Refusal {
            at: misfit.at,
            cause: TextCause::Name,
        };
    }
    misfit
}
