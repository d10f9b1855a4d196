//! The table of a test's location names.
ghost use Rattle.lw_base.specs.Limits.{most_locations};
ghost use Rattle.lw_base.specs.Names.{IsUnreservedName, IsNameTable};
ghost use Rattle.std.specs.Prelude.{◌≡◌, [], ◌∷◌, ◌++◌, ◌<◌, length, Contains, MatchOption, IfOk, OnOk, OnErr, OnSome, IfNone, Some, slice_get};
ghost use Rattle.lw_base.specs.Tables.{insert_name, position_of_name};

use crate::indices::Loc;
use crate::limits::MAX_LOCATIONS;
use std::alloc::{AllocError, Allocator, Global};
use std::marker::Model;

/// Up to eight names of locations, without duplicates. A location's index is the position of its name. A contract
/// sees the table as the list of names.
#[derive(Drop)]
pub struct LocNames<A: Allocator = Global> {
    names: Vec<String<A>, A>,
}

impl<A: Allocator> Model for LocNames<A> {
    ghost use Rattle.std.specs.Prelude.{ℕ, List, map};
    ghost use Rattle.std.specs.String.{string_bytes};
    ghost use Rattle.lw_base.specs.Names.{IsNameTable};

    ghost Value = { List (List ℕ) };

    ghost view = { λ l. map string_bytes l.names.items };

    ghost invariant = { λ l. IsNameTable (map string_bytes l.names.items) };
}

impl<A: Allocator> LocNames<A> {
    /// Creates an empty table. Does not allocate.
    pub fn new(alloc: A) -> Self
        ensures { result ≡ [] }
    {
        LocNames {
            names: Vec::new(alloc),
        }
    }

    /// Returns the number of names.
    pub fn len(&self) -> usize
        ensures len { result ≡ length self.now }
        ensures table { IsNameTable self.now }
    {
        self.names.len()
    }

    /// Returns the name of a location.
    pub fn name(&self, loc: Loc) -> &str
        requires { loc < length self.now }
        ensures { slice_get self.now loc ≡ Some result.now }
    {
        self.names[loc.index()].as_str()
    }

    /// Returns the location with this name, or `None` if the table does not have it.
    pub fn find(&self, name: &str) -> Option<Loc>
        ensures { MatchOption result (¬ Contains self.now name.now)
            (λ loc. slice_get self.now loc ≡ Some name.now) }
    {
        for (index, known) in self.names.iter().enumerate() {
            if known.as_str() == name {
                return Loc::new(index as u8);
            }
        }
        None
    }

    /// Returns the allocator that holds the names.
    pub fn allocator(&self) -> &A {
        self.names.allocator()
    }
}

impl<A: Allocator + Copy> LocNames<A> {
    /// Appends a name and returns its location. If memory runs out, the table is unchanged.
    pub fn add(&mut self, name: &str) -> Result<Loc, AllocError>
        requires bounded { length self.old < most_locations }
        requires name { IsUnreservedName name.now }
        requires fresh { ¬ Contains self.old name.now }
        ensures index { IfOk result (λ loc. loc ≡ length self.old) }
        ensures ok { OnOk result (self.new ≡ self.old ++ name.now ∷ []) }
        ensures table { OnOk result (IsNameTable self.new) }
        ensures err { OnErr result (self.new ≡ self.old) }
    {
        let index = self.names.len();
        let text = String::from_str(*self.names.allocator(), name)?;
        self.names.push(text)?;
        Ok(Loc::new(index as u8).unwrap())
    }

    /// Returns the location with this name, and appends the name if the table does not have it. Returns `None`, and
    /// leaves the table unchanged, if it would be the ninth.
    pub fn find_or_add(&mut self, name: &str) -> Result<Option<Loc>, AllocError>
        requires { IsUnreservedName name.now }
        ensures index { IfOk result
            (λ o. MatchOption o (most_locations < length (insert_name self.old name.now))
            (λ loc. loc ≡ position_of_name self.new name.now)) }
        ensures names { IfOk result (λ o. OnSome o (self.new ≡ insert_name self.old name.now)) }
        ensures full { IfOk result (λ o. IfNone o (self.new ≡ self.old)) }
        ensures table { OnOk result (IsNameTable self.new) }
        ensures err { OnErr result (self.new ≡ self.old) }
    {
        let len = self.len();
        if let Some(loc) = self.find(name) {
            return Ok(Some(loc));
        }
        if len == MAX_LOCATIONS {
            return Ok(None);
        }
        match self.add(name) {
            Ok(loc) => Ok(Some(loc)),
            Err(error) => Err(error),
        }
    }

    /// Copies the table, with the same allocator. Fails only if memory runs out.
    pub fn copy(&self) -> Result<Self, AllocError>
        ensures { IfOk result (λ names. names ≡ self.now) }
    {
        let alloc = *self.names.allocator();
        let mut names = Vec::new(alloc);
        for name in &self.names {
            names.push(String::from_str(alloc, name.as_str())?)?;
        }
        Ok(LocNames { names })
    }
}
