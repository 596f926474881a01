//! The aliases of a shell.
ghost use Rattle.std.specs.Prelude.{◌≡◌, ◌≢◌, ◌≤◌, ◌<◌, List, [], ℕ, Some, None, true, length, position, IfOk, IfSome, OnErr, OnOk, option_map};
ghost use Rattle.std.specs.Option.{is_some};
ghost use Rattle.sh_aliases.specs.Aliases.{AliasTable, alias_named, has_name, is_sorted, with_alias, without_alias};
ghost use Rattle.sh_aliases.specs.Places.{has_name_at, is_not_before, place_of};
ghost use Rattle.sh_aliases.specs.declared.alias.Alias.{Alias as Named};

use crate::alias::Alias;
use sh_base::NoMemory;
use sh_base::shared::Shared;
use std::alloc::Global;
use std::cmp::Ordering;
use std::marker::Model;

/// The aliases of a shell in the order of their names by byte (XCU 2.3.1). A copy shares them.
pub struct Aliases {
    aliases: Vec<Shared<Alias>>,
}

// It is dropped here, so that no crate above has to prove that of its parts.
impl Drop for Aliases {
    fn drop(self) {
        let Aliases { aliases } = self;
        drop(aliases);
    }
}

impl Model for Aliases {
    ghost use Rattle.std.specs.Coded.{codes};
    ghost use Rattle.sh_aliases.specs.Aliases.{AliasTable};
    ghost use Rattle.sh_aliases.specs.contracts.alias.Alias as alias_row;

    ghost Value = { AliasTable };

    ghost coded = { Prim.hlevel (codes, alias_row.the_row.coded) };

    ghost view = { λ table. table.aliases.items };
}

impl Aliases {
    /// No alias. Takes no memory.
    pub fn new(alloc: Global) -> Aliases
        ensures { result ≡ [] }
    {
        Aliases {
            aliases: Vec::new(alloc),
        }
    }

    /// The alias of this name, `None` where there is none. Takes no memory.
    pub fn get(&self, name: &[u8]) -> Option<&Alias>
        ensures { option_map (λ alias. alias.now) result ≡ alias_named self.now name.now }
    {
        match find(&self.aliases, name) {
            Some(alias) => Some(alias.get()),
            None => None,
        }
    }

    /// Puts an alias in the place of one of its name or, where there is none, between those whose names come before and behind its own. The
    /// only error is want of memory; the aliases are then as they were.
    pub fn put(&mut self, alias: Alias) -> Result<(), NoMemory>
        ensures ok { OnOk result (self.new ≡ with_alias self.old alias) }
        ensures err { OnErr result (self.new ≡ self.old) }
    {
        let alloc = *self.aliases.allocator();
        let alias = Shared::new(alloc, alias)?;
        put(&mut self.aliases, alias)
    }

    /// Removes the alias of this name; whether there was one. Takes no memory.
    pub fn remove(&mut self, name: &[u8]) -> bool
        ensures left { self.new ≡ without_alias self.old name.now }
        ensures found { result ≡ is_some (alias_named self.old name.now) }
    {
        let found = self.get(name).is_some();
        remove(&mut self.aliases, name);
        found
    }

    /// Removes all aliases. Takes no memory.
    pub fn clear(&mut self)
        ensures { self.new ≡ [] }
    {
        self.aliases.clear();
    }

    /// A copy, which is equal; the aliases are shared. The only error is want of memory.
    pub fn copy(&self, alloc: Global) -> Result<Aliases, NoMemory>
        ensures { IfOk result (λ table. table ≡ self.now) }
    {
        Ok(Aliases {
            aliases: copies(alloc, &self.aliases)?,
        })
    }

    /// All of them, in the order of their names by byte.
    pub fn as_slice(&self) -> &[Shared<Alias>]
        ensures { result.now ≡ self.now }
    {
        self.aliases.as_slice()
    }
}

/// Whether an alias has this name.
fn has_name(alias: &Shared<Alias>, name: &[u8]) -> bool
    ensures { result ≡ has_name name.now alias.now }
{
    alias.get().name.as_slice() == name
}

/// The alias of a name.
fn find<'a>(aliases: &'a [Shared<Alias>], name: &[u8]) -> Option<&'a Shared<Alias>>
    ensures { option_map (λ alias. alias.now) result ≡ alias_named aliases.now name.now }
{
    aliases.iter().find(|alias| has_name(alias, name))
}

/// Whether the name of an alias doesn't come before this one.
fn is_not_before(alias: &Shared<Alias>, name: &[u8]) -> bool
    ensures { result ≡ is_not_before name.now alias.now }
{
    alias.get().name.as_slice().cmp(name) != Ordering::Less
}

/// The place of the first alias whose name doesn't come before this one.
fn place_behind(aliases: &[Shared<Alias>], name: &[u8]) -> Option<usize>
    ensures value { result ≡ position (is_not_before name.now) aliases.now }
    ensures inside { IfSome result (λ place. place < length aliases.now) }
{
    aliases.iter().position(|alias| is_not_before(alias, name))
}

/// How many aliases come before a name.
fn place(aliases: &[Shared<Alias>], name: &[u8]) -> usize
    ensures value { result ≡ place_of aliases.now name.now }
    ensures inside { result ≤ length aliases.now }
{
    match place_behind(aliases, name) {
        Some(place) => place,
        None => aliases.len(),
    }
}

/// Whether the alias at a place has this name.
fn has_name_at(aliases: &[Shared<Alias>], place: usize, name: &[u8]) -> bool
    ensures value { result ≡ has_name_at aliases.now place name.now }
    ensures inside { result ≡ true → place < length aliases.now }
{
    match aliases.get(place) {
        Some(alias) => has_name(alias, name),
        None => false,
    }
}

/// Puts an alias at its place.
fn put(aliases: &mut Vec<Shared<Alias>>, alias: Shared<Alias>) -> Result<(), NoMemory>
    ensures ok { OnOk result (aliases.new.items ≡ with_alias aliases.old.items alias) }
    ensures err { OnErr result (aliases.new.items ≡ aliases.old.items) }
{
    let name = alias.get().name.as_slice();
    let place = place(aliases, name);
    if has_name_at(aliases, place, name) {
        aliases[place] = alias;
        return Ok(());
    }
    aliases.insert(place, alias)?;
    Ok(())
}

/// Removes the alias of a name.
fn remove(aliases: &mut Vec<Shared<Alias>>, name: &[u8])
    ensures { aliases.new.items ≡ without_alias aliases.old.items name.now }
{
    aliases.retain(|alias| !has_name(alias, name));
}

/// Copies of aliases, which share them.
fn copies(alloc: Global, aliases: &[Shared<Alias>]) -> Result<Vec<Shared<Alias>>, NoMemory>
    ensures { IfOk result (λ copies. copies.items ≡ aliases.now) }
{
    let mut copies = Vec::with_capacity(alloc, aliases.len())?;
    for alias in aliases {
        copies.push(alias.share()?)?;
    }
    Ok(copies)
}

/// Law: what was put is found by its name, and what other names find is as before.
pub fn what_was_put_is_found()
    ensures found { (table : AliasTable) (alias : Named)
        → alias_named (with_alias table alias) alias.name ≡ Some alias }
    ensures others { (table : AliasTable) (alias : Named) (name : List ℕ) → name ≢ alias.name
        → alias_named (with_alias table alias) name ≡ alias_named table name }
{}

/// Law: what was removed isn't found, and what other names find is as before.
pub fn what_was_removed_is_gone()
    ensures gone { (table : AliasTable) (name : List ℕ) → alias_named (without_alias table name) name ≡ None }
    ensures others { (table : AliasTable) (name other : List ℕ) → other ≢ name
        → alias_named (without_alias table name) other ≡ alias_named table other }
{}

/// Law: aliases that are in the order of their names are so after one was put or removed. So a shell's always are.
pub fn aliases_stay_sorted()
    ensures put { (table : AliasTable) (alias : Named) → is_sorted table ≡ true → is_sorted (with_alias table alias) ≡ true }
    ensures removed { (table : AliasTable) (name : List ℕ) → is_sorted table ≡ true → is_sorted (without_alias table name) ≡ true }
{}
