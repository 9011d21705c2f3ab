//! A table of names, with the numbers that each name has in classes.

ghost use Rattle.std.specs.Prelude.{◌≡◌, [], Some, IfOk, IfSome, OnErr, OnOk, option_map, slice_get};
ghost use Rattle.name_tables.specs.Names.{Adds, Inherits, SameNumbers, number_at, place_of};
ghost use Rattle.name_tables.specs.Steps.{GivesNumber, InheritsNumber, InheritsNumbers, ReadsSame, parent_number, with_name};

use indexmap::IndexMap;
use std::alloc::{AllocError, Global};
use std::collections::BTreeMap;
use std::marker::Model;
use type_tree::{TypeId, TypeTree};

/// The index of a name in a table.
pub type NameId = usize;

/// Names in the canonical spelling, with the number that each has in the classes that have it.
///
/// Takes memory for each name once, and for the number of each class that has the name.
#[derive(Drop)]
pub struct NameTable {
    names: IndexMap<String, Numbers>,
}

/// The number that a name has in each class that has it, by the index of the class.
type Numbers = BTreeMap<TypeId, u16>;

impl Model for NameTable {
    ghost use Rattle.std.specs.Prelude.{List, map, string_bytes};
    ghost use Rattle.name_tables.specs.Names.{Named};

    ghost Value = { List Named };

    ghost view = { λ t. map (λ e. record { name = string_bytes e.0; numbers = e.1.entries }) t.names.entries };
}

impl NameTable {
    /// Creates a table without names. Takes no memory.
    pub fn new(alloc: Global) -> NameTable
        ensures { result ≡ [] }
    {
        NameTable {
            names: IndexMap::new(alloc),
        }
    }

    /// Returns the index of a name, which is added if it is new. A new name has no number in any class yet.
    ///
    /// # Errors
    ///
    /// `AllocError` if memory is refused. The table is unchanged then.
    pub fn intern(&mut self, name: &str) -> Result<NameId, AllocError>
        ensures ok { OnOk result (self.new ≡ with_name self.old name.now) }
        ensures found { IfOk result (λ at. place_of self.new name.now ≡ Some at) }
        ensures err { OnErr result (self.new ≡ self.old) }
    {
        if let Some(place) = self.names.get_index_of(name) {
            return Ok(place);
        }
        let place = self.names.len();
        let alloc = *self.names.allocator();
        let key = String::from_str(alloc, name)?;
        self.names.insert(key, BTreeMap::new(alloc))?;
        Ok(place)
    }

    /// Sets the number of a name in a class, unless the class has one already.
    ///
    /// # Errors
    ///
    /// `AllocError` if memory is refused. No number has changed then.
    pub fn add(&mut self, class: TypeId, name: &str, number: u16) -> Result<(), AllocError>
        ensures ok { OnOk result (Adds self.old self.new class name.now number) }
        ensures err { OnErr result (SameNumbers self.old self.new) }
    {
        let place = self.intern(name)?;
        give_number(&mut self.names[place], class, number)
    }

    /// For each name, lets each class without a number inherit the number of its parent, if the parent has one, from the root down.
    ///
    /// # Errors
    ///
    /// `AllocError` if memory is refused.
    pub fn inherit(&mut self, tree: &TypeTree) -> Result<(), AllocError>
        ensures { OnOk result (Inherits tree.now self.old self.new) }
    {
        'names: for at in 0..self.names.len() {
            inherit_numbers(&mut self.names[at], tree)?;
        }
        Ok(())
    }

    /// Returns the index of a name, or `None` if the table does not have it.
    pub fn find(&self, name: &str) -> Option<NameId>
        ensures found { result ≡ place_of self.now name.now }
        ensures called { IfSome result (λ at. option_map (λ n. n.name) (slice_get self.now at) ≡ Some name.now) }
    {
        self.names.get_index_of(name)
    }

    /// Returns the number that a name has in a class.
    pub fn number(&self, class: TypeId, name: NameId) -> Option<u16>
        ensures { result ≡ number_at self.now class name }
    {
        let (_, numbers) = self.names.get_index(name)?;
        numbers.get(&class).copied()
    }

    /// Returns the text of a name.
    pub fn name(&self, name: NameId) -> Option<&str>
        ensures { option_map (λ text. text.now) result ≡ option_map (λ n. n.name) (slice_get self.now name) }
    {
        let (text, _) = self.names.get_index(name)?;
        Some(text.as_str())
    }
}

// Sets the number of a class, unless it has one already.
fn give_number(numbers: &mut Numbers, class: TypeId, number: u16) -> Result<(), AllocError>
    ensures ok { OnOk result (GivesNumber numbers.old.entries numbers.new.entries class number) }
    ensures err { OnErr result (ReadsSame numbers.old.entries numbers.new.entries) }
{
    if !numbers.contains_key(&class) {
        numbers.insert(class, number)?;
    }
    Ok(())
}

// Lets each class without a number inherit the number of its parent, if the parent has one, from the root down.
fn inherit_numbers(numbers: &mut Numbers, tree: &TypeTree) -> Result<(), AllocError>
    ensures { OnOk result (InheritsNumbers tree.now numbers.old.entries numbers.new.entries) }
{
    // For the proof: a tree has few types, and parents come before their children.
    let _root = tree.parent(TypeId::new(0));
    'classes: for class in 0..tree.len() {
        inherit_number(numbers, tree, TypeId::new(class as u16))?;
    }
    Ok(())
}

// Lets a class without a number inherit the number of its parent, if the parent has one.
fn inherit_number(numbers: &mut Numbers, tree: &TypeTree, class: TypeId) -> Result<(), AllocError>
    ensures { OnOk result (InheritsNumber tree.now numbers.old.entries numbers.new.entries class) }
{
    match parent_number(numbers, tree, class) {
        Some(number) => give_number(numbers, class, number),
        None => Ok(()),
    }
}

// Returns the number of a class's parent.
fn parent_number(numbers: &Numbers, tree: &TypeTree, class: TypeId) -> Option<u16>
    ensures { result ≡ parent_number tree.now numbers.now.entries class }
{
    let parent = tree.parent(class)?;
    numbers.get(&parent).copied()
}
