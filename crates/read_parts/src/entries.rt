//! Names of the entries of a document's lists, with their numbers. Entries that come later in the document are known too.

ghost use Rattle.std.specs.Prelude.{◌≡◌, ◌+◌, ◌++◌, List, ℕ, None, Some, codes, length, map, option_map, slice_get, if◌then◌else◌, IfOk, OnOk};
ghost use Rattle.std.specs.BTreeMap.{get_by_text};
ghost use Rattle.json_trees.specs.View.{view, items_view};
ghost use Rattle.ui_machine.specs.Seq.{read};
ghost use Rattle.ui_machine.specs.Definition.Types.{GType};
ghost use Rattle.definition_format.specs.Denoted.Entries.{is_called, name_under, names_under, number_from, section, at_most, type_names, later_type, program_names, program_named, in_order, object_names};
ghost use Rattle.read_parts.specs.EntryViews.{views};

use json_trees::Value;
use std::alloc::{AllocError, Global};
use std::collections::BTreeMap;
use std::marker::Model;

/// The greatest depth to which lists of objects nest. JSON is read 127 levels deep, and the children of an object are two levels below it.
pub const MOST_LEVELS: usize = 64;

/// Returns the text under `key` in an entry, or `None` if there is none.
pub fn name_under<'a>(entry: &'a Value, key: &str) -> Option<&'a str>
    ensures { option_map (λ s. s.now) result ≡ name_under key.now (view entry.now) }
{
    entry.get(key).and_then(Value::as_str)
}

// Returns the entry with this number.
fn entry<'a>(entries: &[&'a Value], number: usize) -> Option<&'a Value>
    ensures { option_map (λ v. view v.now) result ≡ slice_get (views entries.now) number }
{
    entries.get(number).copied()
}

/// Returns the entries of the list under `key`, or no entries if there is no list.
pub fn section<'a>(value: &'a Value, key: &str) -> &'a [Value]
    ensures { items_view result.now ≡ section key.now (view value.now) }
{
    match value.get(key).and_then(Value::as_array) {
        Some(items) => items.as_slice(),
        None => &[],
    }
}

// Maps the entry's name under `key` to its number, in place of that of a later entry with the same name. Does nothing without a name.
fn add_number(
    numbers: &mut BTreeMap<String, usize>,
    alloc: Global,
    entry: &Value,
    key: &str,
    number: usize,
) -> Result<(), AllocError>
    ensures { (name : List ℕ) → OnOk result (get_by_text numbers.new name
        ≡ (if is_called (name_under key.now (view entry.now)) name then Some number else get_by_text numbers.old name)) }
{
    if let Some(name) = name_under(entry, key) {
        numbers.insert(String::from_str(alloc, name)?, number)?;
    }
    Ok(())
}

// Maps each name under `key` to the number of the first entry that has it.
fn numbers_of(
    alloc: Global,
    entries: &[&Value],
    key: &str,
) -> Result<BTreeMap<String, usize>, AllocError>
    ensures { (name : List ℕ) → IfOk result (λ numbers. get_by_text numbers name ≡ number_from 0 (map (name_under key.now) (views entries.now)) name) }
{
    let mut numbers = BTreeMap::new(alloc);
    let mut left = entries.len();
    'entries: while left > 0 {
        left -= 1;
        add_number(&mut numbers, alloc, entries[left], key, left)?;
    }
    Ok(numbers)
}

// Collects references to the entries of a list.
fn each_of<'a>(alloc: Global, items: &'a [Value]) -> Result<Vec<&'a Value>, AllocError>
    ensures { IfOk result (λ refs. map (λ r. r.now) refs.items ≡ items.now) }
{
    items.iter().collect(alloc)
}

// Maps each name under `key` to the number of the first entry of the list that has it.
fn numbers_in(
    alloc: Global,
    items: &[Value],
    key: &str,
) -> Result<BTreeMap<String, usize>, AllocError>
    ensures { (name : List ℕ) → IfOk result (λ numbers. get_by_text numbers name ≡ number_from 0 (names_under key.now (items_view items.now)) name) }
{
    let entries = each_of(alloc, items)?;
    numbers_of(alloc, entries.as_slice(), key)
}

/// Appends the objects of a list in document order, each followed by its children. Descends at most `levels` levels.
///
/// # Errors
///
/// `AllocError` if memory is refused.
pub fn add_objects<'a>(
    items: &'a [Value],
    levels: usize,
    objects: &mut Vec<&'a Value>,
) -> Result<(), AllocError>
    ensures { OnOk result (views objects.new.items ≡ views objects.old.items ++ in_order levels (items_view items.now)) }
{
    if levels == 0 {
        return Ok(());
    }
    'items: for value in items {
        objects.push(value)?;
        add_objects(section(value, "children"), levels - 1, objects)?;
    }
    Ok(())
}

/// Returns `number`, or `most` if `number` is greater.
pub fn at_most(most: u16, number: usize) -> u16
    ensures { result ≡ at_most most number }
{
    if number < usize::from(most) {
        return number as u16;
    }
    most
}

// Returns the sum of two numbers, or `most` if the sum is greater.
fn sum_at_most(most: u16, left: usize, right: usize) -> u16
    ensures { result ≡ at_most most (left + right) }
{
    let left = at_most(most, left);
    let right = at_most(most, right);
    at_most(most, usize::from(left) + usize::from(right))
}

/// The names of a document's interfaces and classes, with the number of the first of these types.
#[derive(Drop)]
pub struct TypeNames<'a> {
    first: usize,
    interfaces: &'a [Value],
    interface_numbers: BTreeMap<String, usize>,
    classes: &'a [Value],
    class_numbers: BTreeMap<String, usize>,
}

impl<'a> Model for TypeNames<'a> {
    ghost use Rattle.std.specs.Prelude.{codes};
    ghost use Rattle.std.specs.BTreeMap.{get_by_text};
    ghost use Rattle.json_trees.specs.View.{items_view};
    ghost use Rattle.definition_format.specs.Denoted.Entries as denoted;

    ghost Value = { denoted.TypeNames };

    ghost view = { λ n. record { first = n.first; interfaces = denoted.names_under (codes "name") (items_view n.interfaces.now); classes = denoted.names_under (codes "name") (items_view n.classes.now) } };

    ghost invariant = { λ n. denoted.AreNumbered (get_by_text n.interface_numbers) (denoted.names_under (codes "name") (items_view n.interfaces.now))
        × denoted.AreNumbered (get_by_text n.class_numbers) (denoted.names_under (codes "name") (items_view n.classes.now)) };
}

impl<'a> TypeNames<'a> {
    /// Collects the names of a document that has `first` types before its interfaces.
    ///
    /// # Errors
    ///
    /// `AllocError` if memory is refused.
    pub fn new(alloc: Global, value: &'a Value, first: usize) -> Result<Self, AllocError>
        ensures { (types : List GType) → first ≡ length types → IfOk result (λ names. names ≡ type_names types (view value.now)) }
    {
        let interfaces = section(value, "interfaces");
        let classes = section(value, "classes");
        Ok(TypeNames {
            first,
            interfaces,
            interface_numbers: numbers_in(alloc, interfaces, "name")?,
            classes,
            class_numbers: numbers_in(alloc, classes, "name")?,
        })
    }

    /// Returns the number of the interface or class with this name, or 256 if the number is greater.
    pub fn number(&self, name: &str) -> Option<u16>
        ensures { result ≡ option_map (at_most 256) (later_type self.now name.now) }
    {
        if let Some(number) = self.interface_numbers.get(name) {
            return Some(sum_at_most(256, self.first, *number));
        }
        let number = self.class_numbers.get(name)?;
        let first = sum_at_most(256, self.first, self.interfaces.len());
        Some(sum_at_most(256, usize::from(first), *number))
    }
}

/// The names of a document's programs.
#[derive(Drop)]
pub struct ProgramNames<'a> {
    entries: &'a [Value],
    numbers: BTreeMap<String, usize>,
}

impl<'a> Model for ProgramNames<'a> {
    ghost use Rattle.std.specs.Prelude.{codes};
    ghost use Rattle.std.specs.BTreeMap.{get_by_text};
    ghost use Rattle.json_trees.specs.View.{items_view};
    ghost use Rattle.definition_format.specs.Denoted.Entries as denoted;

    ghost Value = { denoted.ProgramNames };

    ghost view = { λ n. denoted.names_under (codes "name") (items_view n.entries.now) };

    ghost invariant = { λ n. denoted.AreNumbered (get_by_text n.numbers) (denoted.names_under (codes "name") (items_view n.entries.now)) };
}

impl<'a> ProgramNames<'a> {
    /// Collects the names of a document's programs.
    ///
    /// # Errors
    ///
    /// `AllocError` if memory is refused.
    pub fn new(alloc: Global, value: &'a Value) -> Result<Self, AllocError>
        ensures { IfOk result (λ names. names ≡ program_names (view value.now)) }
    {
        let entries = section(value, "programs");
        let numbers = numbers_in(alloc, entries, "name")?;
        Ok(ProgramNames { entries, numbers })
    }

    /// Returns the number of the program with this name, or 256 if the number is greater.
    pub fn number(&self, name: &str) -> Option<u16>
        ensures { result ≡ program_named self.now name.now }
    {
        let number = self.numbers.get(name)?;
        Some(at_most(256, *number))
    }
}

/// The ids of a document's objects, in document order.
#[derive(Drop)]
pub struct ObjectNames<'a> {
    entries: Vec<&'a Value>,
    places: BTreeMap<String, usize>,
}

impl<'a> Model for ObjectNames<'a> {
    ghost use Rattle.std.specs.Prelude.{codes, map};
    ghost use Rattle.std.specs.BTreeMap.{get_by_text};
    ghost use Rattle.definition_format.specs.Denoted.Entries as denoted;
    ghost use Rattle.read_parts.specs.EntryViews.{views};

    ghost Value = { denoted.ObjectNames };

    ghost view = { λ n. denoted.names_of (views n.entries.items) };

    ghost invariant = { λ n. denoted.AreNumbered (get_by_text n.places) (map (denoted.name_under (codes "id")) (views n.entries.items)) };
}

impl<'a> ObjectNames<'a> {
    /// Collects the ids and classes of these objects and of their children.
    ///
    /// # Errors
    ///
    /// `AllocError` if memory is refused.
    pub fn new(alloc: Global, items: &'a [Value]) -> Result<Self, AllocError>
        ensures { IfOk result (λ names. names ≡ object_names (items_view items.now)) }
    {
        let mut entries = Vec::new(alloc);
        add_objects(items, MOST_LEVELS, &mut entries)?;
        let places = numbers_of(alloc, entries.as_slice(), "id")?;
        Ok(ObjectNames { entries, places })
    }

    /// Returns the place of the first object with this id.
    pub fn place(&self, id: &str) -> Option<usize>
        ensures { result ≡ number_from 0 self.now.ids id.now }
    {
        self.places.get(id).copied()
    }

    /// Returns the name of the class of the object at a place.
    pub fn class(&self, place: usize) -> Option<&str>
        ensures { option_map (λ s. s.now) result ≡ read None self.now.classes place }
    {
        match entry(self.entries.as_slice(), place) {
            Some(entry) => name_under(entry, "class"),
            None => None,
        }
    }
}
