//! Reads the enums and flags types of a definition.

ghost use Rattle.std.specs.Prelude.{◌≡◌, ◌≤ℤ◌, ◌∷◌, ◌++◌, [], codes, pos, map, length, option_and_then, option_map, None, IfOk, IfSome};
ghost use Rattle.json_trees.specs.View.{view, items_view};
ghost use Rattle.serde_json.specs.Find.{get, as_array, as_str};
ghost use Rattle.type_tree.specs.Adding.{new_enum, new_flags};
ghost use Rattle.type_tree.specs.Entry.{enum_member, flags_member};
ghost use Rattle.g_values.specs.Reading.{whole_number};
ghost use Rattle.definition_format.specs.Refusals.{Gives, Leads, IsRefusal, shape};
ghost use Rattle.read_types.specs.EnumDrafts.{enum_part_at, parts_seen, with_member};
ghost use Rattle.definition_format.specs.Document.{path_of, nth, under, each, at_entry};
ghost use Rattle.definition_format.specs.Denoted.Enums.{three_in, parts_at, name_if, name_at, number_if, number_at, unless_there, has_name, some_items, some_entries_at, enum_member_at, flags_member_at, members_with, enum_at, flags_at};

use crate::enum_drafts::EnumDraft;
use crate::types::{check_room, check_type_name};
use definition_format::{DefinitionFault, ReadError};
use json_trees::Value;
use read_parts::document::{Entries, Part, bad_shape, path_text, path_under, path_within};
use read_parts::names::name_in;
use read_parts::numbers::whole_number;
use read_parts::reads::{Reads, read_each};
use type_tree::{EnumMember, FlagsMember, TypeTree};

const MEMBERS: [&str; 2] = ["name", "members"];

// Returns the name, the nick and the number of a member, which are exactly three values.
fn three_in(items: &[Value]) -> Option<(&Value, &Value, &Value)>
    ensures { option_map (λ w. (view w.0.now, view w.1.now, view w.2.now)) result ≡ three_in (items_view items.now) }
{
    match items {
        [name, nick, number] => Some((name, nick, number)),
        [] => None,
        [_] => None,
        [_, _] => None,
        [_, _, _, _, ..] => None,
    }
}

// Returns the three parts of a member's entry.
fn parts_of<'a>(part: Part<'a>) -> Result<(&'a Value, &'a Value, &'a Value), ReadError>
    ensures { Gives (λ w. (view w.0.now, view w.1.now, view w.2.now)) result (parts_at (path_of part.entry.path) (view part.entry.value.now)) }
{
    if let Some(items) = part.value.as_array() {
        if let Some(parts) = three_in(items.as_slice()) {
            return Ok(parts);
        }
    }
    Err(ReadError::Refused(DefinitionFault::Shape(path_text(part.alloc, part.path)?)))
}

// Makes the refusal `Shape` at part `index` of an entry.
pub(crate) fn bad_part(part: Part<'_>, index: usize) -> Result<ReadError, ReadError>
    ensures { IsRefusal (shape (nth (path_of part.entry.path) index)) result }
{
    Ok(ReadError::Refused(DefinitionFault::Shape(path_within(part.alloc, part.path, index)?)))
}

// Reads a name that is part `index` of an entry.
pub(crate) fn name_part<'a>(
    part: Part<'_>,
    index: usize,
    value: &'a Value,
) -> Result<&'a str, ReadError>
    ensures { Gives (λ s. s.now) result (name_at (nth (path_of part.entry.path) index) (view value.now)) }
{
    match name_in(value) {
        Some(name) => Ok(name),
        None => Err(bad_part(part, index)?),
    }
}

// Returns the whole number in a value if it is from `low` to `high`, both included.
fn number_in(value: &Value, low: i128, high: i128) -> Option<i128>
    ensures number { result ≡ number_if low high (whole_number (view value.now)) }
    ensures low { IfSome result (λ n. low ≤ℤ n) }
    ensures high { IfSome result (λ n. n ≤ℤ high) }
{
    let number = whole_number(value)?;
    if number < low || number > high {
        return None;
    }
    Some(number)
}

// Reads the number of a member, which is its last part.
fn number_part(part: Part<'_>, value: &Value, low: i128, high: i128) -> Result<i128, ReadError>
    ensures number { Gives (λ n. n) result (number_at (nth (path_of part.entry.path) 2) low high (view value.now)) }
    ensures low { IfOk result (λ n. low ≤ℤ n) }
    ensures high { IfOk result (λ n. n ≤ℤ high) }
{
    match number_in(value, low, high) {
        Some(number) => Ok(number),
        None => Err(bad_part(part, 2)?),
    }
}

// Refuses part `index` of an entry as `Duplicate` if it is there already.
pub(crate) fn check_new(part: Part<'_>, index: usize, there: bool) -> Result<(), ReadError>
    ensures { Gives (λ _. tt) result (unless_there (nth (path_of part.entry.path) index) there) }
{
    if there {
        return Err(ReadError::Refused(DefinitionFault::Duplicate(path_within(
            part.alloc, part.path, index,
        )?)));
    }
    Ok(())
}

// Reads a member of an enum. Its name and number must be different from those of the members before.
#[tactic(auto, unfolding(crate::specs::EnumDrafts::enum_part_at))]
fn enum_member_of(part: Part<'_>, draft: &EnumDraft) -> Result<EnumMember, ReadError>
    ensures { Gives (λ m. with_member (parts_seen draft.now) (enum_member m)) result (enum_part_at (path_of part.entry.path) (parts_seen draft.now) (view part.entry.value.now)) }
{
    let (name, nick, number) = parts_of(part)?;
    let name = name_part(part, 0, name)?;
    check_new(part, 0, draft.has_name(name))?;
    let nick = name_part(part, 1, nick)?;
    let number = number_part(part, number, i128::from(i32::MIN), i128::from(i32::MAX))?;
    let number = number as i32;
    check_new(part, 2, draft.has_number(number))?;
    let name = String::from_str(part.alloc, name)?;
    let nick = String::from_str(part.alloc, nick)?;
    Ok(EnumMember { name, nick, number })
}

// The reader for the members of an enum.
#[derive(Clone, Copy)]
struct EnumMembers;

impl Reads<EnumDraft> for EnumMembers {
    ghost use Rattle.read_types.specs.EnumDrafts.{EnumParts, enum_part_at, parts_seen};

    ghost State = { EnumParts };

    ghost seen = { λ draft. parts_seen draft };

    ghost Unchanged = { Unit {0} };

    ghost kept = { λ draft. tt };

    ghost known = { λ r. Unit {0} };

    ghost step = { λ r path e d. enum_part_at path e d };

    fn read(&self, part: Part<'_>, draft: &mut EnumDraft) -> Result<(), ReadError> {
        let member = enum_member_of(part, draft)?;
        let key = String::from_str(part.alloc, member.name.as_str())?;
        draft.add(key, member.number, member)?;
        Ok(())
    }
}

// Reads the members of an enum from a list.
fn read_enum_members(list: Entries<'_>) -> Result<Vec<EnumMember>, ReadError>
    ensures { Gives (λ v. map enum_member v.items) result (each (at_entry enum_member_at list.entry.path.now) 0 [] (items_view list.entry.items.now)) }
{
    let mut draft = EnumDraft::new(list.alloc);
    read_each(&EnumMembers, list, &mut draft)?;
    Ok(draft.into_members())
}

// Reads a member of a flags type.
#[tactic(auto, unfolding(definition_format::specs::Denoted::Enums::flags_member_at))]
fn flags_member_of(part: Part<'_>, members: &[FlagsMember]) -> Result<FlagsMember, ReadError>
    ensures { Gives (λ m. map flags_member members.now ++ flags_member m ∷ []) result (flags_member_at (path_of part.entry.path) (map flags_member members.now) (view part.entry.value.now)) }
{
    let (name, nick, bits) = parts_of(part)?;
    let name = name_part(part, 0, name)?;
    let nick = name_part(part, 1, nick)?;
    let bits = number_part(part, bits, 1, i128::from(u32::MAX))?;
    let name = String::from_str(part.alloc, name)?;
    let nick = String::from_str(part.alloc, nick)?;
    let bits = bits as u32;
    Ok(FlagsMember { name, nick, bits })
}

// The reader for the members of a flags type.
#[derive(Clone, Copy)]
struct FlagsMembers;

impl Reads<Vec<FlagsMember>> for FlagsMembers {
    ghost use Rattle.std.specs.Prelude.{List, map};
    ghost use Rattle.ui_machine.specs.Definition.Types.{Member};
    ghost use Rattle.type_tree.specs.Entry.{flags_member};
    ghost use Rattle.definition_format.specs.Denoted.Enums.{flags_member_at};

    ghost State = { List Member };

    ghost seen = { λ members. map flags_member members.items };

    ghost Unchanged = { Unit {0} };

    ghost kept = { λ members. tt };

    ghost known = { λ r. Unit {0} };

    ghost step = { λ r path members d. flags_member_at path members d };

    #[tactic(auto, using(std::proofs::lemmas::List::map_push))]
    fn read(&self, part: Part<'_>, members: &mut Vec<FlagsMember>) -> Result<(), ReadError> {
        let member = flags_member_of(part, members.as_slice())?;
        members.push(member)?;
        Ok(())
    }
}

// Returns the entries of `members`, or `None` if it is no list.
fn listed_members(value: &Value) -> Option<&[Value]>
    ensures { option_map (λ s. items_view s.now) result ≡ option_and_then as_array (get (codes "members") (view value.now)) }
{
    let list = value.get("members")?;
    let items = list.as_array()?;
    Some(items.as_slice())
}

// Returns the entries of `members`, of which there must be at least one.
fn some_entries<'a>(part: Part<'a>) -> Result<&'a [Value], ReadError>
    ensures { Gives (λ s. items_view s.now) result (some_entries_at (path_of part.entry.path) (view part.entry.value.now) (codes "members")) }
{
    match listed_members(part.value) {
        Some([]) => Err(bad_shape(part.alloc, part.path, "members")?),
        Some(items) => Ok(items),
        None => Err(bad_shape(part.alloc, part.path, "members")?),
    }
}

// Reads the members of an enum.
fn enum_members(part: Part<'_>) -> Result<Vec<EnumMember>, ReadError>
    ensures { Gives (λ v. map enum_member v.items) result (members_with enum_member_at (path_of part.entry.path) (view part.entry.value.now)) }
{
    let items = some_entries(part)?;
    let path = path_under(part.alloc, part.path, "members")?;
    let list = Entries {
        alloc: part.alloc,
        path: path.as_str(),
        items,
    };
    let members = read_enum_members(list)?;
    Ok(members)
}

// Reads the members of a flags type.
fn flags_members(part: Part<'_>) -> Result<Vec<FlagsMember>, ReadError>
    ensures { Gives (λ v. map flags_member v.items) result (members_with flags_member_at (path_of part.entry.path) (view part.entry.value.now)) }
{
    let items = some_entries(part)?;
    let path = path_under(part.alloc, part.path, "members")?;
    let list = Entries {
        alloc: part.alloc,
        path: path.as_str(),
        items,
    };
    let mut members = Vec::new(part.alloc);
    read_each(&FlagsMembers, list, &mut members)?;
    Ok(members)
}

// Reads an enum from an entry and adds it. The first enum has the number `first`.
#[tactic(auto, unfolding(definition_format::specs::Denoted::Enums::enum_at))]
fn read_enum(part: Part<'_>, first: usize, types: &mut TypeTree) -> Result<(), ReadError>
    ensures { Leads result (enum_at (path_of part.entry.path) first types.old (view part.entry.value.now)) types.new }
{
    let members = part.members()?;
    check_room(types)?;
    let name = part.text("name")?;
    check_type_name(part, first, types, name)?;
    let listed = enum_members(part)?;
    part.check_only(members, &MEMBERS)?;
    types.append_enum(name, listed)?;
    Ok(())
}

// Reads a flags type from an entry and adds it. The first flags type has the number `first`.
#[tactic(auto, unfolding(definition_format::specs::Denoted::Enums::flags_at))]
fn read_flags(part: Part<'_>, first: usize, types: &mut TypeTree) -> Result<(), ReadError>
    ensures { Leads result (flags_at (path_of part.entry.path) first types.old (view part.entry.value.now)) types.new }
{
    let members = part.members()?;
    check_room(types)?;
    let name = part.text("name")?;
    check_type_name(part, first, types, name)?;
    let listed = flags_members(part)?;
    part.check_only(members, &MEMBERS)?;
    types.append_flags(name, listed)?;
    Ok(())
}

// The reader for the entries of the enums.
#[derive(Clone, Copy)]
struct EnumEntries {
    first: usize,
}

impl Reads<TypeTree> for EnumEntries {
    ghost use Rattle.std.specs.Prelude.{List};
    ghost use Rattle.ui_machine.specs.Definition.Types.{GType};
    ghost use Rattle.definition_format.specs.Denoted.Enums.{enum_at};

    ghost State = { List GType };

    ghost seen = { λ types. types };

    ghost Unchanged = { Unit {0} };

    ghost kept = { λ types. tt };

    ghost known = { λ r. Unit {0} };

    ghost step = { λ r path types d. enum_at path r.first types d };

    fn read(&self, part: Part<'_>, types: &mut TypeTree) -> Result<(), ReadError> {
        read_enum(part, self.first, types)
    }
}

// The reader for the entries of the flags types.
#[derive(Clone, Copy)]
struct FlagsEntries {
    first: usize,
}

impl Reads<TypeTree> for FlagsEntries {
    ghost use Rattle.std.specs.Prelude.{List};
    ghost use Rattle.ui_machine.specs.Definition.Types.{GType};
    ghost use Rattle.definition_format.specs.Denoted.Enums.{flags_at};

    ghost State = { List GType };

    ghost seen = { λ types. types };

    ghost Unchanged = { Unit {0} };

    ghost kept = { λ types. tt };

    ghost known = { λ r. Unit {0} };

    ghost step = { λ r path types d. flags_at path r.first types d };

    fn read(&self, part: Part<'_>, types: &mut TypeTree) -> Result<(), ReadError> {
        read_flags(part, self.first, types)
    }
}

/// Reads the enums of a list and adds them.
///
/// # Errors
///
/// Returns `Refused` with the first fault in document order, or `OutOfMemory` if memory is refused.
pub fn read_enums(list: Entries<'_>, types: &mut TypeTree) -> Result<(), ReadError>
    ensures { Leads result (each (at_entry (λ path. enum_at path (length types.old)) list.entry.path.now) 0 types.old (items_view list.entry.items.now)) types.new }
{
    let reader = EnumEntries { first: types.len() };
    read_each(&reader, list, types)
}

/// Reads the flags types of a list and adds them.
///
/// # Errors
///
/// Returns `Refused` with the first fault in document order, or `OutOfMemory` if memory is refused.
pub fn read_flags_types(list: Entries<'_>, types: &mut TypeTree) -> Result<(), ReadError>
    ensures { Leads result (each (at_entry (λ path. flags_at path (length types.old)) list.entry.path.now) 0 types.old (items_view list.entry.items.now)) types.new }
{
    let reader = FlagsEntries { first: types.len() };
    read_each(&reader, list, types)
}
