//! Reads the prototypes of a definition, of which programs make objects.

ghost use Rattle.std.specs.Prelude.{◌≡◌, [], None, codes, is_some, length, map, string_bytes, IfOk};
ghost use Rattle.serde_json.specs.Find.{get};
ghost use Rattle.json_trees.specs.View.{view, items_view};
ghost use Rattle.ui_machine.specs.Definition.Names.{place_named};
ghost use Rattle.g_values.specs.View.{kind_view, IsKnown};
ghost use Rattle.param_specs.specs.View.{spec_view};
ghost use Rattle.param_specs.specs.Table.{own_of, specs_of};
ghost use Rattle.definition_format.specs.Meaning.{ArePlain, given_view, given_property, plain_prototype};
ghost use Rattle.definition_format.specs.Refusals.{Gives, Leads};
ghost use Rattle.definition_format.specs.Document.{under, path_of, is_among, each, at_entry};
ghost use Rattle.definition_format.specs.Denoted.Peers.{peers_of};
ghost use Rattle.definition_format.specs.Denoted.Properties.{specs_by};
ghost use Rattle.definition_format.specs.Denoted.Prototypes.{if_writable, plain_value, plain_at, all_plain_at, room_for_prototype, prototype_at};
ghost use Rattle.definition_format.specs.Denoted.Shapes.{is_shaped_by};
ghost use Rattle.ui_machine.specs.Seq.{read};
ghost use Rattle.read_objects.specs.PeerDrafts.{stock_at, stock_in};
ghost use Rattle.read_objects.specs.PeerViews.{is_named_in, new_seen, stock_seen};

use crate::given::{check_once, property_named};
use crate::objects::{check_id, class_of};
use crate::peer_names::{PeerNames, read_own_peers};
use definition_format::{
    DefinitionFault, DefinitionLimit, Given, GivenValue, PrototypeBody, ReadError, SpecCause,
};
use definitions::places::{MOST_PLACES, Prototypes, prototype_of};
use definitions::shapes::shape_number;
use g_values::Kind;
use indexmap::IndexMap;
use param_specs::{Spec, SpecTable};
use read_parts::document::{Entries, Part, bad_shape, path_under};
use read_parts::reads::{Reads, read_each};
use read_types::value_of;
use std::mem::replace;
use type_tree::{TypeId, TypeTree};

const MEMBERS: [&str; 4] = ["id", "class", "properties", "peers"];

const MEMBERS_OF_GIVEN: [&str; 2] = ["name", "value"];

/// The classes as they are known while objects are read: the types with their properties and the shapes that they name.
#[derive(Clone, Copy)]
pub struct Classes<'a> {
    pub types: &'a TypeTree,
    pub specs: &'a SpecTable,
    pub shaped: &'a [Option<usize>],
}

impl Classes<'_> {
    /// Returns whether a class has a shape.
    pub fn is_shaped(&self, class: TypeId) -> bool
        ensures { result ≡ is_shaped_by self.now.types.now (read None self.now.shaped.now) class }
    {
        shape_number(self.types, self.shaped, class).is_some()
    }
}

// Checks that a property can be given a value.
fn check_writable(part: Part<'_>, spec: &Spec) -> Result<(), ReadError>
    ensures { Gives (λ _. tt) result (if_writable (under (path_of part.entry.path) (codes "name")) (spec_view spec.now)) }
{
    if !spec.is_writable() {
        let path = path_under(part.alloc, part.path, "name")?;
        return Err(ReadError::Refused(DefinitionFault::BadSpec(path, SpecCause::NotWritable)));
    }
    Ok(())
}

// Reads the value that an entry gives.
fn value_in(part: Part<'_>, types: &TypeTree, kind: Kind) -> Result<Given, ReadError>
    requires { IsKnown types.now kind }
    ensures { Gives given_view result (plain_value (under (path_of part.entry.path) (codes "value")) types.now (kind_view kind) (get (codes "value") (view part.entry.value.now))) }
{
    let Some(value) = part.value.get("value") else {
        return Err(bad_shape(part.alloc, part.path, "value")?);
    };
    let value = value_of(part, "value", types, kind, value)?;
    Ok(Given::Value(value))
}

// Reads the value that an entry gives to a property of a class, and adds it to those before.
#[tactic(auto, unfolding(definition_format::specs::Denoted::Prototypes::plain_at))]
fn read_given(
    part: Part<'_>,
    types: &TypeTree,
    specs: &SpecTable,
    class: TypeId,
    given: &mut Vec<GivenValue>,
) -> Result<(), ReadError>
    requires { ArePlain types.now specs.now }
    ensures { Leads result (plain_at (path_of part.entry.path) types.now (specs_of types.now specs.now class) (map given_property given.old.items) (view part.entry.value.now)) (map given_property given.new.items) }
{
    let members = part.members()?;
    let name = part.text("name")?;
    let property = property_named(part, "name", types, specs, class, name)?;
    check_once(part, given.as_slice(), property.slot)?;
    check_writable(part, property.spec)?;
    let value = value_in(part, types, property.spec.kind)?;
    part.check_only(members, &MEMBERS_OF_GIVEN)?;
    given.push(GivenValue {
        slot: property.slot,
        given: value,
    })?;
    Ok(())
}

// The reader for the entries of the properties of a prototype of this class.
#[derive(Clone, Copy)]
struct PlainEntries<'a> {
    types: &'a TypeTree,
    specs: &'a SpecTable,
    class: TypeId,
}

impl<'a> Reads<Vec<GivenValue>> for PlainEntries<'a> {
    ghost use Rattle.std.specs.Prelude.{List, map};
    ghost use Rattle.ui_machine.specs.Definition.Places as machine;
    ghost use Rattle.param_specs.specs.Table.{specs_of};
    ghost use Rattle.definition_format.specs.Meaning.{ArePlain, given_property};
    ghost use Rattle.definition_format.specs.Denoted.Prototypes.{plain_at};

    ghost State = { List machine.GivenProperty };

    ghost seen = { λ given. map given_property given.items };

    ghost Unchanged = { Unit {0} };

    ghost kept = { λ given. tt };

    ghost known = { λ r. ArePlain r.types.now r.specs.now };

    ghost step = { λ r path given d. plain_at path r.types.now (specs_of r.types.now r.specs.now r.class) given d };

    fn read(&self, part: Part<'_>, given: &mut Vec<GivenValue>) -> Result<(), ReadError> {
        read_given(part, self.types, self.specs, self.class, given)
    }
}

// Reads the values that a prototype of this class is given.
#[tactic(auto, unfolding(definition_format::specs::Denoted::Prototypes::all_plain_at, param_specs::specs::Table::specs_of))]
fn read_givens(
    part: Part<'_>,
    types: &TypeTree,
    specs: &SpecTable,
    class: TypeId,
) -> Result<Vec<GivenValue>, ReadError>
    requires { ArePlain types.now specs.now }
    ensures { Gives (λ v. map given_property v.items) result (all_plain_at (path_of part.entry.path) types.now (specs_by types.now (own_of specs.now) class) (view part.entry.value.now)) }
{
    let items = part.entries("properties")?;
    let path = path_under(part.alloc, part.path, "properties")?;
    let list = Entries {
        alloc: part.alloc,
        path: path.as_str(),
        items,
    };
    let mut given = Vec::new(part.alloc);
    let reader = PlainEntries {
        types,
        specs,
        class,
    };
    read_each(&reader, list, &mut given)?;
    Ok(given)
}

// Checks that there is room for another prototype.
fn check_room(prototypes: &Prototypes) -> Result<(), ReadError>
    ensures { Gives (λ _. tt) result (room_for_prototype (map plain_prototype prototypes.now.entries)) }
{
    if prototypes.len() >= MOST_PLACES {
        return Err(ReadError::Refused(DefinitionFault::Limit(DefinitionLimit::Places)));
    }
    Ok(())
}

// Returns whether a prototype has this id.
fn has_prototype(prototypes: &Prototypes, id: &str) -> bool
    ensures { result ≡ is_some (place_named (λ p. p.id) (map plain_prototype prototypes.now.entries) id.now) }
{
    prototype_of(prototypes, id).is_some()
}

// A prototype that is not added yet, its id, and the names of all peers so far.
#[derive(Drop)]
struct NewPrototype {
    id: String,
    body: PrototypeBody,
    named: PeerNames,
}

// The prototypes that are read so far, and the names of their peers.
#[derive(Drop)]
struct PrototypeDraft {
    prototypes: Prototypes,
    named: PeerNames,
}

/// The prototypes of a definition, and the names of their peers.
#[derive(Drop)]
pub struct ReadPrototypes {
    pub prototypes: Prototypes,
    pub named: PeerNames,
}

// Reads a prototype that is not in `prototypes` yet from an entry. `named` has the names of the peers so far.
#[tactic(auto, unfolding(crate::specs::PeerDrafts::stock_in))]
fn prototype_in(
    part: Part<'_>,
    known: &Classes<'_>,
    prototypes: &Prototypes,
    named: PeerNames,
) -> Result<NewPrototype, ReadError>
    requires { ArePlain known.now.types.now known.now.specs.now }
    ensures prototype { Gives new_seen result (stock_in (path_of part.entry.path) known.now.types.now (specs_by known.now.types.now (own_of known.now.specs.now)) (is_shaped_by known.now.types.now (read None known.now.shaped.now)) (record { places = map plain_prototype prototypes.now.entries; is_named = is_named_in named }) (view part.entry.value.now)) }
    ensures new { IfOk result (λ n. place_named (λ p. p.id) (map plain_prototype prototypes.now.entries) (string_bytes n.id) ≡ None) }
{
    let members = part.members()?;
    check_room(prototypes)?;
    let id = part.text("id")?;
    check_id(part, id, has_prototype(prototypes, id))?;
    let class = class_of(part, known.types)?;
    let given = read_givens(part, known.types, known.specs, class)?;
    let own = read_own_peers(part, known.is_shaped(class), named)?;
    part.check_only(members, &MEMBERS)?;
    let id = String::from_str(part.alloc, id)?;
    let body = PrototypeBody {
        class,
        given,
        peers: own.peers,
    };
    Ok(NewPrototype {
        id,
        body,
        named: own.named,
    })
}

// Reads the prototype of an entry and adds it to those before.
#[tactic(auto, unfolding(crate::specs::PeerDrafts::stock_at))]
fn read_entry(
    part: Part<'_>,
    known: &Classes<'_>,
    draft: &mut PrototypeDraft,
) -> Result<(), ReadError>
    requires { ArePlain known.now.types.now known.now.specs.now }
    ensures { Leads result (stock_at (path_of part.entry.path) known.now.types.now (specs_by known.now.types.now (own_of known.now.specs.now)) (is_shaped_by known.now.types.now (read None known.now.shaped.now)) (stock_seen draft.old) (view part.entry.value.now)) (stock_seen draft.new) }
{
    let named = replace(&mut draft.named, PeerNames::new(part.alloc));
    let new = prototype_in(part, known, &draft.prototypes, named)?;
    draft.named = new.named;
    draft.prototypes.insert(new.id, new.body)?;
    Ok(())
}

// The reader for the entries of the prototypes.
#[derive(Clone, Copy)]
struct PrototypeEntries<'a> {
    known: Classes<'a>,
}

impl<'a> Reads<PrototypeDraft> for PrototypeEntries<'a> {
    ghost use Rattle.std.specs.Prelude.{None};
    ghost use Rattle.ui_machine.specs.Seq.{read};
    ghost use Rattle.param_specs.specs.Table.{own_of};
    ghost use Rattle.definition_format.specs.Meaning.{ArePlain};
    ghost use Rattle.definition_format.specs.Denoted.Properties.{specs_by};
    ghost use Rattle.definition_format.specs.Denoted.Shapes.{is_shaped_by};
    ghost use Rattle.read_objects.specs.PeerDrafts.{Stock, stock_at};
    ghost use Rattle.read_objects.specs.PeerViews.{stock_seen};

    ghost State = { Stock };

    ghost seen = { λ draft. stock_seen draft };

    ghost Unchanged = { Unit {0} };

    ghost kept = { λ draft. tt };

    ghost known = { λ r. ArePlain r.known.types.now r.known.specs.now };

    ghost step = { λ r path stock d. stock_at path r.known.types.now (specs_by r.known.types.now (own_of r.known.specs.now)) (is_shaped_by r.known.types.now (read None r.known.shaped.now)) stock d };

    fn read(&self, part: Part<'_>, draft: &mut PrototypeDraft) -> Result<(), ReadError> {
        read_entry(part, &self.known, draft)
    }
}

/// Reads the prototypes of a list, and collects the names of their peers.
///
/// # Errors
///
/// Returns `Refused` with the first fault in document order, or `OutOfMemory` if memory is refused.
pub fn read_prototypes(list: Entries<'_>, known: Classes<'_>) -> Result<ReadPrototypes, ReadError>
    requires { ArePlain known.types.now known.specs.now }
    ensures prototypes { Gives (λ r. map plain_prototype r.prototypes.entries) result (each (at_entry (λ path. prototype_at path known.entry.types.now (specs_by known.entry.types.now (own_of known.entry.specs.now)) (is_shaped_by known.entry.types.now (read None known.entry.shaped.now))) list.entry.path.now) 0 [] (items_view list.entry.items.now)) }
    ensures named { IfOk result (λ r. is_named_in r.named ≡ is_among (peers_of (map plain_prototype r.prototypes.entries))) }
{
    let mut draft = PrototypeDraft {
        prototypes: IndexMap::new(list.alloc),
        named: PeerNames::new(list.alloc),
    };
    read_each(&PrototypeEntries { known }, list, &mut draft)?;
    Ok(ReadPrototypes {
        prototypes: draft.prototypes,
        named: draft.named,
    })
}
