//! Reads the objects of a definition and the bindings between them.

ghost use Rattle.std.specs.Prelude.{◌≡◌, ◌+◌, ◌<◌, ◌≤◌, ◌++◌, false, [], codes, map, length, is_some, string_bytes, None, IfOk};
ghost use Rattle.serde_json.specs.Find.{get};
ghost use Rattle.json_trees.specs.View.{view, items_view};
ghost use Rattle.ui_machine.specs.Definition.Names.{place_named};
ghost use Rattle.std.specs.List.{AllByRecursion, list_any};
ghost use Rattle.std.specs.Str.{bytes_eq};
ghost use Rattle.definition_format.specs.Meaning.{ArePlain, HasOwnName, name_bytes, plain_object, plain_program, plain_prototype, place_number, places_of};
ghost use Rattle.param_specs.specs.Table.{own_of};
ghost use Rattle.definition_format.specs.Refusals.{Gives, Leads};
ghost use Rattle.definition_format.specs.Document.{under, path_of, is_among, each, at_entry};
ghost use Rattle.ui_machine.specs.Seq.{read};
ghost use Rattle.definition_format.specs.Denoted.Enums.{unless_there};
ghost use Rattle.definition_format.specs.Denoted.Names.{unless_taken};
ghost use Rattle.definition_format.specs.Denoted.Peers.{one_peer, peer_or, peers_of};
ghost use Rattle.definition_format.specs.Denoted.Shapes.{is_shaped_by};
ghost use Rattle.read_objects.specs.PeerViews.{is_named_in};
ghost use Rattle.definition_format.specs.Denoted.Objects.{room_for_object, unless_abstract, class_at_key, built_view, no_objects, place_at, added_at, object_at};
ghost use Rattle.definition_format.specs.Denoted.{scope_with};
ghost use Rattle.read_objects.specs.ScopeView.{scope_of, built_of, IsReady};
ghost use Rattle.definition_format.specs.Denoted.Entries.{most_levels, object_names};
ghost use Rattle.definition_format.specs.Denoted.Properties.{specs_by};

use crate::attached::read_attached;
use crate::bind_lists::BindList;
use crate::filled::read_properties;
use crate::peer_names::PeerNames;
use crate::prototypes::{Classes, ReadPrototypes};
use crate::targets::Target;
use definition_format::{
    Bind, DefinitionFault, DefinitionLimit, ObjectBody, Path, ReadError, TypeCause,
};
use definitions::places::{MOST_PLACES, Objects, Prototypes, place_in};
use definitions::programs::Programs;
use indexmap::IndexMap;
use json_trees::Value;
use read_parts::document::{Entries, Part, bad_shape, path_text, path_under, unknown_name};
use read_parts::entries::{MOST_LEVELS, ObjectNames};
use read_parts::names::{is_name, name_under};
use type_tree::{TypeId, TypeTree};
use ui_machine::Place;

const MEMBERS: [&str; 6] = ["id", "class", "peer", "properties", "signals", "children"];

// Checks that there is room for another object, first among the 512 places and then among the `most` objects that may live at a time.
fn check_room(objects: &Objects, prototypes: &Prototypes, most: usize) -> Result<(), ReadError>
    requires { length prototypes.now.entries ≤ 512 }
    ensures room { Gives (λ _. tt) result (room_for_object most (map plain_prototype prototypes.now.entries) (map plain_object objects.now.entries)) }
    ensures below { IfOk result (λ _. length objects.now.entries + length prototypes.now.entries < 512) }
{
    if objects.len() >= MOST_PLACES - prototypes.len() {
        return Err(ReadError::Refused(DefinitionFault::Limit(DefinitionLimit::Places)));
    }
    if objects.len() >= most {
        return Err(ReadError::Refused(DefinitionFault::Limit(DefinitionLimit::Objects)));
    }
    Ok(())
}

// Returns whether an object or a prototype has this id.
fn has_place(objects: &Objects, prototypes: &Prototypes, id: &str) -> bool
    requires { length objects.now.entries + length prototypes.now.entries ≤ 512 }
    ensures { result ≡ is_some (place_named (λ p. p.id) (places_of objects.now.entries prototypes.now.entries) id.now) }
{
    place_in(objects, prototypes, id).is_some()
}

// Checks that an id is a valid name and not taken.
pub(crate) fn check_id(part: Part<'_>, id: &str, taken: bool) -> Result<(), ReadError>
    ensures id { Gives (λ _. tt) result (unless_taken (under (path_of part.entry.path) (codes "id")) id.now taken) }
    ensures new { IfOk result (λ _. taken ≡ false) }
{
    if !is_name(id) {
        return Err(bad_shape(part.alloc, part.path, "id")?);
    }
    if taken {
        return Err(ReadError::Refused(DefinitionFault::Duplicate(path_under(
            part.alloc, part.path, "id",
        )?)));
    }
    Ok(())
}

// Checks that a class can have objects, which is to say that it is not abstract.
fn check_concrete(part: Part<'_>, types: &TypeTree, class: TypeId) -> Result<TypeId, ReadError>
    ensures { Gives (λ t. t) result (unless_abstract (under (path_of part.entry.path) (codes "class")) types.now class) }
{
    if types.flags(class).is_abstract {
        let path = path_under(part.alloc, part.path, "class")?;
        return Err(ReadError::Refused(DefinitionFault::BadType(path, TypeCause::Abstract)));
    }
    Ok(class)
}

// Reads the class of an object or a prototype.
pub(crate) fn class_of(part: Part<'_>, types: &TypeTree) -> Result<TypeId, ReadError>
    ensures { Gives (λ t. t) result (class_at_key (path_of part.entry.path) types.now (view part.entry.value.now)) }
{
    let name = part.text("class")?;
    match types.find_class(name) {
        Some(class) => {
            let class = check_concrete(part, types, class)?;
            Ok(class)
        }
        None => Err(unknown_name(part, "class", name)?),
    }
}

// Returns whether one of these peers has this name.
fn is_named(peers: &[String], name: &str) -> bool
    ensures { result ≡ list_any (λ peer. bytes_eq (string_bytes peer) name.now) peers.now }
{
    peers.iter().any(|peer| peer.as_str() == name)
}

// Returns whether a peer of one of the objects has this name.
fn has_peer(objects: &Objects, name: &str) -> bool
    ensures { result ≡ is_among (peers_of (map plain_object objects.now.entries)) name.now }
{
    'objects: for number in 0..objects.len() {
        if let Some((_, body)) = objects.get_index(number) {
            if is_named(body.peers.as_slice(), name) {
                return true;
            }
        }
    }
    false
}

// Refuses a peer as `Duplicate` if its name is taken.
fn check_unnamed(part: Part<'_>, is_taken: bool) -> Result<(), ReadError>
    ensures { Gives (λ _. tt) result (unless_there (under (path_of part.entry.path) (codes "peer")) is_taken) }
{
    if is_taken {
        let path = path_under(part.alloc, part.path, "peer")?;
        return Err(ReadError::Refused(DefinitionFault::Duplicate(path)));
    }
    Ok(())
}

// An object that is not added yet, and its id.
#[derive(Drop)]
struct NewObject {
    id: String,
    body: ObjectBody,
}

// The objects that are read so far, and the bindings between them.
#[derive(Drop)]
struct Built {
    objects: Objects,
    bindings: BindList,
}

/// The objects of a definition, and its bindings in document order.
#[derive(Drop)]
pub struct ReadObjects {
    pub objects: Objects,
    pub bindings: Vec<Bind>,
}

// The context in which objects are read: the types with their properties and shapes, the programs, the prototypes with the names of their
// peers, the number of objects that may live at a time, and the names of all objects.
#[derive(Clone, Copy)]
struct Scope<'a, 'b> {
    classes: Classes<'a>,
    programs: &'a Programs,
    prototypes: &'a Prototypes,
    named: &'a PeerNames,
    most: usize,
    names: &'b ObjectNames<'a>,
}

impl<'a, 'b> Scope<'a, 'b> {
    // Returns whether a prototype or an object so far has a peer of this name.
    fn has_peer(&self, objects: &Objects, name: &str) -> bool
        requires { IsReady self.now }
        ensures { result ≡ is_among (peers_of (scope_of self.now).prototypes ++ peers_of (map plain_object objects.now.entries)) name.now }
    {
        self.named.has(name) || has_peer(objects, name)
    }

    // Reads the peer that a value names.
    #[tactic(auto, unfolding(definition_format::specs::Denoted::Peers::one_peer, definition_format::specs::Denoted::Peers::peer_at))]
    fn read_peer(
        &self,
        part: Part<'_>,
        objects: &Objects,
        value: &Value,
    ) -> Result<Vec<String>, ReadError>
        requires { IsReady self.now }
        ensures { Gives (λ v. name_bytes v.items) result (one_peer (under (path_of part.entry.path) (codes "peer")) (peers_of (scope_of self.now).prototypes ++ peers_of (map plain_object objects.now.entries)) (view value.now)) }
    {
        let name = name_under(part, "peer", value)?;
        check_unnamed(part, self.has_peer(objects, name))?;
        let name = String::from_str(part.alloc, name)?;
        let mut peers = Vec::new(part.alloc);
        peers.push(name)?;
        Ok(peers)
    }

    // Reads the peer of an object of this class. There must be one exactly if the class has a shape.
    fn read_peers(
        &self,
        part: Part<'_>,
        class: TypeId,
        objects: &Objects,
    ) -> Result<Vec<String>, ReadError>
        requires { IsReady self.now }
        ensures { Gives (λ v. name_bytes v.items) result (peer_or (under (path_of part.entry.path) (codes "peer")) ((scope_of self.now).has_shape class) (peers_of (scope_of self.now).prototypes ++ peers_of (map plain_object objects.now.entries)) (get (codes "peer") (view part.entry.value.now))) }
    {
        let is_shaped = self.classes.is_shaped(class);
        match part.value.get("peer") {
            Some(value) if is_shaped => self.read_peer(part, objects, value),
            None if !is_shaped => Ok(Vec::new(part.alloc)),
            _ => Err(bad_shape(part.alloc, part.path, "peer")?),
        }
    }

    // Reads the object of an entry. `parent` is the place of its parent if it is a child. Its bindings are appended to `bindings`.
    #[tactic(auto, unfolding(definition_format::specs::Denoted::Objects::place_at))]
    fn read_object(
        &self,
        part: Part<'_>,
        parent: Option<Place>,
        objects: &Objects,
        bindings: &mut BindList,
    ) -> Result<NewObject, ReadError>
        requires { IsReady self.now }
        ensures object { Gives (λ o. record { place = plain_object (o.id, o.body); bindings = bindings.new }) result (place_at (path_of part.entry.path) (scope_of self.now) (place_number parent) (record { places = map plain_object objects.now.entries; bindings = bindings.old }) (view part.entry.value.now)) }
        ensures new { IfOk result (λ o. place_named (λ p. p.id) (map plain_object objects.now.entries) (string_bytes o.id) ≡ None) }
        ensures room { IfOk result (λ o. length objects.now.entries < 512) }
    {
        check_room(objects, self.prototypes, self.most)?;
        let id = part.text("id")?;
        check_id(part, id, has_place(objects, self.prototypes, id))?;
        let class = class_of(part, self.classes.types)?;
        let peers = self.read_peers(part, class, objects)?;
        let target = Target {
            types: self.classes.types,
            specs: self.classes.specs,
            objects: self.names,
            place: Place(objects.len() as u16),
            class,
        };
        let filled = read_properties(part, &target, bindings)?;
        let signals = read_attached(part, self.programs, self.names)?;
        let id = String::from_str(part.alloc, id)?;
        let body = ObjectBody {
            class,
            parent,
            peers,
            given: filled.given,
            signals,
        };
        Ok(NewObject { id, body })
    }

    // Reads the object of an entry, adds it to those before, and returns its place.
    fn add_object(
        &self,
        part: Part<'_>,
        parent: Option<Place>,
        built: &mut Built,
    ) -> Result<Place, ReadError>
        requires { IsReady self.now }
        ensures objects { Leads result (added_at (path_of part.entry.path) (scope_of self.now) (place_number parent) (built_of built.old) (view part.entry.value.now)) (built_of built.new) }
        ensures place { IfOk result (λ place. place.0 ≡ length (built_of built.old).places) }
    {
        let object = self.read_object(part, parent, &built.objects, &mut built.bindings)?;
        let place = Place(built.objects.len() as u16);
        built.objects.insert(object.id, object.body)?;
        Ok(place)
    }

    // Reads the object of an entry and adds it, then its children. Lists of objects nest at most `levels` deep.
    #[cycle(objects)]
    #[tactic(auto, unfolding(definition_format::specs::Denoted::Objects::object_at))]
    fn read_entry(
        &self,
        part: Part<'_>,
        levels: usize,
        parent: Option<Place>,
        built: &mut Built,
    ) -> Result<(), ReadError>
        requires { IsReady self.now }
        ensures { Leads result (object_at levels (scope_of self.now) (place_number parent) (path_of part.entry.path) (built_of built.old) (view part.entry.value.now)) (built_of built.new) }
    {
        if levels == 0 {
            return Err(ReadError::Refused(DefinitionFault::Shape(path_text(
                part.alloc, part.path,
            )?)));
        }
        let members = part.members()?;
        let place = self.add_object(part, parent, built)?;
        let items = part.entries("children")?;
        let path = path_under(part.alloc, part.path, "children")?;
        let list = Entries {
            alloc: part.alloc,
            path: path.as_str(),
            items,
        };
        self.read_list(list, levels - 1, Some(place), built)?;
        part.check_only(members, &MEMBERS)?;
        Ok(())
    }

    // Reads the objects of a list and adds them, each followed by its children.
    #[cycle(objects)]
    fn read_list(
        &self,
        list: Entries<'_>,
        levels: usize,
        parent: Option<Place>,
        built: &mut Built,
    ) -> Result<(), ReadError>
        requires { IsReady self.now }
        ensures { Leads result (each (at_entry (object_at levels (scope_of self.now) (place_number parent)) list.entry.path.now) 0 (built_of built.old) (items_view list.entry.items.now)) (built_of built.new) }
    {
        'items: for (index, value) in list.items.iter().enumerate() {
            let path = Path {
                base: list.path,
                index: Some(index),
            };
            let part = Part {
                alloc: list.alloc,
                path,
                value,
            };
            self.read_entry(part, levels, parent, built)?;
        }
        Ok(())
    }
}

// Reads the objects of a list in a scope.
fn read_within(list: Entries<'_>, scope: &Scope<'_, '_>) -> Result<ReadObjects, ReadError>
    requires { IsReady scope.now }
    ensures { Gives (λ v. built_view v.objects.entries v.bindings.items) result (each (at_entry (object_at most_levels (scope_of scope.now) None) list.entry.path.now) 0 no_objects (items_view list.entry.items.now)) }
{
    let mut built = Built {
        objects: IndexMap::new(list.alloc),
        bindings: BindList::new(list.alloc),
    };
    scope.read_list(list, MOST_LEVELS, None, &mut built)?;
    Ok(ReadObjects {
        objects: built.objects,
        bindings: built.bindings.into_binds(),
    })
}

// Reads the objects of a list with a scope made of these parts. `most` objects may live at a time.
fn read_named<'a, 'b>(
    list: Entries<'_>,
    classes: Classes<'a>,
    programs: &'a Programs,
    prototypes: &'a ReadPrototypes,
    most: usize,
    names: &'b ObjectNames<'a>,
) -> Result<ReadObjects, ReadError>
    requires plain { ArePlain classes.types.now classes.specs.now }
    requires named { AllByRecursion HasOwnName programs.now.entries }
    requires few { length programs.now.entries ≤ 256 }
    requires few_prototypes { length prototypes.now.prototypes.entries ≤ 512 }
    requires peers { is_named_in prototypes.now.named ≡ is_among (peers_of (map plain_prototype prototypes.now.prototypes.entries)) }
    requires names { names.now ≡ object_names (items_view list.items.now) }
    ensures { Gives (λ v. built_view v.objects.entries v.bindings.items) result (each (at_entry (object_at most_levels (scope_with classes.entry.types.now (specs_by classes.entry.types.now (own_of classes.entry.specs.now)) (is_shaped_by classes.entry.types.now (read None classes.entry.shaped.now)) (map plain_program programs.now.entries) (map plain_prototype prototypes.now.prototypes.entries) most (items_view list.entry.items.now)) None) list.entry.path.now) 0 no_objects (items_view list.entry.items.now)) }
{
    let scope = Scope {
        classes,
        programs,
        prototypes: &prototypes.prototypes,
        named: &prototypes.named,
        most,
        names,
    };
    read_within(list, &scope)
}

/// Reads the objects of a list and the bindings between them. No object may have the id of a prototype, and all of them share the 512
/// places. `most` objects may live at a time.
///
/// # Errors
///
/// Returns `Refused` with the first fault in document order, or `OutOfMemory` if memory is refused.
pub fn read_objects<'a>(
    list: Entries<'a>,
    classes: Classes<'a>,
    programs: &'a Programs,
    prototypes: &'a ReadPrototypes,
    most: usize,
) -> Result<ReadObjects, ReadError>
    requires plain { ArePlain classes.types.now classes.specs.now }
    requires named { AllByRecursion HasOwnName programs.now.entries }
    requires few { length programs.now.entries ≤ 256 }
    requires few_prototypes { length prototypes.now.prototypes.entries ≤ 512 }
    requires peers { is_named_in prototypes.now.named ≡ is_among (peers_of (map plain_prototype prototypes.now.prototypes.entries)) }
    ensures { Gives (λ v. built_view v.objects.entries v.bindings.items) result (each (at_entry (object_at most_levels (scope_with classes.entry.types.now (specs_by classes.entry.types.now (own_of classes.entry.specs.now)) (is_shaped_by classes.entry.types.now (read None classes.entry.shaped.now)) (map plain_program programs.now.entries) (map plain_prototype prototypes.now.prototypes.entries) most (items_view list.entry.items.now)) None) list.entry.path.now) 0 no_objects (items_view list.entry.items.now)) }
{
    let names = ObjectNames::new(list.alloc, list.items)?;
    read_named(list, classes, programs, prototypes, most, &names)
}
