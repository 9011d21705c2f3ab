//! Reads the handlers that objects have for signals.

ghost use Rattle.std.specs.Prelude.{◌≡◌, ◌≤◌, codes, length, map, option_map, string_bytes};
ghost use Rattle.std.specs.List.{AllByRecursion};
ghost use Rattle.serde_json.specs.Find.{as_str, get};
ghost use Rattle.json_trees.specs.View.{view, items_view};
ghost use Rattle.definition_format.specs.Meaning.{HasOwnName, attached_view, place_number, plain_program};
ghost use Rattle.definition_format.specs.Refusals.{Gives, Leads};
ghost use Rattle.definition_format.specs.Document.{under, path_of};
ghost use Rattle.definition_format.specs.Denoted.Attached.{name_of, program_under, some_detail, detail_or, some_data, data_or, some_truth, truth_if, is_swapped, attached_in, attached_at, all_attached};

use definition_format::{Attached, ReadError};
use definitions::programs::{Programs, number_of};
use json_trees::Value;
use read_parts::document::{Entries, Part, bad_shape, path_under, unknown_name};
use read_parts::entries::{ObjectNames, at_most};
use read_parts::names::is_name;
use read_parts::reads::{Reads, read_each};
use ui_machine::{Place, ProgramId};

const MEMBERS: [&str; 6] = ["name", "handler", "detail", "after", "swapped", "object"];

// Returns the name under `key`, which is that of a program, a detail, an object or a binding. `text` is the member's text, if it has one.
pub(crate) fn name_of<'a>(
    part: Part<'_>,
    key: &str,
    text: Option<&'a str>,
) -> Result<&'a str, ReadError>
    ensures { Gives (λ s. s.now) result (name_of (under (path_of part.entry.path) key.now) (option_map (λ s. s.now) text.entry)) }
{
    let Some(name) = text else {
        return Err(bad_shape(part.alloc, part.path, key)?);
    };
    if !is_name(name) {
        return Err(bad_shape(part.alloc, part.path, key)?);
    }
    Ok(name)
}

// Returns the number of the program that the member `key` names.
#[tactic(auto, unfolding(definition_format::specs::Denoted::Attached::program_under))]
fn program_under(part: Part<'_>, key: &str, programs: &Programs) -> Result<ProgramId, ReadError>
    requires named { AllByRecursion HasOwnName programs.now.entries }
    requires few { length programs.now.entries ≤ 256 }
    ensures { Gives (λ n. n) result (program_under (path_of part.entry.path) (map plain_program programs.now.entries) key.now (view part.entry.value.now)) }
{
    let name = name_of(part, key, part.value.get(key).and_then(Value::as_str))?;
    match number_of(programs, name) {
        Some(number) => Ok(number),
        None => Err(unknown_name(part, key, name)?),
    }
}

// Reads the `detail` of a handler, if there is one.
#[tactic(auto, unfolding(definition_format::specs::Denoted::Attached::some_detail))]
fn detail_of(part: Part<'_>) -> Result<Option<String>, ReadError>
    ensures { Gives (option_map (λ s. string_bytes s)) result (detail_or (under (path_of part.entry.path) (codes "detail")) (get (codes "detail") (view part.entry.value.now))) }
{
    let Some(value) = part.value.get("detail") else {
        return Ok(None);
    };
    let name = name_of(part, "detail", value.as_str())?;
    let detail = String::from_str(part.alloc, name)?;
    Ok(Some(detail))
}

// Reads the `object` of a handler, which is its data, if there is one.
#[tactic(auto, unfolding(definition_format::specs::Denoted::Attached::some_data))]
fn data_of(part: Part<'_>, objects: &ObjectNames<'_>) -> Result<Option<Place>, ReadError>
    ensures { Gives place_number result (data_or (under (path_of part.entry.path) (codes "object")) objects.now (get (codes "object") (view part.entry.value.now))) }
{
    let Some(value) = part.value.get("object") else {
        return Ok(None);
    };
    let id = name_of(part, "object", value.as_str())?;
    match objects.place(id) {
        Some(place) => Ok(Some(Place(at_most(512, place)))),
        None => Err(unknown_name(part, "object", id)?),
    }
}

// Returns the truth value under `key`, if there is one.
#[tactic(auto, unfolding(definition_format::specs::Denoted::Attached::some_truth))]
fn truth_if(part: Part<'_>, key: &str) -> Result<Option<bool>, ReadError>
    ensures { Gives (λ t. t) result (truth_if (under (path_of part.entry.path) key.now) (get key.now (view part.entry.value.now))) }
{
    let Some(value) = part.value.get(key) else {
        return Ok(None);
    };
    match value.as_bool() {
        Some(truth) => Ok(Some(truth)),
        None => Err(bad_shape(part.alloc, part.path, key)?),
    }
}

// Returns whether the data comes first. If `swapped` is absent, it does if there is data.
fn is_swapped(with: Option<Place>, swapped: Option<bool>) -> bool
    ensures { result ≡ is_swapped (place_number with) swapped }
{
    match swapped {
        Some(swapped) => swapped,
        None => with.is_some(),
    }
}

// Reads a handler from an entry.
#[tactic(auto, unfolding(definition_format::specs::Denoted::Attached::attached_in))]
fn attached_in(
    part: Part<'_>,
    programs: &Programs,
    objects: &ObjectNames<'_>,
) -> Result<Attached, ReadError>
    requires named { AllByRecursion HasOwnName programs.now.entries }
    requires few { length programs.now.entries ≤ 256 }
    ensures { Gives attached_view result (attached_in (path_of part.entry.path) (map plain_program programs.now.entries) objects.now (view part.entry.value.now)) }
{
    let members = part.members()?;
    let signal = part.text("name")?;
    let program = program_under(part, "handler", programs)?;
    let detail = detail_of(part)?;
    let after = part.truth("after")?;
    let swapped = truth_if(part, "swapped")?;
    let with = data_of(part, objects)?;
    part.check_only(members, &MEMBERS)?;
    let signal = String::from_str(part.alloc, signal)?;
    Ok(Attached {
        signal,
        detail,
        program,
        after,
        swapped: is_swapped(with, swapped),
        with,
    })
}

// The reader for the handlers of an object, among all programs and all objects.
#[derive(Clone, Copy)]
struct AttachedEntries<'a> {
    programs: &'a Programs,
    objects: &'a ObjectNames<'a>,
}

impl<'a> Reads<Vec<Attached>> for AttachedEntries<'a> {
    ghost use Rattle.std.specs.Prelude.{List, map, length, ◌≤◌};
    ghost use Rattle.std.specs.List.{AllByRecursion};
    ghost use Rattle.ui_machine.specs.Definition.Places as machine;
    ghost use Rattle.definition_format.specs.Meaning.{HasOwnName, attached_view, plain_program};
    ghost use Rattle.definition_format.specs.Denoted.Attached.{attached_at};

    ghost State = { List machine.Attached };

    ghost seen = { λ signals. map attached_view signals.items };

    ghost Unchanged = { Unit {0} };

    ghost kept = { λ signals. tt };

    ghost known = { λ r. AllByRecursion HasOwnName r.programs.now.entries × (length r.programs.now.entries ≤ 256) };

    ghost step = { λ r path signals d. attached_at path (map plain_program r.programs.now.entries) r.objects.now signals d };

    #[tactic(auto, unfolding(definition_format::specs::Denoted::Attached::attached_at), using(std::proofs::lemmas::List::map_push))]
    fn read(&self, part: Part<'_>, signals: &mut Vec<Attached>) -> Result<(), ReadError> {
        let signal = attached_in(part, self.programs, self.objects)?;
        signals.push(signal)?;
        Ok(())
    }
}

// Reads the handlers of an object from its entry.
#[tactic(auto, unfolding(definition_format::specs::Denoted::Attached::all_attached))]
pub(crate) fn read_attached(
    part: Part<'_>,
    programs: &Programs,
    objects: &ObjectNames<'_>,
) -> Result<Vec<Attached>, ReadError>
    requires named { AllByRecursion HasOwnName programs.now.entries }
    requires few { length programs.now.entries ≤ 256 }
    ensures { Gives (λ v. map attached_view v.items) result (all_attached (path_of part.entry.path) (map plain_program programs.now.entries) objects.now (view part.entry.value.now)) }
{
    let items = part.entries("signals")?;
    let path = path_under(part.alloc, part.path, "signals")?;
    let list = Entries {
        alloc: part.alloc,
        path: path.as_str(),
        items,
    };
    let mut signals = Vec::new(part.alloc);
    let reader = AttachedEntries { programs, objects };
    read_each(&reader, list, &mut signals)?;
    Ok(signals)
}
