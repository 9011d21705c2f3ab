//! Reads the limits that a definition sets for its sessions.

ghost use Rattle.std.specs.Prelude.{◌≡◌, ◌≤◌, [], pos, codes, IfOk};
ghost use Rattle.json_trees.specs.View.{view};
ghost use Rattle.serde_json.specs.Find.{get};
ghost use Rattle.g_values.specs.Reading.{whole_number};
ghost use Rattle.definition_format.specs.Meaning.{AreLimits, default_limits};
ghost use Rattle.definition_format.specs.Refusals.{Gives};
ghost use Rattle.definition_format.specs.Document.{path_of, under};
ghost use Rattle.definition_format.specs.Denoted.SessionLimits.{limit_within, given_limit, limit_or, given_limits, limits_in};

use definition_format::{DefinitionFault, DefinitionLimit, Path, ReadError};
use json_trees::Value;
use read_parts::document::{Part, bad_shape};
use read_parts::numbers::whole_number;
use ui_machine::{LEAST_OBJECTS, Limits, MOST_HANDLERS, MOST_OBJECTS};

const MEMBERS: [&str; 2] = ["objects", "handlers"];

// The number of objects that may live at a time if a definition sets no limit.
const DEFAULT_OBJECTS: u32 = 64;

// The least and the greatest number that a limit may be.
#[derive(Clone, Copy)]
struct Bounds {
    which: DefinitionLimit,
    least: u32,
    most: u32,
}

// Returns a number as a limit if it is within the bounds.
fn limit_within(bounds: Bounds, number: i128) -> Result<u32, ReadError>
    ensures limit { Gives (λ n. n) result (limit_within bounds.which (pos bounds.least) (pos bounds.most) number) }
    ensures low { IfOk result (λ n. bounds.least ≤ n) }
    ensures high { IfOk result (λ n. n ≤ bounds.most) }
{
    if number < i128::from(bounds.least) || number > i128::from(bounds.most) {
        return Err(ReadError::Refused(DefinitionFault::Limit(bounds.which)));
    }
    Ok(number as u32)
}

// Reads the limit that a member gives.
#[tactic(auto, unfolding(definition_format::specs::Denoted::SessionLimits::given_limit))]
fn given_limit(part: Part<'_>, key: &str, bounds: Bounds, value: &Value) -> Result<u32, ReadError>
    ensures limit { Gives (λ n. n) result (given_limit (under (path_of part.entry.path) key.now) bounds.which (pos bounds.least) (pos bounds.most) (view value.now)) }
    ensures low { IfOk result (λ n. bounds.least ≤ n) }
    ensures high { IfOk result (λ n. n ≤ bounds.most) }
{
    let Some(number) = whole_number(value) else {
        return Err(bad_shape(part.alloc, part.path, key)?);
    };
    let limit = limit_within(bounds, number)?;
    Ok(limit)
}

// Reads the limit under `key`, or returns `own` if it is absent.
fn limit_or(part: Part<'_>, key: &str, bounds: Bounds, own: u32) -> Result<u32, ReadError>
    requires least { bounds.least ≤ own }
    requires most { own ≤ bounds.most }
    ensures limit { Gives (λ n. n) result (limit_or (under (path_of part.entry.path) key.now) bounds.which (pos bounds.least) (pos bounds.most) own (get key.now (view part.entry.value.now))) }
    ensures low { IfOk result (λ n. bounds.least ≤ n) }
    ensures high { IfOk result (λ n. n ≤ bounds.most) }
{
    match part.value.get(key) {
        None => Ok(own),
        Some(value) => given_limit(part, key, bounds, value),
    }
}

// Reads the limits that a value gives.
#[tactic(auto, unfolding(definition_format::specs::Denoted::SessionLimits::given_limits))]
fn given_limits(part: Part<'_>) -> Result<Limits, ReadError>
    ensures limits { Gives (λ l. l) result (given_limits (path_of part.entry.path) (view part.entry.value.now)) }
    ensures checked { IfOk result (λ l. AreLimits l) }
{
    let members = part.members()?;
    let of_objects = Bounds {
        which: DefinitionLimit::Objects,
        least: LEAST_OBJECTS,
        most: MOST_OBJECTS,
    };
    let objects = limit_or(part, "objects", of_objects, DEFAULT_OBJECTS)?;
    let of_handlers = Bounds {
        which: DefinitionLimit::Handlers,
        least: 0,
        most: MOST_HANDLERS,
    };
    let handlers = limit_or(part, "handlers", of_handlers, 0)?;
    part.check_only(members, &MEMBERS)?;
    Ok(Limits { objects, handlers })
}

// Reads the `limits` of a definition, or returns the default ones if they are absent.
pub(crate) fn limits_of(part: Part<'_>) -> Result<Limits, ReadError>
    requires { path_of part.path ≡ [] }
    ensures limits { Gives (λ l. l) result (limits_in (view part.entry.value.now)) }
    ensures checked { IfOk result (λ l. AreLimits l) }
{
    let Some(value) = part.value.get("limits") else {
        return Ok(Limits {
            objects: DEFAULT_OBJECTS,
            handlers: 0,
        });
    };
    let path = Path {
        base: "/limits",
        index: None,
    };
    given_limits(Part {
        alloc: part.alloc,
        path,
        value,
    })
}
