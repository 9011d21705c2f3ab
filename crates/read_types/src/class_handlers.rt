//! Reads the programs that classes name for signals.

ghost use Rattle.std.specs.Prelude.{◌≡◌, option_map, string_bytes, IfOk};
ghost use Rattle.std.specs.BTreeSet.{contains_text};
ghost use Rattle.serde_json.specs.Find.{as_str};
ghost use Rattle.json_trees.specs.View.{view, items_view};
ghost use Rattle.ui_machine.specs.Definition.Names.{canonical};
ghost use Rattle.signal_core.specs.Table.{named_of};
ghost use Rattle.definition_format.specs.Refusals.{Gives, Leads, IsRefusal, or_refused, shape, unknown};
ghost use Rattle.definition_format.specs.Document.{each, at_entry, nth, path_of};
ghost use Rattle.definition_format.specs.Denoted.ClassHandlers.{two_in, pair_at, program_at, handler_for, class_handler_at, class_handlers_at};
ghost use Rattle.definition_format.specs.Denoted.Enums.{unless_there};
ghost use Rattle.read_types.specs.HandlerDrafts.{handler_part_in};

use crate::enums::{bad_part, check_new, name_part};
use crate::handler_drafts::{HandlerDraft, NewHandler, names_of};
use definition_format::{DefinitionFault, ReadError};
use json_trees::Value;
use read_parts::document::{Entries, Part, path_text, path_under, path_within};
use read_parts::entries::ProgramNames;
use read_parts::reads::{Reads, read_each};
use signal_core::{SignalTable, canonical_text};
use std::collections::BTreeSet;
use std::mem;
use type_tree::TypeId;
use ui_machine::ProgramId;

// Returns the signal and the program of a class handler, which are exactly two values.
fn two_in(items: &[Value]) -> Option<(&Value, &Value)>
    ensures { option_map (λ w. (view w.0.now, view w.1.now)) result ≡ two_in (items_view items.now) }
{
    match items {
        [signal, program] => Some((signal, program)),
        [] => None,
        [_] => None,
        [_, _, _, ..] => None,
    }
}

// Returns the two parts of a class handler's entry.
fn parts_of<'a>(part: Part<'a>) -> Result<(&'a Value, &'a Value), ReadError>
    ensures { Gives (λ w. (view w.0.now, view w.1.now)) result (pair_at (path_of part.entry.path) (view part.entry.value.now)) }
{
    if let Some(items) = part.value.as_array() {
        if let Some(parts) = two_in(items.as_slice()) {
            return Ok(parts);
        }
    }
    Err(ReadError::Refused(DefinitionFault::Shape(path_text(part.alloc, part.path)?)))
}

// Reads the name of a signal, which is part 0 of an entry.
fn signal_part<'a>(part: Part<'_>, value: &'a Value) -> Result<&'a str, ReadError>
    ensures { Gives (λ s. s.now) result (or_refused (shape (nth (path_of part.entry.path) 0)) (as_str (view value.now))) }
{
    match value.as_str() {
        Some(name) => Ok(name),
        None => Err(bad_part(part, 0)?),
    }
}

// Makes the refusal `Unknown` at part 1 of an entry, with a name that no program has.
fn unknown_program(part: Part<'_>, name: &str) -> Result<ReadError, ReadError>
    ensures { IsRefusal (unknown (nth (path_of part.entry.path) 1) name.now) result }
{
    let path = path_within(part.alloc, part.path, 1)?;
    let name = String::from_str(part.alloc, name)?;
    Ok(ReadError::Refused(DefinitionFault::Unknown(path, name)))
}

// Returns the program that part 1 of an entry names.
#[tactic(auto, unfolding(definition_format::specs::Denoted::ClassHandlers::program_at))]
fn program_part(
    part: Part<'_>,
    programs: &ProgramNames<'_>,
    value: &Value,
) -> Result<ProgramId, ReadError>
    ensures { Gives (λ n. n) result (program_at (nth (path_of part.entry.path) 1) programs.now (view value.now)) }
{
    let name = name_part(part, 1, value)?;
    match programs.number(name) {
        Some(number) => Ok(number),
        None => Err(unknown_program(part, name)?),
    }
}

// Returns the canonical name of a signal, which must not be in `named`.
fn new_name(part: Part<'_>, named: &BTreeSet<String>, signal: &str) -> Result<String, ReadError>
    ensures new { Gives (λ _. tt) result (unless_there (nth (path_of part.entry.path) 0) (contains_text named.now (canonical signal.now))) }
    ensures name { IfOk result (λ s. string_bytes s ≡ canonical signal.now) }
{
    let name = canonical_text(part.alloc, signal)?;
    check_new(part, 0, named.contains(name.as_str()))?;
    Ok(name)
}

// Reads a class handler from an entry. `named` has the signals for which the class has handlers already.
#[tactic(auto, unfolding(crate::specs::HandlerDrafts::handler_part_in))]
fn class_handler_in<'a>(
    part: Part<'a>,
    programs: &ProgramNames<'_>,
    named: &BTreeSet<String>,
) -> Result<NewHandler<'a>, ReadError>
    ensures handler { Gives (λ h. handler_for h.signal.now h.program) result (handler_part_in (path_of part.entry.path) programs.now (λ name. contains_text named.now name) (view part.entry.value.now)) }
    ensures name { IfOk result (λ h. string_bytes h.name ≡ canonical h.signal.now) }
{
    let (signal, program) = parts_of(part)?;
    let signal = signal_part(part, signal)?;
    let name = new_name(part, named, signal)?;
    let program = program_part(part, programs, program)?;
    Ok(NewHandler {
        signal,
        name,
        program,
    })
}

// The reader for the entries of a class's handlers.
#[derive(Clone, Copy)]
struct ClassHandlerEntries<'a> {
    programs: &'a ProgramNames<'a>,
    t: TypeId,
}

impl<'a> Reads<HandlerDraft> for ClassHandlerEntries<'a> {
    ghost use Rattle.std.specs.Prelude.{List};
    ghost use Rattle.ui_machine.specs.Definition.Signals as machine;
    ghost use Rattle.read_types.specs.HandlerDrafts.{HandlerParts, handler_part_at, parts_seen};

    ghost State = { HandlerParts };

    ghost seen = { λ draft. parts_seen draft };

    ghost Unchanged = { List (List machine.Signal) };

    ghost kept = { λ draft. draft.signals.signals };

    ghost known = { λ r. Unit {0} };

    ghost step = { λ r path p d. handler_part_at path r.programs.now r.t p d };

    #[tactic(auto, unfolding(crate::specs::HandlerDrafts::handler_part_at))]
    fn read(&self, part: Part<'_>, draft: &mut HandlerDraft) -> Result<(), ReadError> {
        let handler = class_handler_in(part, self.programs, &draft.named)?;
        draft.add(self.t, handler)?;
        Ok(())
    }
}

// Reads the class handlers of a list and adds them to a class.
fn read_class_handlers(
    list: Entries<'_>,
    programs: &ProgramNames<'_>,
    signals: &mut SignalTable,
    t: TypeId,
) -> Result<(), ReadError>
    ensures handlers { Leads result (each (at_entry (λ path. class_handler_at path programs.now t) list.entry.path.now) 0 (named_of signals.old.handlers) (items_view list.entry.items.now)) (named_of signals.new.handlers) }
    ensures signals { signals.new.signals ≡ signals.old.signals }
{
    let named = names_of(list.alloc, signals.own_handlers(t))?;
    let reader = ClassHandlerEntries { programs, t };
    // The draft owns the table meanwhile, which is put back even if an entry is at fault.
    let mut draft = HandlerDraft {
        signals: mem::replace(signals, SignalTable::new(list.alloc)),
        named,
    };
    let read = read_each(&reader, list, &mut draft);
    *signals = draft.signals;
    read
}

// Reads the class handlers of a class from its entry.
#[tactic(auto, unfolding(definition_format::specs::Denoted::ClassHandlers::class_handlers_at))]
pub(crate) fn give_class_handlers(
    part: Part<'_>,
    programs: &ProgramNames<'_>,
    signals: &mut SignalTable,
    t: TypeId,
) -> Result<(), ReadError>
    ensures handlers { Leads result (class_handlers_at (path_of part.entry.path) programs.now t (named_of signals.old.handlers) (view part.entry.value.now)) (named_of signals.new.handlers) }
    ensures signals { signals.new.signals ≡ signals.old.signals }
{
    let items = part.entries("class-handlers")?;
    let path = path_under(part.alloc, part.path, "class-handlers")?;
    let list = Entries {
        alloc: part.alloc,
        path: path.as_str(),
        items,
    };
    read_class_handlers(list, programs, signals, t)?;
    Ok(())
}
