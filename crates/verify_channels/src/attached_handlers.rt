//! The handlers that objects themselves have, and their meanings.

ghost use Rattle.std.specs.Prelude.{◌≡◌, ◌++◌, ◌<◌, ◌∷◌, [], ℕ, Some, length, map, slice_get, IfOk, OnOk};
ghost use Rattle.ui_machine.specs.Definition.Lookups.{place_at};
ghost use Rattle.definition_format.specs.Meaning.{attached_view};
ghost use Rattle.law_typing.specs.Graph.{attached_for, attached_to};
ghost use Rattle.law_typing.specs.Graph.Channels.{of_class};
ghost use Rattle.law_typing.specs.Rules.RegisterKinds.{class_at};
ghost use Rattle.verify_graph.specs.ChannelView.{channel_of};
ghost use Rattle.verify_channels.specs.Attached.{AreAttached, handler_view, handlers_for};
ghost use Rattle.verify_channels.specs.Meanings.{attached_in, attached_meanings, meant, of_signal};

use crate::meanings::{Meaning, is_meant, meaning_of, signal_of};
use crate::signal_lists::SignalLists;
use definition_format::Attached;
use std::alloc::{AllocError, Global};
use type_tree::TypeId;
use ui_machine::{Channel, Place, ProgramId};
use verify_operands::Lookups;

/// A handler of an object, with the meaning of its signal and detail.
#[derive(Clone, Copy, Debug, Drop)]
pub struct AttachedHandler {
    pub program: ProgramId,
    pub meaning: Meaning,
}

// Adds a handler to those for its signal. One for a signal that the class does not have is left out.
fn add_handler(
    handlers: &mut SignalLists<AttachedHandler>,
    handler: AttachedHandler,
) -> Result<(), AllocError>
    ensures { OnOk result ((number : ℕ) → handlers_for handlers.new number ≡ handlers_for handlers.old number ++ of_signal number (handler_view handler ∷ [])) }
{
    let Some(signal) = handler.meaning.signal else {
        return Ok(());
    };
    handlers.push(signal, handler)
}

// Returns the handlers of an object of this class, by their signals.
fn handlers_in(
    alloc: Global,
    lookups: &Lookups<'_>,
    class: TypeId,
    signals: &[Attached],
) -> Result<SignalLists<AttachedHandler>, AllocError>
    ensures { IfOk result (λ handlers. (number : ℕ) → handlers_for handlers number ≡ of_signal number (attached_in lookups.now class (map attached_view signals.now))) }
{
    let mut handlers = SignalLists::new(alloc);
    for number in 0..signals.len() {
        let attached = &signals[number];
        let program = attached.program;
        let meaning = meaning_of(lookups, class, attached.signal.as_str(), &attached.detail);
        add_handler(&mut handlers, AttachedHandler { program, meaning })?;
    }
    Ok(handlers)
}

// Returns the handlers of a place, by their signals.
fn handlers_at(
    alloc: Global,
    lookups: &Lookups<'_>,
    place: Place,
) -> Result<SignalLists<AttachedHandler>, AllocError>
    ensures { IfOk result (λ handlers. (number : ℕ) → handlers_for handlers number ≡ of_signal number (attached_meanings lookups.now place.0)) }
{
    let Some(entry) = lookups.definition().object(usize::from(place.0)) else {
        return Ok(SignalLists::new(alloc));
    };
    handlers_in(alloc, lookups, entry.class, entry.signals)
}

/// Returns the handlers of each place, by their signals.
///
/// # Errors
///
/// `AllocError` if memory is refused.
pub fn attached_handlers(
    alloc: Global,
    lookups: &Lookups<'_>,
) -> Result<Vec<SignalLists<AttachedHandler>>, AllocError>
    ensures { IfOk result (λ lists. AreAttached lookups.now lists.items) }
{
    let mut lists = Vec::new(alloc);
    for place in 0..lookups.definition().place_count() {
        let handlers = handlers_at(alloc, lookups, Place(place as u16))?;
        lists.push(handlers)?;
    }
    Ok(lists)
}

// Returns the handler at an index of a slice.
fn handler_at(handlers: &[AttachedHandler], number: usize) -> AttachedHandler
    requires { number < length handlers.now }
    ensures { Some (handler_view result) ≡ slice_get (map handler_view handlers.now) number }
{
    handlers[number]
}

// Adds the program of a handler if it is for the channel.
fn add_program(
    programs: &mut Vec<ProgramId>,
    handler: &AttachedHandler,
    channel: &Channel,
) -> Result<(), AllocError>
    ensures { OnOk result (programs.new.items ≡ programs.old.items ++ meant (channel_of channel.now) (handler_view handler.now ∷ [])) }
{
    if !is_meant(channel, &handler.meaning) {
        return Ok(());
    }
    programs.push(handler.program)?;
    Ok(())
}

// Returns the programs of those handlers that are for a channel.
fn programs_for(
    alloc: Global,
    handlers: &[AttachedHandler],
    channel: &Channel,
) -> Result<Vec<ProgramId>, AllocError>
    ensures { IfOk result (λ programs. programs.items ≡ meant (channel_of channel.now) (map handler_view handlers.now)) }
{
    let mut programs = Vec::new(alloc);
    for number in 0..handlers.len() {
        add_program(&mut programs, &handler_at(handlers, number), channel)?;
    }
    Ok(programs)
}

/// Returns the programs that a channel's object names for it.
///
/// # Errors
///
/// `AllocError` if memory is refused.
pub fn attached_for(
    alloc: Global,
    lookups: &Lookups<'_>,
    lists: &[SignalLists<AttachedHandler>],
    channel: &Channel,
) -> Result<Vec<ProgramId>, AllocError>
    requires { AreAttached lookups.now lists.now }
    ensures { IfOk result (λ programs. programs.items ≡ of_class (attached_for lookups.now (channel_of channel.now)) (class_at lookups.now channel.now.place.0)) }
{
    let place = usize::from(channel.place.0);
    if place >= lists.len() {
        return Ok(Vec::new(alloc));
    }
    let handlers = lists[place].list(signal_of(channel));
    let programs = programs_for(alloc, handlers, channel)?;
    Ok(programs)
}
